//! One instruction from the front of bytes (JVMS 6.5).

ghost use Rattle.std.specs.Prelude.{◌≡◌};
ghost use Rattle.scw_code.specs.Gives.{Gives};
ghost use Rattle.scw_code.specs.Instr.{args_of, read_instr, wide};
ghost use Rattle.scw_code.specs.Layout.{shape_at};

use crate::fault::ReadFault;
use crate::instr::{Instr, InstrArgs, Numbers};
use crate::layout::{Shape, shape_at, wide_layout_at};
use crate::number::byte_at;
use crate::site::Site;
use crate::switch::{lookup_at, table_at};
use sqlite_items::Boxed;
use std::alloc::Global;

/// The opcode behind `wide`, and its operands.
fn wide_at(site: Site, bytes: &[u8]) -> Result<((u8, Numbers), &[u8]), ReadFault>
    ensures { Gives (λ x. (x.0, x.1.now)) result (wide.read site bytes.now) }
{
    let (op, rest) = byte_at(site, bytes)?;
    match wide_layout_at(op) {
        None => Err(site.bad_widened(op)),
        Some(layout) => {
            let (args, rest) = layout.read(site, rest)?;
            Ok(((op, args), rest))
        }
    }
}

/// What stands behind the opcode.
fn args_at<'b>(
    alloc: Global,
    site: Site,
    op: u8,
    bytes: &'b [u8],
) -> Result<(InstrArgs, &'b [u8]), ReadFault>
    ensures { Gives (λ x. (x.0, x.1.now)) result ((args_of site.at op (shape_at op)).read site bytes.now) }
{
    match shape_at(op) {
        None => Err(site.bad_opcode(op)),
        Some(Shape::Plain(layout)) => {
            let (numbers, rest) = layout.read(site, bytes)?;
            Ok((InstrArgs::Plain(numbers), rest))
        }
        Some(Shape::Table) => {
            let (table, rest) = table_at(alloc, site, bytes)?;
            Ok((InstrArgs::Table(Boxed::new(alloc, table)?), rest))
        }
        Some(Shape::Lookup) => {
            let (lookup, rest) = lookup_at(alloc, site, bytes)?;
            Ok((InstrArgs::Lookup(Boxed::new(alloc, lookup)?), rest))
        }
        Some(Shape::Wide) => {
            let ((op, args), rest) = wide_at(site, bytes)?;
            Ok((InstrArgs::Wide { op, args }, rest))
        }
    }
}

/// The instruction that the bytes begin with, which are the last ones of a code of `end` bytes, and the
/// bytes after it.
#[tactic(auto, unfolding(crate::specs::Instr::read_instr))]
pub fn instr_at<'b>(
    alloc: Global,
    end: usize,
    bytes: &'b [u8],
) -> Result<(Instr, &'b [u8]), ReadFault>
    ensures { Gives (λ x. (x.0, x.1.now)) result (read_instr end bytes.now) }
{
    let site = Site {
        at: end.saturating_sub(bytes.len()),
        end,
    };
    let (op, rest) = byte_at(site, bytes)?;
    let (args, rest) = args_at(alloc, site, op, rest)?;
    Ok((Instr { op, args }, rest))
}
