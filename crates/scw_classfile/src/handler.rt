//! The exception table: JVMS 4.7.3.

ghost use Rattle.std.specs.Prelude.{◌≡◌, false, slice_index_or};
ghost use Rattle.scw_classfile.specs.Code.{guards, handler, handler_flaw, is_start};

use crate::class_file::Handler;
use crate::class_rule::ClassRule;
use crate::context::Context;
use crate::fault::{Flaw, ReadFault, judged};
use crate::field::{Field, Plain};
use crate::flaw::{first_of_two, unless};
use crate::index::{Expected, is_index};
use crate::number::{u2_at, write_two};
use std::alloc::{AllocError, Global};

/// Whether an opcode is at the place.
fn is_start(starts: &[bool], place: u16) -> bool
    ensures { result ≡ is_start starts.now place }
{
    let place = place as usize;
    if place < starts.len() {
        starts[place]
    } else {
        false
    }
}

/// Whether the handler guards instructions from one to before another or the end, and begins at one.
fn guards(starts: &[bool], h: Handler) -> bool
    ensures { result ≡ guards starts.now h }
{
    is_start(starts, h.from)
        && is_start(starts, h.at)
        && (is_start(starts, h.to) || h.to as usize == starts.len())
        && h.from < h.to
}

fn handler_flaw(context: Context<'_>, h: Handler) -> Option<Flaw>
    ensures { result ≡ handler_flaw context.entry.major context.entry.kinds.now context.entry.starts.now h }
{
    let catches = h.class == 0
        || is_index(
            context.major,
            context.kinds,
            Expected::Class,
            usize::from(h.class),
        );
    first_of_two(
        unless(guards(context.starts, h), ClassRule::Code, 0),
        unless(catches, ClassRule::Index, 6),
    )
}

impl Field<Plain> for Handler {
    ghost codec = { λ major kinds starts. handler major kinds starts };

    fn read<'b>(
        _alloc: Global,
        context: Context<'_>,
        bytes: &'b [u8],
    ) -> Result<(Handler, &'b [u8]), ReadFault> {
        let (from, rest) = u2_at(bytes)?;
        let (to, rest) = u2_at(rest)?;
        let (at, rest) = u2_at(rest)?;
        let (class, rest) = u2_at(rest)?;
        let handler = Handler {
            from,
            to,
            at,
            class,
        };
        judged(handler, rest, bytes.len(), handler_flaw(context, handler))
    }

    fn write(&self, out: &mut Vec<u8>) -> Result<(), AllocError> {
        write_two(self.from, self.to, out)?;
        write_two(self.at, self.class, out)
    }
}
