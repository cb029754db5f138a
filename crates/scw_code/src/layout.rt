//! The operands behind an opcode, as numbers of one, two or four bytes.

ghost use Rattle.std.specs.Prelude.{◌≡◌, ◌++◌, IsTrue, OnOk};
ghost use Rattle.scw_code.specs.Codec.{s1, s2, u1, u2};
ghost use Rattle.scw_code.specs.Gives.{Gives};
ghost use Rattle.scw_code.specs.Layout.{numbers, shape_at, three, two, wide_layout_at};

use crate::fault::ReadFault;
use crate::instr::Numbers;
use crate::number::{
    s1_at, s2_at, s4_at, u1_at, u2_at, write_s1, write_s2, write_s4, write_u1, write_u2,
};
use crate::opcode::form_of;
use crate::site::Site;
use std::alloc::AllocError;

/// The numbers of a list of operands, in order: `U` unsigned and `S` signed, with the bytes of each.
#[derive(Clone, Copy, Debug, PartialEq, Eq)]
pub enum Layout {
    Nothing,
    U1,
    S1,
    U2,
    S2,
    S4,
    U1S1,
    U2S2,
    U2U1,
    U2U1U1,
}

/// What stands behind an opcode.
#[derive(Clone, Copy, Debug, PartialEq, Eq)]
pub enum Shape {
    /// Numbers alone.
    Plain(Layout),
    /// What stands behind `tableswitch`.
    Table,
    /// What stands behind `lookupswitch`.
    Lookup,
    /// A further opcode, whose operands are wider.
    Wide,
}

/// What stands behind the opcode, or none where there is no such opcode.
pub fn shape_at(opcode: u8) -> Option<Shape>
    ensures { result ≡ shape_at opcode }
{
    Some(form_of(opcode)?.shape())
}

/// The operands behind `wide` and the opcode, or none where `wide` doesn't go on with it.
pub fn wide_layout_at(opcode: u8) -> Option<Layout>
    ensures { result ≡ wide_layout_at opcode }
{
    form_of(opcode)?.wide_layout()
}

fn u1s1_at(site: Site, bytes: &[u8]) -> Result<(Numbers, &[u8]), ReadFault>
    ensures { Gives (λ x. (x.0, x.1.now)) result ((two u1 s1).read site bytes.now) }
{
    let (a, rest) = u1_at(site, bytes)?;
    let (b, rest) = s1_at(site, rest)?;
    Ok((Numbers::Two(a, b), rest))
}

fn u2s2_at(site: Site, bytes: &[u8]) -> Result<(Numbers, &[u8]), ReadFault>
    ensures { Gives (λ x. (x.0, x.1.now)) result ((two u2 s2).read site bytes.now) }
{
    let (a, rest) = u2_at(site, bytes)?;
    let (b, rest) = s2_at(site, rest)?;
    Ok((Numbers::Two(a, b), rest))
}

fn u2u1_at(site: Site, bytes: &[u8]) -> Result<(Numbers, &[u8]), ReadFault>
    ensures { Gives (λ x. (x.0, x.1.now)) result ((two u2 u1).read site bytes.now) }
{
    let (a, rest) = u2_at(site, bytes)?;
    let (b, rest) = u1_at(site, rest)?;
    Ok((Numbers::Two(a, b), rest))
}

fn u2u1u1_at(site: Site, bytes: &[u8]) -> Result<(Numbers, &[u8]), ReadFault>
    ensures { Gives (λ x. (x.0, x.1.now)) result ((three u2 u1 u1).read site bytes.now) }
{
    let (a, rest) = u2_at(site, bytes)?;
    let (b, rest) = u1_at(site, rest)?;
    let (c, rest) = u1_at(site, rest)?;
    Ok((Numbers::Three(a, b, c), rest))
}

impl Layout {
    /// The numbers that the bytes begin with, and the bytes after them.
    pub fn read(self, site: Site, bytes: &[u8]) -> Result<(Numbers, &[u8]), ReadFault>
        ensures { Gives (λ x. (x.0, x.1.now)) result ((numbers self).read site bytes.now) }
    {
        let (number, rest) = match self {
            Layout::Nothing => return Ok((Numbers::Zero, bytes)),
            Layout::U1S1 => return u1s1_at(site, bytes),
            Layout::U2S2 => return u2s2_at(site, bytes),
            Layout::U2U1 => return u2u1_at(site, bytes),
            Layout::U2U1U1 => return u2u1u1_at(site, bytes),
            Layout::U1 => u1_at(site, bytes)?,
            Layout::S1 => s1_at(site, bytes)?,
            Layout::U2 => u2_at(site, bytes)?,
            Layout::S2 => s2_at(site, bytes)?,
            Layout::S4 => s4_at(site, bytes)?,
        };
        Ok((Numbers::One(number), rest))
    }

    /// Writes the bytes of the numbers.
    pub fn write(self, ns: Numbers, out: &mut Vec<u8>) -> Result<(), AllocError>
        requires { IsTrue ((numbers self).fits ns) }
        ensures { OnOk result (out.new.items ≡ out.old.items ++ (numbers self).spell ns) }
    {
        match self {
            Layout::Nothing => Ok(()),
            Layout::U1 => write_u1(ns.first(), out),
            Layout::S1 => write_s1(ns.first(), out),
            Layout::U2 => write_u2(ns.first(), out),
            Layout::S2 => write_s2(ns.first(), out),
            Layout::S4 => write_s4(ns.first(), out),
            Layout::U1S1 => {
                write_u1(ns.first(), out)?;
                write_s1(ns.second(), out)
            }
            Layout::U2S2 => {
                write_u2(ns.first(), out)?;
                write_s2(ns.second(), out)
            }
            Layout::U2U1 => {
                write_u2(ns.first(), out)?;
                write_u1(ns.second(), out)
            }
            Layout::U2U1U1 => {
                write_u2(ns.first(), out)?;
                write_u1(ns.second(), out)?;
                write_u1(ns.third(), out)
            }
        }
    }
}
