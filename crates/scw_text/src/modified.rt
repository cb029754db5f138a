//! Modified UTF-8, the encoding of the texts of class files: JVMS 4.4.7.

ghost use Rattle.std.specs.Prelude.{◌≡◌, ◌<◌, ◌++◌, List, ℕ, IfOk, OnOk};
ghost use Rattle.std.specs.Result.{result_map_both};
ghost use Rattle.scw_text.specs.Modified.{is_continuation, modified, second_of_three, second_of_two, third_of_three, unit_at, unit_bytes, units_of};
ghost use Rattle.scw_text.specs.ReadModified.{AreUnits, IsFaultIfBad, IsOkOrNoMemory, Reads};

use crate::memory::NoMemory;
use crate::text::{Bytes, Units};
use sqlite_items::Items;
use std::alloc::{AllocError, Global};

/// Why bytes are not read as modified UTF-8.
#[derive(Clone, Copy, Debug, PartialEq, Eq)]
pub enum ModifiedFault {
    /// The bytes are no text (JVMS 4.4.7).
    Bad {
        /// How many bytes stand before the first that no text goes on with, or the largest `u32` if there are more.
        place: u32,
    },
    /// Memory ran out.
    NoMemory,
}

impl From<AllocError> for ModifiedFault {
    ghost use Rattle.scw_text.specs.declared.modified.ModifiedFault.TheVariants as modified_fault;

    ghost from_gives = { λ _ e. e ≡ modified_fault.NoMemory };

    fn from(_: AllocError) -> ModifiedFault {
        ModifiedFault::NoMemory
    }
}

/// The bytes of a text in modified UTF-8 (JVMS 4.4.7).
///
/// # Errors
///
/// `NoMemory` where memory runs out.
pub fn to_modified(alloc: Global, units: &[u16]) -> Result<Bytes, NoMemory>
    ensures { IfOk result (λ bytes. bytes ≡ modified units.now) }
{
    let mut bytes = Vec::new(alloc);
    write_modified(units, &mut bytes)?;
    Ok(Items::from_vec(bytes))
}

/// Writes a text in modified UTF-8 behind what is written (JVMS 4.4.7).
///
/// # Errors
///
/// `AllocError` where memory runs out.
pub fn write_modified(units: &[u16], out: &mut Vec<u8>) -> Result<(), AllocError>
    ensures { OnOk result (out.new.items ≡ out.old.items ++ modified units.now) }
{
    for unit in units {
        write_unit(*unit, out)?;
    }
    Ok(())
}

#[tactic(auto, unfolding(crate::specs::Modified::unit_bytes))]
fn write_unit(unit: u16, out: &mut Vec<u8>) -> Result<(), AllocError>
    ensures { OnOk result (out.new.items ≡ out.old.items ++ unit_bytes unit) }
{
    let last = 0x80 + (unit % 64) as u8;
    if 0 < unit && unit < 0x80 {
        out.extend_from_slice(&[unit as u8])
    } else if unit < 0x800 {
        out.extend_from_slice(&[0xc0 + (unit / 64) as u8, last])
    } else {
        out.extend_from_slice(&[
            0xe0 + (unit / 4096) as u8,
            0x80 + (unit / 64 % 64) as u8,
            last,
        ])
    }
}

/// The text that the bytes are in modified UTF-8, read to their end (JVMS 4.4.7).
///
/// # Errors
///
/// `Bad` where the bytes are no text, and `NoMemory` where memory runs out.
pub fn from_modified(alloc: Global, bytes: &[u8]) -> Result<Units, ModifiedFault>
    ensures read { Reads result (units_of bytes.now) }
    ensures ok { IfOk result (λ units. AreUnits units × (modified units ≡ bytes.now)) }
    ensures again { (units : List ℕ) → AreUnits units → bytes.now ≡ modified units → IsOkOrNoMemory result units }
    ensures bad { IsFaultIfBad result bytes.now }
{
    let mut units = Items::new(alloc);
    let mut rest = bytes;
    while !rest.is_empty() {
        match unit_at(rest) {
            Ok((unit, after)) => {
                units.push(unit)?;
                rest = after;
            }
            Err(begun) => {
                let place = bytes.len() - rest.len() + begun;
                return Err(ModifiedFault::Bad {
                    place: place.min(u32::MAX as usize) as u32,
                });
            }
        }
    }
    Ok(units)
}

/// Whether the byte is one that goes on with a unit or a character.
pub fn is_continuation(b: u8) -> bool
    ensures { result ≡ is_continuation b }
{
    0x80 <= b && b < 0xc0
}

/// The unit that the bytes begin with and the bytes after it, or how many of them begin one.
#[tactic(auto, unfolding(crate::specs::Modified::unit_at))]
fn unit_at(bytes: &[u8]) -> Result<(u16, &[u8]), usize>
    ensures { result_map_both (λ x. (x.0, x.1.now)) (λ k. k) result ≡ unit_at bytes.now }
{
    let [b, rest @ ..] = bytes else {
        return Err(0);
    };
    if 0 < *b && *b < 0x80 {
        Ok((u16::from(*b), rest))
    } else if 0xc0 <= *b && *b < 0xe0 && *b != 0xc1 {
        second_of_two(u16::from(*b - 0xc0), rest)
    } else if 0xe0 <= *b && *b < 0xf0 {
        second_of_three(u16::from(*b - 0xe0), rest)
    } else {
        Err(0)
    }
}

/// The unit of two bytes whose second byte these begin with.
fn second_of_two(high: u16, bytes: &[u8]) -> Result<(u16, &[u8]), usize>
    requires { high < 32 }
    ensures { result_map_both (λ x. (x.0, x.1.now)) (λ k. k) result ≡ second_of_two high bytes.now }
{
    match bytes {
        [b, rest @ ..] if is_continuation(*b) => {
            let unit = high * 64 + u16::from(*b - 0x80);
            if unit == 0 || 0x80 <= unit {
                Ok((unit, rest))
            } else {
                Err(1)
            }
        }
        [] | [_, ..] => Err(1),
    }
}

/// The unit of three bytes whose second byte these begin with.
fn second_of_three(high: u16, bytes: &[u8]) -> Result<(u16, &[u8]), usize>
    requires { high < 16 }
    ensures { result_map_both (λ x. (x.0, x.1.now)) (λ k. k) result ≡ second_of_three high bytes.now }
{
    match bytes {
        [b, rest @ ..] if is_continuation(*b) => {
            let high = high * 64 + u16::from(*b - 0x80);
            if 32 <= high {
                third_of_three(high, rest)
            } else {
                Err(1)
            }
        }
        [] | [_, ..] => Err(1),
    }
}

/// The unit of three bytes whose third byte these begin with.
fn third_of_three(high: u16, bytes: &[u8]) -> Result<(u16, &[u8]), usize>
    requires { high < 1024 }
    ensures { result_map_both (λ x. (x.0, x.1.now)) (λ k. k) result ≡ third_of_three high bytes.now }
{
    match bytes {
        [b, rest @ ..] if is_continuation(*b) => Ok((high * 64 + u16::from(*b - 0x80), rest)),
        [] | [_, ..] => Err(2),
    }
}
