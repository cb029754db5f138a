//! Big-endian numbers and runs of bytes, at the front of the bytes.

ghost use Rattle.std.specs.Int.{w16, w32, w64};
ghost use Rattle.std.specs.Option.{option_map};
ghost use Rattle.std.specs.Prelude.{◌≡◌, ◌++◌, OnOk};
ghost use Rattle.std.specs.Result.{result_ok};
ghost use Rattle.scw_classfile.specs.Codec.{read_byte, read_bytes, read_number};
ghost use Rattle.scw_classfile.specs.Pool.{two};
ghost use Rattle.scw_classfile.specs.Gives.{Gives};

use crate::class_rule::ClassRule;
use crate::fault::{Fault, ReadFault};
use std::alloc::AllocError;

/// The bytes end too early.
const CUT: ReadFault = ReadFault::Broken(Fault {
    rule: ClassRule::Cut,
    left: 0,
});

pub fn u1_at(bytes: &[u8]) -> Result<(u8, &[u8]), ReadFault>
    ensures { Gives (λ x. (x.0, x.1.now)) result (read_byte bytes.now) }
{
    match bytes {
        [] => Err(CUT),
        [first, rest @ ..] => Ok((*first, rest)),
    }
}

pub fn u2_at(bytes: &[u8]) -> Result<(u16, &[u8]), ReadFault>
    ensures { Gives (λ x. (x.0, x.1.now)) result (read_number w16 bytes.now) }
{
    if bytes.len() < 2 {
        return Err(CUT);
    }
    let (front, rest) = bytes.split_at(2);
    Ok((u16::from_be_bytes([front[0], front[1]]), rest))
}

/// The number of two bytes, where there are so many.
pub fn u2_front(bytes: &[u8]) -> Option<(u16, &[u8])>
    ensures { option_map (λ x. (x.0, x.1.now)) result ≡ result_ok (read_number w16 bytes.now) }
{
    if bytes.len() < 2 {
        return None;
    }
    let (front, rest) = bytes.split_at(2);
    Some((u16::from_be_bytes([front[0], front[1]]), rest))
}

/// The number of four bytes, where there are so many.
pub fn u4_front(bytes: &[u8]) -> Option<(u32, &[u8])>
    ensures { option_map (λ x. (x.0, x.1.now)) result ≡ result_ok (read_number w32 bytes.now) }
{
    if bytes.len() < 4 {
        return None;
    }
    let (front, rest) = bytes.split_at(4);
    let number = u32::from_be_bytes([front[0], front[1], front[2], front[3]]);
    Some((number, rest))
}

pub fn u4_at(bytes: &[u8]) -> Result<(u32, &[u8]), ReadFault>
    ensures { Gives (λ x. (x.0, x.1.now)) result (read_number w32 bytes.now) }
{
    if bytes.len() < 4 {
        return Err(CUT);
    }
    let (front, rest) = bytes.split_at(4);
    let number = u32::from_be_bytes([front[0], front[1], front[2], front[3]]);
    Ok((number, rest))
}

pub fn u8_at(bytes: &[u8]) -> Result<(u64, &[u8]), ReadFault>
    ensures { Gives (λ x. (x.0, x.1.now)) result (read_number w64 bytes.now) }
{
    if bytes.len() < 8 {
        return Err(CUT);
    }
    let (front, rest) = bytes.split_at(8);
    let number = u64::from_be_bytes([
        front[0], front[1], front[2], front[3], front[4], front[5], front[6], front[7],
    ]);
    Ok((number, rest))
}

pub fn bytes_at(n: usize, bytes: &[u8]) -> Result<(&[u8], &[u8]), ReadFault>
    ensures { Gives (λ x. (x.0.now, x.1.now)) result (read_bytes n bytes.now) }
{
    if bytes.len() < n {
        return Err(CUT);
    }
    Ok(bytes.split_at(n))
}

pub fn two_at(bytes: &[u8]) -> Result<((u16, u16), &[u8]), ReadFault>
    ensures { Gives (λ x. (x.0, x.1.now)) result (two.read bytes.now) }
{
    let (a, rest) = u2_at(bytes)?;
    let (b, rest) = u2_at(rest)?;
    Ok(((a, b), rest))
}

pub fn write_two(a: u16, b: u16, out: &mut Vec<u8>) -> Result<(), AllocError>
    ensures { OnOk result (out.new.items ≡ out.old.items ++ two.spell (a, b)) }
{
    out.extend_from_slice(&a.to_be_bytes())?;
    out.extend_from_slice(&b.to_be_bytes())
}
