//! Big-endian numbers at the front of the bytes, and at the end of what is written.

ghost use Rattle.std.specs.Int.{w16, w32};
ghost use Rattle.std.specs.Prelude.{◌≡◌, ◌++◌, IsTrue, OnOk};
ghost use Rattle.scw_code.specs.Codec.{byte, read_number, s1, s2, s4, u1, u2};
ghost use Rattle.scw_code.specs.Gives.{Gives};

use crate::fault::ReadFault;
use crate::site::Site;
use std::alloc::AllocError;

pub fn byte_at(site: Site, bytes: &[u8]) -> Result<(u8, &[u8]), ReadFault>
    ensures { Gives (λ x. (x.0, x.1.now)) result (byte.read site bytes.now) }
{
    match bytes {
        [] => Err(site.cut()),
        [first, rest @ ..] => Ok((*first, rest)),
    }
}

fn half_at(site: Site, bytes: &[u8]) -> Result<(u16, &[u8]), ReadFault>
    ensures { Gives (λ x. (x.0, x.1.now)) result (read_number w16 site bytes.now) }
{
    if bytes.len() < 2 {
        return Err(site.cut());
    }
    let (front, rest) = bytes.split_at(2);
    Ok((u16::from_be_bytes([front[0], front[1]]), rest))
}

fn word_at(site: Site, bytes: &[u8]) -> Result<(u32, &[u8]), ReadFault>
    ensures { Gives (λ x. (x.0, x.1.now)) result (read_number w32 site bytes.now) }
{
    if bytes.len() < 4 {
        return Err(site.cut());
    }
    let (front, rest) = bytes.split_at(4);
    let number = u32::from_be_bytes([front[0], front[1], front[2], front[3]]);
    Ok((number, rest))
}

/// A number of one byte, which isn't negative.
pub fn u1_at(site: Site, bytes: &[u8]) -> Result<(i32, &[u8]), ReadFault>
    ensures { Gives (λ x. (x.0, x.1.now)) result (u1.read site bytes.now) }
{
    let (n, rest) = byte_at(site, bytes)?;
    Ok((i32::from(n), rest))
}

/// A number of one byte with a sign.
pub fn s1_at(site: Site, bytes: &[u8]) -> Result<(i32, &[u8]), ReadFault>
    ensures { Gives (λ x. (x.0, x.1.now)) result (s1.read site bytes.now) }
{
    let (n, rest) = byte_at(site, bytes)?;
    Ok((i32::from(n.cast_signed()), rest))
}

/// A number of two bytes, which isn't negative.
pub fn u2_at(site: Site, bytes: &[u8]) -> Result<(i32, &[u8]), ReadFault>
    ensures { Gives (λ x. (x.0, x.1.now)) result (u2.read site bytes.now) }
{
    let (n, rest) = half_at(site, bytes)?;
    Ok((i32::from(n), rest))
}

/// A number of two bytes with a sign.
pub fn s2_at(site: Site, bytes: &[u8]) -> Result<(i32, &[u8]), ReadFault>
    ensures { Gives (λ x. (x.0, x.1.now)) result (s2.read site bytes.now) }
{
    let (n, rest) = half_at(site, bytes)?;
    Ok((i32::from(n.cast_signed()), rest))
}

/// A number of four bytes with a sign.
pub fn s4_at(site: Site, bytes: &[u8]) -> Result<(i32, &[u8]), ReadFault>
    ensures { Gives (λ x. (x.0, x.1.now)) result (s4.read site bytes.now) }
{
    let (n, rest) = word_at(site, bytes)?;
    Ok((n.cast_signed(), rest))
}

pub fn write_u1(n: i32, out: &mut Vec<u8>) -> Result<(), AllocError>
    requires { IsTrue (u1.fits n) }
    ensures { OnOk result (out.new.items ≡ out.old.items ++ u1.spell n) }
{
    out.push(n as u8)?;
    Ok(())
}

pub fn write_s1(n: i32, out: &mut Vec<u8>) -> Result<(), AllocError>
    requires { IsTrue (s1.fits n) }
    ensures { OnOk result (out.new.items ≡ out.old.items ++ s1.spell n) }
{
    let small = n as i8;
    out.push(small.cast_unsigned())?;
    Ok(())
}

pub fn write_u2(n: i32, out: &mut Vec<u8>) -> Result<(), AllocError>
    requires { IsTrue (u2.fits n) }
    ensures { OnOk result (out.new.items ≡ out.old.items ++ u2.spell n) }
{
    let half = n as u16;
    out.extend_from_slice(&half.to_be_bytes())
}

pub fn write_s2(n: i32, out: &mut Vec<u8>) -> Result<(), AllocError>
    requires { IsTrue (s2.fits n) }
    ensures { OnOk result (out.new.items ≡ out.old.items ++ s2.spell n) }
{
    let half = n as i16;
    out.extend_from_slice(&half.to_be_bytes())
}

pub fn write_s4(n: i32, out: &mut Vec<u8>) -> Result<(), AllocError>
    ensures { OnOk result (out.new.items ≡ out.old.items ++ s4.spell n) }
{
    out.extend_from_slice(&n.to_be_bytes())
}
