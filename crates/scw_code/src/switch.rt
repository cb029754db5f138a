//! What stands behind `tableswitch` and `lookupswitch` (JVMS 6.5).

ghost use Rattle.std.specs.List.{flat_map, list_all};
ghost use Rattle.std.specs.Prelude.{◌≡◌, ◌++◌, IsTrue, None, OnOk, replicate, unsigned_abs};
ghost use Rattle.scw_code.specs.Codec.{padded, read_listed, read_zeros, s4};
ghost use Rattle.scw_code.specs.Gives.{Gives};
ghost use Rattle.scw_code.specs.Instr.{high_above, jumps, lookup, padding, pair, pair_count, pairs, ranged, rises, span, table};

use crate::fault::ReadFault;
use crate::instr::{LookupSwitch, TableSwitch};
use crate::number::{byte_at, s4_at, write_s4};
use crate::site::Site;
use sqlite_items::Items;
use std::alloc::{AllocError, Global};

/// How many zeros stand behind the opcode of a switch, so that its default is at a multiple of four.
pub fn padding(at: usize) -> usize
    ensures { result ≡ padding at }
{
    3 - at % 4
}

/// The bytes behind the padding.
fn skip_padding(site: Site, bytes: &[u8]) -> Result<&[u8], ReadFault>
    ensures { Gives (λ x. x.now) result (read_zeros site (padding site.at) bytes.now) }
{
    let mut rest = bytes;
    for _ in 0..padding(site.at) {
        let (byte, more) = byte_at(site, rest)?;
        if byte != 0 {
            return Err(site.bad_switch());
        }
        rest = more;
    }
    Ok(rest)
}

/// `high`, which isn't below `low`.
fn high_at(site: Site, low: i32, bytes: &[u8]) -> Result<(i32, &[u8]), ReadFault>
    ensures { Gives (λ x. (x.0, x.1.now)) result ((high_above low).read site bytes.now) }
{
    let (high, rest) = s4_at(site, bytes)?;
    if low <= high {
        Ok((high, rest))
    } else {
        Err(site.bad_switch())
    }
}

/// How many numbers there are from `low` to `high`.
fn span(low: i32, high: i32) -> u64
    ensures { result ≡ span low high }
{
    u64::from(high.abs_diff(low)) + 1
}

/// So many distances.
fn jumps_at<'b>(
    alloc: Global,
    site: Site,
    count: u64,
    bytes: &'b [u8],
) -> Result<(Items<i32>, &'b [u8]), ReadFault>
    ensures { Gives (λ x. (x.0, x.1.now)) result ((jumps count).read site bytes.now) }
{
    let mut jumps = Items::new(alloc);
    let mut rest = bytes;
    for _ in 0..count {
        let (jump, more) = s4_at(site, rest)?;
        jumps.push(jump)?;
        rest = more;
    }
    Ok((jumps, rest))
}

/// `low`, `high`, and a distance for each number between them.
fn ranged_at<'b>(
    alloc: Global,
    site: Site,
    bytes: &'b [u8],
) -> Result<((i32, (i32, Items<i32>)), &'b [u8]), ReadFault>
    ensures { Gives (λ x. (x.0, x.1.now)) result (ranged.read site bytes.now) }
{
    let (low, rest) = s4_at(site, bytes)?;
    let (high, rest) = high_at(site, low, rest)?;
    let (jumps, rest) = jumps_at(alloc, site, span(low, high), rest)?;
    Ok(((low, (high, jumps)), rest))
}

/// What stands behind `tableswitch`.
pub fn table_at<'b>(
    alloc: Global,
    site: Site,
    bytes: &'b [u8],
) -> Result<(TableSwitch, &'b [u8]), ReadFault>
    ensures { Gives (λ x. (x.0, x.1.now)) result ((padded (padding site.at) table).read site bytes.now) }
{
    let rest = skip_padding(site, bytes)?;
    let (default, rest) = s4_at(site, rest)?;
    let (ranged, rest) = ranged_at(alloc, site, rest)?;
    let (low, (high, jumps)) = ranged;
    let table = TableSwitch {
        default,
        low,
        high,
        jumps,
    };
    Ok((table, rest))
}

/// `npairs`, which isn't negative.
fn pair_count_at(site: Site, bytes: &[u8]) -> Result<(i32, &[u8]), ReadFault>
    ensures { Gives (λ x. (x.0, x.1.now)) result (pair_count.read site bytes.now) }
{
    let (count, rest) = s4_at(site, bytes)?;
    if count >= 0 {
        Ok((count, rest))
    } else {
        Err(site.bad_switch())
    }
}

/// A key and a distance.
fn pair_at(site: Site, bytes: &[u8]) -> Result<((i32, i32), &[u8]), ReadFault>
    ensures { Gives (λ x. (x.0, x.1.now)) result (pair.read site bytes.now) }
{
    let (key, rest) = s4_at(site, bytes)?;
    let (jump, rest) = s4_at(site, rest)?;
    Ok(((key, jump), rest))
}

/// Whether the key is above the one before it.
fn rises(before: Option<(i32, i32)>, next: (i32, i32)) -> bool
    ensures { result ≡ rises before next }
{
    match before {
        None => true,
        Some((key, _)) => key < next.0,
    }
}

/// So many pairs, whose keys rise.
fn pairs_at<'b>(
    alloc: Global,
    site: Site,
    count: u32,
    bytes: &'b [u8],
) -> Result<(Items<(i32, i32)>, &'b [u8]), ReadFault>
    ensures { Gives (λ x. (x.0, x.1.now)) result (read_listed rises pair None count site bytes.now) }
{
    let mut pairs = Items::new(alloc);
    let mut before = None;
    let mut rest = bytes;
    for _ in 0..count {
        let (pair, more) = pair_at(site, rest)?;
        if !rises(before, pair) {
            return Err(site.bad_switch());
        }
        pairs.push(pair)?;
        before = Some(pair);
        rest = more;
    }
    Ok((pairs, rest))
}

/// What stands behind `lookupswitch`.
pub fn lookup_at<'b>(
    alloc: Global,
    site: Site,
    bytes: &'b [u8],
) -> Result<(LookupSwitch, &'b [u8]), ReadFault>
    ensures { Gives (λ x. (x.0, x.1.now)) result ((padded (padding site.at) lookup).read site bytes.now) }
{
    let rest = skip_padding(site, bytes)?;
    let (default, rest) = s4_at(site, rest)?;
    let (count, rest) = pair_count_at(site, rest)?;
    let (pairs, rest) = pairs_at(alloc, site, count.unsigned_abs(), rest)?;
    Ok((LookupSwitch { default, pairs }, rest))
}

/// Writes so many zeros.
pub fn write_padding(count: usize, out: &mut Vec<u8>) -> Result<(), AllocError>
    ensures { OnOk result (out.new.items ≡ out.old.items ++ replicate count 0) }
{
    for _ in 0..count {
        out.push(0)?;
    }
    Ok(())
}

fn write_jumps(jumps: &[i32], out: &mut Vec<u8>) -> Result<(), AllocError>
    ensures { OnOk result (out.new.items ≡ out.old.items ++ flat_map s4.spell jumps.now) }
{
    for jump in jumps {
        write_s4(*jump, out)?;
    }
    Ok(())
}

fn write_ranged(t: &TableSwitch, out: &mut Vec<u8>) -> Result<(), AllocError>
    ensures { OnOk result (out.new.items ≡ out.old.items ++ ranged.spell (t.now.low, (t.now.high, t.now.jumps))) }
{
    write_s4(t.low, out)?;
    write_s4(t.high, out)?;
    write_jumps(t.jumps.as_slice(), out)
}

/// Writes what stands behind `tableswitch` and its padding.
pub fn write_table(t: &TableSwitch, out: &mut Vec<u8>) -> Result<(), AllocError>
    ensures { OnOk result (out.new.items ≡ out.old.items ++ table.spell t.now) }
{
    write_s4(t.default, out)?;
    write_ranged(t, out)
}

fn write_pair(p: (i32, i32), out: &mut Vec<u8>) -> Result<(), AllocError>
    ensures { OnOk result (out.new.items ≡ out.old.items ++ pair.spell p) }
{
    write_s4(p.0, out)?;
    write_s4(p.1, out)
}

fn write_each_pair(pairs: &[(i32, i32)], out: &mut Vec<u8>) -> Result<(), AllocError>
    ensures { OnOk result (out.new.items ≡ out.old.items ++ flat_map pair.spell pairs.now) }
{
    for pair in pairs {
        write_pair(*pair, out)?;
    }
    Ok(())
}

/// Writes what stands behind `lookupswitch` and its padding.
pub fn write_lookup(t: &LookupSwitch, out: &mut Vec<u8>) -> Result<(), AllocError>
    requires { IsTrue (lookup.fits t.now) }
    ensures { OnOk result (out.new.items ≡ out.old.items ++ lookup.spell t.now) }
{
    write_s4(t.default, out)?;
    write_s4(t.pairs.len() as i32, out)?;
    write_each_pair(t.pairs.as_slice(), out)
}
