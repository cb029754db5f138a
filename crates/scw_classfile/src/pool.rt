//! The constant pool: JVMS 4.4.

ghost use Rattle.std.specs.List.{flat_map, list_all};
ghost use Rattle.std.specs.Prelude.{◌≡◌, ◌<◌, ◌^◌, ◌++◌, length, ℕ, false, List, IsTrue, OnOk, IfOk};
ghost use Rattle.scw_classfile.specs.Codec.{parsed, read_flagged};
ghost use Rattle.scw_classfile.specs.Kinds.{kinds_of};
ghost use Rattle.scw_classfile.specs.TextFault.{text_fault};
ghost use Rattle.scw_classfile.specs.Gives.{Gives};
ghost use Rattle.scw_classfile.specs.Pool.{entries, entry_bytes, handle, info_of, place, place_counts, pool, pool_count, read_entry, read_info, read_tagged, read_text, tag_named, tag_of, takes_two, text, two, units, is_wide_entry};

use crate::class_file::Pool;
use crate::class_rule::ClassRule;
use crate::fault::{Fault, ReadFault};
use crate::kind::kinds_of;
use crate::number::{bytes_at, two_at, u1_at, u2_at, u4_at, u8_at, write_two};
use crate::pool_entry::{EntryKind, PoolEntry};
use crate::pool_flaw::entries_fault;
use crate::tag::Tag;
use scw_text::{ModifiedFault, Units, from_modified, write_modified};
use sqlite_items::Items;
use std::alloc::{AllocError, Global};

/// The text in so many bytes, which begin where `left` are left (JVMS 4.4.7).
fn units_in(alloc: Global, left: usize, front: &[u8]) -> Result<Units, ReadFault>
    requires { length front.now < 2 ^ 16 }
    ensures { (rest : List ℕ) → Gives (λ units. (units, rest)) result (parsed left rest (units.parse front.now)) }
{
    match from_modified(alloc, front) {
        Ok(units) => Ok(units),
        Err(fault) => Err(text_fault(left, fault)),
    }
}

/// The fault of a text that begins where `left` bytes are left.
fn text_fault(left: usize, fault: ModifiedFault) -> ReadFault
    ensures { result ≡ text_fault left fault }
{
    match fault {
        ModifiedFault::Bad { place } => ReadFault::Broken(Fault {
            rule: ClassRule::Utf8,
            left: left.saturating_sub(place as usize),
        }),
        ModifiedFault::NoMemory => ReadFault::NoMemory,
    }
}

/// `length u2, bytes` (JVMS 4.4.7).
fn text_at(alloc: Global, bytes: &[u8]) -> Result<(Units, &[u8]), ReadFault>
    ensures { Gives (λ x. (x.0, x.1.now)) result (text.read bytes.now) }
{
    let (count, rest) = u2_at(bytes)?;
    text_of(alloc, count, rest)
}

/// The text in the first `count` bytes, and the bytes after it.
fn text_of(alloc: Global, count: u16, bytes: &[u8]) -> Result<(Units, &[u8]), ReadFault>
    ensures { Gives (λ x. (x.0, x.1.now)) result (read_text count bytes.now) }
{
    let (front, rest) = bytes_at(count as usize, bytes)?;
    let units = units_in(alloc, bytes.len(), front)?;
    Ok((units, rest))
}

fn handle_at(bytes: &[u8]) -> Result<((u8, u16), &[u8]), ReadFault>
    ensures { Gives (λ x. (x.0, x.1.now)) result (handle.read bytes.now) }
{
    let (kind, rest) = u1_at(bytes)?;
    let (index, rest) = u2_at(rest)?;
    Ok(((kind, index), rest))
}

/// What stands behind the tag (JVMS 4.4.1 to 4.4.10).
fn info_at(alloc: Global, tag: Tag, bytes: &[u8]) -> Result<(PoolEntry, &[u8]), ReadFault>
    ensures { Gives (λ x. (x.0, x.1.now)) result (read_info tag bytes.now) }
{
    match tag {
        Tag::Utf8 => text_at(alloc, bytes).map(|(units, rest)| (PoolEntry::Utf8(units), rest)),
        Tag::Integer => u4_at(bytes).map(|(n, rest)| (PoolEntry::Integer(n), rest)),
        Tag::Float => u4_at(bytes).map(|(n, rest)| (PoolEntry::Float(n), rest)),
        Tag::Long => u8_at(bytes).map(|(n, rest)| (PoolEntry::Long(n), rest)),
        Tag::Double => u8_at(bytes).map(|(n, rest)| (PoolEntry::Double(n), rest)),
        Tag::Class => u2_at(bytes).map(|(n, rest)| (PoolEntry::Class(n), rest)),
        Tag::Str => u2_at(bytes).map(|(n, rest)| (PoolEntry::Str(n), rest)),
        Tag::MethodType => u2_at(bytes).map(|(n, rest)| (PoolEntry::MethodType(n), rest)),
        Tag::Fieldref => two_at(bytes).map(|((c, n), rest)| (PoolEntry::Fieldref(c, n), rest)),
        Tag::Methodref => two_at(bytes).map(|((c, n), rest)| (PoolEntry::Methodref(c, n), rest)),
        Tag::InterfaceMethodref => {
            two_at(bytes).map(|((c, n), rest)| (PoolEntry::InterfaceMethodref(c, n), rest))
        }
        Tag::NameAndType => {
            two_at(bytes).map(|((n, d), rest)| (PoolEntry::NameAndType(n, d), rest))
        }
        Tag::InvokeDynamic => {
            two_at(bytes).map(|((b, n), rest)| (PoolEntry::InvokeDynamic(b, n), rest))
        }
        Tag::MethodHandle => {
            handle_at(bytes).map(|((kind, n), rest)| (PoolEntry::MethodHandle(kind, n), rest))
        }
    }
}

/// The entry whose tag was read, where so many places follow.
fn tagged_at<'b>(
    alloc: Global,
    follow: u16,
    left: usize,
    tag: Option<Tag>,
    bytes: &'b [u8],
) -> Result<(PoolEntry, &'b [u8]), ReadFault>
    ensures { (from : List ℕ) → length from ≡ left → Gives (λ x. (x.0, x.1.now)) result (read_tagged follow from tag bytes.now) }
{
    match tag {
        Some(tag) if !(tag.is_wide() && follow == 0) => info_at(alloc, tag, bytes),
        Some(_) | None => Err(ReadFault::Broken(Fault {
            rule: ClassRule::Tag,
            left,
        })),
    }
}

/// An entry where so many places follow.
fn entry_at(alloc: Global, follow: u16, bytes: &[u8]) -> Result<(PoolEntry, &[u8]), ReadFault>
    ensures { Gives (λ x. (x.0, x.1.now)) result (read_entry follow bytes.now) }
{
    let (number, rest) = u1_at(bytes)?;
    tagged_at(alloc, follow, bytes.len(), Tag::named(number), rest)
}

impl PoolEntry {
    /// The tag, which the second place of a number hasn't (JVMS table 4.4-A).
    fn tag(&self) -> Option<Tag>
        ensures { result ≡ tag_of self.now }
    {
        match self {
            PoolEntry::Utf8(_) => Some(Tag::Utf8),
            PoolEntry::Integer(_) => Some(Tag::Integer),
            PoolEntry::Float(_) => Some(Tag::Float),
            PoolEntry::Long(_) => Some(Tag::Long),
            PoolEntry::Double(_) => Some(Tag::Double),
            PoolEntry::Class(_) => Some(Tag::Class),
            PoolEntry::Str(_) => Some(Tag::Str),
            PoolEntry::MethodType(_) => Some(Tag::MethodType),
            PoolEntry::Fieldref(_, _) => Some(Tag::Fieldref),
            PoolEntry::Methodref(_, _) => Some(Tag::Methodref),
            PoolEntry::InterfaceMethodref(_, _) => Some(Tag::InterfaceMethodref),
            PoolEntry::NameAndType(_, _) => Some(Tag::NameAndType),
            PoolEntry::InvokeDynamic(_, _) => Some(Tag::InvokeDynamic),
            PoolEntry::MethodHandle(_, _) => Some(Tag::MethodHandle),
            PoolEntry::Second => None,
        }
    }

    /// Whether the entry takes two places (JVMS 4.4.5).
    pub fn is_wide(&self) -> bool
        ensures { result ≡ is_wide_entry self.now }
    {
        matches!(self, PoolEntry::Long(_) | PoolEntry::Double(_))
    }
}

/// An entry where so many places follow, or the second place of the entry before.
fn place_at(
    alloc: Global,
    second: bool,
    follow: u16,
    bytes: &[u8],
) -> Result<(PoolEntry, &[u8]), ReadFault>
    ensures { Gives (λ x. (x.0, x.1.now)) result ((place second follow).read bytes.now) }
{
    if second {
        Ok((PoolEntry::Second, bytes))
    } else {
        entry_at(alloc, follow, bytes)
    }
}

/// So many places.
fn places_at(alloc: Global, count: u16, bytes: &[u8]) -> Result<(Pool, &[u8]), ReadFault>
    ensures { Gives (λ x. (x.0, x.1.now)) result (read_flagged place takes_two false count bytes.now) }
{
    let mut entries = Items::new(alloc);
    let mut rest = bytes;
    let mut second = false;
    for i in 0..count {
        let (entry, after) = place_at(alloc, second, count - (i + 1), rest)?;
        second = entry.is_wide();
        entries.push(entry)?;
        rest = after;
    }
    Ok((entries, rest))
}

/// `constant_pool_count` less 1 (JVMS 4.1).
fn pool_count_at(bytes: &[u8]) -> Result<(u16, &[u8]), ReadFault>
    ensures { Gives (λ x. (x.0, x.1.now)) result (pool_count.read bytes.now) }
{
    let (count, rest) = u2_at(bytes)?;
    if count == 0 {
        return Err(ReadFault::Broken(Fault {
            rule: ClassRule::Tag,
            left: bytes.len(),
        }));
    }
    Ok((count - 1, rest))
}

/// The pool's count and its entries, whose indices aren't judged yet (JVMS 4.1).
fn entries_at(alloc: Global, bytes: &[u8]) -> Result<(Pool, &[u8]), ReadFault>
    ensures { Gives (λ x. (x.0, x.1.now)) result (entries.read bytes.now) }
{
    let (count, rest) = pool_count_at(bytes)?;
    places_at(alloc, count, rest)
}

fn write_text(units: &[u16], out: &mut Vec<u8>) -> Result<(), AllocError>
    requires { IsTrue (text.counts units.now) }
    ensures { OnOk result (out.new.items ≡ out.old.items ++ text.spell units.now) }
{
    let mut bytes = Vec::new(*out.allocator());
    write_modified(units, &mut bytes)?;
    let count = bytes.len() as u16;
    out.extend_from_slice(&count.to_be_bytes())?;
    out.extend_from_slice(&bytes)
}

fn write_handle(kind: u8, index: u16, out: &mut Vec<u8>) -> Result<(), AllocError>
    ensures { OnOk result (out.new.items ≡ out.old.items ++ handle.spell (kind, index)) }
{
    out.extend_from_slice(&[kind])?;
    out.extend_from_slice(&index.to_be_bytes())
}

/// What stands behind the tag.
fn write_info(entry: &PoolEntry, out: &mut Vec<u8>) -> Result<(), AllocError>
    requires { IsTrue (place_counts entry.now) }
    ensures { OnOk result (out.new.items ≡ out.old.items ++ info_of entry.now) }
{
    match entry {
        PoolEntry::Utf8(units) => write_text(units.as_slice(), out),
        PoolEntry::Integer(n) | PoolEntry::Float(n) => out.extend_from_slice(&n.to_be_bytes()),
        PoolEntry::Long(n) | PoolEntry::Double(n) => out.extend_from_slice(&n.to_be_bytes()),
        PoolEntry::Class(n) | PoolEntry::Str(n) | PoolEntry::MethodType(n) => {
            out.extend_from_slice(&n.to_be_bytes())
        }
        PoolEntry::Fieldref(c, n)
        | PoolEntry::Methodref(c, n)
        | PoolEntry::InterfaceMethodref(c, n)
        | PoolEntry::NameAndType(c, n)
        | PoolEntry::InvokeDynamic(c, n) => write_two(*c, *n, out),
        PoolEntry::MethodHandle(kind, n) => write_handle(*kind, *n, out),
        PoolEntry::Second => Ok(()),
    }
}

/// The pool of a file of this major version, and the kinds of its entries (JVMS 4.4).
///
/// Its entries are delimited first, and then its indices are judged.
pub fn pool_at(
    alloc: Global,
    major: u16,
    bytes: &[u8],
) -> Result<((Pool, Vec<EntryKind>), &[u8]), ReadFault>
    ensures read { Gives (λ x. (x.0.0, x.1.now)) result ((pool major).read bytes.now) }
    ensures kinds { IfOk result (λ x. x.0.1.items ≡ kinds_of x.0.0) }
{
    let (entries, rest) = entries_at(alloc, bytes)?;
    let kinds = kinds_of(alloc, entries.as_slice())?;
    match entries_fault(major, &kinds, entries.as_slice(), bytes.len()) {
        Some(fault) => Err(ReadFault::Broken(fault)),
        None => Ok(((entries, kinds), rest)),
    }
}

/// Writes an entry (JVMS 4.4).
#[tactic(auto, unfolding(crate::specs::Pool::entry_bytes))]
fn write_entry(entry: &PoolEntry, out: &mut Vec<u8>) -> Result<(), AllocError>
    requires { IsTrue (place_counts entry.now) }
    ensures { OnOk result (out.new.items ≡ out.old.items ++ entry_bytes entry.now) }
{
    if let Some(tag) = entry.tag() {
        out.extend_from_slice(&[tag.number()])?;
    }
    write_info(entry, out)
}

/// The entries, one after another.
fn write_places(entries: &[PoolEntry], out: &mut Vec<u8>) -> Result<(), AllocError>
    requires { IsTrue (list_all place_counts entries.now) }
    ensures { OnOk result (out.new.items ≡ out.old.items ++ flat_map entry_bytes entries.now) }
{
    for entry in entries {
        write_entry(entry, out)?;
    }
    Ok(())
}

/// The pool's count and its entries (JVMS 4.1).
pub fn write_pool(pool: &[PoolEntry], out: &mut Vec<u8>) -> Result<(), AllocError>
    requires { IsTrue (entries.counts pool.now) }
    ensures { OnOk result (out.new.items ≡ out.old.items ++ entries.spell pool.now) }
{
    let count = pool.len() as u16 + 1;
    out.extend_from_slice(&count.to_be_bytes())?;
    write_places(pool, out)
}
