//! Indices in pool entries, each of which names an entry of the kind that may stand there: JVMS 4.4.

ghost use Rattle.std.specs.List.{flat_map};
ghost use Rattle.std.specs.Prelude.{◌≡◌, ◌<◌, ◌^◌, length};
ghost use Rattle.std.specs.Option.{option_map};
ghost use Rattle.scw_text.specs.Modified.{modified, unit_bytes};
ghost use Rattle.scw_classfile.specs.Codec.{fault_in};
ghost use Rattle.scw_classfile.specs.Kinds.{test_of};
ghost use Rattle.scw_classfile.specs.Pool.{entries_flaw, entry_bytes, entry_flaw, handle_flaw, handle_lets, member_flaw};

use crate::class_rule::ClassRule;
use crate::fault::{Fault, Flaw};
use crate::flaw::{first_of_two, unless};
use crate::index::{Expected, TextTest, index_flaw, kind_at, text_flaw, type_flaw};
use crate::pool_entry::{EntryKind, PoolEntry};

/// Whether a method handle of the kind may name the entry (JVMS 4.4.8).
fn handle_lets(major: u16, kind: u8, entry: EntryKind) -> bool
    ensures { result ≡ handle_lets major kind entry }
{
    match kind {
        0..=4 => matches!(entry, EntryKind::Fieldref),
        9 => matches!(entry, EntryKind::InterfaceMethodref),
        6 | 7 => Expected::DirectMethodref.lets(major, entry),
        _ => matches!(entry, EntryKind::Methodref),
    }
}

/// A method handle (JVMS 4.4.8).
fn handle_flaw(major: u16, kinds: &[EntryKind], kind: u8, n: u16) -> Option<Flaw>
    ensures { result ≡ handle_flaw major kinds.now kind n }
{
    let names = match kind_at(kinds, usize::from(n)) {
        Some(entry) => handle_lets(major, kind, entry),
        None => false,
    };
    first_of_two(
        unless(0 < kind && kind < 10, ClassRule::Index, 1),
        unless(names, ClassRule::Index, 2),
    )
}

/// A field or a method of a class (JVMS 4.4.2).
fn member_flaw(major: u16, kinds: &[EntryKind], test: TextTest, class: u16, n: u16) -> Option<Flaw>
    ensures { result ≡ member_flaw major kinds.now (test_of test) class n }
{
    first_of_two(
        index_flaw(major, kinds, Expected::Class, class, 1),
        type_flaw(major, kinds, test, n, 3),
    )
}

/// The first index in the entry that names nothing of the kind that may stand there (JVMS 4.4).
fn entry_flaw(major: u16, kinds: &[EntryKind], entry: &PoolEntry) -> Option<Flaw>
    ensures { result ≡ entry_flaw major kinds.now entry.now }
{
    match entry {
        PoolEntry::Utf8(_)
        | PoolEntry::Integer(_)
        | PoolEntry::Float(_)
        | PoolEntry::Long(_)
        | PoolEntry::Double(_)
        | PoolEntry::Second => None,
        PoolEntry::Class(n) => text_flaw(major, kinds, TextTest::Class, *n, 1),
        PoolEntry::Str(n) => index_flaw(major, kinds, Expected::Text, *n, 1),
        PoolEntry::MethodType(n) => text_flaw(major, kinds, TextTest::Method, *n, 1),
        PoolEntry::Fieldref(c, n) => member_flaw(major, kinds, TextTest::Field, *c, *n),
        PoolEntry::Methodref(c, n) | PoolEntry::InterfaceMethodref(c, n) => {
            member_flaw(major, kinds, TextTest::Method, *c, *n)
        }
        PoolEntry::NameAndType(n, d) => first_of_two(
            index_flaw(major, kinds, Expected::Text, *n, 1),
            text_flaw(major, kinds, TextTest::Type, *d, 3),
        ),
        PoolEntry::InvokeDynamic(_, n) => type_flaw(major, kinds, TextTest::Method, *n, 3),
        PoolEntry::MethodHandle(kind, n) => handle_flaw(major, kinds, *kind, *n),
    }
}

/// How many bytes a unit takes in modified UTF-8 (JVMS 4.4.7).
#[tactic(auto, unfolding(scw_text::specs::Modified::unit_bytes))]
fn unit_size(unit: u16) -> usize
    ensures { result ≡ length (unit_bytes unit) }
{
    match unit {
        1..=0x7f => 1,
        0 | 0x80..=0x7ff => 2,
        _ => 3,
    }
}

/// How many bytes a text takes in modified UTF-8 (JVMS 4.4.7).
fn text_size(units: &[u16]) -> usize
    requires { length (modified units.now) < 2 ^ 64 }
    ensures { result ≡ length (modified units.now) }
{
    let mut size = 0;
    for unit in units {
        size += unit_size(*unit);
    }
    size
}

/// How many bytes an entry takes (JVMS 4.4).
#[tactic(auto, unfolding(crate::specs::Pool::entry_bytes))]
fn entry_size(entry: &PoolEntry) -> usize
    requires { length (entry_bytes entry.now) < 2 ^ 64 }
    ensures { result ≡ length (entry_bytes entry.now) }
{
    match entry {
        PoolEntry::Utf8(units) => 3 + text_size(units.as_slice()),
        PoolEntry::Second => 0,
        PoolEntry::Class(_) | PoolEntry::Str(_) | PoolEntry::MethodType(_) => 3,
        PoolEntry::MethodHandle(_, _) => 4,
        PoolEntry::Integer(_)
        | PoolEntry::Float(_)
        | PoolEntry::Fieldref(_, _)
        | PoolEntry::Methodref(_, _)
        | PoolEntry::InterfaceMethodref(_, _)
        | PoolEntry::NameAndType(_, _)
        | PoolEntry::InvokeDynamic(_, _) => 5,
        PoolEntry::Long(_) | PoolEntry::Double(_) => 9,
    }
}

/// How many bytes entries take.
fn entries_size(entries: &[PoolEntry]) -> usize
    requires { length (flat_map entry_bytes entries.now) < 2 ^ 64 }
    ensures { result ≡ length (flat_map entry_bytes entries.now) }
{
    let mut size = 0;
    for entry in entries {
        size += entry_size(entry);
    }
    size
}

/// The fault of the entries' indices, in a pool that begins where so many bytes are left.
///
/// An entry's place is looked for only where it has a flaw.
pub fn entries_fault(
    major: u16,
    kinds: &[EntryKind],
    entries: &[PoolEntry],
    left: usize,
) -> Option<Fault>
    requires { length (flat_map entry_bytes entries.now) < 2 ^ 64 }
    ensures { result ≡ option_map (fault_in left) (entries_flaw major kinds.now 2 entries.now) }
{
    for (i, entry) in entries.iter().enumerate() {
        match entry_flaw(major, kinds, entry) {
            Some(flaw) => {
                let before = left
                    .saturating_sub(2)
                    .saturating_sub(entries_size(&entries[..i]));
                return Some(flaw.in_part(before));
            }
            None => {}
        }
    }
    None
}
