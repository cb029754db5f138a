//! The texts that an index of the constant pool leads to (JVMS 4.4).

ghost use Rattle.std.specs.Option.{option_copied};
ghost use Rattle.std.specs.Prelude.{◌≡◌, ◌++◌, OnOk};
ghost use Rattle.scw_dis.specs.Entry.{class_at, constant_at, entry_at, entry_text, front, member_at, member_of, member_text, name_and_type_at, name_and_type_of, name_of, pair_text, text_at, units_of};

use crate::characters::{write_ascii, write_number, write_signed, write_units};
use scw_classfile::PoolEntry;
use sqlite_items::at;
use std::alloc::AllocError;

/// The entry with the index, which counts from 1.
fn entry_at(pool: &[PoolEntry], n: usize) -> Option<&PoolEntry>
    ensures { option_copied result ≡ entry_at pool.now n }
{
    if n == 0 { None } else { at(pool, n - 1) }
}

/// The units of the text at the index.
fn units_at(pool: &[PoolEntry], n: u16) -> &[u16]
    ensures { result.now ≡ units_of (entry_at pool.now n) }
{
    let Some(PoolEntry::Utf8(units)) = entry_at(pool, usize::from(n)) else {
        return &[];
    };
    units.as_slice()
}

/// The index of the name of the class at the index.
fn name_at(pool: &[PoolEntry], n: u16) -> u16
    ensures { result ≡ name_of (entry_at pool.now n) }
{
    let Some(PoolEntry::Class(name)) = entry_at(pool, usize::from(n)) else {
        return 0;
    };
    *name
}

/// The indices of the name and of the descriptor at the index.
fn name_and_type_at(pool: &[PoolEntry], n: u16) -> (u16, u16)
    ensures { result ≡ name_and_type_of (entry_at pool.now n) }
{
    let Some(PoolEntry::NameAndType(name, descriptor)) = entry_at(pool, usize::from(n)) else {
        return (0, 0);
    };
    (*name, *descriptor)
}

/// The indices of the class, and of the name and type, of the field or method at the index.
fn member_at(pool: &[PoolEntry], n: u16) -> (u16, u16)
    ensures { result ≡ member_of (entry_at pool.now n) }
{
    let Some(
        PoolEntry::Fieldref(class, member)
        | PoolEntry::Methodref(class, member)
        | PoolEntry::InterfaceMethodref(class, member),
    ) = entry_at(pool, usize::from(n)) else {
        return (0, 0);
    };
    (*class, *member)
}

/// Writes the text at the index.
pub fn write_text(pool: &[PoolEntry], n: u16, out: &mut Vec<char>) -> Result<(), AllocError>
    ensures { OnOk result (out.new.items ≡ out.old.items ++ text_at pool.now n) }
{
    write_units(units_at(pool, n), out)
}

/// Writes the name of the class at the index.
pub fn write_class_name(pool: &[PoolEntry], n: u16, out: &mut Vec<char>) -> Result<(), AllocError>
    ensures { OnOk result (out.new.items ≡ out.old.items ++ class_at pool.now n) }
{
    write_text(pool, name_at(pool, n), out)
}

/// Writes two texts, with a space between them.
pub fn write_pair(
    pool: &[PoolEntry],
    pair: (u16, u16),
    out: &mut Vec<char>,
) -> Result<(), AllocError>
    ensures { OnOk result (out.new.items ≡ out.old.items ++ pair_text pool.now pair) }
{
    write_text(pool, pair.0, out)?;
    write_ascii(b" ", out)?;
    write_text(pool, pair.1, out)
}

/// Writes the name and the descriptor at the index.
fn write_name_and_type(pool: &[PoolEntry], n: u16, out: &mut Vec<char>) -> Result<(), AllocError>
    ensures { OnOk result (out.new.items ≡ out.old.items ++ name_and_type_at pool.now n) }
{
    write_pair(pool, name_and_type_at(pool, n), out)
}

/// Writes the name of a class, and the name and the descriptor of a field or method of it.
fn write_member(
    pool: &[PoolEntry],
    member: (u16, u16),
    out: &mut Vec<char>,
) -> Result<(), AllocError>
    ensures { OnOk result (out.new.items ≡ out.old.items ++ member_text pool.now member) }
{
    write_class_name(pool, member.0, out)?;
    write_ascii(b" ", out)?;
    write_name_and_type(pool, member.1, out)
}

/// Writes a number, and a space behind it.
fn write_front(n: u64, out: &mut Vec<char>) -> Result<(), AllocError>
    ensures { OnOk result (out.new.items ≡ out.old.items ++ front n) }
{
    write_number(n, out)?;
    write_ascii(b" ", out)
}

/// Writes the text of an entry.
fn write_entry(pool: &[PoolEntry], entry: &PoolEntry, out: &mut Vec<char>) -> Result<(), AllocError>
    ensures { OnOk result (out.new.items ≡ out.old.items ++ entry_text pool.now entry.now) }
{
    match entry {
        PoolEntry::Utf8(units) => write_units(units.as_slice(), out),
        PoolEntry::Integer(bits) => write_signed(i64::from(bits.cast_signed()), out),
        PoolEntry::Float(bits) => write_number(u64::from(*bits), out),
        PoolEntry::Long(bits) => write_signed(bits.cast_signed(), out),
        PoolEntry::Double(bits) => write_number(*bits, out),
        PoolEntry::Class(n) | PoolEntry::Str(n) | PoolEntry::MethodType(n) => {
            write_text(pool, *n, out)
        }
        PoolEntry::Fieldref(class, member)
        | PoolEntry::Methodref(class, member)
        | PoolEntry::InterfaceMethodref(class, member) => {
            write_member(pool, (*class, *member), out)
        }
        PoolEntry::NameAndType(name, descriptor) => write_pair(pool, (*name, *descriptor), out),
        PoolEntry::InvokeDynamic(bootstrap, member) => {
            write_front(u64::from(*bootstrap), out)?;
            write_name_and_type(pool, *member, out)
        }
        PoolEntry::MethodHandle(kind, member) => {
            write_front(u64::from(*kind), out)?;
            write_member(pool, member_at(pool, *member), out)
        }
        PoolEntry::Second => Ok(()),
    }
}

/// Writes the text of the entry at the index.
pub fn write_constant(pool: &[PoolEntry], n: usize, out: &mut Vec<char>) -> Result<(), AllocError>
    ensures { OnOk result (out.new.items ≡ out.old.items ++ constant_at pool.now n) }
{
    match entry_at(pool, n) {
        Some(entry) => write_entry(pool, entry, out),
        None => Ok(()),
    }
}
