//! The constant pool, an entry at a time (JVMS 4.4). An entry stands in it once.
//!
//! Indices that don't fit 16 bits stand as the largest number that does: no pool that is short enough for a class has one.

ghost use Rattle.std.specs.Prelude.{◌≡◌, ◌^◌, nat_lt, OnOk};
ghost use Rattle.std.specs.List.{list_all};
ghost use Rattle.scw_gen.specs.Pool as spec;
ghost use Rattle.scw_text.specs.Modified.{is_unit};

use crate::instr::plus;
use scw_classfile::{Pool, PoolEntry};
use scw_text::Units;
use std::alloc::{AllocError, Global};

/// An entry without a text.
#[derive(Clone, Copy, Debug, PartialEq, Eq)]
pub enum Entry {
    Integer(u32),
    Long(u64),
    /// The index of the name.
    Class(u16),
    /// The index of the text.
    Str(u16),
    /// The index of the name, and that of the descriptor.
    NameAndType(u16, u16),
    /// The index of the class, and that of the name and type.
    Methodref(u16, u16),
}

/// The class, the name and the descriptor of a method.
#[derive(Drop)]
pub struct MethodName {
    pub class: Units,
    pub name: Units,
    pub descriptor: Units,
}

fn is_utf8(text: &[u16], found: &PoolEntry) -> bool
    ensures { result ≡ spec.is_utf8 text.now found.now }
{
    matches!(found, PoolEntry::Utf8(units) if units.as_slice() == text)
}

fn is_integer(n: u32, found: &PoolEntry) -> bool
    ensures { result ≡ spec.is_integer n found.now }
{
    matches!(found, PoolEntry::Integer(k) if *k == n)
}

fn is_long(n: u64, found: &PoolEntry) -> bool
    ensures { result ≡ spec.is_long n found.now }
{
    matches!(found, PoolEntry::Long(k) if *k == n)
}

fn is_class(name: u16, found: &PoolEntry) -> bool
    ensures { result ≡ spec.is_class name found.now }
{
    matches!(found, PoolEntry::Class(k) if *k == name)
}

fn is_str(text: u16, found: &PoolEntry) -> bool
    ensures { result ≡ spec.is_str text found.now }
{
    matches!(found, PoolEntry::Str(k) if *k == text)
}

fn is_name_and_type(name: u16, descriptor: u16, found: &PoolEntry) -> bool
    ensures { result ≡ spec.is_name_and_type name descriptor found.now }
{
    matches!(found, PoolEntry::NameAndType(n, d) if *n == name && *d == descriptor)
}

fn is_methodref(class: u16, name: u16, found: &PoolEntry) -> bool
    ensures { result ≡ spec.is_methodref class name found.now }
{
    matches!(found, PoolEntry::Methodref(c, n) if *c == class && *n == name)
}

fn is_entry(entry: Entry, found: &PoolEntry) -> bool
    ensures { result ≡ spec.is_entry entry found.now }
{
    match entry {
        Entry::Integer(n) => is_integer(n, found),
        Entry::Long(n) => is_long(n, found),
        Entry::Class(name) => is_class(name, found),
        Entry::Str(text) => is_str(text, found),
        Entry::NameAndType(name, descriptor) => is_name_and_type(name, descriptor, found),
        Entry::Methodref(class, name) => is_methodref(class, name, found),
    }
}

fn entry_of(entry: Entry) -> PoolEntry
    ensures { result ≡ spec.entry_of entry }
{
    match entry {
        Entry::Integer(n) => PoolEntry::Integer(n),
        Entry::Long(n) => PoolEntry::Long(n),
        Entry::Class(name) => PoolEntry::Class(name),
        Entry::Str(text) => PoolEntry::Str(text),
        Entry::NameAndType(name, descriptor) => PoolEntry::NameAndType(name, descriptor),
        Entry::Methodref(class, name) => PoolEntry::Methodref(class, name),
    }
}

/// Units have 16 bits by their type.
fn are_units(_units: &[u16]) -> bool
    ensures { result ≡ list_all is_unit _units.now }
{
    true
}

/// A number has 32 bits by its type.
fn fits_int(_n: u32) -> bool
    ensures { result ≡ nat_lt _n (2 ^ 32) }
{
    true
}

/// A number has 64 bits by its type.
fn fits_long(_n: u64) -> bool
    ensures { result ≡ nat_lt _n (2 ^ 64) }
{
    true
}

/// The numbers of the entry fit their fields, by their types.
fn fits(entry: &PoolEntry) -> bool
    ensures { result ≡ spec.fits entry.now }
{
    match entry {
        PoolEntry::Utf8(units) => are_units(units.as_slice()),
        PoolEntry::Integer(n) => fits_int(*n),
        PoolEntry::Long(n) => fits_long(*n),
        PoolEntry::Float(_) | PoolEntry::Double(_) | PoolEntry::Second => true,
        PoolEntry::Class(_) | PoolEntry::Str(_) | PoolEntry::MethodType(_) => true,
        PoolEntry::Fieldref(..) | PoolEntry::Methodref(..) => true,
        PoolEntry::InterfaceMethodref(..) | PoolEntry::NameAndType(..) => true,
        PoolEntry::InvokeDynamic(..) | PoolEntry::MethodHandle(..) => true,
    }
}

/// The numbers of all entries fit their fields.
pub(crate) fn all_fit(pool: &[PoolEntry]) -> bool
    ensures { result ≡ list_all spec.fits pool.now }
{
    pool.iter().all(|entry| fits(entry))
}

/// The index of a text, or 0 where it isn't there.
#[tactic(auto, unfolding(crate::specs::Pool::utf8_index))]
pub(crate) fn utf8_index(pool: &[PoolEntry], text: &[u16]) -> u16
    ensures { result ≡ spec.utf8_index pool.now text.now }
{
    let mut index: u16 = 1;
    for found in pool {
        if is_utf8(text, found) {
            return index;
        }
        index = plus(index, 1);
    }
    0
}

/// The index of an entry, or 0 where it isn't there.
#[tactic(auto, unfolding(crate::specs::Pool::index_of))]
fn index_of(pool: &[PoolEntry], entry: Entry) -> u16
    ensures { result ≡ spec.index_of pool.now entry }
{
    let mut index: u16 = 1;
    for found in pool {
        if is_entry(entry, found) {
            return index;
        }
        index = plus(index, 1);
    }
    0
}

/// The index, where something was found at it.
pub(crate) fn found(index: u16) -> Option<u16>
    ensures { result ≡ spec.found index }
{
    if index == 0 { None } else { Some(index) }
}

pub(crate) fn integer_index(pool: &[PoolEntry], n: u32) -> u16
    ensures { result ≡ spec.integer_index pool.now n }
{
    index_of(pool, Entry::Integer(n))
}

pub(crate) fn long_index(pool: &[PoolEntry], n: u64) -> u16
    ensures { result ≡ spec.long_index pool.now n }
{
    index_of(pool, Entry::Long(n))
}

pub(crate) fn class_index(pool: &[PoolEntry], name: &[u16]) -> u16
    ensures { result ≡ spec.class_index pool.now name.now }
{
    index_of(pool, Entry::Class(utf8_index(pool, name)))
}

pub(crate) fn string_index(pool: &[PoolEntry], text: &[u16]) -> u16
    ensures { result ≡ spec.string_index pool.now text.now }
{
    index_of(pool, Entry::Str(utf8_index(pool, text)))
}

fn name_and_type_index(pool: &[PoolEntry], name: &[u16], descriptor: &[u16]) -> u16
    ensures { result ≡ spec.name_and_type_index pool.now name.now descriptor.now }
{
    let name = utf8_index(pool, name);
    let descriptor = utf8_index(pool, descriptor);
    index_of(pool, Entry::NameAndType(name, descriptor))
}

pub(crate) fn method_index(pool: &[PoolEntry], method: &MethodName) -> u16
    ensures { result ≡ spec.method_index pool.now method.now }
{
    let class = class_index(pool, method.class.as_slice());
    let name = name_and_type_index(pool, method.name.as_slice(), method.descriptor.as_slice());
    index_of(pool, Entry::Methodref(class, name))
}

pub(crate) fn add_utf8(alloc: Global, pool: &mut Pool, text: &[u16]) -> Result<(), AllocError>
    ensures { OnOk result (pool.new ≡ spec.with_utf8 pool.old text.now) }
{
    if utf8_index(pool.as_slice(), text) == 0 {
        pool.push(PoolEntry::Utf8(Units::from_slice(alloc, text)?))?;
    }
    Ok(())
}

fn add(pool: &mut Pool, entry: Entry) -> Result<(), AllocError>
    ensures { OnOk result (pool.new ≡ spec.with_entry pool.old entry) }
{
    if index_of(pool.as_slice(), entry) == 0 {
        pool.push(entry_of(entry))?;
    }
    Ok(())
}

pub(crate) fn add_integer(pool: &mut Pool, n: u32) -> Result<(), AllocError>
    ensures { OnOk result (pool.new ≡ spec.with_integer pool.old n) }
{
    add(pool, Entry::Integer(n))
}

/// The number, and its second place (JVMS 4.4.5).
pub(crate) fn add_long(pool: &mut Pool, n: u64) -> Result<(), AllocError>
    ensures { OnOk result (pool.new ≡ spec.with_long pool.old n) }
{
    if long_index(pool.as_slice(), n) == 0 {
        pool.push(PoolEntry::Long(n))?;
        pool.push(PoolEntry::Second)?;
    }
    Ok(())
}

pub(crate) fn add_class(alloc: Global, pool: &mut Pool, name: &[u16]) -> Result<(), AllocError>
    ensures { OnOk result (pool.new ≡ spec.with_class pool.old name.now) }
{
    add_utf8(alloc, pool, name)?;
    let name = utf8_index(pool.as_slice(), name);
    add(pool, Entry::Class(name))
}

pub(crate) fn add_string(alloc: Global, pool: &mut Pool, text: &[u16]) -> Result<(), AllocError>
    ensures { OnOk result (pool.new ≡ spec.with_string pool.old text.now) }
{
    add_utf8(alloc, pool, text)?;
    let text = utf8_index(pool.as_slice(), text);
    add(pool, Entry::Str(text))
}

fn add_name_and_type(
    alloc: Global,
    pool: &mut Pool,
    name: &[u16],
    descriptor: &[u16],
) -> Result<(), AllocError>
    ensures { OnOk result (pool.new ≡ spec.with_name_and_type pool.old name.now descriptor.now) }
{
    add_utf8(alloc, pool, name)?;
    add_utf8(alloc, pool, descriptor)?;
    let name = utf8_index(pool.as_slice(), name);
    let descriptor = utf8_index(pool.as_slice(), descriptor);
    add(pool, Entry::NameAndType(name, descriptor))
}

pub(crate) fn add_method(
    alloc: Global,
    pool: &mut Pool,
    method: &MethodName,
) -> Result<(), AllocError>
    ensures { OnOk result (pool.new ≡ spec.with_method pool.old method.now) }
{
    let name = method.name.as_slice();
    let descriptor = method.descriptor.as_slice();
    add_class(alloc, pool, method.class.as_slice())?;
    add_name_and_type(alloc, pool, name, descriptor)?;
    let class = class_index(pool.as_slice(), method.class.as_slice());
    let name = name_and_type_index(pool.as_slice(), name, descriptor);
    add(pool, Entry::Methodref(class, name))
}
