//! What an index of the constant pool names (JVMS 4.4).

ghost use Rattle.std.specs.Prelude.{◌≡◌};
ghost use Rattle.std.specs.Option.{option_copied, option_map};
ghost use Rattle.scw_link.specs.Names.{at, utf8, class_name, same, is_text, method_ref, field_ref, member, named};
ghost use Rattle.scw_link.specs.NamedView.{named_view};

use scw_classfile::PoolEntry;
use scw_text::Units;

/// Whether units are an ASCII text.
pub fn same(units: &[u16], text: &[u8]) -> bool
    ensures { result ≡ same units.now text.now }
{
    match (units, text) {
        ([], []) => true,
        ([a, more @ ..], [b, rest @ ..]) => *a == u16::from(*b) && same(more, rest),
        _ => false,
    }
}

/// Whether a text is there and is this one.
pub fn is_text(found: Option<&Units>, text: &[u16]) -> bool
    ensures { result ≡ is_text (option_copied found.entry) text.now }
{
    match found {
        Some(units) => units.as_slice() == text,
        None => false,
    }
}

/// The entry of an index.
pub fn entry_at(pool: &[PoolEntry], n: usize) -> Option<&PoolEntry>
    ensures { option_copied result ≡ at pool.now n }
{
    if n == 0 { None } else { pool.get(n - 1) }
}

/// The text of an index.
pub fn utf8_at(pool: &[PoolEntry], n: u16) -> Option<&Units>
    ensures { option_copied result ≡ utf8 (at pool.now n) }
{
    match entry_at(pool, usize::from(n)) {
        Some(PoolEntry::Utf8(units)) => Some(units),
        _ => None,
    }
}

/// The name of the class of an index.
pub fn class_name_at(pool: &[PoolEntry], n: usize) -> Option<&Units>
    ensures { option_copied result ≡ class_name pool.now (at pool.now n) }
{
    match entry_at(pool, n) {
        Some(PoolEntry::Class(k)) => utf8_at(pool, *k),
        _ => None,
    }
}

/// A field or a method, by its class, its name and its descriptor.
#[derive(Clone, Copy)]
pub struct Named<'p> {
    pub class: &'p Units,
    pub name: &'p Units,
    pub descriptor: &'p Units,
}

fn with_class<'p>(pool: &'p [PoolEntry], class: &'p Units, n: u16) -> Option<Named<'p>>
    ensures { option_map named_view result ≡ named pool.now class.now (at pool.now n) }
{
    match entry_at(pool, usize::from(n)) {
        Some(PoolEntry::NameAndType(x, d)) => {
            let name = utf8_at(pool, *x)?;
            let descriptor = utf8_at(pool, *d)?;
            Some(Named {
                class,
                name,
                descriptor,
            })
        }
        _ => None,
    }
}

fn member(pool: &[PoolEntry], class: u16, n: u16) -> Option<Named<'_>>
    ensures { option_map named_view result ≡ member pool.now class n }
{
    let class = class_name_at(pool, usize::from(class))?;
    with_class(pool, class, n)
}

/// The method that an entry is (JVMS 4.4.2).
pub fn method_in<'p>(pool: &'p [PoolEntry], entry: Option<&'p PoolEntry>) -> Option<Named<'p>>
    ensures { option_map named_view result ≡ method_ref pool.now (option_copied entry.entry) }
{
    match entry {
        Some(PoolEntry::Methodref(c, n) | PoolEntry::InterfaceMethodref(c, n)) => {
            member(pool, *c, *n)
        }
        _ => None,
    }
}

/// The field of an index (JVMS 4.4.2).
pub fn field_at(pool: &[PoolEntry], n: usize) -> Option<Named<'_>>
    ensures { option_map named_view result ≡ field_ref pool.now (at pool.now n) }
{
    match entry_at(pool, n) {
        Some(PoolEntry::Fieldref(c, n)) => member(pool, *c, *n),
        _ => None,
    }
}
