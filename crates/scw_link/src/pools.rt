//! The types and the texts of all pools, entry by entry (JVMS 4.4.1 and 4.4.3).

ghost use Rattle.std.specs.Prelude.{◌≡◌, ◌++◌, IfOk, OnOk, map, unwrap_or, []};
ghost use Rattle.std.specs.Option.{option_copied};
ghost use Rattle.scw_link.specs.Names.{class_name};
ghost use Rattle.scw_link.specs.Types as t;

use crate::names::utf8_at;
use crate::types::type_of;
use scw_classfile::{ClassFile, PoolEntry};
use scw_frame::{Base, ClassNumber, ReferenceType};
use scw_text::{NoMemory, Units};
use sqlite_items::Items;
use std::alloc::{AllocError, Global};

const STRING_TYPE: ReferenceType = ReferenceType {
    dimensions: 0,
    base: Base::Class(ClassNumber(1)),
};

const NO_TYPE: ReferenceType = ReferenceType {
    dimensions: 0,
    base: Base::Other(0),
};

fn type_name<'p>(pool: &'p [PoolEntry], entry: &'p PoolEntry) -> Option<&'p Units>
    ensures { option_copied result ≡ class_name pool.now (Some entry.now) }
{
    match entry {
        PoolEntry::Class(k) => utf8_at(pool, *k),
        _ => None,
    }
}

fn type_or_none(
    files: &[ClassFile],
    pool: &[PoolEntry],
    entry: &PoolEntry,
) -> Result<ReferenceType, NoMemory>
    ensures { IfOk result (λ x. x ≡ t.type_or_none files.now pool.now entry.now) }
{
    match type_of(files, type_name(pool, entry))? {
        Some(found) => Ok(found),
        None => Ok(NO_TYPE),
    }
}

fn push_types(
    files: &[ClassFile],
    pool: &[PoolEntry],
    types: &mut Items<ReferenceType>,
) -> Result<(), NoMemory>
    ensures { OnOk result (types.new ≡ types.old ++ map (t.type_or_none files.now pool.now) pool.now) }
{
    for entry in pool {
        types.push(type_or_none(files, pool, entry)?)?;
    }
    Ok(())
}

/// The type of strings, and then one for each entry of each pool.
pub fn types_of(alloc: Global, files: &[ClassFile]) -> Result<Items<ReferenceType>, NoMemory>
    ensures { IfOk result (λ x. x ≡ t.types_of files.now) }
{
    let mut types = Items::new(alloc);
    types.push(STRING_TYPE)?;
    for file in files {
        push_types(files, file.pool.as_slice(), &mut types)?;
    }
    Ok(types)
}

fn text_of(alloc: Global, pool: &[PoolEntry], entry: &PoolEntry) -> Result<Units, AllocError>
    ensures { IfOk result (λ x. x ≡ t.text_of pool.now entry.now) }
{
    match entry {
        PoolEntry::Str(n) => match utf8_at(pool, *n) {
            Some(units) => Items::from_slice(alloc, units.as_slice()),
            None => Ok(Items::new(alloc)),
        },
        _ => Ok(Items::new(alloc)),
    }
}

fn push_texts(alloc: Global, pool: &[PoolEntry], texts: &mut Items<Units>) -> Result<(), AllocError>
    ensures { OnOk result (texts.new ≡ texts.old ++ map (t.text_of pool.now) pool.now) }
{
    for entry in pool {
        texts.push(text_of(alloc, pool, entry)?)?;
    }
    Ok(())
}

/// An empty text, and then one for each entry of each pool.
pub fn texts_of(alloc: Global, files: &[ClassFile]) -> Result<Items<Units>, NoMemory>
    ensures { IfOk result (λ x. x ≡ t.texts_of files.now) }
{
    let mut texts = Items::new(alloc);
    texts.push(Items::new(alloc))?;
    for file in files {
        push_texts(alloc, file.pool.as_slice(), &mut texts)?;
    }
    Ok(texts)
}
