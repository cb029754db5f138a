//! The reference types and the texts that pools name (JVMS 4.4.1, 4.4.3 and 4.3.2).

ghost use Rattle.std.specs.Prelude.{◌≡◌, ◌-◌, IfOk, OnOk, ◌++◌, unwrap_or, take, length, map, []};
ghost use Rattle.std.specs.Option.{option_copied, option_map};
ghost use Rattle.scw_link.specs.Names.{and_then};
ghost use Rattle.scw_link.specs.Classes.{class_number};
ghost use Rattle.scw_link.specs.Types as t;

use crate::classes::class_number;
use crate::descriptor::{ARRAY, BOOLEAN, BYTE, CHAR, CLASS, DOUBLE, FLOAT, INT, LONG, SHORT};
use crate::names::{class_name_at, utf8_at};
use crate::number::narrow;
use scw_classfile::{ClassFile, PoolEntry};
use scw_frame::{Base, ClassNumber, Primitive, ReferenceType};
use scw_text::{NoMemory, Units};
use sqlite_items::Items;
use std::alloc::{AllocError, Global};

fn class_type(dimensions: u32, class: usize) -> Result<ReferenceType, NoMemory>
    ensures { IfOk result (λ x. x ≡ t.class_type dimensions class) }
{
    Ok(ReferenceType {
        dimensions,
        base: Base::Class(ClassNumber(narrow(class)?)),
    })
}

// A primitive type by its character in descriptors (JVMS table 4.3-A).
fn primitive_base(c: u16) -> Option<Base>
    ensures { result ≡ t.primitive_base c }
{
    if c == BOOLEAN {
        Some(Base::Primitive(Primitive::Boolean))
    } else if c == CHAR {
        Some(Base::Primitive(Primitive::Char))
    } else if c == INT {
        Some(Base::Primitive(Primitive::Int))
    } else if c == LONG {
        Some(Base::Primitive(Primitive::Long))
    } else if c == BYTE || c == SHORT || c == FLOAT || c == DOUBLE {
        Some(Base::Other(c as u8))
    } else {
        None
    }
}

fn name_before_end(units: &[u16]) -> &[u16]
    ensures { result.now ≡ t.name_before_end units.now }
{
    &units[..units.len().saturating_sub(1)]
}

fn named_type(
    files: &[ClassFile],
    dimensions: u32,
    name: &[u16],
) -> Result<Option<ReferenceType>, NoMemory>
    ensures { IfOk result (λ x. x ≡ option_map (t.class_type dimensions) (class_number files.now name.now)) }
{
    match class_number(files, name)? {
        Some(class) => Ok(Some(class_type(dimensions, class)?)),
        None => Ok(None),
    }
}

fn primitive_type(dimensions: u32, c: u16) -> Option<ReferenceType>
    ensures { result ≡ option_map (t.type_with dimensions) (t.primitive_base c) }
{
    match primitive_base(c) {
        Some(base) => Some(ReferenceType { dimensions, base }),
        None => None,
    }
}

fn array_type(files: &[ClassFile], units: &[u16]) -> Result<Option<ReferenceType>, NoMemory>
    ensures { IfOk result (λ x. x ≡ t.array_type files.now 1 units.now) }
{
    let mut dimensions: u32 = 1;
    let mut rest = units;
    while let [c, after @ ..] = rest {
        if *c == CLASS {
            return named_type(files, dimensions, name_before_end(after));
        }
        if *c != ARRAY {
            return Ok(primitive_type(dimensions, *c));
        }
        if dimensions == u32::MAX {
            return Err(NoMemory);
        }
        dimensions += 1;
        rest = after;
    }
    Ok(None)
}

fn type_named(files: &[ClassFile], units: &[u16]) -> Result<Option<ReferenceType>, NoMemory>
    ensures { IfOk result (λ x. x ≡ t.type_named files.now units.now) }
{
    match units {
        [] => Ok(None),
        [c, rest @ ..] => {
            if *c == ARRAY {
                array_type(files, rest)
            } else {
                named_type(files, 0, units)
            }
        }
    }
}

/// The type of the name of a class, if its class is known.
pub fn type_of(files: &[ClassFile], name: Option<&Units>) -> Result<Option<ReferenceType>, NoMemory>
    ensures { IfOk result (λ x. x ≡ and_then (option_copied name.entry) (t.type_named files.now)) }
{
    match name {
        Some(name) => type_named(files, name.as_slice()),
        None => Ok(None),
    }
}
