//! The kinds of values that descriptors say (JVMS 4.3.2 and 4.3.3).

ghost use Rattle.std.specs.Prelude.{◌≡◌, IfOk, OnOk, ◌++◌, ◌∷◌, drop};
ghost use Rattle.scw_link.specs.Descriptor as d;
ghost use Rattle.scw_frame.specs.declared.value.ValueKind.TheVariants as kind;
ghost use Rattle.scw_link.specs.declared.descriptor.Part.TheVariants as part;

use scw_frame::ValueKind;
use scw_text::NoMemory;
use sqlite_items::Items;
use std::alloc::{AllocError, Global};

/// The characters of a BaseType (JVMS table 4.3-A).
pub const BYTE: u16 = b'B' as u16;

pub const CHAR: u16 = b'C' as u16;

pub const DOUBLE: u16 = b'D' as u16;

pub const FLOAT: u16 = b'F' as u16;

pub const INT: u16 = b'I' as u16;

pub const LONG: u16 = b'J' as u16;

pub const SHORT: u16 = b'S' as u16;

pub const BOOLEAN: u16 = b'Z' as u16;

/// Begins the descriptor of a class or interface.
pub const CLASS: u16 = b'L' as u16;

/// Ends the name of a class or interface.
const NAME_END: u16 = b';' as u16;

/// Begins the descriptor of an array type.
pub const ARRAY: u16 = b'[' as u16;

/// Ends the parameters of a method.
const CLOSE: u16 = b')' as u16;

/// Where a unit of the parameters stands.
#[derive(Clone, Copy)]
pub enum Part {
    /// A parameter may begin here.
    Start,
    /// The type of an array's components begins here.
    Component,
    /// In the name of a class.
    Name,
}

fn value_kind(c: u16) -> ValueKind
    ensures { result ≡ d.value_kind c }
{
    if c == LONG || c == DOUBLE {
        ValueKind::Long
    } else if c == CLASS || c == ARRAY {
        ValueKind::Reference
    } else {
        ValueKind::Int
    }
}

/// The kind of the values of a type.
pub fn kind_of(descriptor: &[u16]) -> ValueKind
    ensures { result ≡ d.kind_of descriptor.now }
{
    match descriptor {
        [] => ValueKind::Int,
        [c, ..] => value_kind(*c),
    }
}

/// The kind of a field that instructions may read and write, which is no float.
pub fn field_kind(descriptor: &[u16]) -> Option<ValueKind>
    ensures { result ≡ d.field_kind descriptor.now }
{
    match descriptor {
        [] => None,
        [c, ..] => {
            if *c == FLOAT || *c == DOUBLE {
                None
            } else {
                Some(value_kind(*c))
            }
        }
    }
}

fn after_first(c: u16) -> Part
    ensures { result ≡ d.after_first c }
{
    if c == ARRAY {
        Part::Component
    } else if c == CLASS {
        Part::Name
    } else {
        Part::Start
    }
}

fn after_unit(part: Part, c: u16) -> Part
    ensures { result ≡ d.after_unit part c }
{
    match part {
        Part::Start | Part::Component => after_first(c),
        Part::Name => {
            if c == NAME_END {
                Part::Start
            } else {
                Part::Name
            }
        }
    }
}

fn ends(part: Part, c: u16) -> bool
    ensures { result ≡ d.ends part c }
{
    match part {
        Part::Start => c == CLOSE,
        Part::Component | Part::Name => false,
    }
}

fn push_begun(part: Part, c: u16, kinds: &mut Items<ValueKind>) -> Result<(), AllocError>
    ensures { OnOk result (kinds.new ≡ kinds.old ++ d.begins part c) }
{
    match part {
        Part::Start => kinds.push(value_kind(c)),
        Part::Component | Part::Name => Ok(()),
    }
}

/// Adds the kinds of the parameters that begin in the units behind the `(`.
pub fn push_parameters(units: &[u16], kinds: &mut Items<ValueKind>) -> Result<(), AllocError>
    ensures { OnOk result (kinds.new ≡ kinds.old ++ d.kinds_from part.Start units.now) }
{
    let mut part = Part::Start;
    for unit in units {
        if ends(part, *unit) {
            return Ok(());
        }
        push_begun(part, *unit, kinds)?;
        part = after_unit(part, *unit);
    }
    Ok(())
}

/// Adds the kinds of the parameters of a method.
pub fn push_parameter_kinds(
    descriptor: &[u16],
    kinds: &mut Items<ValueKind>,
) -> Result<(), NoMemory>
    ensures { OnOk result (kinds.new ≡ kinds.old ++ d.parameter_kinds descriptor.now) }
{
    match descriptor {
        [] => Ok(()),
        [_, units @ ..] => Ok(push_parameters(units, kinds)?),
    }
}

/// The kinds of the arguments of an instance method: the object's, and those of the parameters.
pub fn argument_kinds(alloc: Global, descriptor: &[u16]) -> Result<Items<ValueKind>, NoMemory>
    ensures { IfOk result (λ kinds. kinds ≡ kind.Reference ∷ d.parameter_kinds descriptor.now) }
{
    let mut kinds = Items::new(alloc);
    kinds.push(ValueKind::Reference)?;
    push_parameter_kinds(descriptor, &mut kinds)?;
    Ok(kinds)
}
