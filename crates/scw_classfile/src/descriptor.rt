//! Descriptors: JVMS 4.3.2 and 4.3.3.

ghost use Rattle.std.specs.Cmp.Lexicographic.{pointwise};
ghost use Rattle.std.specs.Option.{option_map};
ghost use Rattle.std.specs.Prelude.{◌≡◌, ◌↔◌, codes, false, length, nat_eq, IsTrue};
ghost use Rattle.scw_classfile.specs.Descriptor.{after_field, after_name, after_parameters, is_array, is_base, is_field, is_method, is_return, text_kind};
ghost use Rattle.scw_classfile.specs.DescriptorGrammar.{FieldDescriptor, MethodDescriptor};

use crate::pool_entry::TextKind;

/// The characters of a BaseType (JVMS table 4.3-A).
#[rattlefmt::skip]
const BASES: [u16; 8] = [
    b'B' as u16, b'C' as u16, b'D' as u16, b'F' as u16,
    b'I' as u16, b'J' as u16, b'S' as u16, b'Z' as u16,
];

/// Begins the descriptor of a class or interface (JVMS 4.3.2).
const CLASS: u16 = b'L' as u16;

/// Ends the name of a class or interface (JVMS 4.3.2).
const NAME_END: u16 = b';' as u16;

/// Begins the descriptor of an array type (JVMS 4.3.2).
const ARRAY: u16 = b'[' as u16;

/// Begins the parameters of a method (JVMS 4.3.3).
const OPEN: u16 = b'(' as u16;

/// Ends the parameters of a method (JVMS 4.3.3).
const CLOSE: u16 = b')' as u16;

/// VoidDescriptor (JVMS 4.3.3).
const VOID: [u16; 1] = [b'V' as u16];

/// The name of the attribute that holds code (JVMS 4.7.3).
const CODE: [u16; 4] = [b'C' as u16, b'o' as u16, b'd' as u16, b'e' as u16];

/// The name of the class that has no superclass (JVMS 4.1).
#[rattlefmt::skip]
const OBJECT: [u16; 16] = [
    b'j' as u16, b'a' as u16, b'v' as u16, b'a' as u16, b'/' as u16,
    b'l' as u16, b'a' as u16, b'n' as u16, b'g' as u16, b'/' as u16,
    b'O' as u16, b'b' as u16, b'j' as u16, b'e' as u16, b'c' as u16, b't' as u16,
];

/// Whether the character is a BaseType (JVMS table 4.3-A).
fn is_base(c: u16) -> bool
    ensures { result ≡ is_base c }
{
    BASES.contains(&c)
}

/// What follows a class name and the `;` after it, where the name isn't empty (JVMS 4.3.2).
fn after_name(units: &[u16]) -> Option<&[u16]>
    ensures { option_map (λ r. r.now) result ≡ after_name false units.now }
{
    let mut some = false;
    let mut rest = units;
    while let [c, after @ ..] = rest {
        if *c == NAME_END {
            return if some { Some(after) } else { None };
        }
        some = true;
        rest = after;
    }
    None
}

/// `FieldType ::= BaseType | ObjectType | ArrayType`: what follows it (JVMS 4.3.2).
fn after_field(units: &[u16]) -> Option<&[u16]>
    ensures { option_map (λ r. r.now) result ≡ after_field units.now }
{
    let mut rest = units;
    while let [c, after @ ..] = rest {
        if is_base(*c) {
            return Some(after);
        }
        if *c == CLASS {
            return after_name(after);
        }
        if *c != ARRAY {
            return None;
        }
        rest = after;
    }
    None
}

/// Whether the text is a FieldDescriptor (JVMS 4.3.2).
#[tactic(auto, unfolding(crate::specs::Descriptor::is_field))]
pub fn is_field(units: &[u16]) -> bool
    ensures value { result ≡ is_field units.now }
    ensures grammar { IsTrue result ↔ FieldDescriptor units.now }
{
    match after_field(units) {
        Some([]) => true,
        Some([_, ..]) | None => false,
    }
}

/// `{ParameterDescriptor} )`: what follows the parameters and their `)` (JVMS 4.3.3).
fn after_parameters(units: &[u16]) -> Option<&[u16]>
    ensures { option_map (λ r. r.now) result ≡ after_parameters (length units.now) units.now }
{
    let mut rest = units;
    while let [c, after @ ..] = rest {
        if *c == CLOSE {
            return Some(after);
        }
        rest = after_field(rest)?;
    }
    None
}

/// `ReturnDescriptor ::= FieldType | VoidDescriptor` (JVMS 4.3.3).
#[tactic(auto, unfolding(crate::specs::Descriptor::is_return))]
fn is_return(units: &[u16]) -> bool
    ensures { result ≡ is_return units.now }
{
    units == VOID.as_slice() || is_field(units)
}

/// Whether the text is a MethodDescriptor (JVMS 4.3.3).
#[tactic(auto, unfolding(crate::specs::Descriptor::is_method))]
pub fn is_method(units: &[u16]) -> bool
    ensures value { result ≡ is_method units.now }
    ensures grammar { IsTrue result ↔ MethodDescriptor units.now }
{
    match units {
        [c, rest @ ..] if *c == OPEN => match after_parameters(rest) {
            Some(rest) => is_return(rest),
            None => false,
        },
        [_, ..] | [] => false,
    }
}

/// Whether the text begins as the descriptor of an array type does (JVMS 4.3.2).
fn is_array(units: &[u16]) -> bool
    ensures { result ≡ is_array units.now }
{
    match units {
        [c, ..] => *c == ARRAY,
        [] => false,
    }
}

fn is_code(units: &[u16]) -> bool
    ensures { result ≡ pointwise nat_eq units.now (codes "Code") }
{
    units == CODE.as_slice()
}

fn is_object(units: &[u16]) -> bool
    ensures { result ≡ pointwise nat_eq units.now (codes "java/lang/Object") }
{
    units == OBJECT.as_slice()
}

/// What the text can stand for.
#[tactic(auto, unfolding(crate::specs::Descriptor::text_kind))]
pub fn text_kind(units: &[u16]) -> TextKind
    ensures { result ≡ text_kind units.now }
{
    if is_array(units) {
        if is_field(units) {
            TextKind::Array
        } else {
            TextKind::NoArray
        }
    } else if is_field(units) {
        TextKind::Field
    } else if is_method(units) {
        TextKind::Method
    } else if is_code(units) {
        TextKind::Code
    } else if is_object(units) {
        TextKind::Object
    } else {
        TextKind::Plain
    }
}
