//! Which types are subtypes (JVMS 6.5, `checkcast`, and 4.10.1.2).

ghost use Rattle.std.specs.Prelude.{◌≡◌};
ghost use Rattle.scw_step.specs.TypeStep as step;

use scw_frame::{Base, ClassNumber, Primitive, Program, TypeNumber};
use scw_heap::Kind;

/// Whether the class is the other one, extends it or implements it.
#[tactic(auto, unfolding(crate::specs::TypeStep::derives))]
pub fn derives(program: &Program, class: u32, ancestor: u32) -> bool
    ensures { result ≡ step.derives program.now class ancestor }
{
    match program.classes.get(class as usize) {
        Some(found) => match found.ancestors.get(ancestor as usize) {
            Some(is) => *is,
            None => false,
        },
        None => false,
    }
}

fn same_primitive(a: Primitive, b: Primitive) -> bool
    ensures { result ≡ step.same_primitive a b }
{
    match a {
        Primitive::Boolean => matches!(b, Primitive::Boolean),
        Primitive::Char => matches!(b, Primitive::Char),
        Primitive::Int => matches!(b, Primitive::Int),
        Primitive::Long => matches!(b, Primitive::Long),
    }
}

/// Whether elements of one base are elements of the other.
fn base_under(program: &Program, a: Base, b: Base) -> bool
    ensures { result ≡ step.base_under program.now a b }
{
    match b {
        Base::Class(d) => match a {
            Base::Class(c) => derives(program, c.0, d.0),
            Base::Primitive(_) | Base::Other(_) => false,
        },
        Base::Primitive(y) => match a {
            Base::Primitive(x) => same_primitive(x, y),
            Base::Class(_) | Base::Other(_) => false,
        },
        Base::Other(_) => false,
    }
}

fn is_object(base: Base) -> bool
    ensures { result ≡ step.is_object base }
{
    match base {
        Base::Class(c) => c.0 == 0,
        Base::Primitive(_) | Base::Other(_) => false,
    }
}

/// Whether a type of so many dimensions is a subtype of another.
#[tactic(auto, unfolding(crate::specs::TypeStep::subtype))]
fn subtype(program: &Program, m: u64, a: Base, n: u64, b: Base) -> bool
    ensures { result ≡ step.subtype program.now m a n b }
{
    m == n && base_under(program, a, b) || n < m && is_object(b)
}

/// The type of an object: its dimensions, and what is below them.
#[tactic(auto, unfolding(crate::specs::TypeStep::type_of))]
fn type_of(program: &Program, kind: Kind) -> Option<(u64, Base)>
    ensures { result ≡ step.type_of program.now kind }
{
    match kind {
        Kind::Object(class) => Some((0, Base::Class(ClassNumber(class)))),
        Kind::Text => Some((0, Base::Class(ClassNumber(1)))),
        Kind::Booleans => Some((1, Base::Primitive(Primitive::Boolean))),
        Kind::Chars => Some((1, Base::Primitive(Primitive::Char))),
        Kind::Ints => Some((1, Base::Primitive(Primitive::Int))),
        Kind::Longs => Some((1, Base::Primitive(Primitive::Long))),
        Kind::Refs(element) => {
            let t = program.types.get(element as usize)?;
            Some((t.dimensions as u64 + 1, t.base))
        }
    }
}

/// Whether an object of the kind is an instance of the type.
#[tactic(auto, unfolding(crate::specs::TypeStep::is_instance))]
pub fn is_instance(program: &Program, kind: Kind, t: TypeNumber) -> Option<bool>
    ensures { result ≡ step.is_instance program.now kind t.0 }
{
    let (dimensions, base) = type_of(program, kind)?;
    let wanted = program.types.get(t.0 as usize)?;
    Some(subtype(
        program,
        dimensions,
        base,
        wanted.dimensions as u64,
        wanted.base,
    ))
}
