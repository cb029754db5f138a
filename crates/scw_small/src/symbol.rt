//! Symbols and types that every program of the small language has.

ghost use Rattle.std.specs.Prelude.{◌≡◌, map, IfOk};
ghost use Rattle.scw_core.specs.TypesOf.{plain_of, core_type_of};
ghost use Rattle.scw_small.specs.Symbol as spec;
ghost use Rattle.scw_small.specs.TypeView.{parameter_of};

use scw_core::symbol::{ANY_REF, ARRAY, BOOLEAN, INT, LONG, STRING, UNIT};
use scw_core::{CoreType, Path, Plain, PlainParameter};
use scw_reader::{Parameter, TypeName};
use scw_text::{Bytes, Span, SymId, Text, TypeId};
use sqlite_items::Items;
use std::alloc::{AllocError, Global};

/// `object Main`: the first symbol that is free.
pub(crate) const MAIN_OBJECT: SymId = SymId(31);

/// Its `this`.
pub(crate) const MAIN_THIS: SymId = SymId(32);

/// The symbol after these.
pub(crate) const FIRST_OTHER: u64 = 33;

/// `Array[String]`, by its place in the list of types.
pub(crate) const STRINGS_ID: TypeId = TypeId(5);

/// `AnyRef`
pub(crate) const ANY_REF_ID: TypeId = TypeId(6);

/// `Main.type`
pub(crate) const MAIN_ID: TypeId = TypeId(7);

/// The characters of `args`.
const ARGS: [u8; 4] = [b'a', b'r', b'g', b's'];

/// No part of a source.
pub(crate) fn nowhere() -> Span
    ensures { result ≡ spec.nowhere }
{
    Span {
        file: 0,
        start: 0,
        end: 0,
    }
}

/// The class of a type that is written: SLS 12.2, 12.3.1.
fn kind_class(kind: TypeName) -> SymId
    ensures { result ≡ spec.kind_class kind }
{
    match kind {
        TypeName::Unit => UNIT,
        TypeName::Boolean => BOOLEAN,
        TypeName::Int => INT,
        TypeName::Long => LONG,
        TypeName::String => STRING,
    }
}

/// Where a type that is written stands in the list of types.
pub(crate) fn kind_id(kind: TypeName) -> TypeId
    ensures { result ≡ spec.kind_id kind }
{
    match kind {
        TypeName::Unit => TypeId(0),
        TypeName::Boolean => TypeId(1),
        TypeName::Int => TypeId(2),
        TypeName::Long => TypeId(3),
        TypeName::String => TypeId(4),
    }
}

/// The type of a class without type parameters, at the top.
fn class_type(alloc: Global, class: SymId) -> Plain
    ensures { plain_of result ≡ spec.class_type class }
{
    Plain::Cls(Path::None, class, Vec::new(alloc))
}

fn kind_type(alloc: Global, kind: TypeName) -> Plain
    ensures { plain_of result ≡ spec.kind_type kind }
{
    class_type(alloc, kind_class(kind))
}

/// `Array[String]`
fn strings_type(alloc: Global) -> Result<Plain, AllocError>
    ensures { IfOk result (λ t. plain_of t ≡ spec.strings_type) }
{
    let mut arguments = Vec::new(alloc);
    arguments.push(class_type(alloc, STRING))?;
    Ok(Plain::Cls(Path::None, ARRAY, arguments))
}

/// The types that are written.
fn kind_types(alloc: Global) -> Result<Items<CoreType>, AllocError>
    ensures { IfOk result (λ ts. map core_type_of ts ≡ spec.kind_types) }
{
    let mut types = Items::new(alloc);
    types.push(CoreType::Plain(kind_type(alloc, TypeName::Unit)))?;
    types.push(CoreType::Plain(kind_type(alloc, TypeName::Boolean)))?;
    types.push(CoreType::Plain(kind_type(alloc, TypeName::Int)))?;
    types.push(CoreType::Plain(kind_type(alloc, TypeName::Long)))?;
    types.push(CoreType::Plain(kind_type(alloc, TypeName::String)))?;
    Ok(types)
}

/// The types with which the list of a program begins.
pub(crate) fn first_types(alloc: Global) -> Result<Items<CoreType>, AllocError>
    ensures { IfOk result (λ ts. map core_type_of ts ≡ spec.first_types) }
{
    let mut types = kind_types(alloc)?;
    types.push(CoreType::Plain(strings_type(alloc)?))?;
    types.push(CoreType::Plain(class_type(alloc, ANY_REF)))?;
    types.push(CoreType::Plain(Plain::Sing(Path::Object(MAIN_OBJECT))))?;
    Ok(types)
}

/// The characters of a name, of which each is one byte.
pub(crate) fn text_of(alloc: Global, name: &[u8]) -> Result<Text, AllocError>
    ensures { IfOk result (λ text. text ≡ name.now) }
{
    let mut text = Items::new(alloc);
    for byte in name {
        text.push(char::from(*byte))?;
    }
    Ok(text)
}

/// A parameter in the type of its method.
fn clause_parameter(alloc: Global, name: &[u8], of: Plain) -> Result<PlainParameter, AllocError>
    ensures { IfOk result (λ x. parameter_of x ≡ spec.clause_parameter name.now (plain_of of)) }
{
    Ok(PlainParameter {
        name: text_of(alloc, name)?,
        is_by_name: false,
        is_implicit: false,
        of,
    })
}

/// The parameters in the type of their method.
fn clause_types(alloc: Global, parameters: &[Parameter]) -> Result<Vec<PlainParameter>, AllocError>
    ensures { IfOk result (λ xs. map parameter_of xs.items ≡ map spec.parameter_type parameters.now) }
{
    let mut clause = Vec::new(alloc);
    for parameter in parameters {
        let of = kind_type(alloc, parameter.kind);
        clause.push(clause_parameter(alloc, parameter.name.as_slice(), of)?)?;
    }
    Ok(clause)
}

/// The type of a method: SLS 3.3.1.
pub(crate) fn method_type(
    alloc: Global,
    parameters: &[Parameter],
    answer: TypeName,
) -> Result<CoreType, AllocError>
    ensures { IfOk result (λ t. core_type_of t ≡ spec.method_type parameters.now answer) }
{
    let clause = clause_types(alloc, parameters)?;
    let of = Box::new(alloc, kind_type(alloc, answer))?;
    Ok(CoreType::Plain(Plain::Fun(clause, of)))
}

/// `(args: Array[String])Unit`
pub(crate) fn main_type(alloc: Global) -> Result<CoreType, AllocError>
    ensures { IfOk result (λ t. core_type_of t ≡ spec.main_type) }
{
    let mut clause = Vec::new(alloc);
    let of = strings_type(alloc)?;
    clause.push(clause_parameter(alloc, ARGS.as_slice(), of)?)?;
    let unit = Box::new(alloc, kind_type(alloc, TypeName::Unit))?;
    Ok(CoreType::Plain(Plain::Fun(clause, unit)))
}
