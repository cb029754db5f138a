//! Core programs that are built by hand.

use scw_core::symbol::{ANY, ANY_REF, ARRAY, BOOLEAN, INT, LONG, STRING, UNIT};
use scw_core::{
    Access, Body, BodyKind, ClassKind, CoreClass, CoreType, Erased, Head, Member, MemberKind,
    Modifiers, Parameter, Path, Plain, PreludeSymbols, Program, SymKind, Table,
};
use scw_rows::text_of;
use scw_text::{Span, SymId, TypeId};
use sqlite_items::Items;
use std::alloc::{AllocError, Global};

/// The places of types in the table.
pub const UNIT_TYPE: TypeId = TypeId(0);

pub const BOOLEAN_TYPE: TypeId = TypeId(1);

pub const INT_TYPE: TypeId = TypeId(2);

pub const LONG_TYPE: TypeId = TypeId(3);

pub const STRING_TYPE: TypeId = TypeId(4);

pub const STRINGS_TYPE: TypeId = TypeId(5);

/// `object Main`.
pub const OBJECT: SymId = SymId(41);

/// Locals of a body. The parameters of a method are `n`, and those of the numbers behind it.
pub const X: SymId = SymId(50);

pub const Y: SymId = SymId(51);

pub const N: SymId = SymId(100);

pub const NOWHERE: Span = Span {
    file: 0,
    start: 0,
    end: 0,
};

const UNMODIFIED: Modifiers = Modifiers {
    access: Access::Public,
    is_of_this: false,
    is_abstract: false,
    is_final: false,
    is_sealed: false,
    is_override: false,
    is_implicit: false,
    is_case: false,
    is_generated: false,
};

fn parameters_of(alloc: Global, types: &[TypeId]) -> Result<Items<Parameter>, AllocError> {
    let mut parameters = Items::new(alloc);
    for (i, t) in types.iter().enumerate() {
        parameters.push(Parameter {
            symbol: SymId(N.0.saturating_add(i as u64)),
            type_id: *t,
            is_by_name: false,
        })?;
    }
    Ok(parameters)
}

/// A method with parameters of these types, and a result of the last.
pub fn method(
    alloc: Global,
    symbol: SymId,
    name: &str,
    types: &[TypeId],
    answer: TypeId,
) -> Result<Member, AllocError> {
    let parameters = parameters_of(alloc, types)?;
    Ok(Member {
        symbol,
        name: text_of(alloc, name)?,
        name_span: NOWHERE,
        kind: MemberKind::Def,
        modifiers: UNMODIFIED,
        is_static: false,
        block: None,
        type_parameters: Items::new(alloc),
        parameters,
        type_id: answer,
        result: answer,
        overrides: Items::new(alloc),
        body: BodyKind::Written,
    })
}

/// The class whose linearisation begins with these, of which it is the first.
pub fn class(
    alloc: Global,
    kind: ClassKind,
    name: &str,
    line: &[SymId],
    members: Items<Member>,
) -> Result<CoreClass, AllocError> {
    let mut linearisation = Items::from_slice(alloc, line)?;
    linearisation.push(ANY_REF)?;
    linearisation.push(ANY)?;
    Ok(CoreClass {
        symbol: line.first().copied().unwrap_or(ANY),
        name_span: NOWHERE,
        binary_name: text_of(alloc, name)?,
        kind,
        modifiers: UNMODIFIED,
        block: None,
        this: SymId(1000),
        type_parameters: Items::new(alloc),
        parameters: Items::new(alloc),
        parents: Items::new(alloc),
        linearisation,
        override_pairs: Items::new(alloc),
        members,
    })
}

fn class_type(alloc: Global, c: SymId) -> Plain {
    Plain::Cls(Path::None, c, Vec::new(alloc))
}

/// The types of the table, as the source has them.
pub fn source_types(alloc: Global) -> Result<Items<CoreType>, AllocError> {
    let mut types = Items::new(alloc);
    for c in [UNIT, BOOLEAN, INT, LONG, STRING] {
        types.push(CoreType::Plain(class_type(alloc, c)))?;
    }
    let mut strings = Vec::new(alloc);
    strings.push(class_type(alloc, STRING))?;
    types.push(CoreType::Plain(Plain::Cls(Path::None, ARRAY, strings)))?;
    Ok(types)
}

/// The erasures of the same.
pub fn erased_types(alloc: Global) -> Result<Items<CoreType>, AllocError> {
    let strings = Box::new(alloc, Erased::Ref(STRING))?;
    let mut types = Items::new(alloc);
    types.push(CoreType::Erased(Erased::Void))?;
    types.push(CoreType::Erased(Erased::Boolean))?;
    types.push(CoreType::Erased(Erased::Int))?;
    types.push(CoreType::Erased(Erased::Long))?;
    types.push(CoreType::Erased(Erased::Ref(STRING)))?;
    types.push(CoreType::Erased(Erased::Arr(strings)))?;
    Ok(types)
}

/// What types need of `object Main`, which stands in the owner.
fn heads(alloc: Global, owner: Option<SymId>) -> Result<Items<Head>, AllocError> {
    let mut heads = Items::new(alloc);
    heads.push(Head {
        symbol: OBJECT,
        name: text_of(alloc, "Main")?,
        kind: SymKind::Object,
        owner,
        upper: INT_TYPE,
    })?;
    Ok(heads)
}

/// The program of these classes and bodies. Its texts are the empty one and a line feed.
pub fn program(
    alloc: Global,
    classes: Items<CoreClass>,
    types: Items<CoreType>,
    owner: Option<SymId>,
    bodies: Items<Body>,
) -> Result<Program, AllocError> {
    let heads = heads(alloc, owner)?;
    let mut texts = Items::new(alloc);
    texts.push(Items::new(alloc))?;
    texts.push(Items::from_slice(alloc, &[10])?)?;
    let prelude = PreludeSymbols {
        functions: Items::new(alloc),
        some_value: None,
    };
    Ok(Program {
        table: Table {
            classes,
            heads,
            types,
            texts,
            prelude,
        },
        bodies,
        templates: Items::new(alloc),
        entries: Items::new(alloc),
        implicits: Items::new(alloc),
    })
}
