//! Which method programs begin with.

use crate::program::{
    INT_TYPE, OBJECT, STRINGS_TYPE, UNIT_TYPE, class, erased_types, method, program, source_types,
};
use scw_core::{ClassKind, MethodId, OverridePair, Program};
use scw_rows::text_of;
use scw_text::SymId;
use sqlite_items::Items;
use std::alloc::{AllocError, Global};
use std::test::Fail;

/// `class Base`, and its `main(Array[String]): Unit`.
const BASE: SymId = SymId(40);

const INHERITED: SymId = SymId(60);

/// The object's own `main(Int): Unit`.
const OWN: SymId = SymId(70);

/// The object overrides the inherited method by its own.
const OVERRIDDEN: [OverridePair; 1] = [OverridePair {
    overriding: OWN,
    overridden: INHERITED,
}];

/// What differs between the programs, and the name of the object that is sought.
#[derive(Clone, Copy)]
struct Case {
    is_erased: bool,
    pairs: &'static [OverridePair],
    owner: Option<SymId>,
    name: &'static str,
}

const TYPED: Case = Case {
    is_erased: false,
    pairs: &[],
    owner: None,
    name: "Main",
};

/// `class Base` with `main(Array[String]): Int` and `main(Array[String]): Unit`, and `object Main extends Base` with
/// `main(Int): Unit`.
fn program_of(alloc: Global, case: &Case) -> Result<Program, AllocError> {
    let mut members = Items::new(alloc);
    members.push(method(alloc, SymId(50), "main", &[STRINGS_TYPE], INT_TYPE)?)?;
    members.push(method(alloc, INHERITED, "main", &[STRINGS_TYPE], UNIT_TYPE)?)?;
    let mut classes = Items::new(alloc);
    classes.push(class(alloc, ClassKind::Class, "Base", &[BASE], members)?)?;
    let mut own = Items::new(alloc);
    own.push(method(alloc, OWN, "main", &[INT_TYPE], UNIT_TYPE)?)?;
    let mut object = class(alloc, ClassKind::Object, "Main$", &[OBJECT, BASE], own)?;
    object.override_pairs = Items::from_slice(alloc, case.pairs)?;
    classes.push(object)?;
    let types = if case.is_erased {
        erased_types(alloc)?
    } else {
        source_types(alloc)?
    };
    program(alloc, classes, types, case.owner, Items::new(alloc))
}

fn main_of(alloc: Global, case: &Case) -> Result<Option<MethodId>, AllocError> {
    let program = program_of(alloc, case)?;
    Ok(program.main(&text_of(alloc, case.name)?))
}

/// The place of the inherited method.
const FOUND: Option<MethodId> = Some(MethodId {
    object: 1,
    class: 0,
    member: 1,
});

#[test]
fn main_is_found_where_the_object_has_it(rt: HostRuntime) -> Result<(), Fail> {
    for (case, wanted, shows) in [
        (TYPED, FOUND, "by the types of the source"),
        (
            Case {
                is_erased: true,
                ..TYPED
            },
            FOUND,
            "by erased types",
        ),
        (
            Case {
                name: "Mai",
                ..TYPED
            },
            None,
            "another name",
        ),
        (
            Case {
                owner: Some(BASE),
                ..TYPED
            },
            None,
            "the object stands in a class",
        ),
        (
            Case {
                pairs: &OVERRIDDEN,
                ..TYPED
            },
            None,
            "the object overrides it by another",
        ),
    ] {
        assert!(rt; main_of(rt.alloc(), &case)? == wanted, "{shows}");
    }
    Ok(())
}
