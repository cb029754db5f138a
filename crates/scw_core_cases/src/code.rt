//! The code of programs of one object, or why it has none.

use crate::program::{
    INT_TYPE, LONG_TYPE, OBJECT, UNIT_TYPE, class, method, program, source_types,
};
use crate::tree::trees_of;
use scw_core::{Body, ClassKind, Member, Program};
use scw_dis::dis;
use scw_gen::{GenFault, generate};
use scw_text::{SymId, TypeId};
use sqlite_items::Items;
use std::alloc::{AllocError, Global};
use std::test::Fail;

/// The two methods of an object.
const F: SymId = SymId(60);

const G: SymId = SymId(61);

/// An object with the method `f`, and perhaps another one.
#[derive(Clone, Copy)]
struct Case<'c> {
    /// The binary name of its class.
    class: &'c str,
    parameters: &'c [TypeId],
    result: TypeId,
    /// The words of f's body.
    body: &'c str,
    /// The name of a second method `(n: Int): Int`, which gives `n`.
    other: Option<&'c str>,
}

/// `object Main { def f(n: Int): Int = n }`
const NUMBER: Case<'static> = Case {
    class: "Main$",
    parameters: &[INT_TYPE],
    result: INT_TYPE,
    body: "n",
    other: None,
};

/// The same with a result of type `Unit`.
const NOTHING: Case<'static> = Case {
    result: UNIT_TYPE,
    ..NUMBER
};

fn bodies_of(alloc: Global, case: &Case<'_>) -> Result<Items<Body>, AllocError> {
    let mut bodies = Items::new(alloc);
    for tree in trees_of(alloc, case.body)? {
        bodies.push(Body { member: F, tree })?;
    }
    if case.other.is_some() {
        for tree in trees_of(alloc, "n")? {
            bodies.push(Body { member: G, tree })?;
        }
    }
    Ok(bodies)
}

fn members_of(alloc: Global, case: &Case<'_>) -> Result<Items<Member>, AllocError> {
    let mut members = Items::new(alloc);
    members.push(method(alloc, F, "f", case.parameters, case.result)?)?;
    if let Some(name) = case.other {
        members.push(method(alloc, G, name, &[INT_TYPE], INT_TYPE)?)?;
    }
    Ok(members)
}

fn program_of(alloc: Global, case: &Case<'_>) -> Result<Program, AllocError> {
    let members = members_of(alloc, case)?;
    let mut classes = Items::new(alloc);
    classes.push(class(alloc, ClassKind::Object, case.class, &[OBJECT], members)?)?;
    program(
        alloc,
        classes,
        source_types(alloc)?,
        None,
        bodies_of(alloc, case)?,
    )
}

/// The text of the program's class.
fn class_text(alloc: Global, program: &Program) -> Result<String, GenFault> {
    let [class] = program.table.classes.as_slice() else {
        return Err(GenFault::NotBuilt);
    };
    let file = generate(alloc, program, class)?;
    match dis(alloc, &file) {
        Ok(text) => Ok(text.as_slice().iter().copied().collect(alloc)?),
        Err(_) => Err(GenFault::NoMemory),
    }
}

/// The text of the class, or why there is none.
fn answer(alloc: Global, case: &Case<'_>) -> Result<String, AllocError> {
    match class_text(alloc, &program_of(alloc, case)?) {
        Ok(text) => Ok(text),
        Err(GenFault::TooLarge(large)) => format!(in alloc; "{:?} {}", large.kind, large.number),
        Err(GenFault::NotBuilt) => format!(in alloc; "not built"),
        Err(GenFault::NoMemory) => Err(AllocError),
    }
}

/// Its bodies stand in tree.rt's words. The answer has this text in it.
#[rattlefmt::skip]
const CASES: [(Case<'static>, &str, &str); 20] = [
    (Case { body: COUNTED, ..NOTHING }, COUNTED_CODE, "one branch of each `if` does nothing"),
    (Case { body: "1 2 cell=", ..NUMBER }, "not built", "a cell has no code"),
    (Case { body: "n 1 +", ..NUMBER }, "method 0001 f (I)I\n", "n + 1"),
    (Case { body: "n true +", ..NUMBER }, "not built", "n + true"),
    (Case { body: "true", ..NUMBER }, "not built", "the result is no Int"),
    (Case { body: "1:Long", result: LONG_TYPE, ..NUMBER }, "not built", "the node tells another type"),
    (Case { body: "n 2 < 1 () if", ..NUMBER }, "not built", "a branch is no Int"),
    (Case { body: "n 1 2 if", ..NUMBER }, "not built", "the test is no Boolean"),
    (Case { body: "n x= x {x:Int", ..NUMBER }, "  stack 1 locals 3\n", "x has a value: a number; this, n and x"),
    (Case { body: "() x {x:Int", ..NUMBER }, "not built", "x has no value"),
    (Case { body: "n 2 < n x= () if() x {x:Int", ..NUMBER }, "not built", "a branch gives x no value"),
    (Case { body: "() n {y:Int n {x:Int", ..NUMBER }, "method 0001 f (I)I\n", "y inside x"),
    (Case { body: "() n {x:Int n {x:Int", ..NUMBER }, "not built", "x inside x"),
    (Case { body: "() n {n:Int n {x:Int", ..NUMBER }, "not built", "a parameter"),
    (Case { other: Some("g"), ..NUMBER }, "method 0001 g (I)I\n", "f and g"),
    (Case { other: Some("f"), ..NUMBER }, "not built", "f and f"),
    (Case { class: "Main", ..NUMBER }, "not built", "the name of an object's class ends in a dollar"),
    (Case { class: "", ..NUMBER }, "not built", "an empty name"),
    (Case { class: "$;$", ..NUMBER }, "not built", "a semicolon in a name"),
    (Case { class: "[$", ..NUMBER }, "not built", "a bracket in a name"),
];

/// `{ var x: Long; if (n < 0) () else n = n + 1; if (n < 5) n = n + 1 else () }`
const COUNTED: &str = "n 0 < () n 1 + n= if() n 5 < n 1 + n= () if() {x:Long";

/// Two numbers on the stack; this, n and x.
const COUNTED_CODE: &str = "method 0001 f (I)V
  stack 2 locals 4
  0: iload_1
  1: iconst_0
  2: if_icmplt 9
  5: iload_1
  6: iconst_1
  7: iadd
  8: istore_1
  9: iload_1
  10: iconst_5
  11: if_icmpge 18
  14: iload_1
  15: iconst_1
  16: iadd
  17: istore_1
  18: return
";

#[test]
fn a_program_has_its_code_or_none(rt: HostRuntime) -> Result<(), Fail> {
    for (case, wanted, shows) in &CASES {
        let answer = answer(rt.alloc(), case)?;
        assert!(rt; answer.contains(*wanted), "{shows}: {answer}");
    }
    Ok(())
}

/// `this` and 127 numbers of two slots, and one number of one slot more.
const MOST: [TypeId; 127] = [LONG_TYPE; 127];

#[test]
fn parameters_take_at_most_255_slots(rt: HostRuntime) -> Result<(), Fail> {
    let mut one_more = MOST.to_vec(rt.alloc())?;
    one_more.push(INT_TYPE)?;
    for (parameters, wanted) in [
        (MOST.as_slice(), "  stack 1 locals 255\n"),
        (one_more.as_slice(), "Slots 256"),
    ] {
        let case = Case {
            parameters,
            body: "1",
            ..NUMBER
        };
        let answer = answer(rt.alloc(), &case)?;
        assert!(rt; answer.contains(wanted), "{answer}");
    }
    Ok(())
}

/// `{ println(1); .. }` with so many statements, each of 20 bytes of code. Behind them is a return.
fn lines(alloc: Global, count: usize) -> Result<String, AllocError> {
    let mut words = String::new(alloc);
    for _ in 0..count {
        words.push_str("empty 1 . feed . print ")?;
    }
    words.push_str("{")?;
    Ok(words)
}

#[test]
fn a_method_has_at_most_65535_bytes_of_code(rt: HostRuntime) -> Result<(), Fail> {
    for (count, wanted) in [
        (3_276, "65520: return\n"),
        (3_277, "Code 65541"),
        (20_000, "Code 400001"),
    ] {
        let words = lines(rt.alloc(), count)?;
        let case = Case {
            body: words.as_str(),
            ..NOTHING
        };
        let answer = answer(rt.alloc(), &case)?;
        assert!(rt; answer.contains(wanted), "{count} lines");
    }
    Ok(())
}
