//! Which operands an operator takes, and the type of its value: SLS 6.12.3, 12.2, 12.3.1.

ghost use Rattle.std.specs.Prelude.{◌≡◌};
ghost use Rattle.scw_reader.specs.Outcome.{Gives};
ghost use Rattle.scw_small.specs.Rule as spec;
ghost use Rattle.scw_small.specs.View.{typed_of};

use crate::typed::{Typed, binary, conditional, truth};
use scw_core::{Logic, Op, Primitive, Width};
use scw_reader::{Failure, Operator, TypeName};
use scw_value::{Arithmetic, Comparison, Division};
use std::alloc::Global;

/// What an operator does on its operands.
#[derive(Clone, Copy, Debug, PartialEq, Eq)]
pub(crate) struct Rule {
    /// The operator of the built-in types.
    pub primitive: Primitive,
    /// The type of its value.
    pub kind: TypeName,
}

fn arithmetic(op: Arithmetic, kind: TypeName) -> Option<Rule>
    ensures { result ≡ spec.arithmetic op kind }
{
    match kind {
        TypeName::Int => Some(Rule {
            primitive: Primitive::Arithmetic(Width::Int, op),
            kind: TypeName::Int,
        }),
        TypeName::Long => Some(Rule {
            primitive: Primitive::Arithmetic(Width::Long, op),
            kind: TypeName::Long,
        }),
        TypeName::Unit | TypeName::Boolean | TypeName::String => None,
    }
}

fn division(op: Division, kind: TypeName) -> Option<Rule>
    ensures { result ≡ spec.division op kind }
{
    match kind {
        TypeName::Int => Some(Rule {
            primitive: Primitive::Division(Width::Int, op),
            kind: TypeName::Int,
        }),
        TypeName::Long => Some(Rule {
            primitive: Primitive::Division(Width::Long, op),
            kind: TypeName::Long,
        }),
        TypeName::Unit | TypeName::Boolean | TypeName::String => None,
    }
}

fn comparison(op: Comparison, kind: TypeName) -> Option<Rule>
    ensures { result ≡ spec.comparison op kind }
{
    match kind {
        TypeName::Int => Some(Rule {
            primitive: Primitive::Comparison(Width::Int, op),
            kind: TypeName::Boolean,
        }),
        TypeName::Long => Some(Rule {
            primitive: Primitive::Comparison(Width::Long, op),
            kind: TypeName::Boolean,
        }),
        TypeName::Unit | TypeName::Boolean | TypeName::String => None,
    }
}

/// `==` and `!=`
fn equality(op: Comparison, logic: Logic, kind: TypeName) -> Option<Rule>
    ensures { result ≡ spec.equality op logic kind }
{
    match kind {
        TypeName::Boolean => Some(Rule {
            primitive: Primitive::Logic(logic),
            kind: TypeName::Boolean,
        }),
        TypeName::Int | TypeName::Long => comparison(op, kind),
        TypeName::Unit | TypeName::String => None,
    }
}

/// Of an operator on two operands of the type.
fn operator_rule(operator: Operator, kind: TypeName) -> Option<Rule>
    ensures { result ≡ spec.operator_rule operator kind }
{
    match operator {
        Operator::Subtract => arithmetic(Arithmetic::Subtract, kind),
        Operator::Divide => division(Division::Divide, kind),
        Operator::Remainder => division(Division::Remainder, kind),
        Operator::Less => comparison(Comparison::Less, kind),
        Operator::LessOrEqual => comparison(Comparison::LessOrEqual, kind),
        Operator::Greater => comparison(Comparison::Greater, kind),
        Operator::GreaterOrEqual => comparison(Comparison::GreaterOrEqual, kind),
        Operator::Equal => equality(Comparison::Equal, Logic::Equal, kind),
        Operator::Unequal => equality(Comparison::NotEqual, Logic::NotEqual, kind),
        Operator::And | Operator::Or => None,
    }
}

fn times_rule(first: TypeName, second: TypeName) -> Option<Rule>
    ensures { result ≡ spec.times_rule first second }
{
    if first == second {
        arithmetic(Arithmetic::Multiply, first)
    } else {
        None
    }
}

fn plus_rule(first: TypeName, second: TypeName) -> Option<Rule>
    ensures { result ≡ spec.plus_rule first second }
{
    match first {
        TypeName::String => {
            if second == TypeName::Unit {
                None
            } else {
                Some(Rule {
                    primitive: Primitive::Concatenate,
                    kind: TypeName::String,
                })
            }
        }
        TypeName::Int | TypeName::Long => {
            if first == second {
                arithmetic(Arithmetic::Add, first)
            } else {
                None
            }
        }
        TypeName::Unit | TypeName::Boolean => None,
    }
}

/// The node of the rule.
fn combined(
    alloc: Global,
    rule: Option<Rule>,
    first: Typed,
    second: Typed,
) -> Result<Typed, Failure>
    ensures { Gives typed_of result (spec.combined rule (typed_of first) (typed_of second)) }
{
    let Some(Rule { primitive, kind }) = rule else {
        return Err(Failure::Other);
    };
    let op = Op::Primitive(primitive);
    Ok(binary(alloc, kind, op, first.tree, second.tree)?)
}

/// `a * b`
#[tactic(auto, unfolding(crate::specs::Rule::times))]
pub(crate) fn times(alloc: Global, first: Typed, second: Typed) -> Result<Typed, Failure>
    ensures { Gives typed_of result (spec.times (typed_of first) (typed_of second)) }
{
    combined(alloc, times_rule(first.kind, second.kind), first, second)
}

/// `a + b`
#[tactic(auto, unfolding(crate::specs::Rule::plus))]
pub(crate) fn plus(alloc: Global, first: Typed, second: Typed) -> Result<Typed, Failure>
    ensures { Gives typed_of result (spec.plus (typed_of first) (typed_of second)) }
{
    combined(alloc, plus_rule(first.kind, second.kind), first, second)
}

/// `a && b`, where both have one type.
#[tactic(auto, unfolding(crate::specs::Rule::and_also))]
fn and_also(alloc: Global, first: Typed, second: Typed) -> Result<Typed, Failure>
    ensures { Gives typed_of result (spec.and_also (typed_of first) (typed_of second)) }
{
    if first.kind != TypeName::Boolean {
        return Err(Failure::Other);
    }
    let no = truth(alloc, false).tree;
    Ok(conditional(alloc, TypeName::Boolean, first.tree, second.tree, no)?)
}

/// `a || b`, where both have one type.
#[tactic(auto, unfolding(crate::specs::Rule::or_else))]
fn or_else(alloc: Global, first: Typed, second: Typed) -> Result<Typed, Failure>
    ensures { Gives typed_of result (spec.or_else (typed_of first) (typed_of second)) }
{
    if first.kind != TypeName::Boolean {
        return Err(Failure::Other);
    }
    let yes = truth(alloc, true).tree;
    Ok(conditional(alloc, TypeName::Boolean, first.tree, yes, second.tree)?)
}

/// `a op b`
#[tactic(auto, unfolding(crate::specs::Rule::operated))]
pub(crate) fn operated(
    alloc: Global,
    operator: Operator,
    first: Typed,
    second: Typed,
) -> Result<Typed, Failure>
    ensures { Gives typed_of result (spec.operated operator (typed_of first) (typed_of second)) }
{
    if first.kind != second.kind {
        return Err(Failure::Other);
    }
    match operator {
        Operator::And => and_also(alloc, first, second),
        Operator::Or => or_else(alloc, first, second),
        Operator::Subtract
        | Operator::Divide
        | Operator::Remainder
        | Operator::Less
        | Operator::LessOrEqual
        | Operator::Greater
        | Operator::GreaterOrEqual
        | Operator::Equal
        | Operator::Unequal => {
            combined(alloc, operator_rule(operator, first.kind), first, second)
        }
    }
}

/// `if (a) b else c`
#[tactic(auto, unfolding(crate::specs::Rule::chosen))]
pub(crate) fn chosen(
    alloc: Global,
    test: Typed,
    first: Typed,
    second: Typed,
) -> Result<Typed, Failure>
    ensures { Gives typed_of result (spec.chosen (typed_of test) (typed_of first) (typed_of second)) }
{
    if test.kind != TypeName::Boolean || first.kind != second.kind {
        return Err(Failure::Other);
    }
    Ok(conditional(alloc, first.kind, test.tree, first.tree, second.tree)?)
}

/// `while (a) b`
#[tactic(auto, unfolding(crate::specs::Rule::repeated))]
pub(crate) fn repeated(alloc: Global, test: Typed, body: Typed) -> Result<Typed, Failure>
    ensures { Gives typed_of result (spec.repeated (typed_of test) (typed_of body)) }
{
    if test.kind != TypeName::Boolean {
        return Err(Failure::Other);
    }
    Ok(crate::typed::repeated(alloc, test.tree, body.tree)?)
}
