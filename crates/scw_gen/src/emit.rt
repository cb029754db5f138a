//! The code of trees.

ghost use Rattle.std.specs.Prelude.{◌≡◌, Some, IfOk};
ghost use Rattle.scw_core.specs.TreeOf.{tree_of, trees_view};
ghost use Rattle.scw_core.specs.Tree.{info_of};
ghost use Rattle.scw_gen.specs.Around.{around_of};
ghost use Rattle.scw_gen.specs.Code as spec;
ghost use Rattle.scw_gen.specs.Mode.{tail_of, unit};
ghost use Rattle.scw_gen.specs.Outcome.{Gives};
ghost use Rattle.scw_gen.specs.Scope.{scope_of};

use crate::around::Around;
use crate::failure::Failure;
use crate::instr::{Instr, plus, room_of};
use crate::mode::{
    Mode, Tail, alone, both, branches, decided, join, jump_back, jump_size, mode_of_test, unit,
};
use crate::operator::{Form, form_of, op_code, text_of};
use crate::scope::{Scope, inside, placed};
use scw_core::{Literal, Local, NodeInfo, Op, Tree};
use std::alloc::AllocError;

fn truth_of_op(op: Op) -> Option<bool>
    ensures { result ≡ spec.truth_of_op op }
{
    match op {
        Op::Literal(Literal::Boolean(b)) => Some(b),
        Op::Literal(Literal::Unit | Literal::Char(_) | Literal::Int(_) | Literal::Long(_)) => None,
        Op::Literal(Literal::Null | Literal::String(_)) => None,
        Op::Local(_) | Op::SetLocal(_) | Op::Call(_) | Op::Primitive(_) | Op::Run(_) => None,
        Op::Get(_) | Op::Set(_) | Op::LazyGet(_) | Op::Module(_) => None,
        Op::New(_) | Op::NewInner(_) | Op::Super(..) | Op::Direct(_) => None,
        Op::Static(..) | Op::GetStatic(..) | Op::SetStatic(..) => None,
        Op::Force | Op::Throw | Op::Exit(_) => None,
        Op::IsA(_) | Op::Cast(_) | Op::Coerce(_) | Op::Box | Op::Unbox(_) => None,
        Op::ArrayNew(_) | Op::ArrayGet | Op::ArraySet | Op::ArrayLength => None,
        Op::Cell | Op::CellGet | Op::CellSet => None,
    }
}

/// The value of a Boolean constant.
fn truth_of(tree: &Tree) -> Option<bool>
    ensures { result ≡ spec.truth_of (tree_of tree.now) }
{
    match tree {
        Tree::Strict(_, op, _) => truth_of_op(*op),
        Tree::Block(..) | Tree::AndAlso(..) | Tree::OrElse(..) | Tree::If(..) => None,
        Tree::While(..) | Tree::Function(..) | Tree::Thunk(..) | Tree::Match(..) => None,
        Tree::Try(..) | Tree::Label(..) | Tree::Switch(..) => None,
    }
}

/// What a node has of its own.
pub(crate) fn info_of(tree: &Tree) -> NodeInfo
    ensures { result ≡ info_of (tree_of tree.now) }
{
    match tree {
        Tree::Strict(i, ..) | Tree::Block(i, ..) | Tree::AndAlso(i, ..) | Tree::OrElse(i, ..) => *i,
        Tree::If(i, ..) | Tree::While(i, ..) | Tree::Function(i, ..) | Tree::Thunk(i, ..) => *i,
        Tree::Match(i, ..) | Tree::Try(i, ..) | Tree::Label(i, ..) | Tree::Switch(i, ..) => *i,
    }
}

/// A loop of a test and a body.
fn loop_of(far: bool, test: Vec<Instr>, body: &[Instr]) -> Result<Vec<Instr>, AllocError>
    ensures { IfOk result (λ v. v.items ≡ spec.loop far test.items body.now) }
{
    let way = plus(room_of(&test), room_of(body));
    let turn = join(test, body)?;
    join(turn, &[jump_back(far, way)])
}

/// What stands behind the statements of a block.
fn block_end(g: &Around<'_>, mode: Mode, statements: &[Tree]) -> Result<Vec<Instr>, AllocError>
    ensures { IfOk result (λ v. v.items ≡ spec.block_end g.now.is_far mode (trees_view statements.now)) }
{
    match statements {
        [] => unit(g.alloc, g.is_far, mode),
        [_t, ..] => Ok(Vec::new(g.alloc)),
    }
}

/// The code of a tree.
#[tactic(auto, unfolding(crate::specs::Code::code))]
#[cycle(emit)]
pub(crate) fn emit(
    g: &Around<'_>,
    scope: &Scope,
    mode: Mode,
    tree: &Tree,
) -> Result<Vec<Instr>, Failure>
    ensures { Gives (λ v. v.items) result (spec.code (around_of g.now) (scope_of scope.now) mode (tree_of tree.now)) }
{
    match tree {
        Tree::Strict(_, op, operands) => {
            let first = emit_operands(g, scope, form_of(mode, *op), operands.as_slice())?;
            let end = op_code(g, scope, mode, *op)?;
            Ok(join(first, &end)?)
        }
        Tree::Block(_, locals, statements) => {
            emit_block(g, scope, mode, locals.as_slice(), statements.as_slice())
        }
        Tree::If(_, a, b, c) => emit_if(g, scope, mode, a, b, c),
        Tree::While(_, a, b) => emit_while(g, scope, mode, a, b),
        Tree::AndAlso(..) | Tree::OrElse(..) | Tree::Function(..) | Tree::Thunk(..) => {
            Err(Failure::Other)
        }
        Tree::Match(..) | Tree::Try(..) | Tree::Label(..) | Tree::Switch(..) => {
            Err(Failure::Other)
        }
    }
}

/// The code of the operands of a node.
#[tactic(auto, unfolding(crate::specs::Code::operands))]
#[cycle(emit)]
fn emit_operands(
    g: &Around<'_>,
    scope: &Scope,
    form: Form,
    operands: &[Tree],
) -> Result<Vec<Instr>, Failure>
    ensures { Gives (λ v. v.items) result (spec.operands (around_of g.now) (scope_of scope.now) form (trees_view operands.now)) }
{
    let mut instrs = Vec::new(g.alloc);
    for operand in operands {
        let more = emit_operand(g, scope, form, operand)?;
        instrs.extend_from_slice(&more)?;
    }
    Ok(instrs)
}

#[cycle(emit)]
fn emit_operand(
    g: &Around<'_>,
    scope: &Scope,
    form: Form,
    operand: &Tree,
) -> Result<Vec<Instr>, Failure>
    ensures { Gives (λ v. v.items) result (spec.operand (around_of g.now) form (info_of (tree_of operand.now)).type_id (λ n. spec.code (around_of g.now) (scope_of scope.now) n (tree_of operand.now))) }
{
    match form {
        Form::Values => emit(g, scope, Mode::Value, operand),
        Form::Effects => emit(g, scope, Mode::Effect, operand),
        Form::Texts => {
            let value = emit(g, scope, Mode::Value, operand)?;
            let text = text_of(g, g.kind_at(info_of(operand).type_id))?;
            Ok(join(value, &text)?)
        }
    }
}

/// The code of a block.
#[cycle(emit)]
fn emit_block(
    g: &Around<'_>,
    scope: &Scope,
    mode: Mode,
    locals: &[Local],
    statements: &[Tree],
) -> Result<Vec<Instr>, Failure>
    ensures { Gives (λ v. v.items) result (spec.block_code (around_of g.now) (scope_of scope.now) mode locals.now (λ s. spec.statements (around_of g.now) s mode (trees_view statements.now)) (spec.block_end g.now.is_far mode (trees_view statements.now))) }
{
    let inner = placed(g.alloc, g.table, g.class.symbol, scope.next, locals)?;
    let inner = inside(inner, scope)?;
    let first = emit_statements(g, &inner, mode, statements)?;
    let end = block_end(g, mode, statements)?;
    Ok(join(first, &end)?)
}

/// The code of the statements of a block.
#[tactic(auto, unfolding(crate::specs::Code::statements))]
#[cycle(emit)]
fn emit_statements(
    g: &Around<'_>,
    scope: &Scope,
    mode: Mode,
    statements: &[Tree],
) -> Result<Vec<Instr>, Failure>
    ensures { Gives (λ v. v.items) result (spec.statements (around_of g.now) (scope_of scope.now) mode (trees_view statements.now)) }
{
    match statements {
        [] => Ok(Vec::new(g.alloc)),
        [before @ .., last] => {
            let first = emit_operands(g, scope, Form::Effects, before)?;
            let end = emit(g, scope, mode, last)?;
            Ok(join(first, &end)?)
        }
    }
}

/// The code of a choice.
#[cycle(emit)]
fn emit_if(
    g: &Around<'_>,
    scope: &Scope,
    mode: Mode,
    a: &Tree,
    b: &Tree,
    c: &Tree,
) -> Result<Vec<Instr>, Failure>
    ensures { Gives (λ v. v.items) result (spec.choice_code (λ n. spec.code (around_of g.now) (scope_of scope.now) n (tree_of a.now)) (spec.choice g.now.is_far mode (spec.truth_of (tree_of b.now)) (spec.truth_of (tree_of c.now)) (λ n. spec.code (around_of g.now) (scope_of scope.now) n (tree_of b.now)) (λ n. spec.code (around_of g.now) (scope_of scope.now) n (tree_of c.now)))) }
{
    let tail = emit_choice(g, scope, mode, b, c)?;
    let test = emit(g, scope, mode_of_test(tail.sense, tail.way), a)?;
    Ok(join(test, &tail.instrs)?)
}

/// What stands behind the test of a choice.
#[cycle(emit)]
fn emit_choice(
    g: &Around<'_>,
    scope: &Scope,
    mode: Mode,
    b: &Tree,
    c: &Tree,
) -> Result<Tail, Failure>
    ensures { Gives tail_of result (spec.choice g.now.is_far mode (spec.truth_of (tree_of b.now)) (spec.truth_of (tree_of c.now)) (λ n. spec.code (around_of g.now) (scope_of scope.now) n (tree_of b.now)) (λ n. spec.code (around_of g.now) (scope_of scope.now) n (tree_of c.now))) }
{
    match mode {
        Mode::Test(sense, way) => emit_test_choice(g, scope, sense, way, b, c),
        Mode::Value | Mode::Effect | Mode::Return(_) => {
            let first = emit(g, scope, mode, b)?;
            let second = emit(g, scope, mode, c)?;
            Ok(branches(g.is_far, mode, first, second)?)
        }
    }
}

/// What stands behind the test of a choice that is itself a test.
#[cycle(emit)]
fn emit_test_choice(
    g: &Around<'_>,
    scope: &Scope,
    sense: bool,
    way: u16,
    b: &Tree,
    c: &Tree,
) -> Result<Tail, Failure>
    ensures { Gives tail_of result (spec.test_choice g.now.is_far sense way (spec.truth_of (tree_of b.now)) (spec.truth_of (tree_of c.now)) (λ n. spec.code (around_of g.now) (scope_of scope.now) n (tree_of b.now)) (λ n. spec.code (around_of g.now) (scope_of scope.now) n (tree_of c.now))) }
{
    if let Some(constant) = truth_of(c) {
        let first = emit(g, scope, Mode::Test(sense, way), b)?;
        return Ok(decided(sense, way, constant, alone(false, first)));
    }
    let second = emit(g, scope, Mode::Test(sense, way), c)?;
    if let Some(constant) = truth_of(b) {
        return Ok(decided(sense, way, constant, alone(true, second)));
    }
    let farther = plus(plus(room_of(&second), jump_size(g.is_far)), way);
    let first = emit(g, scope, Mode::Test(sense, farther), b)?;
    Ok(both(g.is_far, first, &second)?)
}

/// The code of a loop.
#[cycle(emit)]
fn emit_while(
    g: &Around<'_>,
    scope: &Scope,
    mode: Mode,
    a: &Tree,
    b: &Tree,
) -> Result<Vec<Instr>, Failure>
    ensures { Gives (λ v. v.items) result (spec.joined (spec.repeated g.now.is_far (λ n. spec.code (around_of g.now) (scope_of scope.now) n (tree_of a.now)) (λ n. spec.code (around_of g.now) (scope_of scope.now) n (tree_of b.now))) (Some (unit g.now.is_far mode))) }
{
    let body = emit(g, scope, Mode::Effect, b)?;
    let way = plus(room_of(&body), jump_size(g.is_far));
    let test = emit(g, scope, Mode::Test(false, way), a)?;
    let turns = loop_of(g.is_far, test, &body)?;
    let end = unit(g.alloc, g.is_far, mode)?;
    Ok(join(turns, &end)?)
}
