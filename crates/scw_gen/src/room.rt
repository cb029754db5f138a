//! How deep the operand stack gets, and how many local variables there are (JVMS 2.6, 4.7.3).

ghost use Rattle.std.specs.Prelude.{◌≡◌, ◌+◌, ◌-◌, ◌^◌, max, min, Option};
ghost use Rattle.scw_core.specs.TreeOf.{tree_of, trees_view};
ghost use Rattle.scw_core.specs.Tree.{info_of};
ghost use Rattle.scw_gen.specs.Around.{around_of};
ghost use Rattle.scw_gen.specs.Room as spec;

use crate::around::Around;
use crate::emit::info_of;
use crate::kind::Kind;
use crate::mode::Mode;
use crate::operator::{Form, form_of, member_in};
use scw_core::{Literal, Local, Op, Tree};
use scw_text::{SymId, TypeId};

/// The sum, or the largest number of 64 bits.
fn sum(a: u64, b: u64) -> u64
    ensures { result ≡ spec.sum a b }
{
    a.saturating_add(b)
}

fn width(k: Option<Kind>) -> u64
    ensures { result ≡ spec.width k }
{
    match k {
        None => 1,
        Some(k) => u64::from(k.width()),
    }
}

/// How many words of the stack a value of the type takes.
fn width_at(g: &Around<'_>, t: TypeId) -> u64
    ensures { result ≡ spec.width_at (around_of g.now) t }
{
    width(g.kind_at(t))
}

/// What a value takes that is never made where it would be dropped.
fn of_given(mode: Mode, words: u64) -> u64
    ensures { result ≡ spec.of_given mode words }
{
    match mode {
        Mode::Effect => 0,
        Mode::Value | Mode::Test(..) | Mode::Return(_) => words,
    }
}

/// What a Boolean constant takes.
fn of_truth(mode: Mode) -> u64
    ensures { result ≡ spec.of_truth mode }
{
    match mode {
        Mode::Effect | Mode::Test(..) => 0,
        Mode::Value | Mode::Return(_) => 1,
    }
}

fn of_literal(mode: Mode, l: Literal) -> u64
    ensures { result ≡ spec.of_literal mode l }
{
    match l {
        Literal::Boolean(_) => of_truth(mode),
        Literal::Long(_) => of_given(mode, 2),
        Literal::Unit | Literal::Char(_) | Literal::Int(_) | Literal::Null | Literal::String(_) => {
            of_given(mode, 1)
        }
    }
}

fn of_result(mode: Mode, k: Option<Kind>) -> u64
    ensures { result ≡ spec.of_result mode k }
{
    match k {
        None | Some(Kind::Unit) => of_given(mode, 1),
        Some(Kind::Long) => 2,
        Some(Kind::Boolean | Kind::Int | Kind::String | Kind::Strings | Kind::This) => 1,
    }
}

fn of_call(g: &Around<'_>, mode: Mode, m: SymId) -> u64
    ensures { result ≡ spec.of_call (around_of g.now) mode m }
{
    match member_in(g.class.members.as_slice(), m) {
        None => 0,
        Some(member) => of_result(mode, g.kind_at(member.result)),
    }
}

/// How deep the stack gets by an operator that has taken its operands.
fn of_op(g: &Around<'_>, mode: Mode, op: Op, t: TypeId) -> u64
    ensures { result ≡ spec.of_op (around_of g.now) mode op t }
{
    match op {
        Op::Literal(l) => of_literal(mode, l),
        Op::Local(_) => of_given(mode, width_at(g, t)),
        Op::SetLocal(_) | Op::Run(_) => of_given(mode, 1),
        Op::Call(m) => of_call(g, mode, m),
        Op::Primitive(_) => 0,
        Op::Get(_) | Op::Set(_) | Op::LazyGet(_) | Op::Module(_) => 0,
        Op::New(_) | Op::NewInner(_) | Op::Super(..) | Op::Direct(_) => 0,
        Op::Static(..) | Op::GetStatic(..) | Op::SetStatic(..) => 0,
        Op::Force | Op::Throw | Op::Exit(_) => 0,
        Op::IsA(_) | Op::Cast(_) | Op::Coerce(_) | Op::Box | Op::Unbox(_) => 0,
        Op::ArrayNew(_) | Op::ArrayGet | Op::ArraySet | Op::ArrayLength => 0,
        Op::Cell | Op::CellGet | Op::CellSet => 0,
    }
}

fn mode_of_operand(form: Form) -> Mode
    ensures { result ≡ spec.mode_of_operand form }
{
    match form {
        Form::Values | Form::Texts => Mode::Value,
        Form::Effects => Mode::Effect,
    }
}

/// What an operand leaves on the stack.
fn left_by(g: &Around<'_>, form: Form, t: TypeId) -> u64
    ensures { result ≡ spec.left_by (around_of g.now) form t }
{
    match form {
        Form::Values => width_at(g, t),
        Form::Effects => 0,
        Form::Texts => 1,
    }
}

/// What stands behind the statements of a block.
fn of_end(mode: Mode, statements: &[Tree]) -> u64
    ensures { result ≡ spec.of_end mode (trees_view statements.now) }
{
    match statements {
        [] => of_given(mode, 1),
        [_t, ..] => 0,
    }
}

/// How deep the stack gets by the code of a tree.
#[cycle(stack)]
#[tactic(auto, unfolding(crate::specs::Room::stack_of))]
pub(crate) fn stack_of(g: &Around<'_>, mode: Mode, tree: &Tree) -> u64
    ensures { result ≡ spec.stack_of (around_of g.now) mode (tree_of tree.now) }
{
    match tree {
        Tree::Strict(i, op, operands) => {
            let behind = of_op(g, mode, *op, i.type_id);
            stack_of_operands(g, form_of(mode, *op), operands.as_slice()).max(behind)
        }
        Tree::Block(_, _, statements) => {
            let ends = of_end(mode, statements.as_slice());
            stack_of_statements(g, mode, statements.as_slice()).max(ends)
        }
        Tree::If(_, a, b, c) => {
            let branches = stack_of(g, mode, b).max(stack_of(g, mode, c));
            stack_of(g, Mode::Test(true, 0), a).max(branches)
        }
        Tree::While(_, a, b) => {
            let body = stack_of(g, Mode::Effect, b).max(of_given(mode, 1));
            stack_of(g, Mode::Test(true, 0), a).max(body)
        }
        Tree::AndAlso(..) | Tree::OrElse(..) | Tree::Function(..) | Tree::Thunk(..) => 0,
        Tree::Match(..) | Tree::Try(..) | Tree::Label(..) | Tree::Switch(..) => 0,
    }
}

#[cycle(stack)]
#[tactic(auto, unfolding(crate::specs::Room::stack_of_operands))]
fn stack_of_operands(g: &Around<'_>, form: Form, operands: &[Tree]) -> u64
    ensures { result ≡ spec.stack_of_operands (around_of g.now) form 0 (trees_view operands.now) }
{
    let mut depth: u64 = 0;
    let mut most: u64 = 0;
    for operand in operands {
        most = most.max(sum(depth, stack_of(g, mode_of_operand(form), operand)));
        depth = sum(depth, left_by(g, form, info_of(operand).type_id));
    }
    most.max(depth)
}

#[cycle(stack)]
#[tactic(auto, unfolding(crate::specs::Room::stack_of_statements))]
fn stack_of_statements(g: &Around<'_>, mode: Mode, statements: &[Tree]) -> u64
    ensures { result ≡ spec.stack_of_statements (around_of g.now) mode (trees_view statements.now) }
{
    match statements {
        [] => 0,
        [before @ .., last] => { stack_of_effects(g, before).max(stack_of(g, mode, last)) }
    }
}

/// By the statements before the last one.
#[cycle(stack)]
#[tactic(auto, unfolding(crate::specs::Room::stack_of_effects))]
fn stack_of_effects(g: &Around<'_>, statements: &[Tree]) -> u64
    ensures { result ≡ spec.stack_of_effects (around_of g.now) (trees_view statements.now) }
{
    let mut most: u64 = 0;
    for statement in statements {
        most = most.max(stack_of(g, Mode::Effect, statement));
    }
    most
}

/// The first slot that is free behind these locals.
#[tactic(auto, unfolding(crate::specs::Room::slot_behind))]
pub(crate) fn slot_behind(g: &Around<'_>, next: u64, locals: &[Local]) -> u64
    ensures { result ≡ spec.slot_behind (around_of g.now) next locals.now }
{
    let mut next = next;
    for x in locals {
        next = sum(next, width_at(g, x.type_id));
    }
    next
}

/// How many local variables the code of a tree needs, where so many are taken before it.
#[cycle(locals)]
#[tactic(auto, unfolding(crate::specs::Room::locals_of))]
pub(crate) fn locals_of(g: &Around<'_>, next: u64, tree: &Tree) -> u64
    ensures { result ≡ spec.locals_of (around_of g.now) next (tree_of tree.now) }
{
    match tree {
        Tree::Strict(_, _, operands) => locals_of_all(g, next, operands.as_slice()).max(next),
        Tree::Block(_, locals, statements) => {
            let behind = slot_behind(g, next, locals.as_slice());
            locals_of_all(g, behind, statements.as_slice()).max(behind)
        }
        Tree::If(_, a, b, c) => {
            let branches = locals_of(g, next, b).max(locals_of(g, next, c));
            locals_of(g, next, a).max(branches)
        }
        Tree::While(_, a, b) => locals_of(g, next, a).max(locals_of(g, next, b)),
        Tree::AndAlso(..) | Tree::OrElse(..) | Tree::Function(..) | Tree::Thunk(..) => next,
        Tree::Match(..) | Tree::Try(..) | Tree::Label(..) | Tree::Switch(..) => next,
    }
}

#[cycle(locals)]
#[tactic(auto, unfolding(crate::specs::Room::locals_of_all))]
fn locals_of_all(g: &Around<'_>, next: u64, trees: &[Tree]) -> u64
    ensures { result ≡ spec.locals_of_all (around_of g.now) next (trees_view trees.now) }
{
    let mut most: u64 = 0;
    for tree in trees {
        most = most.max(locals_of(g, next, tree));
    }
    most
}
