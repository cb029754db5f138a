//! The methods of a class, with their code.

ghost use Rattle.std.specs.Prelude.{◌≡◌, map, option_map, option_copied, Option, IfOk};
ghost use Rattle.scw_core.specs.Dispatch.{is_concrete};
ghost use Rattle.scw_core.specs.Entry.{is_def};
ghost use Rattle.scw_core.specs.Program.{look};
ghost use Rattle.scw_core.specs.ProgramOf.{body_of};
ghost use Rattle.scw_core.specs.TreeOf.{tree_of};
ghost use Rattle.scw_gen.specs.Around.{around_of};
ghost use Rattle.scw_gen.specs.Method as spec;
ghost use Rattle.scw_gen.specs.Outcome.{Gives};
ghost use Rattle.scw_gen.specs.Scope.{scope_of};

use crate::around::Around;
use crate::emit::emit;
use crate::failure::Failure;
use crate::instr::{Instr, bytes_of};
use crate::kind::{Kind, Word};
use crate::mode::{Mode, join, one};
use crate::name::{get_name, method_name, this_init};
use crate::pool::MethodName;
use crate::room::{locals_of, slot_behind, stack_of};
use crate::scope::{Scope, Slot, inside, placed};
use scw_core::{Body, BodyKind, Local, Member, MemberKind, Parameter, Tree};
use scw_text::{SymId, Units};
use std::alloc::{AllocError, Global};

/// The most bytes of a code whose jumps have ways of 16 bits.
pub const MAX_NEAR: u64 = 32_767;

/// A method of a class file, before its constants have their indices.
#[derive(Drop)]
pub(crate) struct Method {
    /// The access flags (JVMS 4.6).
    pub flags: u16,
    pub name: Units,
    pub descriptor: Units,
    pub instrs: Vec<Instr>,
    /// How deep the operand stack gets.
    pub stack: u64,
    /// How many local variables there are.
    pub locals: u64,
    /// How many of them the object and the arguments take.
    pub arguments: u64,
}

/// What the code of a method's body begins with.
#[derive(Drop)]
struct Start {
    scope: Scope,
    mode: Mode,
    /// What stands behind the code of the body.
    end: Option<Instr>,
    /// The first slot behind the parameters.
    next: u64,
}

fn is_concrete(body: BodyKind) -> bool
    ensures { result ≡ is_concrete body }
{
    match body {
        BodyKind::Deferred => false,
        BodyKind::Written => true,
    }
}

fn is_def(kind: MemberKind) -> bool
    ensures { result ≡ is_def kind }
{
    match kind {
        MemberKind::Def => true,
        MemberKind::Val | MemberKind::Var | MemberKind::LazyVal | MemberKind::Param => false,
    }
}

/// A method with a body, of the object, without type parameters.
pub(crate) fn is_method(m: &Member) -> bool
    ensures { result ≡ spec.is_method m.now }
{
    is_def(m.kind)
        && is_concrete(m.body)
        && !m.is_static
        && m.block.is_none()
        && m.type_parameters.as_slice().is_empty()
}

/// The body of a member.
#[tactic(auto, unfolding(scw_core::specs::Program::look))]
pub(crate) fn tree_in<'a>(bodies: &'a [Body], m: SymId) -> Option<&'a Tree>
    ensures { option_map tree_of (option_copied result) ≡ look (map body_of bodies.now) m }
{
    for body in bodies {
        if body.member.0 == m.0 {
            return Some(&body.tree);
        }
    }
    None
}

/// The parameters, as locals.
pub(crate) fn locals_of_parameters(
    g: &Around<'_>,
    parameters: &[Parameter],
) -> Result<Vec<Local>, AllocError>
    ensures { IfOk result (λ xs. xs.items ≡ map spec.local_of parameters.now) }
{
    let mut locals = Vec::new(g.alloc);
    for x in parameters {
        locals.push(Local {
            symbol: x.symbol,
            type_id: x.type_id,
        })?;
    }
    Ok(locals)
}

/// The scope of `this` alone.
fn outermost(g: &Around<'_>) -> Result<Scope, AllocError>
    ensures { IfOk result (λ s. scope_of s ≡ spec.outermost (around_of g.now)) }
{
    let mut slots = Vec::new(g.alloc);
    slots.push(Slot {
        symbol: g.class.this,
        place: 0,
        kind: Kind::This,
    })?;
    Ok(Scope { slots, next: 1 })
}

/// What becomes of the value of a body.
fn mode_of_body(k: Kind) -> Mode
    ensures { result ≡ spec.mode_of_body k }
{
    match k {
        Kind::Unit => Mode::Effect,
        Kind::Boolean | Kind::Int | Kind::Long | Kind::String | Kind::Strings | Kind::This =>
            Mode::Return(k.word()),
    }
}

/// What stands behind the code of a body: a result of `Unit` is none (JVMS 4.3.3).
fn end_of_body(k: Kind) -> Option<Instr>
    ensures { result ≡ spec.end_of_body k }
{
    match k {
        Kind::Unit => Some(Instr::ReturnNothing),
        Kind::Boolean | Kind::Int | Kind::Long | Kind::String | Kind::Strings | Kind::This => None,
    }
}

fn start_of(g: &Around<'_>, m: &Member) -> Result<Start, Failure>
    ensures { Gives spec.start_of_rust result (spec.start_of (around_of g.now) m.now) }
{
    let parameters = locals_of_parameters(g, m.parameters.as_slice())?;
    let inner = placed(g.alloc, g.table, g.class.symbol, 1, &parameters)?;
    let outer = outermost(g)?;
    let scope = inside(inner, &outer)?;
    match g.kind_at(m.result) {
        None => Err(Failure::Other),
        Some(k) => Ok(Start {
            scope,
            mode: mode_of_body(k),
            end: end_of_body(k),
            next: slot_behind(g, 1, &parameters),
        }),
    }
}

/// The code of a body, with jumps of one size.
fn body_code(g: &Around<'_>, start: &Start, tree: &Tree) -> Result<Vec<Instr>, Failure>
    ensures { Gives (λ v. v.items) result (spec.body_code (around_of g.now) (spec.start_of_rust start.now) (tree_of tree.now)) }
{
    let instrs = emit(g, &start.scope, start.mode, tree)?;
    let end = one(g.alloc, start.end)?;
    Ok(join(instrs, &end)?)
}

/// The code of a body: with jumps of 16 bits where they reach.
fn code_of_body(g: &Around<'_>, start: &Start, tree: &Tree) -> Result<Vec<Instr>, Failure>
    ensures { Gives (λ v. v.items) result (spec.code_of_body (around_of g.now) (spec.start_of_rust start.now) (tree_of tree.now)) }
{
    let near = Around {
        alloc: g.alloc,
        table: g.table,
        class: g.class,
        pool: g.pool,
        is_far: false,
    };
    let instrs = body_code(&near, start, tree)?;
    if bytes_of(&instrs) <= MAX_NEAR {
        return Ok(instrs);
    }
    let far = Around {
        alloc: g.alloc,
        table: g.table,
        class: g.class,
        pool: g.pool,
        is_far: true,
    };
    body_code(&far, start, tree)
}

fn method_by(g: &Around<'_>, m: &Member, tree: &Tree) -> Result<Method, Failure>
    ensures { Gives spec.method_of_rust result (spec.method_by (around_of g.now) m.now (tree_of tree.now)) }
{
    let start = start_of(g, m)?;
    let instrs = code_of_body(g, &start, tree)?;
    let MethodName {
        class: _,
        name,
        descriptor,
    } = method_name(g, m)?;
    Ok(Method {
        flags: 1,
        name,
        descriptor,
        instrs,
        stack: stack_of(g, start.mode, tree),
        locals: locals_of(g, start.next, tree),
        arguments: start.next,
    })
}

/// The method that a member is.
fn method_of(g: &Around<'_>, bodies: &[Body], m: &Member) -> Result<Method, Failure>
    ensures { Gives spec.method_of_rust result (spec.method_of (around_of g.now) (map body_of bodies.now) m.now) }
{
    if !is_method(m) {
        return Err(Failure::Other);
    }
    match tree_in(bodies, m.symbol) {
        None => Err(Failure::Other),
        Some(tree) => method_by(g, m, tree),
    }
}

/// The constructor.
fn constructor(g: &Around<'_>) -> Result<Method, AllocError>
    ensures { IfOk result (λ m. spec.method_of_rust m ≡ spec.constructor (around_of g.now)) }
{
    let MethodName {
        class: _,
        name,
        descriptor,
    } = this_init(g)?;
    let mut instrs = Vec::new(g.alloc);
    instrs.extend_from_slice(&[
        Instr::Load(Word::Reference, 0),
        Instr::InitObject,
        Instr::ReturnNothing,
    ])?;
    Ok(Method {
        flags: 1,
        name,
        descriptor,
        instrs,
        stack: 1,
        locals: 1,
        arguments: 1,
    })
}

/// The static method that gives the object.
fn getter(g: &Around<'_>) -> Result<Method, AllocError>
    ensures { IfOk result (λ m. spec.method_of_rust m ≡ spec.getter (around_of g.now)) }
{
    let MethodName {
        class: _,
        name,
        descriptor,
    } = get_name(g)?;
    let mut instrs = Vec::new(g.alloc);
    instrs.extend_from_slice(&[
        Instr::New,
        Instr::Dup,
        Instr::InitThis,
        Instr::Return(Word::Reference),
    ])?;
    Ok(Method {
        flags: 9,
        name,
        descriptor,
        instrs,
        stack: 2,
        locals: 0,
        arguments: 0,
    })
}

/// The methods of the class: the constructor, the one that gives the object, and the members.
#[tactic(auto, unfolding(crate::specs::Method::methods_from))]
pub(crate) fn methods_of(g: &Around<'_>, bodies: &[Body]) -> Result<Vec<Method>, Failure>
    ensures { Gives (λ v. map spec.method_of_rust v.items) result (spec.methods_of (around_of g.now) (map body_of bodies.now)) }
{
    let mut methods = Vec::new(g.alloc);
    methods.push(constructor(g)?)?;
    methods.push(getter(g)?)?;
    for m in g.class.members.as_slice() {
        methods.push(method_of(g, bodies, m)?)?;
    }
    Ok(methods)
}
