//! Which trees have code: those that are well typed, and that read no local before it is set (SLS 6.1).

ghost use Rattle.std.specs.Prelude.{◌≡◌, map, option_map, position, IfOk};
ghost use Rattle.scw_core.specs.Types.{same_symbol};
ghost use Rattle.scw_core.specs.ProgramOf.{body_of};
ghost use Rattle.scw_core.specs.TreeOf.{tree_of, trees_view};
ghost use Rattle.scw_gen.specs.Around.{around_of};
ghost use Rattle.scw_gen.specs.Outcome.{◌>>=◌ as then, Gives};
ghost use Rattle.scw_gen.specs.Typed as spec;
ghost use Rattle.scw_gen.specs.declared.kind.Kind.TheVariants as kind;
ghost use Rattle.scw_gen.specs.declared.typed.Known.{Known};

use crate::around::Around;
use crate::failure::Failure;
use crate::kind::Kind;
use crate::method::{locals_of_parameters, tree_in};
use crate::typed_op::{exactly, kind_of_op, same_kind, there};
use scw_core::{Body, Local, Member, Op, Tree};
use scw_text::{SymId, TypeId};
use std::alloc::{AllocError, Global};

/// A local that is bound.
#[derive(Clone, Copy, Debug, PartialEq, Eq)]
pub struct Known {
    pub symbol: SymId,
    /// What its value is.
    pub kind: Kind,
    /// It has a value by now.
    pub is_set: bool,
}

/// The local of the symbol. The innermost comes first.
#[tactic(auto, unfolding(crate::specs::Typed::known))]
pub(crate) fn known_in(known: &[Known], x: SymId) -> Option<Known>
    ensures { option_map spec.known_of result ≡ spec.known (map spec.known_of known.now) x }
{
    for y in known {
        if y.symbol.0 == x.0 {
            return Some(*y);
        }
    }
    None
}

/// With locals more, the last of which comes first; none has the symbol of one that is bound.
#[tactic(auto, unfolding(crate::specs::Typed::bound))]
fn bound(g: &Around<'_>, locals: &[Local], outer: &[Known]) -> Result<Vec<Known>, Failure>
    ensures { Gives (λ v. map spec.known_of v.items) result (spec.bound (around_of g.now) locals.now (map spec.known_of outer.now)) }
{
    let mut inner = Vec::new(g.alloc);
    inner.extend_from_slice(outer)?;
    for x in locals {
        if known_in(&inner, x.symbol).is_some() {
            return Err(Failure::Other);
        }
        let kind = match g.kind_at(x.type_id) {
            None => return Err(Failure::Other),
            Some(kind) => kind,
        };
        inner.insert(
            0,
            Known {
                symbol: x.symbol,
                kind,
                is_set: false,
            },
        )?;
    }
    Ok(inner)
}

/// Where the local of the symbol stands.
fn place_of(known: &[Known], x: SymId) -> Option<usize>
    ensures { result ≡ position (λ (y : Known). same_symbol y.symbol x) known.now }
{
    known.iter().position(|y| y.symbol.0 == x.0)
}

/// The local has a value from here on.
fn mark(known: &mut Vec<Known>, x: SymId)
    ensures { map spec.known_of known.new.items ≡ spec.marked x (map spec.known_of known.old.items) }
{
    match place_of(known, x) {
        None => {}
        Some(place) => known[place].is_set = true,
    }
}

fn mark_behind_op(known: &mut Vec<Known>, op: Op)
    ensures { map spec.known_of known.new.items ≡ spec.behind_op op (map spec.known_of known.old.items) }
{
    match op {
        Op::SetLocal(x) => mark(known, x),
        Op::Literal(_) | Op::Local(_) | Op::Call(_) | Op::Primitive(_) | Op::Run(_) => {}
        Op::Get(_) | Op::Set(_) | Op::LazyGet(_) | Op::Module(_) => {}
        Op::New(_) | Op::NewInner(_) | Op::Super(..) | Op::Direct(_) => {}
        Op::Static(..) | Op::GetStatic(..) | Op::SetStatic(..) => {}
        Op::Force | Op::Throw | Op::Exit(_) => {}
        Op::IsA(_) | Op::Cast(_) | Op::Coerce(_) | Op::Box | Op::Unbox(_) => {}
        Op::ArrayNew(_) | Op::ArrayGet | Op::ArraySet | Op::ArrayLength => {}
        Op::Cell | Op::CellGet | Op::CellSet => {}
    }
}

/// What has a value behind a statement.
fn mark_behind(known: &mut Vec<Known>, statement: &Tree)
    ensures { map spec.known_of known.new.items ≡ spec.behind (tree_of statement.now) (map spec.known_of known.old.items) }
{
    match statement {
        Tree::Strict(_, op, _) => mark_behind_op(known, *op),
        Tree::Block(..) | Tree::AndAlso(..) | Tree::OrElse(..) | Tree::If(..) => {}
        Tree::While(..) | Tree::Function(..) | Tree::Thunk(..) | Tree::Match(..) => {}
        Tree::Try(..) | Tree::Label(..) | Tree::Switch(..) => {}
    }
}

/// The kind, where it is that of the type that a node tells.
fn as_told(g: &Around<'_>, t: TypeId, k: Kind) -> Result<Kind, Failure>
    ensures { Gives (λ k. k) result (spec.as_told (around_of g.now) t k) }
{
    there(exactly(k, g.kind_at(t)))
}

/// The kind of a tree's value, where these locals are bound.
#[tactic(auto, unfolding(crate::specs::Typed::kind_of_tree))]
#[cycle(kinds)]
fn kind_of_tree(g: &Around<'_>, known: &[Known], tree: &Tree) -> Result<Kind, Failure>
    ensures { Gives (λ k. k) result (spec.kind_of_tree (around_of g.now) (map spec.known_of known.now) (tree_of tree.now)) }
{
    match tree {
        Tree::Strict(i, op, operands) => {
            let kinds = kinds_of_trees(g, known, operands.as_slice())?;
            let k = kind_of_op(g, known, *op, &kinds)?;
            as_told(g, i.type_id, k)
        }
        Tree::Block(i, locals, statements) => {
            let inner = bound(g, locals.as_slice(), known)?;
            let k = kind_of_statements(g, inner, statements.as_slice())?;
            as_told(g, i.type_id, k)
        }
        Tree::If(i, a, b, c) => {
            let k = kind_of_if(g, known, a, b, c)?;
            as_told(g, i.type_id, k)
        }
        Tree::While(i, a, b) => kind_of_while(g, known, i.type_id, a, b),
        Tree::AndAlso(..) | Tree::OrElse(..) | Tree::Function(..) | Tree::Thunk(..) => {
            Err(Failure::Other)
        }
        Tree::Match(..) | Tree::Try(..) | Tree::Label(..) | Tree::Switch(..) => {
            Err(Failure::Other)
        }
    }
}

/// The kinds of operands.
#[tactic(auto, unfolding(crate::specs::Typed::kinds_of_trees))]
#[cycle(kinds)]
fn kinds_of_trees(g: &Around<'_>, known: &[Known], trees: &[Tree]) -> Result<Vec<Kind>, Failure>
    ensures { Gives (λ v. v.items) result (spec.kinds_of_trees (around_of g.now) (map spec.known_of known.now) (trees_view trees.now)) }
{
    let mut kinds = Vec::new(g.alloc);
    for tree in trees {
        kinds.push(kind_of_tree(g, known, tree)?)?;
    }
    Ok(kinds)
}

/// The kind of the last statement.
#[tactic(auto, unfolding(crate::specs::Typed::kind_of_statements))]
#[cycle(kinds)]
fn kind_of_statements(
    g: &Around<'_>,
    known: Vec<Known>,
    statements: &[Tree],
) -> Result<Kind, Failure>
    ensures { Gives (λ k. k) result (spec.kind_of_statements (around_of g.now) (map spec.known_of known.items) (trees_view statements.now)) }
{
    let mut known = known;
    let mut last = Kind::Unit;
    for statement in statements {
        last = kind_of_tree(g, &known, statement)?;
        mark_behind(&mut known, statement);
    }
    Ok(last)
}

/// The kind of a choice.
#[cycle(kinds)]
fn kind_of_if(
    g: &Around<'_>,
    known: &[Known],
    a: &Tree,
    b: &Tree,
    c: &Tree,
) -> Result<Kind, Failure>
    ensures { Gives (λ k. k) result (spec.kind_of_choice (spec.kind_of_tree (around_of g.now) (map spec.known_of known.now) (tree_of a.now)) (spec.kind_of_tree (around_of g.now) (map spec.known_of known.now) (tree_of b.now)) (spec.kind_of_tree (around_of g.now) (map spec.known_of known.now) (tree_of c.now))) }
{
    let test = kind_of_tree(g, known, a)?;
    there(exactly(Kind::Boolean, Some(test)))?;
    let second = kind_of_tree(g, known, c)?;
    let first = kind_of_tree(g, known, b)?;
    there(exactly(second, Some(first)))
}

/// The kind of a loop, whose body has any.
#[cycle(kinds)]
fn kind_of_while(
    g: &Around<'_>,
    known: &[Known],
    t: TypeId,
    a: &Tree,
    b: &Tree,
) -> Result<Kind, Failure>
    ensures { Gives (λ k. k) result (then (spec.exactly kind.Boolean (spec.kind_of_tree (around_of g.now) (map spec.known_of known.now) (tree_of a.now))) (λ k. then (spec.kind_of_tree (around_of g.now) (map spec.known_of known.now) (tree_of b.now)) (λ l. spec.as_told (around_of g.now) t kind.Unit))) }
{
    let test = kind_of_tree(g, known, a)?;
    there(exactly(Kind::Boolean, Some(test)))?;
    kind_of_tree(g, known, b)?;
    as_told(g, t, Kind::Unit)
}

fn this_known(g: &Around<'_>) -> Known
    ensures { spec.known_of result ≡ spec.this_known (around_of g.now) }
{
    Known {
        symbol: g.class.this,
        kind: Kind::This,
        is_set: true,
    }
}

/// The locals, with values.
fn all_set(alloc: Global, known: &[Known]) -> Result<Vec<Known>, AllocError>
    ensures { IfOk result (λ v. map spec.known_of v.items ≡ spec.all_set (map spec.known_of known.now)) }
{
    let mut all = Vec::new(alloc);
    for y in known {
        all.push(Known {
            symbol: y.symbol,
            kind: y.kind,
            is_set: true,
        })?;
    }
    Ok(all)
}

/// What is known where a body begins.
#[tactic(auto, using(crate::proofs::TypedLemmas::locals_mapped))]
fn known_in_body(g: &Around<'_>, m: &Member) -> Result<Vec<Known>, Failure>
    ensures { Gives (λ v. map spec.known_of v.items) result (spec.known_in_body (around_of g.now) m.now) }
{
    let parameters = locals_of_parameters(g, m.parameters.as_slice())?;
    let known = bound(g, &parameters, &[this_known(g)])?;
    Ok(all_set(g.alloc, &known)?)
}

fn told(a: Option<Kind>, b: Option<Kind>) -> bool
    ensures { result ≡ spec.told a b }
{
    match a {
        None => false,
        Some(k) => match b {
            None => false,
            Some(l) => same_kind(k, l),
        },
    }
}

/// The kind of a body.
fn kind_of_body(g: &Around<'_>, m: &Member, tree: &Tree) -> Result<Kind, Failure>
    ensures { Gives (λ k. k) result (then (spec.known_in_body (around_of g.now) m.now) (λ ys. spec.kind_of_tree (around_of g.now) ys (tree_of tree.now))) }
{
    let known = known_in_body(g, m)?;
    kind_of_tree(g, &known, tree)
}

fn is_body_typed(g: &Around<'_>, m: &Member, tree: &Tree) -> Result<bool, AllocError>
    ensures { IfOk result (λ b. b ≡ spec.is_body_typed (around_of g.now) m.now (tree_of tree.now)) }
{
    match kind_of_body(g, m, tree) {
        Ok(k) => Ok(told(Some(k), g.kind_at(m.result))),
        Err(Failure::Other) => Ok(false),
        Err(Failure::NoMemory) => Err(AllocError),
    }
}

/// The body of the method has the kind of its result.
fn is_typed(g: &Around<'_>, bodies: &[Body], m: &Member) -> Result<bool, AllocError>
    ensures { IfOk result (λ b. b ≡ spec.is_typed (around_of g.now) (map body_of bodies.now) m.now) }
{
    match tree_in(bodies, m.symbol) {
        None => Ok(false),
        Some(tree) => is_body_typed(g, m, tree),
    }
}

/// The symbol is below that of the next member.
fn rises(rest: &[Member], m: &Member) -> bool
    ensures { result ≡ spec.rises rest.now m.now }
{
    match rest {
        [] => true,
        [n, ..] => m.symbol.0 < n.symbol.0,
    }
}

/// Each method is well typed, and their symbols rise.
#[tactic(auto, unfolding(crate::specs::Typed::is_well_typed))]
pub(crate) fn is_well_typed(
    g: &Around<'_>,
    bodies: &[Body],
    members: &[Member],
) -> Result<bool, AllocError>
    ensures { IfOk result (λ b. b ≡ spec.is_well_typed (around_of g.now) (map body_of bodies.now) members.now) }
{
    let mut rest = members;
    while let [m, after @ ..] = rest {
        if !is_typed(g, bodies, m)? {
            return Ok(false);
        }
        if !rises(after, m) {
            return Ok(false);
        }
        rest = after;
    }
    Ok(true)
}
