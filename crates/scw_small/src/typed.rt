//! Core trees with their types, and the nodes that the small language needs.

ghost use Rattle.std.specs.Prelude.{◌≡◌, map, IfOk};
ghost use Rattle.scw_core.specs.Tree.{if_else};
ghost use Rattle.scw_core.specs.TreeOf.{tree_of};
ghost use Rattle.scw_small.specs.Typed as spec;
ghost use Rattle.scw_small.specs.View.{typed_of, body_of};

use crate::symbol::{MAIN_ID, MAIN_THIS, kind_id, nowhere};
use scw_core::{Literal, Local, NodeInfo, Op, Primitive, RunMethod, TextId, Tree};
use scw_reader::TypeName;
use scw_text::SymId;
use std::alloc::{AllocError, Global};

/// A tree, and the type of its value.
#[derive(Drop)]
pub(crate) struct Typed {
    /// The type, as it is written.
    pub kind: TypeName,
    /// The tree.
    pub tree: Tree,
}

/// What a block has so far.
#[derive(Drop)]
pub(crate) struct Body {
    /// The locals that it defines.
    pub locals: Vec<Local>,
    /// Its statements.
    pub trees: Vec<Tree>,
}

/// What a node of the type has.
fn info(kind: TypeName) -> NodeInfo
    ensures { result ≡ spec.info kind }
{
    NodeInfo {
        span: nowhere(),
        type_id: kind_id(kind),
    }
}

/// A node without operands.
pub(crate) fn leaf(alloc: Global, kind: TypeName, op: Op) -> Typed
    ensures { typed_of result ≡ spec.leaf kind op }
{
    Typed {
        kind,
        tree: Tree::Strict(info(kind), op, Vec::new(alloc)),
    }
}

/// A node with one operand.
pub(crate) fn unary(
    alloc: Global,
    kind: TypeName,
    op: Op,
    operand: Tree,
) -> Result<Typed, AllocError>
    ensures { IfOk result (λ t. typed_of t ≡ spec.unary kind op (tree_of operand)) }
{
    let mut operands = Vec::new(alloc);
    operands.push(operand)?;
    Ok(Typed {
        kind,
        tree: Tree::Strict(info(kind), op, operands),
    })
}

/// A node with two operands.
pub(crate) fn binary(
    alloc: Global,
    kind: TypeName,
    op: Op,
    first: Tree,
    second: Tree,
) -> Result<Typed, AllocError>
    ensures { IfOk result (λ t. typed_of t ≡ spec.binary kind op (tree_of first) (tree_of second)) }
{
    let mut operands = Vec::new(alloc);
    operands.push(first)?;
    operands.push(second)?;
    Ok(Typed {
        kind,
        tree: Tree::Strict(info(kind), op, operands),
    })
}

/// `true` or `false`
pub(crate) fn truth(alloc: Global, value: bool) -> Typed
    ensures { typed_of result ≡ spec.truth value }
{
    leaf(
        alloc,
        TypeName::Boolean,
        Op::Literal(Literal::Boolean(value)),
    )
}

/// A text of the program.
pub(crate) fn text(alloc: Global, place: u64) -> Typed
    ensures { typed_of result ≡ spec.text place }
{
    leaf(
        alloc,
        TypeName::String,
        Op::Literal(Literal::String(TextId(place))),
    )
}

/// `this`
pub(crate) fn this(alloc: Global) -> Tree
    ensures { tree_of result ≡ spec.this }
{
    let info = NodeInfo {
        span: nowhere(),
        type_id: MAIN_ID,
    };
    Tree::Strict(info, Op::Local(MAIN_THIS), Vec::new(alloc))
}

fn concatenated(alloc: Global, first: Tree, second: Tree) -> Result<Tree, AllocError>
    ensures { IfOk result (λ t. tree_of t ≡ spec.concatenated (tree_of first) (tree_of second)) }
{
    let op = Op::Primitive(Primitive::Concatenate);
    let both = binary(alloc, TypeName::String, op, first, second)?;
    Ok(both.tree)
}

/// `println(e)`: the text of e and a line feed are put.
pub(crate) fn printed(alloc: Global, value: Typed) -> Result<Typed, AllocError>
    ensures { IfOk result (λ t. typed_of t ≡ spec.printed (typed_of value)) }
{
    let shown = concatenated(alloc, text(alloc, 0).tree, value.tree)?;
    let line = concatenated(alloc, shown, text(alloc, 1).tree)?;
    unary(alloc, TypeName::Unit, Op::Run(RunMethod::Print), line)
}

/// `x = e`, and the definition of a local: SLS 4.1, 4.2, 6.15.
pub(crate) fn set(alloc: Global, symbol: SymId, value: Tree) -> Result<Typed, AllocError>
    ensures { IfOk result (λ t. typed_of t ≡ spec.set symbol (tree_of value)) }
{
    unary(alloc, TypeName::Unit, Op::SetLocal(symbol), value)
}

/// A choice between two trees.
fn choice(
    alloc: Global,
    info: NodeInfo,
    test: Tree,
    first: Tree,
    second: Tree,
) -> Result<Tree, AllocError>
    ensures { IfOk result (λ t. tree_of t ≡ if_else info (tree_of test) (tree_of first) (tree_of second)) }
{
    let test = Box::new(alloc, test)?;
    let first = Box::new(alloc, first)?;
    let second = Box::new(alloc, second)?;
    Ok(Tree::If(info, test, first, second))
}

/// `if (a) b else c`: SLS 6.16.
pub(crate) fn conditional(
    alloc: Global,
    kind: TypeName,
    test: Tree,
    first: Tree,
    second: Tree,
) -> Result<Typed, AllocError>
    ensures { IfOk result (λ t. typed_of t ≡ spec.conditional kind (tree_of test) (tree_of first) (tree_of second)) }
{
    let tree = choice(alloc, info(kind), test, first, second)?;
    Ok(Typed { kind, tree })
}

/// `while (a) b`: SLS 6.17.
pub(crate) fn repeated(alloc: Global, test: Tree, body: Tree) -> Result<Typed, AllocError>
    ensures { IfOk result (λ t. typed_of t ≡ spec.loop (tree_of test) (tree_of body)) }
{
    let test = Box::new(alloc, test)?;
    let body = Box::new(alloc, body)?;
    Ok(Typed {
        kind: TypeName::Unit,
        tree: Tree::While(info(TypeName::Unit), test, body),
    })
}

/// `{ s; .. e }`: SLS 6.11.
pub(crate) fn blocked(body: Body, last: Typed) -> Result<Typed, AllocError>
    ensures { IfOk result (λ t. typed_of t ≡ spec.blocked (body_of body) (typed_of last)) }
{
    let Body { locals, mut trees } = body;
    let Typed { kind, tree } = last;
    trees.push(tree)?;
    Ok(Typed {
        kind,
        tree: Tree::Block(info(kind), locals, trees),
    })
}

/// `m(e, ..)`, with the receiver in front of the arguments: SLS 6.6.
pub(crate) fn called(method: SymId, kind: TypeName, operands: Vec<Tree>) -> Typed
    ensures { typed_of result ≡ spec.call method kind (map tree_of operands.items) }
{
    Typed {
        kind,
        tree: Tree::Strict(info(kind), Op::Call(method), operands),
    }
}
