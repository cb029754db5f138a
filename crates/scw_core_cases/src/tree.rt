//! Core trees, read from words in which the operands of a node stand before it: `n 1 +` is `n + 1`.

use crate::program::{BOOLEAN_TYPE, INT_TYPE, LONG_TYPE, N, NOWHERE, STRING_TYPE, UNIT_TYPE, X, Y};
use scw_core::{Literal, Local, NodeInfo, Op, Primitive, RunMethod, TextId, Tree, Width};
use scw_text::{SymId, TypeId};
use scw_value::{Arithmetic, Comparison};
use std::alloc::{AllocError, Global};

/// A node without its operands.
#[derive(Clone, Copy)]
enum Node {
    Strict(TypeId, Op),
    /// `if` with its test and branches.
    If(TypeId),
    /// A block with this local.
    Block(TypeId, SymId, TypeId),
    /// A block without locals.
    Lines,
}

fn info(t: TypeId) -> NodeInfo {
    NodeInfo {
        span: NOWHERE,
        type_id: t,
    }
}

/// A constant, a local or a number: a node without operands.
fn leaf_of(word: &str) -> Node {
    match word {
        "n" => Node::Strict(INT_TYPE, Op::Local(N)),
        "x" => Node::Strict(INT_TYPE, Op::Local(X)),
        "()" => Node::Strict(UNIT_TYPE, Op::Literal(Literal::Unit)),
        "true" => Node::Strict(BOOLEAN_TYPE, Op::Literal(Literal::Boolean(true))),
        "1:Long" => Node::Strict(LONG_TYPE, Op::Literal(Literal::Int(1))),
        "empty" => Node::Strict(STRING_TYPE, Op::Literal(Literal::String(TextId(0)))),
        "feed" => Node::Strict(STRING_TYPE, Op::Literal(Literal::String(TextId(1)))),
        number => {
            let n = number.parse::<u32>().unwrap_or(0);
            Node::Strict(INT_TYPE, Op::Literal(Literal::Int(n)))
        }
    }
}

/// An operator with its number of operands, or a leaf with none.
fn operator_of(word: &str) -> (usize, Node) {
    let (t, count, op) = match word {
        "n=" => (UNIT_TYPE, 1, Op::SetLocal(N)),
        "x=" => (UNIT_TYPE, 1, Op::SetLocal(X)),
        "print" => (UNIT_TYPE, 1, Op::Run(RunMethod::Print)),
        "+" => {
            let add = Primitive::Arithmetic(Width::Int, Arithmetic::Add);
            (INT_TYPE, 2, Op::Primitive(add))
        }
        "<" => {
            let less = Primitive::Comparison(Width::Int, Comparison::Less);
            (BOOLEAN_TYPE, 2, Op::Primitive(less))
        }
        "." => (STRING_TYPE, 2, Op::Primitive(Primitive::Concatenate)),
        "cell=" => (INT_TYPE, 2, Op::CellSet),
        leaf => return (0, leaf_of(leaf)),
    };
    (count, Node::Strict(t, op))
}

/// The node of a word, with the number of its operands. A block takes all that stands before it.
fn node_of(word: &str) -> (usize, Node) {
    match word {
        "if" => (3, Node::If(INT_TYPE)),
        "if()" => (3, Node::If(UNIT_TYPE)),
        "{x:Int" => (usize::MAX, Node::Block(INT_TYPE, X, INT_TYPE)),
        "{y:Int" => (usize::MAX, Node::Block(INT_TYPE, Y, INT_TYPE)),
        "{n:Int" => (usize::MAX, Node::Block(INT_TYPE, N, INT_TYPE)),
        "{x:Long" => (usize::MAX, Node::Block(UNIT_TYPE, X, LONG_TYPE)),
        "{" => (usize::MAX, Node::Lines),
        operator => operator_of(operator),
    }
}

/// `if (a) b else c` of the three.
fn chosen(alloc: Global, t: TypeId, mut operands: Vec<Tree>) -> Result<Tree, AllocError> {
    let (Some(c), Some(b), Some(a)) = (operands.pop(), operands.pop(), operands.pop()) else {
        return Ok(Tree::Block(info(t), Vec::new(alloc), Vec::new(alloc)));
    };
    let a = Box::new(alloc, a)?;
    let b = Box::new(alloc, b)?;
    Ok(Tree::If(info(t), a, b, Box::new(alloc, c)?))
}

/// The node with its operands.
fn with_operands(alloc: Global, node: Node, operands: Vec<Tree>) -> Result<Tree, AllocError> {
    match node {
        Node::Strict(t, op) => Ok(Tree::Strict(info(t), op, operands)),
        Node::If(t) => chosen(alloc, t, operands),
        Node::Block(t, symbol, type_id) => {
            let local = Local { symbol, type_id };
            let locals = Vec::from_slice(alloc, &[local])?;
            Ok(Tree::Block(info(t), locals, operands))
        }
        Node::Lines => Ok(Tree::Block(info(UNIT_TYPE), Vec::new(alloc), operands)),
    }
}

/// The trees of the words. What no node has taken as its operand stays.
pub fn trees_of(alloc: Global, words: &str) -> Result<Vec<Tree>, AllocError> {
    let mut trees = Vec::new(alloc);
    for word in words.split_whitespace() {
        let (count, node) = node_of(word);
        let operands = trees.split_off(trees.len().saturating_sub(count))?;
        trees.push(with_operands(alloc, node, operands)?)?;
    }
    Ok(trees)
}
