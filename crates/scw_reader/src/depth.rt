//! How many nodes of the whole language stand one in the other: SLS 13.

ghost use Rattle.std.specs.Prelude.{◌≡◌, ◌+◌, suc, max, map};
ghost use Rattle.scw_reader.specs.Capped.{capped};
ghost use Rattle.scw_reader.specs.Limits as spec;
ghost use Rattle.scw_reader.specs.View.{expression_of, product_of, atom_of, statement_of, products_of, atoms_of, expressions_of, statements_of};

use crate::limit::MAX_DEPTH;
use crate::tree::{Atom, Expression, Product, Statement};

/// One node more.
fn above(depth: usize) -> usize
    ensures { result ≡ capped (suc depth) }
{
    if depth < MAX_DEPTH {
        depth + 1
    } else {
        MAX_DEPTH + 1
    }
}

/// The depth of an expression, or one more than the limit if it is deeper.
#[cycle(depth)]
pub(crate) fn expression_depth(e: &Expression) -> usize
    ensures { result ≡ capped (spec.expression_depth (expression_of e.now)) }
{
    match e {
        Expression::Sum(first, more) => products_depth(product_depth(first), more),
        Expression::Operation(_, first, second) => above(atom_depth(first).max(atom_depth(second))),
        Expression::If(test, first, second) => {
            let branches = expression_depth(first).max(expression_depth(second));
            above(expression_depth(test).max(branches))
        }
        Expression::While(test, body) => above(expression_depth(test).max(expression_depth(body))),
        Expression::Block(statements, last) => {
            above(above(statements_depth(statements).max(expression_depth(last))))
        }
        Expression::Assign(_, value) => above(expression_depth(value)),
    }
}

/// The depth of a chain of products, whose first part is so deep.
#[cycle(depth)]
fn products_depth(first: usize, more: &[Product]) -> usize
    requires { first ≡ capped first }
    ensures { result ≡ capped (spec.products_depth first (products_of (map product_of more.now))) }
{
    let mut depth = first;
    for product in more {
        depth = above(depth.max(product_depth(product)));
    }
    depth
}

#[cycle(depth)]
fn product_depth(product: &Product) -> usize
    ensures { result ≡ capped (spec.product_depth (product_of product.now)) }
{
    atoms_depth(atom_depth(&product.first), &product.more)
}

/// The depth of a chain of atoms, whose first part is so deep.
#[cycle(depth)]
fn atoms_depth(first: usize, more: &[Atom]) -> usize
    requires { first ≡ capped first }
    ensures { result ≡ capped (spec.atoms_depth first (atoms_of (map atom_of more.now))) }
{
    let mut depth = first;
    for atom in more {
        depth = above(depth.max(atom_depth(atom)));
    }
    depth
}

#[cycle(depth)]
fn atom_depth(atom: &Atom) -> usize
    ensures { result ≡ capped (spec.atom_depth (atom_of atom.now)) }
{
    match atom {
        Atom::Int(_) | Atom::Long(_) | Atom::Truth(_) | Atom::Text(_) | Atom::Name(_) => 1,
        Atom::Call(_, arguments) => above(above(expressions_depth(arguments))),
        Atom::Print(e) => above(above(expression_depth(e))),
        Atom::Paren(e) => above(expression_depth(e)),
    }
}

#[cycle(depth)]
fn expressions_depth(expressions: &[Expression]) -> usize
    ensures { result ≡ capped (spec.expressions_depth (expressions_of (map expression_of expressions.now))) }
{
    let mut depth = 0;
    for e in expressions {
        depth = depth.max(expression_depth(e));
    }
    depth
}

#[cycle(depth)]
fn statements_depth(statements: &[Statement]) -> usize
    ensures { result ≡ capped (spec.statements_depth (statements_of (map statement_of statements.now))) }
{
    let mut depth = 0;
    for statement in statements {
        depth = depth.max(statement_depth(statement));
    }
    depth
}

#[cycle(depth)]
fn statement_depth(statement: &Statement) -> usize
    ensures { result ≡ capped (spec.statement_depth (statement_of statement.now)) }
{
    match statement {
        Statement::Val(_, _, e) | Statement::Var(_, _, e) => above(above(expression_depth(e))),
        Statement::Plain(e) => expression_depth(e),
    }
}
