//! The types of expressions, and the core trees that they mean: SLS 6.

ghost use Rattle.std.specs.Prelude.{◌≡◌, map, Some};
ghost use Rattle.std.specs.Cmp.Lexicographic.{pointwise};
ghost use Rattle.scw_reader.specs.Outcome.{Gives};
ghost use Rattle.scw_reader.specs.View.{expression_of, product_of, atom_of, statement_of, products_of, atoms_of, expressions_of, statements_of};
ghost use Rattle.scw_small.specs.Step.{Steps};
ghost use Rattle.scw_small.specs.NameView.{names_of};
ghost use Rattle.scw_small.specs.Typed.{same_kind};
ghost use Rattle.scw_small.specs.Typing as spec;
ghost use Rattle.scw_small.specs.View.{typed_of, body_of, operands_of, state_of};

use crate::names::Names;
use crate::rule::{chosen, operated, plus, repeated, times};
use crate::scope::Signature;
use crate::state::State;
use crate::symbol::kind_id;
use crate::typed::{Body, Typed, blocked, called, leaf, printed, set, this, truth};
use scw_core::{Literal, Local, Op, Tree};
use scw_reader::{Atom, Expression, Failure, Product, Statement, TypeName};
use scw_text::SymId;
use sqlite_items::Items;
use std::alloc::Global;

/// The operands of a call so far.
#[derive(Drop)]
pub(crate) struct Operands {
    /// The types of the arguments.
    pub kinds: Items<TypeName>,
    /// The receiver, and the arguments.
    pub trees: Vec<Tree>,
}

/// `x`: SLS 6.4.
#[tactic(auto, unfolding(crate::specs::Typing::used))]
fn used(alloc: Global, state: &State, name: &[u8]) -> Result<Typed, Failure>
    ensures { Steps typed_of (spec.used name.now (state_of state.now)) result (state_of state.now) }
{
    let variable = state.visible(name)?;
    Ok(leaf(alloc, variable.kind, Op::Local(variable.symbol)))
}

/// `x = e`: SLS 6.15.
#[tactic(auto, unfolding(crate::specs::Typing::assigned))]
fn assigned(alloc: Global, state: &State, name: &[u8], value: Typed) -> Result<Typed, Failure>
    ensures { Steps typed_of (spec.assigned name.now (typed_of value) (state_of state.now)) result (state_of state.now) }
{
    let variable = state.visible(name)?;
    if !variable.is_assignable {
        return Err(Failure::Other);
    }
    if value.kind != variable.kind {
        return Err(Failure::Other);
    }
    Ok(set(alloc, variable.symbol, value.tree)?)
}

/// The receiver of a call.
fn no_arguments(alloc: Global) -> Result<Operands, Failure>
    ensures { Gives operands_of result (Some spec.no_arguments) }
{
    let mut trees = Vec::new(alloc);
    trees.push(this(alloc))?;
    Ok(Operands {
        kinds: Items::new(alloc),
        trees,
    })
}

/// One argument more.
fn one_more(operands: Operands, argument: Typed) -> Result<Operands, Failure>
    ensures { Gives operands_of result (Some (spec.one_more (operands_of operands) (typed_of argument))) }
{
    let Operands {
        mut kinds,
        mut trees,
    } = operands;
    kinds.push(argument.kind)?;
    trees.push(argument.tree)?;
    Ok(Operands { kinds, trees })
}

/// Whether the types are the same, in their order.
fn are_same(kinds: &[TypeName], others: &[TypeName]) -> bool
    ensures { result ≡ pointwise same_kind kinds.now others.now }
{
    kinds == others
}

/// `m(e, ..)`: SLS 6.6.
#[tactic(auto, unfolding(crate::specs::Typing::called))]
fn call(methods: &Names<Signature>, name: &[u8], operands: Operands) -> Result<Typed, Failure>
    ensures { Gives typed_of result (spec.called (names_of methods.now) name.now (operands_of operands)) }
{
    let Some(method) = methods.find(name) else {
        return Err(Failure::Other);
    };
    if !are_same(operands.kinds.as_slice(), method.kinds.as_slice()) {
        return Err(Failure::Other);
    }
    Ok(called(method.symbol, method.answer, operands.trees))
}

/// A statement whose value is dropped.
fn dropped(body: Body, value: Typed) -> Result<Body, Failure>
    ensures { Gives body_of result (Some (spec.dropped (body_of body) (typed_of value))) }
{
    let Body { locals, mut trees } = body;
    trees.push(value.tree)?;
    Ok(Body { locals, trees })
}

/// The end of a block: SLS 6.11.
#[tactic(auto, unfolding(crate::specs::Typing::left))]
fn left(state: &mut State, visible: usize, body: Body, last: Typed) -> Result<Typed, Failure>
    ensures { Steps typed_of (spec.left visible (body_of body) (typed_of last) (state_of state.old)) result (state_of state.new) }
{
    state.leave(visible);
    Ok(blocked(body, last)?)
}

/// A local that begins with the value.
fn with_local(
    alloc: Global,
    body: Body,
    symbol: SymId,
    kind: TypeName,
    value: Typed,
) -> Result<Body, Failure>
    ensures { Gives body_of result (Some (spec.with_local (body_of body) symbol kind (typed_of value))) }
{
    let Body {
        mut locals,
        mut trees,
    } = body;
    let statement = set(alloc, symbol, value.tree)?;
    locals.push(Local {
        symbol,
        type_id: kind_id(kind),
    })?;
    trees.push(statement.tree)?;
    Ok(Body { locals, trees })
}

/// What types the expressions of methods.
#[derive(Clone, Copy)]
pub(crate) struct Typer<'m> {
    /// What gives memory.
    pub alloc: Global,
    /// The methods that can be called.
    pub methods: &'m Names<Signature>,
}

impl Typer<'_> {
    /// `val x: T = e` or `var x: T = e`, behind the value: SLS 4.1, 4.2.
    #[tactic(auto, unfolding(crate::specs::Typing::defined))]
    fn defined(
        &self,
        state: &mut State,
        body: Body,
        name: &[u8],
        kind: TypeName,
        is_assignable: bool,
        value: Typed,
    ) -> Result<Body, Failure>
        ensures { Steps body_of (spec.defined (names_of self.now.methods.now) (body_of body) name.now kind is_assignable (typed_of value) (state_of state.old)) result (state_of state.new) }
    {
        if value.kind != kind {
            return Err(Failure::Other);
        }
        let symbol = state.define(self.alloc, self.methods, name, kind, is_assignable)?;
        with_local(self.alloc, body, symbol, kind, value)
    }

    /// The type of an expression, and its tree.
    #[cycle(typing)]
    pub fn expression(&self, state: &mut State, e: &Expression) -> Result<Typed, Failure>
        ensures { Steps typed_of (spec.expression (names_of self.now.methods.now) (expression_of e.now) (state_of state.old)) result (state_of state.new) }
    {
        match e {
            Expression::Sum(first, more) => {
                let first = self.product(state, first)?;
                self.products(state, first, more)
            }
            Expression::Operation(operator, first, second) => {
                let first = self.atom(state, first)?;
                let second = self.atom(state, second)?;
                operated(self.alloc, *operator, first, second)
            }
            Expression::If(test, first, second) => {
                let test = self.expression(state, test)?;
                let first = self.expression(state, first)?;
                let second = self.expression(state, second)?;
                chosen(self.alloc, test, first, second)
            }
            Expression::While(test, body) => {
                let test = self.expression(state, test)?;
                let body = self.expression(state, body)?;
                repeated(self.alloc, test, body)
            }
            Expression::Block(statements, last) => {
                let visible = state.scope.len();
                let body = self.statements(state, statements)?;
                let last = self.expression(state, last)?;
                left(state, visible, body, last)
            }
            Expression::Assign(name, value) => {
                let value = self.expression(state, value)?;
                assigned(self.alloc, state, name.as_slice(), value)
            }
        }
    }

    #[cycle(typing)]
    fn statements(&self, state: &mut State, statements: &[Statement]) -> Result<Body, Failure>
        ensures { Steps body_of (spec.statements (names_of self.now.methods.now) spec.empty_body (statements_of (map statement_of statements.now)) (state_of state.old)) result (state_of state.new) }
    {
        let mut body = Body {
            locals: Vec::new(self.alloc),
            trees: Vec::new(self.alloc),
        };
        for statement in statements {
            body = self.statement(state, body, statement)?;
        }
        Ok(body)
    }

    #[cycle(typing)]
    fn statement(
        &self,
        state: &mut State,
        body: Body,
        statement: &Statement,
    ) -> Result<Body, Failure>
        ensures { Steps body_of (spec.statement (names_of self.now.methods.now) (body_of body) (statement_of statement.now) (state_of state.old)) result (state_of state.new) }
    {
        match statement {
            Statement::Val(name, kind, e) => {
                let value = self.expression(state, e)?;
                self.defined(state, body, name.as_slice(), *kind, false, value)
            }
            Statement::Var(name, kind, e) => {
                let value = self.expression(state, e)?;
                self.defined(state, body, name.as_slice(), *kind, true, value)
            }
            Statement::Plain(e) => {
                let value = self.expression(state, e)?;
                dropped(body, value)
            }
        }
    }

    /// `a + b + ..`, behind the first: SLS 6.12.3.
    #[cycle(typing)]
    fn products(&self, state: &mut State, first: Typed, more: &[Product]) -> Result<Typed, Failure>
        ensures { Steps typed_of (spec.products (names_of self.now.methods.now) (typed_of first) (products_of (map product_of more.now)) (state_of state.old)) result (state_of state.new) }
    {
        let mut sum = first;
        for product in more {
            let next = self.product(state, product)?;
            sum = plus(self.alloc, sum, next)?;
        }
        Ok(sum)
    }

    /// `a * b * ..`: SLS 6.12.3.
    #[cycle(typing)]
    fn product(&self, state: &mut State, product: &Product) -> Result<Typed, Failure>
        ensures { Steps typed_of (spec.product (names_of self.now.methods.now) (product_of product.now) (state_of state.old)) result (state_of state.new) }
    {
        let first = self.atom(state, &product.first)?;
        self.atoms(state, first, &product.more)
    }

    #[cycle(typing)]
    fn atoms(&self, state: &mut State, first: Typed, more: &[Atom]) -> Result<Typed, Failure>
        ensures { Steps typed_of (spec.atoms (names_of self.now.methods.now) (typed_of first) (atoms_of (map atom_of more.now)) (state_of state.old)) result (state_of state.new) }
    {
        let mut product = first;
        for atom in more {
            let next = self.atom(state, atom)?;
            product = times(self.alloc, product, next)?;
        }
        Ok(product)
    }

    #[cycle(typing)]
    fn arguments(&self, state: &mut State, arguments: &[Expression]) -> Result<Operands, Failure>
        ensures { Steps operands_of (spec.arguments (names_of self.now.methods.now) spec.no_arguments (expressions_of (map expression_of arguments.now)) (state_of state.old)) result (state_of state.new) }
    {
        let mut operands = no_arguments(self.alloc)?;
        for argument in arguments {
            let argument = self.expression(state, argument)?;
            operands = one_more(operands, argument)?;
        }
        Ok(operands)
    }

    #[cycle(typing)]
    fn atom(&self, state: &mut State, atom: &Atom) -> Result<Typed, Failure>
        ensures { Steps typed_of (spec.atom (names_of self.now.methods.now) (atom_of atom.now) (state_of state.old)) result (state_of state.new) }
    {
        match atom {
            Atom::Int(n) => Ok(leaf(self.alloc, TypeName::Int, Op::Literal(Literal::Int(*n)))),
            Atom::Long(n) => Ok(leaf(self.alloc, TypeName::Long, Op::Literal(Literal::Long(*n)))),
            Atom::Truth(value) => Ok(truth(self.alloc, *value)),
            Atom::Text(characters) => Ok(state.literal_text(self.alloc, characters.as_slice())?),
            Atom::Name(name) => used(self.alloc, state, name.as_slice()),
            Atom::Call(name, arguments) => {
                let operands = self.arguments(state, arguments)?;
                call(self.methods, name.as_slice(), operands)
            }
            Atom::Print(e) => {
                let value = self.expression(state, e)?;
                Ok(printed(self.alloc, value)?)
            }
            Atom::Paren(e) => self.expression(state, e),
        }
    }
}
