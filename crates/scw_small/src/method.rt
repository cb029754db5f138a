//! Methods, and what can be called: SLS 4.6.

ghost use Rattle.std.specs.Prelude.{◌≡◌, map, Some, IfOk};
ghost use Rattle.scw_core.specs.TreeOf.{tree_of};
ghost use Rattle.scw_reader.specs.Outcome.{Gives};
ghost use Rattle.scw_reader.specs.View.{expression_of, method_of};
ghost use Rattle.scw_small.specs.Step.{Steps};
ghost use Rattle.scw_small.specs.NameView.{names_of};
ghost use Rattle.scw_small.specs.Whole as spec;
ghost use Rattle.scw_small.specs.View.{state_of, bound_of, made_of};

use crate::names::Names;
use crate::scope::Signature;
use crate::state::State;
use crate::symbol::{STRINGS_ID, kind_id, main_type, method_type, nowhere, text_of};
use crate::typing::Typer;
use scw_core::{Access, Body, BodyKind, Member, MemberKind, Modifiers, Parameter, Tree};
use scw_reader::{Expression, Failure, Method, TypeName};
use scw_text::{SymId, Text, TypeId};
use sqlite_items::Items;
use std::alloc::{AllocError, Global};

/// The characters of `main`.
const MAIN: [u8; 4] = [b'm', b'a', b'i', b'n'];

/// What a member is, beside its body.
#[derive(Drop)]
pub(crate) struct Outline {
    /// Its symbol.
    pub symbol: SymId,
    /// Its name.
    pub name: Text,
    /// Its parameters.
    pub parameters: Items<Parameter>,
    /// Its type, with the types of its parameters.
    pub type_id: TypeId,
    /// The type of its result.
    pub answer: TypeId,
}

/// The parameters and the body of a method.
#[derive(Drop)]
pub(crate) struct Bound {
    /// The parameters.
    pub parameters: Items<Parameter>,
    /// The body.
    pub tree: Tree,
}

/// The members of the object so far, and their bodies.
#[derive(Drop)]
pub(crate) struct Made {
    /// The members.
    pub members: Items<Member>,
    /// The body of each.
    pub bodies: Items<Body>,
}

// ---- what can be called

fn kinds_of(
    alloc: Global,
    parameters: &[scw_reader::Parameter],
) -> Result<Items<TypeName>, AllocError>
    ensures { IfOk result (λ ts. ts ≡ spec.kinds_of parameters.now) }
{
    let mut kinds = Items::new(alloc);
    for parameter in parameters {
        kinds.push(parameter.kind)?;
    }
    Ok(kinds)
}

#[tactic(auto, unfolding(crate::specs::Whole::add_signature))]
fn add_signature(
    alloc: Global,
    state: &mut State,
    table: &mut Names<Signature>,
    method: &Method,
) -> Result<(), Failure>
    ensures { Steps (λ u. names_of table.new) (spec.add_signature (names_of table.old) (method_of method.now) (state_of state.old)) result (state_of state.new) }
{
    let symbol = state.fresh()?;
    let signature = Signature {
        symbol,
        kinds: kinds_of(alloc, &method.parameters)?,
        answer: method.result,
    };
    table.add(alloc, method.name.as_slice(), signature)
}

/// What these methods ask of a call.
///
/// # Errors
///
/// `Other` where a method has the name of another; `NoMemory` where memory runs out.
pub(crate) fn add_signatures(
    alloc: Global,
    state: &mut State,
    table: &mut Names<Signature>,
    methods: &[Method],
) -> Result<(), Failure>
    ensures { Steps (λ u. names_of table.new) (spec.add_signatures (names_of table.old) (map method_of methods.now) (state_of state.old)) result (state_of state.new) }
{
    for method in methods {
        add_signature(alloc, state, table, method)?;
    }
    Ok(())
}

// ---- members

pub(crate) fn unmodified() -> Modifiers
    ensures { result ≡ spec.unmodified }
{
    Modifiers {
        access: Access::Public,
        is_of_this: false,
        is_abstract: false,
        is_final: false,
        is_sealed: false,
        is_override: false,
        is_implicit: false,
        is_case: false,
        is_generated: false,
    }
}

fn parameter(symbol: SymId, type_id: TypeId) -> Parameter
    ensures { result ≡ spec.parameter symbol type_id }
{
    Parameter {
        symbol,
        type_id,
        is_by_name: false,
    }
}

fn member(alloc: Global, outline: Outline) -> Member
    ensures { result ≡ spec.member outline }
{
    Member {
        symbol: outline.symbol,
        name: outline.name,
        name_span: nowhere(),
        kind: MemberKind::Def,
        modifiers: unmodified(),
        is_static: false,
        block: None,
        type_parameters: Items::new(alloc),
        parameters: outline.parameters,
        type_id: outline.type_id,
        result: outline.answer,
        overrides: Items::new(alloc),
        body: BodyKind::Written,
    }
}

/// No members.
pub(crate) fn nothing_made(alloc: Global) -> Made
    ensures { made_of result ≡ spec.nothing_made }
{
    Made {
        members: Items::new(alloc),
        bodies: Items::new(alloc),
    }
}

/// One member more.
fn and_made(alloc: Global, made: Made, outline: Outline, tree: Tree) -> Result<Made, Failure>
    ensures { Gives made_of result (Some (spec.and_made (made_of made) outline (tree_of tree))) }
{
    let Made {
        mut members,
        mut bodies,
    } = made;
    let symbol = outline.symbol;
    members.push(member(alloc, outline))?;
    bodies.push(Body {
        member: symbol,
        tree,
    })?;
    Ok(Made { members, bodies })
}

// ---- methods

impl Typer<'_> {
    #[tactic(auto, unfolding(crate::specs::Whole::clause))]
    fn parameters(
        &self,
        state: &mut State,
        written: &[scw_reader::Parameter],
    ) -> Result<Items<Parameter>, Failure>
        ensures { Steps (λ xs. xs) (spec.clause (names_of self.now.methods.now) written.now (state_of state.old)) result (state_of state.new) }
    {
        let mut found = Items::new(self.alloc);
        for x in written {
            let name = x.name.as_slice();
            let symbol = state.define(self.alloc, self.methods, name, x.kind, false)?;
            found.push(parameter(symbol, kind_id(x.kind)))?;
        }
        Ok(found)
    }

    /// The parameters and the body of a method.
    #[tactic(auto, unfolding(crate::specs::Whole::bound))]
    fn bound(&self, state: &mut State, method: &Method) -> Result<Bound, Failure>
        ensures { Steps bound_of (spec.bound (names_of self.now.methods.now) (method_of method.now) (state_of state.old)) result (state_of state.new) }
    {
        state.enter();
        let parameters = self.parameters(state, &method.parameters)?;
        let body = self.expression(state, &method.body)?;
        if body.kind != method.result {
            return Err(Failure::Other);
        }
        Ok(Bound {
            parameters,
            tree: body.tree,
        })
    }

    /// A method whose symbol is known.
    #[tactic(auto, unfolding(crate::specs::Whole::method_with))]
    fn method_with(
        &self,
        state: &mut State,
        made: Made,
        method: &Method,
        symbol: SymId,
    ) -> Result<Made, Failure>
        ensures { Steps made_of (spec.method_with (names_of self.now.methods.now) (made_of made) (method_of method.now) symbol (state_of state.old)) result (state_of state.new) }
    {
        let bound = self.bound(state, method)?;
        let of = method_type(self.alloc, &method.parameters, method.result)?;
        let outline = Outline {
            symbol,
            name: text_of(self.alloc, method.name.as_slice())?,
            parameters: bound.parameters,
            type_id: state.add_type(of)?,
            answer: kind_id(method.result),
        };
        and_made(self.alloc, made, outline, bound.tree)
    }

    #[tactic(auto, unfolding(crate::specs::Whole::method))]
    fn method(&self, state: &mut State, made: Made, method: &Method) -> Result<Made, Failure>
        ensures { Steps made_of (spec.method (names_of self.now.methods.now) (made_of made) (method_of method.now) (state_of state.old)) result (state_of state.new) }
    {
        match self.methods.find(method.name.as_slice()) {
            Some(signature) => self.method_with(state, made, method, signature.symbol),
            None => Err(Failure::Other),
        }
    }

    /// These methods, behind the members so far.
    pub fn methods(
        &self,
        state: &mut State,
        made: Made,
        methods: &[Method],
    ) -> Result<Made, Failure>
        ensures { Steps made_of (spec.all_methods (names_of self.now.methods.now) (made_of made) (map method_of methods.now) (state_of state.old)) result (state_of state.new) }
    {
        let mut made = made;
        for method in methods {
            made = self.method(state, made, method)?;
        }
        Ok(made)
    }

    /// `def main(args: Array[String]): Unit`, behind the members so far.
    #[tactic(auto, unfolding(crate::specs::Whole::main_method))]
    pub fn main_method(
        &self,
        state: &mut State,
        made: Made,
        body: &Expression,
        symbol: SymId,
    ) -> Result<Made, Failure>
        ensures { Steps made_of (spec.main_method (names_of self.now.methods.now) (made_of made) (expression_of body.now) symbol (state_of state.old)) result (state_of state.new) }
    {
        state.enter();
        let args = state.fresh()?;
        let body = self.expression(state, body)?;
        if body.kind != TypeName::Unit {
            return Err(Failure::Other);
        }
        let mut parameters = Items::new(self.alloc);
        parameters.push(parameter(args, STRINGS_ID))?;
        let outline = Outline {
            symbol,
            name: text_of(self.alloc, MAIN.as_slice())?,
            parameters,
            type_id: state.add_type(main_type(self.alloc)?)?,
            answer: kind_id(TypeName::Unit),
        };
        and_made(self.alloc, made, outline, body.tree)
    }
}
