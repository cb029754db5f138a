//! What typing knows so far.

ghost use Rattle.std.specs.Prelude.{◌≡◌, ◌∷◌, ◌++◌, [], Some, IfOk, OnOk};
ghost use Rattle.scw_core.specs.TypesOf.{core_type_of};
ghost use Rattle.scw_small.specs.Step as spec;
ghost use Rattle.scw_small.specs.Step.{Steps};
ghost use Rattle.scw_small.specs.NameView.{names_of};
ghost use Rattle.scw_small.specs.View.{typed_of, state_of};

use crate::names::Names;
use crate::scope::{Signature, Variable};
use crate::typed::{Typed, text};
use scw_core::CoreType;
use scw_reader::{Failure, TypeName};
use scw_text::{SymId, TypeId, Units};
use sqlite_items::Items;
use std::alloc::{AllocError, Global};

/// What is known so far.
#[derive(Drop)]
pub(crate) struct State {
    /// The next symbol that is free.
    pub next: u64,
    /// The types of the program.
    pub types: Items<CoreType>,
    /// The texts of the program.
    pub texts: Items<Units>,
    /// The parameters and locals of the method.
    pub names: Names<SymId>,
    /// Those of them that are visible.
    pub scope: Names<Variable>,
}

/// The units of a text of ASCII.
fn units_of(alloc: Global, characters: &[u8]) -> Result<Units, AllocError>
    ensures { IfOk result (λ units. units ≡ characters.now) }
{
    let mut units = Items::new(alloc);
    for character in characters {
        units.push(u16::from(*character))?;
    }
    Ok(units)
}

impl State {
    /// A symbol that is free.
    #[tactic(auto, unfolding(crate::specs::Step::fresh))]
    pub fn fresh(&mut self) -> Result<SymId, Failure>
        ensures { Steps (λ n. n) (spec.fresh (state_of self.old)) result (state_of self.new) }
    {
        if self.next == u64::MAX {
            return Err(Failure::Other);
        }
        let symbol = SymId(self.next);
        self.next += 1;
        Ok(symbol)
    }

    /// One more type.
    #[tactic(auto, unfolding(crate::specs::Step::add_type))]
    pub fn add_type(&mut self, of: CoreType) -> Result<TypeId, AllocError>
        ensures { IfOk result (λ n. spec.add_type (core_type_of of) (state_of self.old) ≡ Some (n, state_of self.new)) }
    {
        let id = TypeId(self.types.len() as u64);
        self.types.push(of)?;
        Ok(id)
    }

    /// One more text, as a literal.
    #[tactic(auto, unfolding(crate::specs::Step::literal_text))]
    pub fn literal_text(&mut self, alloc: Global, characters: &[u8]) -> Result<Typed, AllocError>
        ensures { IfOk result (λ t. spec.literal_text characters.now (state_of self.old) ≡ Some (typed_of t, state_of self.new)) }
    {
        let place = self.texts.len() as u64;
        self.texts.push(units_of(alloc, characters)?)?;
        Ok(text(alloc, place))
    }

    /// A method begins.
    #[tactic(auto, unfolding(crate::specs::Step::enter))]
    pub fn enter(&mut self)
        ensures { spec.enter (state_of self.old) ≡ Some (tt, state_of self.new) }
    {
        self.names.truncate(0);
        self.scope.truncate(0);
    }

    /// A block ends, at whose beginning so many names were visible.
    #[tactic(auto, unfolding(crate::specs::Step::leave))]
    pub fn leave(&mut self, visible: usize)
        ensures { spec.leave visible (state_of self.old) ≡ Some (tt, state_of self.new) }
    {
        self.scope.truncate(visible);
    }

    #[tactic(auto, unfolding(crate::specs::Step::name_symbol))]
    fn name_symbol(&mut self, alloc: Global, name: &[u8], symbol: SymId) -> Result<(), Failure>
        ensures { Steps (λ u. u) (spec.name_symbol name.now symbol (state_of self.old)) result (state_of self.new) }
    {
        self.names.add(alloc, name, symbol)
    }

    #[tactic(auto, unfolding(crate::specs::Step::show_name))]
    fn show_name(&mut self, alloc: Global, name: &[u8], variable: Variable) -> Result<(), Failure>
        ensures { Steps (λ u. u) (spec.show_name name.now variable (state_of self.old)) result (state_of self.new) }
    {
        self.scope.add(alloc, name, variable)
    }

    /// A parameter or local.
    ///
    /// # Errors
    ///
    /// `Other` where the method has one of that name, or a method has the name; `NoMemory` where memory runs out.
    #[tactic(auto, unfolding(crate::specs::Step::define))]
    pub fn define(
        &mut self,
        alloc: Global,
        methods: &Names<Signature>,
        name: &[u8],
        kind: TypeName,
        is_assignable: bool,
    ) -> Result<SymId, Failure>
        ensures { Steps (λ n. n) (spec.define (names_of methods.now) name.now kind is_assignable (state_of self.old)) result (state_of self.new) }
    {
        if methods.find(name).is_some() {
            return Err(Failure::Other);
        }
        let symbol = self.fresh()?;
        self.name_symbol(alloc, name, symbol)?;
        let variable = Variable {
            symbol,
            kind,
            is_assignable,
        };
        self.show_name(alloc, name, variable)?;
        Ok(symbol)
    }

    /// The parameter or local that is visible under the name.
    pub fn visible(&self, name: &[u8]) -> Result<Variable, Failure>
        ensures { Steps (λ v. v) (spec.visible name.now (state_of self.now)) result (state_of self.now) }
    {
        match self.scope.find(name) {
            Some(variable) => Ok(*variable),
            None => Err(Failure::Other),
        }
    }
}
