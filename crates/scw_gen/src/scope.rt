//! Where locals stand in a frame (JVMS 2.6.1).

ghost use Rattle.std.specs.Prelude.{◌≡◌, ◌++◌, IfOk, option_copied};
ghost use Rattle.scw_core.specs.ProgramOf.{table_of};
ghost use Rattle.scw_gen.specs.Outcome.{Gives};
ghost use Rattle.scw_gen.specs.Scope as spec;

use crate::failure::Failure;
use crate::instr::plus;
use crate::kind::{Kind, kind_at};
use scw_core::{Local, Table};
use scw_text::SymId;
use std::alloc::{AllocError, Global};

/// A local, and its first slot.
#[derive(Clone, Copy, Debug, PartialEq, Eq)]
pub struct Slot {
    pub symbol: SymId,
    pub place: u16,
    pub kind: Kind,
}

/// The locals that are bound, those of the innermost block first, and the first slot that is free.
#[derive(Drop)]
pub(crate) struct Scope {
    pub slots: Vec<Slot>,
    pub next: u16,
}

/// Where a local stands.
#[tactic(auto, unfolding(crate::specs::Scope::slot_of))]
pub(crate) fn slot_of(scope: &Scope, x: SymId) -> Option<&Slot>
    ensures { option_copied result ≡ spec.slot_of (spec.scope_of scope.now) x }
{
    scope.slots.iter().find(|s| s.symbol.0 == x.0)
}

/// Locals in slots one behind the other, from the first that is free.
#[tactic(auto, unfolding(crate::specs::Scope::placed))]
pub(crate) fn placed(
    alloc: Global,
    table: &Table,
    own: SymId,
    next: u16,
    locals: &[Local],
) -> Result<Scope, Failure>
    ensures { Gives spec.scope_of result (spec.placed (table_of table.now) own (spec.from next) locals.now) }
{
    let mut scope = Scope {
        slots: Vec::new(alloc),
        next,
    };
    for x in locals {
        let kind = match kind_at(table, own, x.type_id) {
            None => return Err(Failure::Other),
            Some(kind) => kind,
        };
        scope.slots.push(Slot {
            symbol: x.symbol,
            place: scope.next,
            kind,
        })?;
        scope.next = plus(scope.next, kind.width());
    }
    Ok(scope)
}

/// The first scope, inside the second.
pub(crate) fn inside(inner: Scope, outer: &Scope) -> Result<Scope, AllocError>
    ensures { IfOk result (λ s. spec.scope_of s ≡ spec.inside (spec.scope_of inner) (spec.scope_of outer.now)) }
{
    let Scope { mut slots, next } = inner;
    slots.extend_from_slice(&outer.slots)?;
    Ok(Scope { slots, next })
}
