//! Objects of the heap, as instructions see them.

ghost use Rattle.std.specs.Prelude.{◌≡◌, IfErr, IfOk, OnOk, IsSome, IfSome, Some, length};
ghost use Rattle.scw_heap.specs.Heap.{object_at, words_at, zeroed};
ghost use Rattle.scw_step.specs.StateStep as step;
ghost use Rattle.scw_step.specs.declared.stop.Stop.TheVariants.{Undefined};
ghost use Rattle.scw_step.specs.StateStep.{Gives, Runs, calm};

use crate::state::State;
use crate::stop::{Fault, Stop};
use scw_frame::{Value, ValueKind, pop_int, pop_of, pop_reference, push};
use scw_heap::{Heap, Kind, Ref, units_of};

/// What an object is, and how many words it has.
#[derive(Clone, Copy)]
pub struct Shape {
    pub kind: Kind,
    pub length: u32,
}

/// Takes an `Int`.
#[tactic(auto, unfolding(crate::specs::StateStep::int_taken))]
pub fn take_int(state: &mut State) -> Result<u32, Stop>
    ensures gives { Gives result state.old state.new (step.int_taken state.old) }
    ensures calm { calm state.new ≡ calm state.old }
{
    pop_int(&mut state.frames).ok_or(Stop::Undefined)
}

/// Takes a reference.
#[tactic(auto, unfolding(crate::specs::StateStep::reference_taken))]
pub fn take_reference(state: &mut State) -> Result<u64, Stop>
    ensures gives { Gives result state.old state.new (step.reference_taken state.old) }
    ensures calm { calm state.new ≡ calm state.old }
{
    pop_reference(&mut state.frames).ok_or(Stop::Undefined)
}

/// Takes a value of the kind.
#[tactic(auto, unfolding(crate::specs::StateStep::value_taken))]
pub fn take_value(state: &mut State, kind: ValueKind) -> Result<Value, Stop>
    ensures gives { Gives result state.old state.new (step.value_taken kind state.old) }
    ensures calm { calm state.new ≡ calm state.old }
{
    pop_of(&mut state.frames, kind).ok_or(Stop::Undefined)
}

/// Pushes a value.
#[tactic(auto, unfolding(crate::specs::StateStep::giving))]
pub fn give(state: &mut State, value: Value) -> Result<(), Stop>
    ensures runs { Runs result state.old state.new (step.giving value state.old) }
    ensures err { IfErr result (λ e. e ≡ Undefined) }
{
    push(&mut state.frames, value).ok_or(Stop::Undefined)
}

/// What the object with the number is; null has nothing.
#[tactic(auto, unfolding(crate::specs::StateStep::shape_at))]
pub fn shape_at(heap: &Heap, r: u64) -> Result<Shape, Stop>
    ensures value { result ≡ step.shape_at r heap.now }
    ensures there { OnOk result (IsSome (object_at heap.now.objects r)) }
    ensures words { IfOk result (λ s. length (words_at heap.now.objects r) ≡ s.length) }
    ensures kind { IfOk result (λ s. IfSome (object_at heap.now.objects r) (λ o. o.kind ≡ s.kind)) }
{
    if r == 0 {
        return Err(Stop::Throws(Fault::NullPointer));
    }
    if !heap.has(r) {
        return Err(Stop::Undefined);
    }
    let kind = heap.kind(Ref(r));
    let length = heap.length(Ref(r));
    Ok(Shape { kind, length })
}

/// The value that a word stands for.
pub fn value_of(kind: ValueKind, word: u64) -> Value
    ensures { result ≡ step.value_of kind word }
{
    match kind {
        ValueKind::Int => Value::Int((word % 0x1_0000_0000) as u32),
        ValueKind::Long => Value::Long(word),
        ValueKind::Reference => Value::Reference(word),
    }
}

/// The word that stands for a value.
pub fn word_of(value: Value) -> u64
    ensures { result ≡ step.word_of value }
{
    match value {
        Value::Unset => 0,
        Value::Int(n) => n as u64,
        Value::Long(n) => n,
        Value::Reference(r) => r,
    }
}

/// Makes an object, and gives its number.
#[tactic(auto, unfolding(crate::specs::StateStep::making))]
pub fn make(state: &mut State, kind: Kind, words: u32) -> Result<u64, Stop>
    ensures gives { Gives result state.old state.new (step.making kind words state.old) }
    ensures made { IfOk result (λ r. object_at state.new.heap.objects r ≡ Some (zeroed kind words)) }
{
    match state.heap.make(kind, words) {
        Ok(made) => Ok(made.0),
        Err(_) => Err(Stop::HeapFull(units_of(kind, words))),
    }
}
