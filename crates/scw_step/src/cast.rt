//! Types of objects, and `athrow` (JVMS 6.5: `checkcast`, `instanceof`, `athrow`).

ghost use Rattle.std.specs.Prelude.{◌≡◌};
ghost use Rattle.scw_step.specs.HeapStep as step;
ghost use Rattle.scw_step.specs.StateStep.{Runs};

use crate::field::has_class;
use crate::object::{give, shape_at, take_reference};
use crate::state::State;
use crate::stop::{Fault, Stop};
use crate::subtype::is_instance;
use scw_frame::{Program, TypeNumber, Value};
use scw_heap::Heap;

/// Whether the object with the number is an instance of the type.
#[tactic(auto, unfolding(crate::specs::HeapStep::instance_at))]
fn instance_at(program: &Program, t: TypeNumber, r: u64, heap: &Heap) -> Result<bool, Stop>
    ensures { result ≡ step.instance_at program.now t.0 r heap.now }
{
    let shape = shape_at(heap, r)?;
    match is_instance(program, shape.kind, t) {
        Some(is) => Ok(is),
        None => Err(Stop::Undefined),
    }
}

/// `checkcast`
pub fn check_cast(program: &Program, state: &mut State, t: TypeNumber) -> Result<(), Stop>
    ensures { Runs result state.old state.new (step.casting program.now t.0 state.old) }
{
    let r = take_reference(state)?;
    if r != 0 && !instance_at(program, t, r, &state.heap)? {
        return Err(Stop::Throws(Fault::ClassCast));
    }
    give(state, Value::Reference(r))
}

/// `instanceof`
pub fn test_instance(program: &Program, state: &mut State, t: TypeNumber) -> Result<(), Stop>
    ensures { Runs result state.old state.new (step.testing program.now t.0 state.old) }
{
    let r = take_reference(state)?;
    if r == 0 {
        return give(state, Value::Int(0));
    }
    let is = instance_at(program, t, r, &state.heap)?;
    give(state, Value::Int(is as u32))
}

/// The object is thrown, which is of a class of exceptions.
#[tactic(auto, unfolding(crate::specs::HeapStep::thrown_at))]
fn thrown_at(program: &Program, r: u64, heap: &Heap) -> Result<u64, Stop>
    ensures { result ≡ step.thrown_at program.now r heap.now }
{
    let shape = shape_at(heap, r)?;
    if has_class(program, shape.kind, 8) {
        Err(Stop::ThrowsObject(r))
    } else {
        Err(Stop::Undefined)
    }
}

/// `athrow`
pub fn throw(program: &Program, state: &mut State) -> Result<(), Stop>
    ensures { Runs result state.old state.new (step.throwing program.now state.old) }
{
    let r = take_reference(state)?;
    thrown_at(program, r, &state.heap)?;
    Ok(())
}
