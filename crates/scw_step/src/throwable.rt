//! The methods of `java/lang/Throwable`, of which each exception is an instance.

ghost use Rattle.std.specs.Prelude.{◌≡◌, ◌<◌, length, OnOk, IfSome};
ghost use Rattle.scw_heap.specs.Heap.{limit_of, object_at, words_at};
ghost use Rattle.scw_step.specs.StateStep.{Gives, Runs};
ghost use Rattle.scw_step.specs.ThrowableStep as step;

use crate::creation::is_roomy;
use crate::new_text::{make_described, make_name};
use crate::object::{give, shape_at, take_reference};
use crate::state::State;
use crate::stop::Stop;
use scw_frame::{Program, Value};
use scw_heap::{Heap, Kind, Ref};

/// The class of an instance.
fn class_in(kind: Kind) -> Option<u32>
    ensures value { result ≡ step.class_in kind }
    ensures wide { IfSome result (λ c. limit_of kind ≡ 18446744073709551616) }
{
    match kind {
        Kind::Object(class) => Some(class),
        Kind::Text | Kind::Booleans | Kind::Chars | Kind::Ints | Kind::Longs | Kind::Refs(_) =>
            None,
    }
}

/// The class of an object that has a first field.
#[tactic(auto, unfolding(crate::specs::ThrowableStep::throwable_at))]
fn throwable_at(heap: &Heap, r: u64) -> Result<u32, Stop>
    ensures value { result ≡ step.throwable_at r heap.now }
    ensures there { OnOk result (0 < length (words_at heap.now.objects r)) }
    ensures wide { OnOk result (IfSome (object_at heap.now.objects r) (λ o. limit_of o.kind ≡ 18446744073709551616)) }
{
    let shape = shape_at(heap, r)?;
    if shape.length == 0 {
        return Err(Stop::Undefined);
    }
    class_in(shape.kind).ok_or(Stop::Undefined)
}

/// `<init>()`
pub fn start_throwable(state: &mut State) -> Result<(), Stop>
    ensures { Runs result state.old state.new (step.starting_throwable state.old) }
{
    let r = take_reference(state)?;
    throwable_at(&state.heap, r)?;
    Ok(())
}

/// Sets the message.
#[tactic(auto, unfolding(crate::specs::ThrowableStep::message_set))]
fn set_message(state: &mut State, r: u64, message: u64) -> Result<(), Stop>
    ensures { Runs result state.old state.new (step.message_set r message state.old) }
{
    throwable_at(&state.heap, r)?;
    state.heap.set(Ref(r), 0, message);
    Ok(())
}

/// `<init>(String)`
pub fn start_with_message(state: &mut State) -> Result<(), Stop>
    ensures { Runs result state.old state.new (step.starting_with_message state.old) }
{
    let message = take_reference(state)?;
    let r = take_reference(state)?;
    set_message(state, r, message)
}

#[tactic(auto, unfolding(crate::specs::ThrowableStep::message_at))]
fn message_at(heap: &Heap, r: u64) -> Result<u64, Stop>
    ensures { result ≡ step.message_at r heap.now }
{
    throwable_at(heap, r)?;
    Ok(heap.get(Ref(r), 0))
}

/// `getMessage`
pub fn give_message(state: &mut State) -> Result<(), Stop>
    ensures { Runs result state.old state.new (step.giving_message state.old) }
{
    let r = take_reference(state)?;
    let message = message_at(&state.heap, r)?;
    give(state, Value::Reference(message))
}

/// Makes a string of a class's name, and of the message where it isn't null.
#[tactic(auto, unfolding(crate::specs::ThrowableStep::describing))]
fn describe(state: &mut State, name: &[u16], message: u64) -> Result<u64, Stop>
    ensures { Gives result state.old state.new (step.describing name.now message state.old) }
{
    if message == 0 {
        make_name(state, name)
    } else {
        make_described(state, name, message)
    }
}

#[tactic(auto, unfolding(crate::specs::ThrowableStep::making_description))]
fn make_description(program: &Program, state: &mut State, r: u64) -> Result<u64, Stop>
    ensures { Gives result state.old state.new (step.making_description program.now r state.old) }
{
    let number = throwable_at(&state.heap, r)?;
    let message = state.heap.get(Ref(r), 0);
    match program.classes.get(number as usize) {
        Some(class) => describe(state, class.name.as_slice(), message),
        None => Err(Stop::Undefined),
    }
}

/// `toString`
pub fn give_description(program: &Program, state: &mut State) -> Result<(), Stop>
    ensures { Runs result state.old state.new (step.giving_description program.now state.old) }
{
    let r = take_reference(state)?;
    if !is_roomy(state) {
        return Err(Stop::Undefined);
    }
    let made = make_description(program, state, r)?;
    match give(state, Value::Reference(made)) {
        Ok(()) => Ok(()),
        Err(_) => Err(Stop::Undefined),
    }
}
