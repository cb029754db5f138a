//! The methods of the machine's own.

ghost use Rattle.std.specs.Prelude.{◌≡◌};
ghost use Rattle.scw_step.specs.BuiltInStep as step;
ghost use Rattle.scw_step.specs.BuiltInStep.{built_in};
ghost use Rattle.scw_step.specs.StateStep.{Gives};

use crate::event::Event;
use crate::object::take_reference;
use crate::object_method::{give_text, start_object};
use crate::run_method::{give_box, give_unit_value, unbox};
use crate::same::{compare_same, test_equal};
use crate::state::State;
use crate::stop::Stop;
use crate::string_method::{
    compare_texts, give_joined, give_length, give_part, give_unit, test_empty,
};
use crate::text::length_at;
use crate::throwable::{give_description, give_message, start_throwable, start_with_message};
use scw_frame::{BuiltIn, Program};
use scw_heap::Heap;

/// What is put: a string, or null.
#[tactic(auto, unfolding(crate::specs::BuiltInStep::said_at))]
fn said_at(heap: &Heap, r: u64) -> Result<Event, Stop>
    ensures { result ≡ step.said_at r heap.now }
{
    if r == 0 {
        return Ok(Event::Says(0));
    }
    length_at(heap, r)?;
    Ok(Event::Says(r))
}

/// `print`
#[tactic(auto, unfolding(crate::specs::BuiltInStep::saying))]
fn say(state: &mut State) -> Result<Event, Stop>
    ensures { Gives result state.old state.new (step.saying state.old) }
{
    let r = take_reference(state)?;
    said_at(&state.heap, r)
}

/// Runs a method of the machine's own.
///
/// # Errors
///
/// `Undefined` where the arguments aren't those of the method; where it throws an exception, that; `HeapFull` where what
/// it makes has no room.
#[tactic(auto, unfolding(crate::specs::BuiltInStep::built_in))]
pub fn call_built_in(program: &Program, state: &mut State, method: BuiltIn) -> Result<Event, Stop>
    ensures { Gives result state.old state.new (built_in program.now method state.old) }
{
    match method {
        BuiltIn::ObjectInit => start_object(state)?,
        BuiltIn::Equals => test_equal(state)?,
        BuiltIn::ToString => give_text(program, state)?,
        BuiltIn::StringLength => give_length(state)?,
        BuiltIn::StringCharAt => give_unit(state)?,
        BuiltIn::Substring => give_part(state)?,
        BuiltIn::StringIsEmpty => test_empty(state)?,
        BuiltIn::CompareTo => compare_texts(state)?,
        BuiltIn::ThrowableInit => start_throwable(state)?,
        BuiltIn::ThrowableInitMessage => start_with_message(state)?,
        BuiltIn::GetMessage => give_message(state)?,
        BuiltIn::ThrowableToString => give_description(program, state)?,
        BuiltIn::Print => return say(state),
        BuiltIn::Concat => give_joined(state)?,
        BuiltIn::Unit => give_unit_value(state)?,
        BuiltIn::Box(primitive) => give_box(state, primitive)?,
        BuiltIn::Unbox(primitive) => unbox(state, primitive)?,
        BuiltIn::Same => compare_same(state)?,
    }
    Ok(Event::On)
}
