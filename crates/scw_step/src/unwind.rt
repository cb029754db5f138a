//! Exceptions that are thrown (JVMS 2.10).

ghost use Rattle.std.specs.Prelude.{◌≡◌};
ghost use Rattle.scw_step.specs.UnwindStep as step;
ghost use Rattle.scw_step.specs.StateStep.{Comes};

use crate::call::class_of;
use crate::event::Event;
use crate::object::{give, shape_at};
use crate::returns::leave;
use crate::state::State;
use crate::stop::Stop;
use crate::subtype::derives;
use scw_frame::{Catch, Frames, Guard, Program, Value};

fn catches(program: &Program, catch: Catch, class: u32) -> bool
    ensures { result ≡ step.catches program.now catch class }
{
    match catch {
        Catch::All => true,
        Catch::Class(ancestor) => derives(program, class, ancestor.0),
        Catch::Nothing => false,
    }
}

/// Where the first handler begins that guards the place against the class.
fn handler_in(program: &Program, guards: &[Guard], place: u16, class: u32) -> Option<u16>
    ensures { result ≡ step.handler_in program.now guards.now place class }
{
    for guard in guards {
        if guard.from <= place && place < guard.to && catches(program, guard.catch, class) {
            return Some(guard.at);
        }
    }
    None
}

/// Where the handler begins that the frame which acts has for the class.
fn handler(program: &Program, frames: &Frames, class: u32) -> Option<u16>
    ensures { result ≡ step.handler program.now class frames.now.current }
{
    let method = program.methods.get(frames.method().0 as usize)?;
    handler_in(program, method.guards.as_slice(), frames.place(), class)
}

/// Leaves frames until one has a handler for the class.
fn unwind_frames(program: &Program, frames: &mut Frames, class: u32) -> Option<u16>
    ensures value { result ≡ (step.unwound program.now class frames.old.current frames.old.callers).0 }
    ensures frames { frames.new ≡ step.with_unwound ((step.unwound program.now class frames.old.current frames.old.callers).1) frames.old }
{
    loop {
        match handler(program, frames, class) {
            Some(at) => return Some(at),
            None => leave(frames)?,
        }
    }
}

/// Throws the object with the number.
#[tactic(auto, unfolding(crate::specs::UnwindStep::unwinding))]
pub fn unwind(program: &Program, state: &mut State, r: u64) -> Result<Event, Stop>
    ensures { Comes result state.new (step.unwinding program.now r state.old) }
{
    let shape = shape_at(&state.heap, r)?;
    let Some(at) = unwind_frames(program, &mut state.frames, class_of(shape.kind)) else {
        return Ok(Event::Thrown(r));
    };
    state.frames.clear();
    state.frames.go_to(at);
    give(state, Value::Reference(r))?;
    Ok(Event::On)
}
