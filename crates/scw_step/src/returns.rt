//! Returns (JVMS 2.6.4 and 6.5: `return`, `ireturn`, `lreturn`, `areturn`), and the instruction of the frame that acts.

ghost use Rattle.std.specs.Prelude.{◌≡◌, IfErr, IfNone};
ghost use Rattle.scw_step.specs.CallStep as step;
ghost use Rattle.scw_frame.specs.Does.{Does};
ghost use Rattle.scw_step.specs.StateStep.{Gives, Runs};
ghost use Rattle.scw_step.specs.declared.stop.Stop.TheVariants.{Undefined};

use crate::event::Event;
use crate::object::{give, take_value};
use crate::state::State;
use crate::stop::Stop;
use scw_frame::{Frames, Instruction, Program, ValueKind};

/// Lets the caller act again, if there is one.
#[tactic(auto, unfolding(crate::specs::CallStep::left))]
pub fn leave(frames: &mut Frames) -> Option<()>
    ensures does { Does result frames.new (step.left frames.old) }
    ensures none { IfNone result (frames.new ≡ frames.old) }
{
    if frames.leave() { Some(()) } else { None }
}

/// The instruction of the frame that acts.
#[tactic(auto, unfolding(crate::specs::CallStep::fetched))]
pub fn fetch(program: &Program, frames: &Frames) -> Option<Instruction>
    ensures { result ≡ step.fetched program.now frames.now }
{
    let method = program.methods.get(frames.method().0 as usize)?;
    match method.code.get(frames.place() as usize) {
        Some(instruction) => Some(*instruction),
        None => None,
    }
}

/// Goes on behind the instruction of the frame that acts, which was a call.
#[tactic(auto, unfolding(crate::specs::CallStep::resuming))]
fn resume(program: &Program, state: &mut State) -> Result<(), Stop>
    ensures runs { Runs result state.old state.new (step.resuming program.now state.old) }
    ensures err { IfErr result (λ e. e ≡ Undefined) }
{
    let instruction = fetch(program, &state.frames).ok_or(Stop::Undefined)?;
    state.frames.go_to(instruction.next);
    Ok(())
}

/// The machine goes on behind the call.
fn go_on(program: &Program, state: &mut State) -> Result<Event, Stop>
    ensures gives { Gives result state.old state.new (step.went_on (step.resuming program.now state.old)) }
    ensures err { IfErr result (λ e. e ≡ Undefined) }
{
    resume(program, state)?;
    Ok(Event::On)
}

/// `return`
pub fn return_none(program: &Program, state: &mut State) -> Result<Event, Stop>
    ensures { Gives result state.old state.new (step.returning program.now state.old) }
{
    if leave(&mut state.frames).is_none() {
        return Ok(Event::Ended);
    }
    match go_on(program, state) {
        Ok(event) => Ok(event),
        Err(_) => Err(Stop::Undefined),
    }
}

/// `ireturn`, `lreturn`, `areturn`
pub fn return_value(program: &Program, state: &mut State, kind: ValueKind) -> Result<Event, Stop>
    ensures { Gives result state.old state.new (step.returning_value program.now kind state.old) }
{
    let value = take_value(state, kind)?;
    leave(&mut state.frames).ok_or(Stop::Undefined)?;
    if give(state, value).is_err() {
        return Err(Stop::Undefined);
    }
    match go_on(program, state) {
        Ok(event) => Ok(event),
        Err(_) => Err(Stop::Undefined),
    }
}
