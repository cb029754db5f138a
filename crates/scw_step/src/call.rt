//! Calls (JVMS 2.6.4 and 6.5: `invokestatic`, `invokespecial`, `invokevirtual`, `invokeinterface`).

ghost use Rattle.std.specs.Prelude.{◌≡◌};
ghost use Rattle.scw_step.specs.CallStep as step;
ghost use Rattle.scw_step.specs.StateStep.{Gives, Runs};
ghost use Rattle.scw_frame.specs.declared.program.Target.TheVariants.{Code};

use crate::built_in::call_built_in;
use crate::event::Event;
use crate::object::shape_at;
use crate::state::State;
use crate::stop::{Fault, Stop};
use scw_frame::{BuiltIn, Frames, MethodNumber, Program, SelectorNumber, Target, Value};
use scw_heap::Kind;

/// Lets a frame for the method act, and takes its arguments from the stack.
#[tactic(auto, unfolding(crate::specs::CallStep::entering))]
fn enter(program: &Program, state: &mut State, number: MethodNumber) -> Result<(), Stop>
    ensures { Runs result state.old state.new (step.entering program.now number state.old) }
{
    let Some(method) = program.methods.get(number.0 as usize) else {
        return Err(Stop::Undefined);
    };
    let Some(places) = state.frames.arguments_of(method.arguments.as_slice()) else {
        return Err(Stop::Undefined);
    };
    if places > method.locals {
        return Err(Stop::Undefined);
    }
    if !state.frames.can_enter(method.stack, method.locals) {
        return Err(Stop::TooManyFrames);
    }
    let count = method.arguments.len();
    state
        .frames
        .enter(number, method.stack, method.locals, count);
    Ok(())
}

/// Runs a built-in method, which needs no frame, and goes on at the place.
#[tactic(auto, unfolding(crate::specs::CallStep::running_built_in))]
fn run_built_in(
    program: &Program,
    state: &mut State,
    next: u16,
    method: BuiltIn,
) -> Result<Event, Stop>
    ensures { Gives result state.old state.new (step.running_built_in program.now next method state.old) }
{
    let event = call_built_in(program, state, method)?;
    state.frames.go_to(next);
    Ok(event)
}

/// `invokestatic`
#[tactic(auto, unfolding(crate::specs::CallStep::running))]
pub fn call(program: &Program, state: &mut State, next: u16, target: Target) -> Result<Event, Stop>
    ensures { Gives result state.old state.new (step.running program.now next target state.old) }
{
    match target {
        Target::Code(number) => {
            enter(program, state, number)?;
            Ok(Event::On)
        }
        Target::BuiltIn(method) => run_built_in(program, state, next, method),
    }
}

/// The first of so many arguments, which is a reference.
#[tactic(auto, unfolding(crate::specs::CallStep::receiver))]
fn receiver(frames: &Frames, count: usize) -> Option<u64>
    ensures { result ≡ step.receiver count frames.now }
{
    if count == 0 {
        return None;
    }
    match frames.operand(count - 1)? {
        Value::Reference(r) => Some(r),
        Value::Unset | Value::Int(_) | Value::Long(_) => None,
    }
}

/// Calls this method itself, on an object.
#[tactic(auto, unfolding(crate::specs::CallStep::calling_special))]
fn call_method(program: &Program, state: &mut State, number: MethodNumber) -> Result<Event, Stop>
    ensures { Gives result state.old state.new (step.calling_special program.now 0 (Code number) state.old) }
{
    let Some(method) = program.methods.get(number.0 as usize) else {
        return Err(Stop::Undefined);
    };
    if state
        .frames
        .arguments_of(method.arguments.as_slice())
        .is_none()
    {
        return Err(Stop::Undefined);
    }
    let r = receiver(&state.frames, method.arguments.len()).ok_or(Stop::Undefined)?;
    if r == 0 {
        return Err(Stop::Throws(Fault::NullPointer));
    }
    enter(program, state, number)?;
    Ok(Event::On)
}

/// `invokespecial`
#[tactic(auto, unfolding(crate::specs::CallStep::calling_special))]
pub fn call_special(
    program: &Program,
    state: &mut State,
    next: u16,
    target: Target,
) -> Result<Event, Stop>
    ensures { Gives result state.old state.new (step.calling_special program.now next target state.old) }
{
    match target {
        Target::Code(number) => call_method(program, state, number),
        Target::BuiltIn(method) => run_built_in(program, state, next, method),
    }
}

/// The class in which virtual calls on an object of the kind are looked up.
pub fn class_of(kind: Kind) -> u32
    ensures { result ≡ step.class_of kind }
{
    match kind {
        Kind::Object(class) => class,
        Kind::Text => 1,
        Kind::Booleans | Kind::Chars | Kind::Ints | Kind::Longs | Kind::Refs(_) => 0,
    }
}

/// The method that the class has for the selector.
#[tactic(auto, unfolding(crate::specs::CallStep::target_of))]
fn target_of(program: &Program, class: u32, selector: SelectorNumber) -> Option<Target>
    ensures { result ≡ step.target_of program.now class selector.0 }
{
    match program
        .classes
        .get(class as usize)?
        .targets
        .get(selector.0 as usize)
    {
        Some(target) => *target,
        None => None,
    }
}

/// `invokevirtual`, `invokeinterface`
#[tactic(auto, unfolding(crate::specs::CallStep::calling_virtual))]
pub fn call_virtual(
    program: &Program,
    state: &mut State,
    next: u16,
    selector: SelectorNumber,
) -> Result<Event, Stop>
    ensures { Gives result state.old state.new (step.calling_virtual program.now next selector.0 state.old) }
{
    let Some(kinds) = program.selectors.get(selector.0 as usize) else {
        return Err(Stop::Undefined);
    };
    if state.frames.arguments_of(kinds.as_slice()).is_none() {
        return Err(Stop::Undefined);
    }
    let r = receiver(&state.frames, kinds.len()).ok_or(Stop::Undefined)?;
    let shape = shape_at(&state.heap, r)?;
    let target = target_of(program, class_of(shape.kind), selector).ok_or(Stop::Undefined)?;
    call(program, state, next, target)
}
