//! One step of the machine: the table of instructions (JVMS 6.5).

ghost use Rattle.std.specs.Prelude.{◌≡◌};
ghost use Rattle.scw_frame.specs.Does.{Does};
ghost use Rattle.scw_frame.specs.NumberStep.{dividing_ints, dividing_longs};
ghost use Rattle.scw_step.specs.StateStep.{Comes, Gives, Runs, with_frames};
ghost use Rattle.scw_frame.specs.Frame.{placed};
ghost use Rattle.scw_step.specs.Step as step;
ghost use Rattle.scw_step.specs.declared.event.Event.TheVariants.{On};

use crate::array::{load_element, store_element, take_length};
use crate::call::{call, call_special, call_virtual};
use crate::cast::{check_cast, test_instance, throw};
use crate::creation::{make_numbers, make_object, make_references, push_text};
use crate::event::Event;
use crate::field::{get_field, get_static, put_field, put_static};
use crate::raise::raise;
use crate::returns::{fetch, return_none, return_value};
use crate::state::State;
use crate::stop::{Fault, Stop};
use crate::unwind::unwind;
use scw_frame::{
    Divided, Frames, Operation, Program, compare_longs, compute_ints, compute_longs, convert,
    divide_ints, divide_longs, increment, jump_if_ints, jump_if_null, jump_if_same, jump_if_zero,
    load, narrow, negate_int, negate_long, push, rearrange, shift_int, shift_long, store, switch,
    widen,
};
use scw_value::Division;

/// An instruction on numbers, local variables and the stack.
#[tactic(auto, unfolding(crate::specs::Step::computing))]
fn compute(frames: &mut Frames, operation: Operation) -> Option<()>
    ensures { Does result frames.new (step.computing operation frames.old) }
{
    match operation {
        Operation::Nothing => Some(()),
        Operation::Push(value) => push(frames, value),
        Operation::Load(kind, i) => load(frames, kind, i),
        Operation::Store(kind, i) => store(frames, kind, i),
        Operation::Increment(i, by) => increment(frames, i, by),
        Operation::Stack(operation) => rearrange(frames, operation),
        Operation::IntArithmetic(operation) => compute_ints(frames, operation),
        Operation::LongArithmetic(operation) => compute_longs(frames, operation),
        Operation::IntShift(operation) => shift_int(frames, operation),
        Operation::LongShift(operation) => shift_long(frames, operation),
        Operation::IntNegate => negate_int(frames),
        Operation::LongNegate => negate_long(frames),
        Operation::Convert(operation) => convert(frames, operation),
        Operation::Widen => widen(frames),
        Operation::Narrow => narrow(frames),
        Operation::CompareLongs => compare_longs(frames),
        _ => None,
    }
}

/// `idiv`, `irem`
fn divide_two_ints(state: &mut State, operation: Division) -> Result<(), Stop>
    ensures { Runs result state.old state.new (step.divided_into state.old (dividing_ints operation state.old.frames)) }
{
    match divide_ints(&mut state.frames, operation) {
        Some(Divided::Done) => Ok(()),
        Some(Divided::ByZero) => Err(Stop::Throws(Fault::DividedByZero)),
        None => Err(Stop::Undefined),
    }
}

/// `ldiv`, `lrem`
fn divide_two_longs(state: &mut State, operation: Division) -> Result<(), Stop>
    ensures { Runs result state.old state.new (step.divided_into state.old (dividing_longs operation state.old.frames)) }
{
    match divide_longs(&mut state.frames, operation) {
        Some(Divided::Done) => Ok(()),
        Some(Divided::ByZero) => Err(Stop::Throws(Fault::DividedByZero)),
        None => Err(Stop::Undefined),
    }
}

/// An instruction on the heap, and any other that goes on behind itself.
#[tactic(auto, unfolding(crate::specs::Step::operating))]
fn operate(program: &Program, state: &mut State, operation: Operation) -> Result<(), Stop>
    ensures { Runs result state.old state.new (step.operating program.now operation state.old) }
{
    match operation {
        Operation::IntDivision(operation) => divide_two_ints(state, operation),
        Operation::LongDivision(operation) => divide_two_longs(state, operation),
        Operation::PushText(text) => push_text(program, state, text),
        Operation::LoadElement(elements) => load_element(state, elements),
        Operation::StoreElement(elements) => store_element(program, state, elements),
        Operation::GetStatic(field) => get_static(state, field),
        Operation::PutStatic(field) => put_static(state, field),
        Operation::GetField { class, field, kind } => get_field(program, state, class, field, kind),
        Operation::PutField { class, field, kind } => put_field(program, state, class, field, kind),
        Operation::New(class) => make_object(program, state, class),
        Operation::NewNumbers(primitive) => make_numbers(state, primitive),
        Operation::NewReferences(element) => make_references(state, element),
        Operation::ArrayLength => take_length(state),
        Operation::Throw => throw(program, state),
        Operation::CheckCast(t) => check_cast(program, state, t),
        Operation::InstanceOf(t) => test_instance(program, state, t),
        _ => compute(&mut state.frames, operation).ok_or(Stop::Undefined),
    }
}

/// Goes on at the place, if the instruction was done.
fn go_on(state: &mut State, next: u16) -> Event
    ensures value { result ≡ On }
    ensures state { state.new ≡ with_frames state.old (placed next state.old.frames) }
{
    state.frames.go_to(next);
    Event::On
}

/// Any instruction that goes on behind itself.
fn operate_and_go_on(
    program: &Program,
    state: &mut State,
    operation: Operation,
    next: u16,
) -> Result<Event, Stop>
    ensures { Gives result state.old state.new (step.going_on next (step.operating program.now operation state.old)) }
{
    operate(program, state, operation)?;
    Ok(go_on(state, next))
}

/// A jump.
#[tactic(auto, unfolding(crate::specs::Step::jumping))]
fn jump(program: &Program, frames: &mut Frames, operation: Operation, next: u16) -> Option<()>
    ensures { Does result frames.new (step.jumping program.now operation next frames.old) }
{
    match operation {
        Operation::Jump(target) => {
            frames.go_to(target);
            Some(())
        }
        Operation::JumpIfZero(comparison, target) => jump_if_zero(frames, comparison, target, next),
        Operation::JumpIfInts(comparison, target) => jump_if_ints(frames, comparison, target, next),
        Operation::JumpIfSame(same, target) => jump_if_same(frames, same, target, next),
        Operation::JumpIfNull(null, target) => jump_if_null(frames, null, target, next),
        Operation::Switch(number) => switch(frames, program.switches.get(number.0 as usize)?),
        _ => None,
    }
}

/// The instruction, with the place behind it.
#[tactic(auto, unfolding(crate::specs::Step::executing))]
fn execute(
    program: &Program,
    state: &mut State,
    operation: Operation,
    next: u16,
) -> Result<Event, Stop>
    ensures { Gives result state.old state.new (step.executing program.now operation next state.old) }
{
    match operation {
        Operation::Undefined => Err(Stop::Undefined),
        Operation::Jump(_)
        | Operation::JumpIfZero(_, _)
        | Operation::JumpIfInts(_, _)
        | Operation::JumpIfSame(_, _)
        | Operation::JumpIfNull(_, _)
        | Operation::Switch(_) => {
            jump(program, &mut state.frames, operation, next).ok_or(Stop::Undefined)?;
            Ok(Event::On)
        }
        Operation::Return => return_none(program, state),
        Operation::ReturnValue(kind) => return_value(program, state, kind),
        Operation::CallStatic(target) => call(program, state, next, target),
        Operation::CallSpecial(target) => call_special(program, state, next, target),
        Operation::CallVirtual(selector) => call_virtual(program, state, next, selector),
        _ => operate_and_go_on(program, state, operation, next),
    }
}

/// One step: the instruction of the frame that acts, with all that follows from it before the next one.
///
/// # Errors
///
/// `Undefined` where the instruction isn't defined there, `HeapFull` with all units that it needs where the heap has fewer
/// left, and `TooManyFrames` where a call passes a limit on frames.
#[tactic(auto, unfolding(crate::specs::Step::stepping))]
pub fn step(program: &Program, state: &mut State) -> Result<Event, Stop>
    ensures { Comes result state.new (step.stepping program.now state.old) }
{
    let instruction = fetch(program, &state.frames).ok_or(Stop::Undefined)?;
    match execute(program, state, instruction.operation, instruction.next) {
        Ok(event) => Ok(event),
        Err(Stop::Throws(fault)) => {
            state.frames.clear();
            raise(program, state, fault)
        }
        Err(Stop::ThrowsObject(r)) => {
            state.frames.clear();
            unwind(program, state, r)
        }
        Err(Stop::Undefined) => Err(Stop::Undefined),
        Err(Stop::HeapFull(units)) => Err(Stop::HeapFull(units)),
        Err(Stop::TooManyFrames) => Err(Stop::TooManyFrames),
    }
}
