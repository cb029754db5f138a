//! The exceptions that the machine makes itself (JVMS 2.10 and 6.5).

ghost use Rattle.std.specs.Prelude.{◌≡◌, codes};
ghost use Rattle.scw_step.specs.RaiseStep as step;
ghost use Rattle.scw_step.specs.StateStep.{Comes};

use crate::class;
use crate::event::Event;
use crate::new_text::{make_decimal, make_text};
use crate::object::make;
use crate::state::State;
use crate::stop::{Fault, Stop};
use crate::unwind::unwind;
use scw_frame::Program;
use scw_heap::{Kind, Ref, units_of};
use scw_value::Decimal;

/// An exception of the class with no message.
#[tactic(auto, unfolding(crate::specs::RaiseStep::exception_by))]
fn make_plain(state: &mut State, class: u32) -> Result<u64, Stop>
    ensures { Comes result state.new (step.exception_by class None state.old) }
{
    make(state, Kind::Object(class), 1)
}

/// Whether the heap has room for an exception of the class and a message of so many units.
fn check_room(state: &State, class: u32, units: u32) -> Result<(), Stop>
    ensures { result ≡ step.room_for class units state.now }
{
    let need = units_of(Kind::Text, units) + units_of(Kind::Object(class), 1);
    if (state.heap.units() as u64) < state.heap.used() as u64 + need {
        return Err(Stop::HeapFull(need));
    }
    Ok(())
}

/// An exception of the class with the message.
#[tactic(auto, unfolding(crate::specs::RaiseStep::with_message))]
fn make_with(state: &mut State, class: u32, message: u64) -> Result<u64, Stop>
    ensures { Comes result state.new (step.with_message class message state.old) }
{
    let r = make(state, Kind::Object(class), 1)?;
    state.heap.set(Ref(r), 0, message);
    Ok(r)
}

/// The exception of a division by zero.
#[tactic(auto, unfolding(crate::specs::RaiseStep::exception_by))]
fn make_by_zero(state: &mut State) -> Result<u64, Stop>
    ensures { Comes result state.new (step.exception_by 11 (Some (codes "/ by zero")) state.old) }
{
    check_room(state, class::ARITHMETIC_EXCEPTION, 9)?;
    let message = make_text(state, b"/ by zero")?;
    make_with(state, class::ARITHMETIC_EXCEPTION, message)
}

/// An exception of the class with a number as its message.
#[tactic(auto, unfolding(crate::specs::RaiseStep::exception_by))]
fn make_at(state: &mut State, class: u32, index: u32) -> Result<u64, Stop>
    ensures { Comes result state.new (step.exception_by class (Some (step.index_text index)) state.old) }
{
    let number = Decimal::of_int(index);
    check_room(state, class, number.len() as u32)?;
    let message = make_decimal(state, &number)?;
    make_with(state, class, message)
}

/// The exception of the fault.
#[tactic(auto, unfolding(crate::specs::RaiseStep::exception))]
fn make_exception(state: &mut State, fault: Fault) -> Result<u64, Stop>
    ensures { Comes result state.new (step.exception fault state.old) }
{
    match fault {
        Fault::NullPointer => make_plain(state, class::NULL_POINTER_EXCEPTION),
        Fault::DividedByZero => make_by_zero(state),
        Fault::ArrayIndex(i) => make_at(state, class::ARRAY_INDEX_EXCEPTION, i),
        Fault::StringIndex(i) => make_at(state, class::STRING_INDEX_EXCEPTION, i),
        Fault::NegativeSize => make_plain(state, class::NEGATIVE_SIZE_EXCEPTION),
        Fault::ArrayStore => make_plain(state, class::ARRAY_STORE_EXCEPTION),
        Fault::ClassCast => make_plain(state, class::CLASS_CAST_EXCEPTION),
    }
}

/// Makes the exception and throws it.
#[tactic(auto, unfolding(crate::specs::RaiseStep::raising))]
pub fn raise(program: &Program, state: &mut State, fault: Fault) -> Result<Event, Stop>
    ensures { Comes result state.new (step.raising program.now fault state.old) }
{
    let r = make_exception(state, fault)?;
    unwind(program, state, r)
}
