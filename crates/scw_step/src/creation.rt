//! New objects and arrays (JVMS 6.5: `new`, `newarray`, `anewarray`).

ghost use Rattle.std.specs.Prelude.{◌≡◌, ◌<◌, length};
ghost use Rattle.scw_heap.specs.declared.kind.Kind.TheVariants as made;
ghost use Rattle.scw_step.specs.HeapStep as step;
ghost use Rattle.scw_step.specs.StateStep.{Runs, roomy};

use crate::new_text::make_units;
use crate::object::{give, make, take_int};
use crate::state::State;
use crate::stop::{Fault, Stop};
use scw_frame::{ClassNumber, Primitive, Program, TextNumber, TypeNumber, Value};
use scw_heap::Kind;

/// Whether the stack has room for one more place.
#[tactic(auto, unfolding(crate::specs::StateStep::roomy))]
pub fn is_roomy(state: &State) -> bool
    ensures { result ≡ roomy state.now }
{
    state.frames.has_room(Value::Reference(0))
}

/// Makes an object and pushes it.
#[tactic(auto, unfolding(crate::specs::HeapStep::giving_new))]
pub fn give_new(state: &mut State, kind: Kind, words: u32) -> Result<(), Stop>
    ensures { Runs result state.old state.new (step.giving_new kind words state.old) }
{
    if !is_roomy(state) {
        return Err(Stop::Undefined);
    }
    let r = make(state, kind, words)?;
    match give(state, Value::Reference(r)) {
        Ok(()) => Ok(()),
        Err(_) => Err(Stop::Undefined),
    }
}

/// `new`
pub fn make_object(program: &Program, state: &mut State, class: ClassNumber) -> Result<(), Stop>
    ensures { Runs result state.old state.new (step.making_object program.now class.0 state.old) }
{
    let fields = match program.classes.get(class.0 as usize) {
        Some(found) => found.fields,
        None => return Err(Stop::Undefined),
    };
    give_new(state, Kind::Object(class.0), fields)
}

/// Makes an array of the length on the stack.
fn make_array(state: &mut State, kind: Kind) -> Result<(), Stop>
    ensures { Runs result state.old state.new (step.making_array kind state.old) }
{
    let length = take_int(state)?;
    if length >= 0x8000_0000 {
        return Err(Stop::Throws(Fault::NegativeSize));
    }
    give_new(state, kind, length)
}

/// The kind of arrays of the primitive type.
fn array_kind(primitive: Primitive) -> Kind
    ensures { result ≡ step.array_kind primitive }
{
    match primitive {
        Primitive::Boolean => Kind::Booleans,
        Primitive::Char => Kind::Chars,
        Primitive::Int => Kind::Ints,
        Primitive::Long => Kind::Longs,
    }
}

/// `newarray`
pub fn make_numbers(state: &mut State, primitive: Primitive) -> Result<(), Stop>
    ensures { Runs result state.old state.new (step.making_array (step.array_kind primitive) state.old) }
{
    make_array(state, array_kind(primitive))
}

/// `anewarray`, with the type of the elements
pub fn make_references(state: &mut State, element: TypeNumber) -> Result<(), Stop>
    ensures { Runs result state.old state.new (step.making_array (made.Refs element.0) state.old) }
{
    make_array(state, Kind::Refs(element.0))
}

/// `ldc` of a string, which is made anew
pub fn push_text(program: &Program, state: &mut State, text: TextNumber) -> Result<(), Stop>
    ensures { Runs result state.old state.new (step.pushing_text program.now text.0 state.old) }
{
    let Some(units) = program.texts.get(text.0 as usize) else {
        return Err(Stop::Undefined);
    };
    if !is_roomy(state) {
        return Err(Stop::Undefined);
    }
    let r = make_units(state, units.as_slice())?;
    match give(state, Value::Reference(r)) {
        Ok(()) => Ok(()),
        Err(_) => Err(Stop::Undefined),
    }
}
