//! New strings of the heap.

ghost use Rattle.std.specs.Prelude.{IfOk, OnOk, IsSome, ◌≡◌, ◌≤◌, ◌<◌, ◌^◌, length, map, [], ◌∷◌};
ghost use Rattle.scw_heap.specs.Heap.{object_at};
ghost use Rattle.scw_step.specs.StateStep.{Gives};
ghost use Rattle.scw_step.specs.TextStep as step;
ghost use Rattle.scw_step.specs.TextStep.{text_in};

use crate::object::make;
use crate::state::State;
use crate::stop::Stop;
use crate::text::{
    length_at, length_or_null, put, put_brackets, put_bytes, put_decimal, put_dotted, put_part,
    put_shown, put_units,
};
use scw_heap::Kind;
use scw_value::Decimal;

/// Makes a string of so many units, all zero.
#[tactic(auto, unfolding(crate::specs::TextStep::beginning))]
pub fn begin(state: &mut State, units: u64) -> Result<u64, Stop>
    ensures gives { Gives result state.old state.new (step.beginning units state.old) }
    ensures short { OnOk result (units < 2 ^ 32) }
    ensures room { IfOk result (λ r. length (text_in r state.new.heap) ≡ units) }
{
    if state.heap.can_have(units) {
        make(state, Kind::Text, units as u32)
    } else {
        Err(Stop::HeapFull(1 + units / 8 + (units % 8 + 7) / 8))
    }
}

/// Makes a string of the bytes.
#[tactic(auto, unfolding(crate::specs::TextStep::making_text))]
pub fn make_text(state: &mut State, text: &[u8]) -> Result<u64, Stop>
    ensures { Gives result state.old state.new (step.making_text text.now state.old) }
{
    let r = begin(state, text.len() as u64)?;
    put_bytes(&mut state.heap, r, 0, text);
    Ok(r)
}

/// Makes a string of the units.
#[tactic(auto, unfolding(crate::specs::TextStep::making_text))]
pub fn make_units(state: &mut State, units: &[u16]) -> Result<u64, Stop>
    ensures { Gives result state.old state.new (step.making_text units.now state.old) }
{
    let r = begin(state, units.len() as u64)?;
    put_units(&mut state.heap, r, 0, units);
    Ok(r)
}

/// Makes a string of the characters of a number.
#[tactic(auto, unfolding(crate::specs::TextStep::making_text))]
pub fn make_decimal(state: &mut State, number: &Decimal) -> Result<u64, Stop>
    ensures { Gives result state.old state.new (step.making_text number.now state.old) }
{
    let r = begin(state, number.len() as u64)?;
    put_decimal(&mut state.heap, r, 0, number);
    Ok(r)
}

/// Makes a string of a class's name.
#[tactic(auto, unfolding(crate::specs::TextStep::making_text))]
pub fn make_name(state: &mut State, name: &[u16]) -> Result<u64, Stop>
    ensures { Gives result state.old state.new (step.making_text (map step.dotted name.now) state.old) }
{
    let r = begin(state, name.len() as u64)?;
    put_dotted(&mut state.heap, r, 0, name);
    Ok(r)
}

/// Makes a string of a part of another one.
#[tactic(auto, unfolding(crate::specs::TextStep::making_text))]
pub fn make_part(state: &mut State, other: u64, from: u32, to: u32) -> Result<u64, Stop>
    requires ordered { from ≤ to }
    requires within { to ≤ length (text_in other state.old.heap) }
    requires there { IsSome (object_at state.old.heap.objects other) }
    ensures { Gives result state.old state.new (step.making_text (step.part from to (text_in other state.old.heap)) state.old) }
{
    let r = begin(state, (to - from) as u64)?;
    put_part(&mut state.heap, r, 0, other, from, to);
    Ok(r)
}

/// Makes a string of two others, each of which may be null.
#[tactic(auto, unfolding(crate::specs::TextStep::making_joined, crate::specs::TextStep::making_text))]
pub fn make_joined(state: &mut State, a: u64, b: u64) -> Result<u64, Stop>
    ensures { Gives result state.old state.new (step.making_joined a b state.old) }
{
    let first = length_or_null(&state.heap, a)?;
    let second = length_or_null(&state.heap, b)?;
    let r = begin(state, first as u64 + second as u64)?;
    let place = put_shown(&mut state.heap, r, 0, a, first);
    put_shown(&mut state.heap, r, place, b, second);
    Ok(r)
}

/// Makes a string of a class's name and a message.
#[tactic(auto, unfolding(crate::specs::TextStep::making_described, crate::specs::TextStep::making_text))]
pub fn make_described(state: &mut State, name: &[u16], message: u64) -> Result<u64, Stop>
    ensures { Gives result state.old state.new (step.making_described name.now message state.old) }
{
    let units = length_at(&state.heap, message)?;
    let r = begin(state, name.len() as u64 + 2 + units as u64)?;
    let place = put_dotted(&mut state.heap, r, 0, name);
    let place = put_bytes(&mut state.heap, r, place, b": ");
    put_part(&mut state.heap, r, place, message, 0, units);
    Ok(r)
}

/// Makes a string of the descriptor of an array of objects.
#[tactic(auto, unfolding(crate::specs::TextStep::making_text))]
pub fn make_array_name(state: &mut State, dimensions: u64, name: &[u16]) -> Result<u64, Stop>
    requires { dimensions ≤ 2 ^ 32 }
    ensures { Gives result state.old state.new (step.making_text (step.array_name dimensions name.now) state.old) }
{
    let r = begin(state, dimensions + 2 + name.len() as u64)?;
    let place = put_brackets(&mut state.heap, r, 0, dimensions);
    let place = put_bytes(&mut state.heap, r, place, b"L");
    let place = put_dotted(&mut state.heap, r, place, name);
    put_bytes(&mut state.heap, r, place, b";");
    Ok(r)
}

/// Makes a string of the descriptor of an array of a primitive type.
#[tactic(auto, unfolding(crate::specs::TextStep::making_text))]
pub fn make_array_letter(state: &mut State, dimensions: u64, letter: u8) -> Result<u64, Stop>
    requires { dimensions ≤ 2 ^ 32 }
    ensures { Gives result state.old state.new (step.making_text (step.array_letter dimensions letter) state.old) }
{
    let r = begin(state, dimensions + 1)?;
    let place = put_brackets(&mut state.heap, r, 0, dimensions);
    put_bytes(&mut state.heap, r, place, &[letter]);
    Ok(r)
}

/// Makes a string of one unit.
#[tactic(auto, unfolding(crate::specs::TextStep::making_text))]
pub fn make_unit(state: &mut State, unit: u16) -> Result<u64, Stop>
    ensures { Gives result state.old state.new (step.making_text (unit ∷ []) state.old) }
{
    let r = begin(state, 1)?;
    put(&mut state.heap, r, 0, unit);
    Ok(r)
}
