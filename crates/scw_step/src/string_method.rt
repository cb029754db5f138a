//! The methods of strings: `java/lang/String`, and `concat` of `scalaw/rt/Run`.

ghost use Rattle.std.specs.Prelude.{◌≡◌, ◌≤◌, length, IsSome};
ghost use Rattle.scw_heap.specs.Heap.{object_at};
ghost use Rattle.scw_step.specs.StateStep.{Gives, Runs};
ghost use Rattle.scw_step.specs.StringStep as step;
ghost use Rattle.scw_step.specs.TextStep.{text_in};

use crate::creation::is_roomy;
use crate::new_text::{make_joined, make_part};
use crate::object::{give, take_int, take_reference};
use crate::state::State;
use crate::stop::{Fault, Stop};
use crate::text::{length_at, unit_at};
use scw_frame::Value;
use scw_heap::Heap;
use scw_value::{Arithmetic, int_computed};

/// `length`
pub fn give_length(state: &mut State) -> Result<(), Stop>
    ensures { Runs result state.old state.new (step.giving_length state.old) }
{
    let r = take_reference(state)?;
    let units = length_at(&state.heap, r)?;
    give(state, Value::Int(units))
}

/// `isEmpty`
pub fn test_empty(state: &mut State) -> Result<(), Stop>
    ensures { Runs result state.old state.new (step.testing_empty state.old) }
{
    let r = take_reference(state)?;
    let units = length_at(&state.heap, r)?;
    give(state, Value::Int(if units == 0 { 1 } else { 0 }))
}

/// The unit at the index.
#[tactic(auto, unfolding(crate::specs::StringStep::unit_at))]
fn unit_in(heap: &Heap, i: u32, r: u64) -> Result<u16, Stop>
    ensures { result ≡ step.unit_at i r heap.now }
{
    let units = length_at(heap, r)?;
    if i < units {
        Ok(unit_at(heap, r, i))
    } else {
        Err(Stop::Throws(Fault::StringIndex(i)))
    }
}

/// `charAt`
pub fn give_unit(state: &mut State) -> Result<(), Stop>
    ensures { Runs result state.old state.new (step.giving_unit state.old) }
{
    let i = take_int(state)?;
    let r = take_reference(state)?;
    let unit = unit_in(&state.heap, i, r)?;
    give(state, Value::Int(unit as u32))
}

/// Makes a string of the units from `a` to `b`, if these are places of the string.
#[tactic(auto, unfolding(crate::specs::StringStep::making_part))]
fn make_substring(state: &mut State, a: u32, b: u32, r: u64) -> Result<u64, Stop>
    ensures { Gives result state.old state.new (step.making_part a b r state.old) }
{
    let units = length_at(&state.heap, r)?;
    if a >= 0x8000_0000 {
        return Err(Stop::Throws(Fault::StringIndex(a)));
    }
    if b < 0x8000_0000 && b > units {
        return Err(Stop::Throws(Fault::StringIndex(b)));
    }
    if b >= 0x8000_0000 || a > b {
        return Err(Stop::Throws(Fault::StringIndex(a)));
    }
    make_part(state, r, a, b)
}

/// `substring`
pub fn give_part(state: &mut State) -> Result<(), Stop>
    ensures { Runs result state.old state.new (step.giving_part state.old) }
{
    let b = take_int(state)?;
    let a = take_int(state)?;
    let r = take_reference(state)?;
    if !is_roomy(state) {
        return Err(Stop::Undefined);
    }
    let made = make_substring(state, a, b, r)?;
    match give(state, Value::Reference(made)) {
        Ok(()) => Ok(()),
        Err(_) => Err(Stop::Undefined),
    }
}

/// The first unit less the unit at its place in the other text, where they differ.
fn difference(heap: &Heap, a: u64, m: u32, b: u64, n: u32) -> Option<u32>
    requires first { length (text_in a heap.now) ≡ m }
    requires second { length (text_in b heap.now) ≡ n }
    ensures { result ≡ step.difference (text_in a heap.now) (text_in b heap.now) }
{
    let both = if m < n { m } else { n };
    for i in 0..both {
        let x = unit_at(heap, a, i);
        let y = unit_at(heap, b, i);
        if x != y {
            return Some(int_computed(Arithmetic::Subtract, x as u32, y as u32));
        }
    }
    None
}

/// How the texts of two strings compare.
#[tactic(auto, unfolding(crate::specs::StringStep::order_at))]
fn order_at(heap: &Heap, a: u64, b: u64) -> Result<u32, Stop>
    ensures { result ≡ step.order_at a b heap.now }
{
    let m = length_at(heap, a)?;
    let n = length_at(heap, b)?;
    match difference(heap, a, m, b, n) {
        Some(less) => Ok(less),
        None => Ok(int_computed(Arithmetic::Subtract, m, n)),
    }
}

/// `compareTo`
pub fn compare_texts(state: &mut State) -> Result<(), Stop>
    ensures { Runs result state.old state.new (step.comparing_texts state.old) }
{
    let b = take_reference(state)?;
    let a = take_reference(state)?;
    let order = order_at(&state.heap, a, b)?;
    give(state, Value::Int(order))
}

/// `concat` of `Run`
pub fn give_joined(state: &mut State) -> Result<(), Stop>
    ensures { Runs result state.old state.new (step.giving_joined state.old) }
{
    let b = take_reference(state)?;
    let a = take_reference(state)?;
    if !is_roomy(state) {
        return Err(Stop::Undefined);
    }
    let made = make_joined(state, a, b)?;
    match give(state, Value::Reference(made)) {
        Ok(()) => Ok(()),
        Err(_) => Err(Stop::Undefined),
    }
}
