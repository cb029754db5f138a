//! Boxes and the value of Unit: methods of `scalaw/rt/Run`.

ghost use Rattle.std.specs.Prelude.{◌≡◌, ◌<◌, length, OnOk, IfOk, IfSome};
ghost use Rattle.scw_heap.specs.Heap.{limit_of, object_at, words_at};
ghost use Rattle.scw_step.specs.BoxStep as step;
ghost use Rattle.scw_step.specs.HeapStep.{primitive_value};
ghost use Rattle.scw_step.specs.StateStep.{Gives, Runs};
ghost use Rattle.scw_step.specs.StringStep.{giving_made};

use crate::class;
use crate::creation::is_roomy;
use crate::object::{Shape, give, make, shape_at, take_reference, take_value, value_of, word_of};
use crate::state::State;
use crate::stop::{Fault, Stop};
use scw_frame::{Primitive, Value, ValueKind};
use scw_heap::{Heap, Kind, Ref};
use scw_value::widened;

/// The class of a primitive type's boxes.
fn box_class(primitive: Primitive) -> u32
    ensures { result ≡ step.box_class primitive }
{
    match primitive {
        Primitive::Boolean => class::BOOLEAN,
        Primitive::Char => class::CHARACTER,
        Primitive::Int => class::INTEGER,
        Primitive::Long => class::LONG,
    }
}

/// The kind of the type's values.
fn primitive_value(primitive: Primitive) -> ValueKind
    ensures { result ≡ primitive_value primitive }
{
    match primitive {
        Primitive::Boolean | Primitive::Char | Primitive::Int => ValueKind::Int,
        Primitive::Long => ValueKind::Long,
    }
}

/// Whether the kind is that of instances of the class.
pub fn is_of_class(class: u32, kind: Kind) -> bool
    ensures { result ≡ step.is_of_class class kind }
{
    match kind {
        Kind::Object(own) => own == class,
        Kind::Text | Kind::Booleans | Kind::Chars | Kind::Ints | Kind::Longs | Kind::Refs(_) =>
            false,
    }
}

/// Makes a box of the word.
#[tactic(auto, unfolding(crate::specs::BoxStep::making_box))]
fn make_box(state: &mut State, primitive: Primitive, word: u64) -> Result<u64, Stop>
    ensures { Gives result state.old state.new (step.making_box primitive word state.old) }
{
    let r = make(state, Kind::Object(box_class(primitive)), 1)?;
    state.heap.set(Ref(r), 0, word);
    Ok(r)
}

/// `box`
pub fn give_box(state: &mut State, primitive: Primitive) -> Result<(), Stop>
    ensures { Runs result state.old state.new (step.boxing primitive state.old) }
{
    let value = take_value(state, primitive_value(primitive))?;
    if !is_roomy(state) {
        return Err(Stop::Undefined);
    }
    let made = make_box(state, primitive, word_of(value))?;
    match give(state, Value::Reference(made)) {
        Ok(()) => Ok(()),
        Err(_) => Err(Stop::Undefined),
    }
}

/// The first word of an object.
#[tactic(auto, unfolding(crate::specs::BoxStep::first_word))]
pub fn first_word(heap: &Heap, r: u64, shape: Shape) -> Result<u64, Stop>
    requires { length (words_at heap.now.objects r) ≡ shape.length }
    ensures { result ≡ step.first_word r shape heap.now }
{
    if shape.length == 0 {
        return Err(Stop::Undefined);
    }
    Ok(heap.get(Ref(r), 0))
}

/// The word of a box of the primitive type.
#[tactic(auto, unfolding(crate::specs::BoxStep::unboxed))]
fn unboxed(heap: &Heap, primitive: Primitive, r: u64) -> Result<u64, Stop>
    ensures { result ≡ step.unboxed primitive r heap.now }
{
    if r == 0 {
        return Ok(0);
    }
    let shape = shape_at(heap, r)?;
    if !is_of_class(box_class(primitive), shape.kind) {
        return Err(Stop::Throws(Fault::ClassCast));
    }
    first_word(heap, r, shape)
}

/// `unbox`
pub fn unbox(state: &mut State, primitive: Primitive) -> Result<(), Stop>
    ensures { Runs result state.old state.new (step.unboxing primitive state.old) }
{
    let r = take_reference(state)?;
    let word = unboxed(&state.heap, primitive, r)?;
    give(state, value_of(primitive_value(primitive), word))
}

/// Makes the value of Unit, if that isn't done yet.
#[tactic(auto, unfolding(crate::specs::BoxStep::making_unit))]
fn make_unit_value(state: &mut State) -> Result<u64, Stop>
    ensures { Gives result state.old state.new (step.making_unit state.old) }
{
    if state.unit != 0 {
        return Ok(state.unit);
    }
    let r = make(state, Kind::Object(class::UNIT), 0)?;
    state.unit = r;
    Ok(r)
}

/// `unit`
pub fn give_unit_value(state: &mut State) -> Result<(), Stop>
    ensures { Runs result state.old state.new (giving_made step.making_unit state.old) }
{
    if !is_roomy(state) {
        return Err(Stop::Undefined);
    }
    let made = make_unit_value(state)?;
    match give(state, Value::Reference(made)) {
        Ok(()) => Ok(()),
        Err(_) => Err(Stop::Undefined),
    }
}
