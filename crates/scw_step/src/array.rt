//! Arrays (JVMS 6.5: `iaload` and its kin, `iastore` and its kin, `arraylength`).

ghost use Rattle.std.specs.Prelude.{◌≡◌, ◌<◌, OnOk, IfOk, IfSome, length, true};
ghost use Rattle.scw_heap.specs.Heap.{limit_of, object_at, words_at};
ghost use Rattle.scw_step.specs.HeapStep as step;
ghost use Rattle.scw_step.specs.StateStep.{Runs};
ghost use Rattle.scw_step.specs.TypeStep.{element_of};

use crate::object::{give, shape_at, take_int, take_reference, take_value, value_of, word_of};
use crate::state::State;
use crate::stop::{Fault, Stop};
use crate::subtype::is_instance;
use scw_frame::{Elements, Primitive, Program, TypeNumber, Value, ValueKind};
use scw_heap::{Heap, Kind, Ref};

/// Whether arrays of the kind have elements of the primitive type.
fn is_of_primitive(primitive: Primitive, kind: Kind) -> bool
    ensures { result ≡ step.is_of_primitive primitive kind }
{
    match kind {
        Kind::Booleans => matches!(primitive, Primitive::Boolean),
        Kind::Chars => matches!(primitive, Primitive::Char),
        Kind::Ints => matches!(primitive, Primitive::Int),
        Kind::Longs => matches!(primitive, Primitive::Long),
        Kind::Object(_) | Kind::Text | Kind::Refs(_) => false,
    }
}

/// Whether arrays of the kind have these elements.
fn holds_elements(elements: Elements, kind: Kind) -> bool
    ensures { result ≡ step.holds_elements elements kind }
{
    match elements {
        Elements::Primitive(primitive) => is_of_primitive(primitive, kind),
        Elements::References => matches!(kind, Kind::Refs(_)),
    }
}

/// The kind of the elements as values.
fn element_value(elements: Elements) -> ValueKind
    ensures { result ≡ step.element_value elements }
{
    match elements {
        Elements::Primitive(Primitive::Boolean | Primitive::Char | Primitive::Int) => {
            ValueKind::Int
        }
        Elements::Primitive(Primitive::Long) => ValueKind::Long,
        Elements::References => ValueKind::Reference,
    }
}

/// The word of an element.
fn element_word(elements: Elements, word: u64) -> u64
    ensures { result ≡ step.element_word elements word }
{
    match elements {
        Elements::Primitive(Primitive::Boolean) => word % 2,
        Elements::Primitive(Primitive::Char) => word % 0x1_0000,
        Elements::Primitive(Primitive::Int) => word % 0x1_0000_0000,
        Elements::Primitive(Primitive::Long) | Elements::References => word,
    }
}

/// The kind of the array with the number, which has such elements, and one at the index.
#[tactic(auto, unfolding(crate::specs::HeapStep::array_at))]
fn array_at(elements: Elements, i: u32, r: u64, heap: &Heap) -> Result<Kind, Stop>
    ensures value { result ≡ step.array_at elements i r heap.now }
    ensures there { OnOk result (i < length (words_at heap.now.objects r)) }
    ensures kind { IfOk result (λ k. IfSome (object_at heap.now.objects r) (λ o. o.kind ≡ k)) }
    ensures elements { IfOk result (λ k. step.holds_elements elements k ≡ true) }
{
    let shape = shape_at(heap, r)?;
    if !holds_elements(elements, shape.kind) {
        return Err(Stop::Undefined);
    }
    if i >= shape.length {
        return Err(Stop::Throws(Fault::ArrayIndex(i)));
    }
    Ok(shape.kind)
}

/// The word of an element.
#[tactic(auto, unfolding(crate::specs::HeapStep::element_at))]
fn element_at(elements: Elements, i: u32, r: u64, heap: &Heap) -> Result<u64, Stop>
    ensures { result ≡ step.element_at elements i r heap.now }
{
    array_at(elements, i, r, heap)?;
    Ok(heap.get(Ref(r), i))
}

/// `iaload`, `laload`, `aaload`, `baload`, `caload`
pub fn load_element(state: &mut State, elements: Elements) -> Result<(), Stop>
    ensures { Runs result state.old state.new (step.loading_element elements state.old) }
{
    let i = take_int(state)?;
    let r = take_reference(state)?;
    let word = element_at(elements, i, r, &state.heap)?;
    give(state, value_of(element_value(elements), word))
}

/// Whether an object of the kind may be an element of an array of the other kind.
fn element_of(program: &Program, kind: Kind, array: Kind) -> Option<bool>
    ensures { result ≡ element_of program.now kind array }
{
    match array {
        Kind::Refs(element) => is_instance(program, kind, TypeNumber(element)),
        Kind::Object(_) | Kind::Text | Kind::Booleans | Kind::Chars | Kind::Ints | Kind::Longs =>
            None,
    }
}

/// Whether the reference may be an element of an array of the kind.
fn may_hold(program: &Program, array: Kind, r: u64, heap: &Heap) -> Result<bool, Stop>
    ensures { result ≡ step.may_hold program.now array r heap.now }
{
    if r == 0 {
        return Ok(true);
    }
    let shape = shape_at(heap, r)?;
    match element_of(program, shape.kind, array) {
        Some(holds) => Ok(holds),
        None => Err(Stop::Undefined),
    }
}

/// Whether the word may be that of an element of an array of the kind.
fn storable(
    program: &Program,
    elements: Elements,
    array: Kind,
    word: u64,
    heap: &Heap,
) -> Result<bool, Stop>
    ensures { result ≡ step.storable program.now elements array word heap.now }
{
    match elements {
        Elements::Primitive(_) => Ok(true),
        Elements::References => may_hold(program, array, word, heap),
    }
}

/// Puts the word of an element.
#[tactic(auto, unfolding(crate::specs::HeapStep::element_set))]
fn set_element(
    program: &Program,
    state: &mut State,
    elements: Elements,
    i: u32,
    r: u64,
    word: u64,
) -> Result<(), Stop>
    ensures { Runs result state.old state.new (step.element_set program.now elements i r word state.old) }
{
    let array = array_at(elements, i, r, &state.heap)?;
    if !storable(program, elements, array, word, &state.heap)? {
        return Err(Stop::Throws(Fault::ArrayStore));
    }
    state.heap.set(Ref(r), i, element_word(elements, word));
    Ok(())
}

/// `iastore`, `lastore`, `aastore`, `bastore`, `castore`
pub fn store_element(program: &Program, state: &mut State, elements: Elements) -> Result<(), Stop>
    ensures { Runs result state.old state.new (step.storing_element program.now elements state.old) }
{
    let value = take_value(state, element_value(elements))?;
    let i = take_int(state)?;
    let r = take_reference(state)?;
    set_element(program, state, elements, i, r, word_of(value))
}

fn is_array(kind: Kind) -> bool
    ensures { result ≡ step.is_array kind }
{
    match kind {
        Kind::Object(_) | Kind::Text => false,
        Kind::Booleans | Kind::Chars | Kind::Ints | Kind::Longs | Kind::Refs(_) => true,
    }
}

/// The length of the array with the number.
#[tactic(auto, unfolding(crate::specs::HeapStep::array_length))]
fn array_length(r: u64, heap: &Heap) -> Result<u32, Stop>
    ensures { result ≡ step.array_length r heap.now }
{
    let shape = shape_at(heap, r)?;
    if is_array(shape.kind) {
        Ok(shape.length)
    } else {
        Err(Stop::Undefined)
    }
}

/// `arraylength`
pub fn take_length(state: &mut State) -> Result<(), Stop>
    ensures { Runs result state.old state.new (step.taking_length state.old) }
{
    let r = take_reference(state)?;
    let length = array_length(r, &state.heap)?;
    give(state, Value::Int(length))
}
