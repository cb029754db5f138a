//! The methods of `java/lang/Object`, but for `equals`.

ghost use Rattle.std.specs.Prelude.{◌≡◌, ◌≤◌, ◌^◌, length};
ghost use Rattle.scw_heap.specs.Heap.{words_at};
ghost use Rattle.scw_step.specs.ObjectStep as step;
ghost use Rattle.scw_step.specs.StateStep.{Gives, Runs};

use crate::class;
use crate::creation::is_roomy;
use crate::new_text::{
    make_array_letter, make_array_name, make_decimal, make_name, make_text, make_unit,
};
use crate::object::{Shape, give, shape_at, take_reference};
use crate::run_method::first_word;
use crate::state::State;
use crate::stop::Stop;
use scw_frame::{Base, Primitive, Program, Value};
use scw_heap::Kind;
use scw_value::Decimal;

/// `<init>`
pub fn start_object(state: &mut State) -> Result<(), Stop>
    ensures { Runs result state.old state.new (step.starting_object state.old) }
{
    let r = take_reference(state)?;
    shape_at(&state.heap, r)?;
    Ok(())
}

/// The primitive type whose boxes are instances of the class.
fn box_of(class: u32) -> Option<Primitive>
    ensures { result ≡ step.box_of class }
{
    if class == class::INTEGER {
        Some(Primitive::Int)
    } else if class == class::LONG {
        Some(Primitive::Long)
    } else if class == class::CHARACTER {
        Some(Primitive::Char)
    } else if class == class::BOOLEAN {
        Some(Primitive::Boolean)
    } else {
        None
    }
}

/// Makes a string of the text of a box with the word.
#[tactic(auto, unfolding(crate::specs::ObjectStep::making_box_text))]
fn make_box_text(state: &mut State, primitive: Primitive, word: u64) -> Result<u64, Stop>
    ensures { Gives result state.old state.new (step.making_box_text primitive word state.old) }
{
    match primitive {
        Primitive::Boolean => {
            if word == 0 {
                make_text(state, b"false")
            } else {
                make_text(state, b"true")
            }
        }
        Primitive::Char => make_unit(state, (word % 0x1_0000) as u16),
        Primitive::Int => make_decimal(state, &Decimal::of_int((word % 0x1_0000_0000) as u32)),
        Primitive::Long => make_decimal(state, &Decimal::of_long(word)),
    }
}

/// Makes a string of the name of a class, or of `()` for that of the value of Unit.
#[tactic(auto, unfolding(crate::specs::ObjectStep::making_class_text))]
fn make_class_text(program: &Program, state: &mut State, number: u32) -> Result<u64, Stop>
    ensures { Gives result state.old state.new (step.making_class_text program.now number state.old) }
{
    if number == class::UNIT {
        return make_text(state, b"()");
    }
    match program.classes.get(number as usize) {
        Some(class) => make_name(state, class.name.as_slice()),
        None => Err(Stop::Undefined),
    }
}

/// Makes a string of the text of an instance of the class.
#[tactic(auto, unfolding(crate::specs::ObjectStep::making_instance_text))]
fn make_instance_text(
    program: &Program,
    state: &mut State,
    class: u32,
    r: u64,
    shape: Shape,
) -> Result<u64, Stop>
    requires { length (words_at state.old.heap.objects r) ≡ shape.length }
    ensures { Gives result state.old state.new (step.making_instance_text program.now class r shape state.old) }
{
    match box_of(class) {
        None => make_class_text(program, state, class),
        Some(primitive) => {
            let word = first_word(&state.heap, r, shape)?;
            make_box_text(state, primitive, word)
        }
    }
}

/// The character of a primitive type in descriptors.
fn letter_of(primitive: Primitive) -> u8
    ensures { result ≡ step.letter_of primitive }
{
    match primitive {
        Primitive::Boolean => b'Z',
        Primitive::Char => b'C',
        Primitive::Int => b'I',
        Primitive::Long => b'J',
    }
}

/// Makes a string of the descriptor of an array of so many dimensions.
#[tactic(auto, unfolding(crate::specs::ObjectStep::making_base_text))]
fn make_base_text(
    program: &Program,
    state: &mut State,
    dimensions: u64,
    base: Base,
) -> Result<u64, Stop>
    requires { dimensions ≤ 2 ^ 32 }
    ensures { Gives result state.old state.new (step.making_base_text program.now dimensions base state.old) }
{
    match base {
        Base::Class(number) => match program.classes.get(number.0 as usize) {
            Some(class) => make_array_name(state, dimensions, class.name.as_slice()),
            None => Err(Stop::Undefined),
        },
        Base::Primitive(primitive) => make_array_letter(state, dimensions, letter_of(primitive)),
        Base::Other(letter) => make_array_letter(state, dimensions, letter),
    }
}

/// Makes a string of the descriptor of an array of references, by the type of its elements.
#[tactic(auto, unfolding(crate::specs::ObjectStep::making_array_text))]
fn make_array_text(program: &Program, state: &mut State, element: u32) -> Result<u64, Stop>
    ensures { Gives result state.old state.new (step.making_array_text program.now element state.old) }
{
    match program.types.get(element as usize) {
        Some(t) => make_base_text(program, state, t.dimensions as u64 + 1, t.base),
        None => Err(Stop::Undefined),
    }
}

/// Makes a string of the text of an object of the kind, unless it is a string itself.
#[tactic(auto, unfolding(crate::specs::ObjectStep::making_text_by))]
fn make_text_by(program: &Program, state: &mut State, r: u64, shape: Shape) -> Result<u64, Stop>
    requires { length (words_at state.old.heap.objects r) ≡ shape.length }
    ensures { Gives result state.old state.new (step.making_text_by program.now shape.kind r shape state.old) }
{
    match shape.kind {
        Kind::Object(class) => make_instance_text(program, state, class, r, shape),
        Kind::Text => Ok(r),
        Kind::Booleans => { make_base_text(program, state, 1, Base::Primitive(Primitive::Boolean)) }
        Kind::Chars => make_base_text(program, state, 1, Base::Primitive(Primitive::Char)),
        Kind::Ints => make_base_text(program, state, 1, Base::Primitive(Primitive::Int)),
        Kind::Longs => make_base_text(program, state, 1, Base::Primitive(Primitive::Long)),
        Kind::Refs(element) => make_array_text(program, state, element),
    }
}

#[tactic(auto, unfolding(crate::specs::ObjectStep::making_text_of))]
fn make_text_of(program: &Program, state: &mut State, r: u64) -> Result<u64, Stop>
    ensures { Gives result state.old state.new (step.making_text_of program.now r state.old) }
{
    let shape = shape_at(&state.heap, r)?;
    make_text_by(program, state, r, shape)
}

/// `toString`
pub fn give_text(program: &Program, state: &mut State) -> Result<(), Stop>
    ensures { Runs result state.old state.new (step.giving_text program.now state.old) }
{
    let r = take_reference(state)?;
    if !is_roomy(state) {
        return Err(Stop::Undefined);
    }
    let made = make_text_of(program, state, r)?;
    match give(state, Value::Reference(made)) {
        Ok(()) => Ok(()),
        Err(_) => Err(Stop::Undefined),
    }
}
