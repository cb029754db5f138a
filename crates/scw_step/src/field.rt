//! Fields and static fields (JVMS 6.5: `getfield`, `putfield`, `getstatic`, `putstatic`).

ghost use Rattle.std.specs.Prelude.{◌≡◌, ◌<◌, OnOk, IfSome, length};
ghost use Rattle.scw_heap.specs.Heap.{limit_of, object_at, words_at};
ghost use Rattle.scw_step.specs.HeapStep as step;
ghost use Rattle.scw_step.specs.StateStep.{Runs};

use crate::object::{give, shape_at, take_reference, take_value, value_of, word_of};
use crate::state::State;
use crate::stop::Stop;
use crate::subtype::derives;
use scw_frame::{ClassNumber, Program, StaticNumber, Value, ValueKind};
use scw_heap::{Heap, Kind, Ref};

/// Whether an object of the kind is an instance of the class.
pub fn has_class(program: &Program, kind: Kind, class: u32) -> bool
    ensures { result ≡ step.has_class program.now kind class }
{
    match kind {
        Kind::Object(own) => derives(program, own, class),
        Kind::Text | Kind::Booleans | Kind::Chars | Kind::Ints | Kind::Longs | Kind::Refs(_) =>
            false,
    }
}

/// The word of a field of the object.
#[tactic(auto, unfolding(crate::specs::HeapStep::field_at))]
fn field_at(
    program: &Program,
    heap: &Heap,
    r: u64,
    class: ClassNumber,
    field: u32,
) -> Result<u64, Stop>
    ensures value { result ≡ step.field_at program.now class.0 field r heap.now }
    ensures there { OnOk result (field < length (words_at heap.now.objects r)) }
    ensures wide { OnOk result (IfSome (object_at heap.now.objects r) (λ o. limit_of o.kind ≡ 18446744073709551616)) }
{
    let shape = shape_at(heap, r)?;
    if has_class(program, shape.kind, class.0) && field < shape.length {
        Ok(heap.get(Ref(r), field))
    } else {
        Err(Stop::Undefined)
    }
}

/// `getfield`
pub fn get_field(
    program: &Program,
    state: &mut State,
    class: ClassNumber,
    field: u32,
    kind: ValueKind,
) -> Result<(), Stop>
    ensures { Runs result state.old state.new (step.getting_field program.now class.0 field kind state.old) }
{
    let r = take_reference(state)?;
    let word = field_at(program, &state.heap, r, class, field)?;
    give(state, value_of(kind, word))
}

/// Puts the word of a field of the object.
#[tactic(auto, unfolding(crate::specs::HeapStep::field_set))]
fn set_field(
    program: &Program,
    state: &mut State,
    r: u64,
    class: ClassNumber,
    field: u32,
    word: u64,
) -> Result<(), Stop>
    ensures { Runs result state.old state.new (step.field_set program.now class.0 field r word state.old) }
{
    field_at(program, &state.heap, r, class, field)?;
    state.heap.set(Ref(r), field, word);
    Ok(())
}

/// `putfield`
pub fn put_field(
    program: &Program,
    state: &mut State,
    class: ClassNumber,
    field: u32,
    kind: ValueKind,
) -> Result<(), Stop>
    ensures { Runs result state.old state.new (step.putting_field program.now class.0 field kind state.old) }
{
    let value = take_value(state, kind)?;
    let r = take_reference(state)?;
    set_field(program, state, r, class, field, word_of(value))
}

/// `getstatic`
pub fn get_static(state: &mut State, field: StaticNumber) -> Result<(), Stop>
    ensures { Runs result state.old state.new (step.getting_static field.0 state.old) }
{
    let value = match state.statics.get(field.0 as usize) {
        Some(value) => *value,
        None => return Err(Stop::Undefined),
    };
    give(state, value)
}

fn kind_of(value: Value) -> Option<ValueKind>
    ensures { result ≡ step.kind_of value }
{
    match value {
        Value::Unset => None,
        Value::Int(_) => Some(ValueKind::Int),
        Value::Long(_) => Some(ValueKind::Long),
        Value::Reference(_) => Some(ValueKind::Reference),
    }
}

/// `putstatic`
pub fn put_static(state: &mut State, field: StaticNumber) -> Result<(), Stop>
    ensures { Runs result state.old state.new (step.putting_static field.0 state.old) }
{
    let old = match state.statics.get(field.0 as usize) {
        Some(value) => *value,
        None => return Err(Stop::Undefined),
    };
    let kind = kind_of(old).ok_or(Stop::Undefined)?;
    let value = take_value(state, kind)?;
    state.statics.set(field.0 as usize, value);
    Ok(())
}
