//! When objects are equal: `equals` of `java/lang/Object`, and `same` of `scalaw/rt/Run`.

ghost use Rattle.std.specs.Prelude.{◌≡◌, length};
ghost use Rattle.scw_heap.specs.Heap.{words_at};
ghost use Rattle.scw_step.specs.BoxStep as step;
ghost use Rattle.scw_step.specs.StateStep.{Runs};

use crate::class;
use crate::object::{Shape, give, shape_at, take_reference};
use crate::run_method::is_of_class;
use crate::state::State;
use crate::stop::Stop;
use crate::text::is_text;
use scw_frame::Value;
use scw_heap::{Heap, Kind, Ref};
use scw_value::widened;

/// The number in a box with the word, by its 64 bits.
fn number_by(kind: Kind, word: u64) -> Option<u64>
    ensures { result ≡ step.number_by kind word }
{
    match kind {
        Kind::Object(class) => {
            if class == class::INTEGER {
                Some(widened((word % 0x1_0000_0000) as u32))
            } else if class == class::LONG {
                Some(word)
            } else if class == class::CHARACTER {
                Some(word % 0x1_0000)
            } else {
                None
            }
        }
        Kind::Text | Kind::Booleans | Kind::Chars | Kind::Ints | Kind::Longs | Kind::Refs(_) =>
            None,
    }
}

/// The number in a box.
#[tactic(auto, unfolding(crate::specs::BoxStep::number_at))]
fn number_at(heap: &Heap, r: u64) -> Result<Option<u64>, Stop>
    ensures { result ≡ step.number_at r heap.now }
{
    let shape = shape_at(heap, r)?;
    if shape.length == 0 {
        return Ok(None);
    }
    Ok(number_by(shape.kind, heap.get(Ref(r), 0)))
}

/// Whether the numbers are the same, or 2 where one is missing.
fn same_numbers(x: Option<u64>, y: Option<u64>) -> u32
    ensures { result ≡ step.same_numbers x y }
{
    match x {
        None => 2,
        Some(x) => match y {
            None => 2,
            Some(y) => (x == y) as u32,
        },
    }
}

/// Whether the objects are the same, as far as `equals` need not decide.
#[tactic(auto, unfolding(crate::specs::BoxStep::same_at))]
fn same_at(heap: &Heap, a: u64, b: u64) -> Result<u32, Stop>
    ensures { result ≡ step.same_at a b heap.now }
{
    if a == 0 {
        return Ok((b == 0) as u32);
    }
    if b == 0 {
        return Ok(2);
    }
    let x = number_at(heap, a)?;
    let y = number_at(heap, b)?;
    Ok(same_numbers(x, y))
}

/// `same`
pub fn compare_same(state: &mut State) -> Result<(), Stop>
    ensures { Runs result state.old state.new (step.comparing_same state.old) }
{
    let b = take_reference(state)?;
    let a = take_reference(state)?;
    let answer = same_at(&state.heap, a, b)?;
    give(state, Value::Int(answer))
}

/// Whether objects of the kind are equal where their words are.
fn is_value(kind: Kind) -> bool
    ensures { result ≡ step.is_value kind }
{
    match kind {
        Kind::Object(class) => 1 < class && class < 7,
        Kind::Text => true,
        Kind::Booleans | Kind::Chars | Kind::Ints | Kind::Longs | Kind::Refs(_) => false,
    }
}

fn same_kind(a: Kind, b: Kind) -> bool
    ensures { result ≡ step.same_kind a b }
{
    match a {
        Kind::Object(class) => is_of_class(class, b),
        Kind::Text => is_text(b),
        Kind::Booleans | Kind::Chars | Kind::Ints | Kind::Longs | Kind::Refs(_) => false,
    }
}

/// Whether two objects, which have so many words, have the same ones.
fn same_words(heap: &Heap, a: u64, m: u32, b: u64, n: u32) -> bool
    requires first { length (words_at heap.now.objects a) ≡ m }
    requires second { length (words_at heap.now.objects b) ≡ n }
    ensures { result ≡ step.same_words (words_at heap.now.objects a) (words_at heap.now.objects b) }
{
    if m != n {
        return false;
    }
    for i in 0..m {
        let x = heap.get(Ref(a), i);
        let y = heap.get(Ref(b), i);
        if x != y {
            return false;
        }
    }
    true
}

/// Whether two objects are equal.
#[tactic(auto, unfolding(crate::specs::BoxStep::equal_as))]
fn equal_as(heap: &Heap, a: u64, first: Shape, b: u64, second: Shape) -> bool
    requires first { length (words_at heap.now.objects a) ≡ first.length }
    requires second { length (words_at heap.now.objects b) ≡ second.length }
    ensures { result ≡ step.equal_as first.kind second.kind a b heap.now }
{
    if is_value(first.kind) {
        same_kind(first.kind, second.kind) && same_words(heap, a, first.length, b, second.length)
    } else {
        a == b
    }
}

/// Whether the object is equal to the other, which may be null.
#[tactic(auto, unfolding(crate::specs::BoxStep::equal_at))]
fn equal_at(heap: &Heap, a: u64, b: u64) -> Result<bool, Stop>
    ensures { result ≡ step.equal_at a b heap.now }
{
    let first = shape_at(heap, a)?;
    if b == 0 {
        return Ok(false);
    }
    let second = shape_at(heap, b)?;
    Ok(equal_as(heap, a, first, b, second))
}

/// `equals`
pub fn test_equal(state: &mut State) -> Result<(), Stop>
    ensures { Runs result state.old state.new (step.testing_equal state.old) }
{
    let b = take_reference(state)?;
    let a = take_reference(state)?;
    let equal = equal_at(&state.heap, a, b)?;
    give(state, Value::Int(if equal { 1 } else { 0 }))
}
