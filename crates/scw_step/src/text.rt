//! Strings of the heap: reading one, and writing the units of a new one.

ghost use Rattle.std.specs.Prelude.{OnOk, Ok, Err, IfOk, IfErr, IsSome, ◌≡◌, ◌≢◌, ◌+◌, ◌-◌, map, ◌^◌, ◌<◌, ◌≤◌, length, replicate, slice_index};
ghost use Rattle.scw_heap.specs.Heap.{object_at};
ghost use Rattle.scw_step.specs.TextStep as step;
ghost use Rattle.scw_step.specs.TextStep.{shown_in, text_at, text_in, text_or_null};

use crate::object::shape_at;
use crate::stop::Stop;
use scw_heap::{Heap, Kind, Ref};
use scw_value::Decimal;

/// Whether the kind is that of a string.
pub fn is_text(kind: Kind) -> bool
    ensures { result ≡ step.is_text kind }
{
    match kind {
        Kind::Text => true,
        Kind::Object(_) | Kind::Booleans | Kind::Chars | Kind::Ints | Kind::Longs | Kind::Refs(_) =>
            false,
    }
}

/// The number of the string's units, where it is a string and not null.
#[tactic(auto, unfolding(crate::specs::TextStep::text_at))]
pub fn length_at(heap: &Heap, r: u64) -> Result<u32, Stop>
    ensures ok { OnOk result (text_at r heap.now ≡ Ok (text_in r heap.now)) }
    ensures err { IfErr result (λ e. text_at r heap.now ≡ Err e) }
    ensures value { IfOk result (λ n. length (text_in r heap.now) ≡ n) }
    ensures there { OnOk result (IsSome (object_at heap.now.objects r)) }
{
    let shape = shape_at(heap, r)?;
    if is_text(shape.kind) {
        Ok(shape.length)
    } else {
        Err(Stop::Undefined)
    }
}

/// The same for a string that may be null, which counts as a text.
#[tactic(auto, unfolding(crate::specs::TextStep::text_or_null, crate::specs::TextStep::shown_in))]
pub fn length_or_null(heap: &Heap, r: u64) -> Result<u32, Stop>
    ensures ok { OnOk result (text_or_null r heap.now ≡ Ok (shown_in r heap.now)) }
    ensures err { IfErr result (λ e. text_or_null r heap.now ≡ Err e) }
    ensures value { IfOk result (λ n. length (shown_in r heap.now) ≡ n) }
    ensures there { OnOk result (r ≢ 0 → IsSome (object_at heap.now.objects r)) }
{
    if r == 0 { Ok(4) } else { length_at(heap, r) }
}

/// The unit of the string at the place.
pub fn unit_at(heap: &Heap, r: u64, i: u32) -> u16
    requires { i < length (text_in r heap.now) }
    ensures { result ≡ slice_index (text_in r heap.now) i }
{
    (heap.get(Ref(r), i) % 0x1_0000) as u16
}

/// Puts a unit of the string, and answers the place behind it.
pub fn put(heap: &mut Heap, r: u64, i: u64, unit: u16) -> u64
    requires room { i < length (text_in r heap.old) }
    requires short { i < 2 ^ 32 }
    ensures place { result ≡ i + 1 }
    ensures units { heap.new ≡ step.put_unit r i unit heap.old }
    ensures room { length (text_in r heap.new) ≡ length (text_in r heap.old) }
{
    heap.set(Ref(r), i as u32, unit as u64);
    i + 1
}

/// Puts the bytes from the place on, and answers the place behind them.
pub fn put_bytes(heap: &mut Heap, r: u64, at: u64, bytes: &[u8]) -> u64
    requires room { at + length bytes.now ≤ length (text_in r heap.old) }
    requires short { at + length bytes.now < 2 ^ 32 }
    ensures place { result ≡ at + length bytes.now }
    ensures units { heap.new ≡ step.putting r at bytes.now heap.old }
    ensures room { length (text_in r heap.new) ≡ length (text_in r heap.old) }
{
    let mut place = at;
    for byte in bytes {
        place = put(heap, r, place, u16::from(*byte));
    }
    place
}

/// Puts the units from the place on, and answers the place behind them.
pub fn put_units(heap: &mut Heap, r: u64, at: u64, units: &[u16]) -> u64
    requires room { at + length units.now ≤ length (text_in r heap.old) }
    requires short { at + length units.now < 2 ^ 32 }
    ensures place { result ≡ at + length units.now }
    ensures units { heap.new ≡ step.putting r at units.now heap.old }
    ensures room { length (text_in r heap.new) ≡ length (text_in r heap.old) }
{
    let mut place = at;
    for unit in units {
        place = put(heap, r, place, *unit);
    }
    place
}

/// The unit, or `.` for `/`.
fn dotted(unit: u16) -> u16
    ensures { result ≡ step.dotted unit }
{
    if unit == 0x2f { 0x2e } else { unit }
}

/// Puts the units from the place on, with `.` for `/`, and answers the place behind them.
pub fn put_dotted(heap: &mut Heap, r: u64, at: u64, units: &[u16]) -> u64
    requires room { at + length units.now ≤ length (text_in r heap.old) }
    requires short { at + length units.now < 2 ^ 32 }
    ensures place { result ≡ at + length units.now }
    ensures units { heap.new ≡ step.putting r at (map step.dotted units.now) heap.old }
    ensures room { length (text_in r heap.new) ≡ length (text_in r heap.old) }
{
    let mut place = at;
    for unit in units {
        place = put(heap, r, place, dotted(*unit));
    }
    place
}

/// Puts so many brackets from the place on, and answers the place behind them.
pub fn put_brackets(heap: &mut Heap, r: u64, at: u64, count: u64) -> u64
    requires room { at + count ≤ length (text_in r heap.old) }
    requires short { at + count < 2 ^ 32 }
    ensures place { result ≡ at + count }
    ensures units { heap.new ≡ step.putting r at (replicate count 0x5b) heap.old }
    ensures room { length (text_in r heap.new) ≡ length (text_in r heap.old) }
{
    let mut place = at;
    for i in 0..count {
        place = put(heap, r, place, 0x5b);
    }
    place
}

/// Puts the characters of a number from the place on, and answers the place behind them.
pub fn put_decimal(heap: &mut Heap, r: u64, at: u64, number: &Decimal) -> u64
    requires room { at + length number.now ≤ length (text_in r heap.old) }
    requires short { at + length number.now < 2 ^ 32 }
    ensures place { result ≡ at + length number.now }
    ensures units { heap.new ≡ step.putting r at number.now heap.old }
    ensures room { length (text_in r heap.new) ≡ length (text_in r heap.old) }
{
    let mut place = at;
    for i in 0..number.len() {
        place = put(heap, r, place, u16::from(number.at(i)));
    }
    place
}

/// Puts the units of another string, from one of its places to another, from the place on, and answers the place behind
/// them.
pub fn put_part(heap: &mut Heap, r: u64, at: u64, other: u64, from: u32, to: u32) -> u64
    requires ordered { from ≤ to }
    requires within { to ≤ length (text_in other heap.old) }
    requires other { other ≢ r }
    requires room { at + (to - from) ≤ length (text_in r heap.old) }
    requires short { at + (to - from) < 2 ^ 32 }
    ensures place { result ≡ at + (to - from) }
    ensures units { heap.new ≡ step.putting r at (step.part from to (text_in other heap.old)) heap.old }
    ensures room { length (text_in r heap.new) ≡ length (text_in r heap.old) }
{
    let mut place = at;
    for i in from..to {
        let unit = unit_at(heap, other, i);
        place = put(heap, r, place, unit);
    }
    place
}

/// Puts the units of another string, which has so many and may be null, from the place on, and answers the place behind
/// them.
#[tactic(auto, unfolding(crate::specs::TextStep::shown_in))]
pub fn put_shown(heap: &mut Heap, r: u64, at: u64, other: u64, units: u32) -> u64
    requires units { length (shown_in other heap.old) ≡ units }
    requires other { other ≢ r }
    requires room { at + units ≤ length (text_in r heap.old) }
    requires short { at + units < 2 ^ 32 }
    ensures place { result ≡ at + units }
    ensures units { heap.new ≡ step.putting r at (shown_in other heap.old) heap.old }
    ensures room { length (text_in r heap.new) ≡ length (text_in r heap.old) }
{
    if other == 0 {
        put_bytes(heap, r, at, b"null")
    } else {
        put_part(heap, r, at, other, 0, units)
    }
}
