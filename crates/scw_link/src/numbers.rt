//! Instructions with numbers or a distance (JVMS 6.5).

ghost use Rattle.std.specs.Prelude.{◌≡◌};
ghost use Rattle.scw_link.specs.Numbers.{by_jump, by_number, element_type, jump_to, new_numbers, place_at, two_bytes};

use crate::meaning::{ByJump, ByNumber};
use scw_code::Numbers;
use scw_frame::{Operation, Primitive, Value};

fn two_bytes(n: i32) -> Option<u16>
    ensures { result ≡ two_bytes n }
{
    if n < 0 {
        None
    } else if n < 65_536 {
        Some(n as u16)
    } else {
        None
    }
}

// The types of elements that the machine makes arrays of (JVMS table 6.5.newarray-A).
fn element_type(n: u16) -> Operation
    ensures { result ≡ element_type n }
{
    match n {
        4 => Operation::NewNumbers(Primitive::Boolean),
        5 => Operation::NewNumbers(Primitive::Char),
        10 => Operation::NewNumbers(Primitive::Int),
        11 => Operation::NewNumbers(Primitive::Long),
        _ => Operation::Undefined,
    }
}

fn new_numbers(n: Option<u16>) -> Operation
    ensures { result ≡ new_numbers n }
{
    match n {
        None => Operation::Undefined,
        Some(n) => element_type(n),
    }
}

/// An instruction with numbers.
pub fn by_number(kind: ByNumber, numbers: Numbers) -> Operation
    ensures { result ≡ by_number kind numbers }
{
    let slot = two_bytes(numbers.first());
    match (kind, slot) {
        (ByNumber::Push, _) => Operation::Push(Value::Int(numbers.first().cast_unsigned())),
        (ByNumber::NewNumbers, n) => new_numbers(n),
        (ByNumber::Load(kind), Some(n)) => Operation::Load(kind, n),
        (ByNumber::Store(kind), Some(n)) => Operation::Store(kind, n),
        (ByNumber::Increment, Some(n)) => {
            Operation::Increment(n, numbers.second().cast_unsigned())
        }
        (ByNumber::Load(_) | ByNumber::Store(_) | ByNumber::Increment, None) => {
            Operation::Undefined
        }
    }
}

/// The place at a distance from another.
pub fn place_at(at: usize, distance: i32) -> Option<u16>
    ensures { result ≡ place_at at distance }
{
    let bytes = distance.unsigned_abs() as usize;
    let place = if distance < 0 {
        at.checked_sub(bytes)
    } else {
        at.checked_add(bytes)
    };
    match place {
        None => None,
        Some(place) => {
            if place < 65_536 {
                Some(place as u16)
            } else {
                None
            }
        }
    }
}

fn jump_to(kind: ByJump, to: u16) -> Operation
    ensures { result ≡ jump_to kind to }
{
    match kind {
        ByJump::Always => Operation::Jump(to),
        ByJump::IfZero(c) => Operation::JumpIfZero(c, to),
        ByJump::IfInts(c) => Operation::JumpIfInts(c, to),
        ByJump::IfSame(same) => Operation::JumpIfSame(same, to),
        ByJump::IfNull(null) => Operation::JumpIfNull(null, to),
    }
}

/// A jump from a place.
pub fn by_jump(kind: ByJump, at: usize, numbers: Numbers) -> Operation
    ensures { result ≡ by_jump kind at numbers }
{
    match place_at(at, numbers.first()) {
        Some(to) => jump_to(kind, to),
        None => Operation::Undefined,
    }
}
