//! What is told of an exception that no frame caught. It takes no memory.

ghost use Rattle.std.specs.Prelude.{◌≡◌, ◌+◌, ◌<◌, ◌≤◌, [], ◌++◌, drop, length, map, slice_get, take, IfSome, OnErr, OnOk, IsOk};
ghost use Rattle.scw_outside.specs.Causes.{HasCause};
ghost use Rattle.scw_outside.specs.Puts.{TookPart};
ghost use Rattle.scw_heap.specs.Heap.{words_at};
ghost use Rattle.scw_step.specs.TextStep as step;
ghost use Rattle.scw_value.specs.Text.{utf8};
ghost use Rattle.scw_machine.specs.Output.{IsParted, IsText};
ghost use Rattle.scw_machine.specs.Tell.{class_of, message_at, message_told, name_at, name_in, told};

use crate::output::{character_at, is_text};
use scw_frame::Program;
use scw_heap::{Heap, Kind, Ref};
use scw_outside::{Sink, SinkFailed, put_all};
use scw_value::{Encoded, encode};

/// The unit of a name as a program shows it.
fn dotted(unit: u16) -> u16
    ensures { result ≡ step.dotted unit }
{
    if unit == 0x2f { 0x2e } else { unit }
}

/// The unit of the name at `i`, with `.` for `/`.
fn unit_at(name: &[u16], i: usize) -> Option<u16>
    ensures { result ≡ slice_get (map step.dotted name.now) i }
{
    match name.get(i) {
        Some(unit) => Some(dotted(*unit)),
        None => None,
    }
}

/// The character of the name that begins at `i`, with `.` for `/`.
fn character_of(name: &[u16], i: usize) -> Encoded
    requires within { i < length name.now }
    ensures bytes { utf8 (drop i (map step.dotted name.now)) ≡ take result.length result.bytes ++ utf8 (drop (i + result.units) (map step.dotted name.now)) }
    ensures some { 0 < result.units }
    ensures end { i + result.units ≤ length name.now }
    ensures within { result.length ≤ 4 }
{
    let first = dotted(name[i]);
    encode(first, unit_at(name, i + 1))
}

/// Puts the name, with `.` for `/`.
pub fn put_name<O: Sink>(name: &[u16], out: &mut O) -> Result<(), SinkFailed>
    ensures parted { OnOk result (IsParted (O.taken out.old) (O.taken out.new) (O.room out.old) (O.room out.new) (utf8 (map step.dotted name.now)) []) }
    ensures part { OnErr result (TookPart (O.taken out.old) (O.taken out.new) (utf8 (map step.dotted name.now))) }
    ensures sure { IfSome (O.room out.old) (λ room. length (utf8 (map step.dotted name.now)) ≤ room → IsOk result) }
    ensures cause { HasCause (O.fault_count out.old) (O.fault_count out.new) result (record {}) }
{
    let mut i = 0;
    while i < name.len() {
        let character = character_of(name, i);
        put_all(out, &character.bytes[..character.length])?;
        i += character.units;
    }
    Ok(())
}

/// Puts the string with the number.
fn put_text<O: Sink>(heap: &Heap, text: Ref, out: &mut O) -> Result<(), SinkFailed>
    requires { IsText heap.now.objects text.0 }
    ensures parted { OnOk result (IsParted (O.taken out.old) (O.taken out.new) (O.room out.old) (O.room out.new) (utf8 (words_at heap.now.objects text.0)) []) }
    ensures part { OnErr result (TookPart (O.taken out.old) (O.taken out.new) (utf8 (words_at heap.now.objects text.0))) }
    ensures sure { IfSome (O.room out.old) (λ room. length (utf8 (words_at heap.now.objects text.0)) ≤ room → IsOk result) }
    ensures cause { HasCause (O.fault_count out.old) (O.fault_count out.new) result (record {}) }
{
    let length = heap.length(text);
    let mut i = 0;
    while i < length {
        let character = character_at(heap, text, i);
        put_all(out, &character.bytes[..character.length])?;
        i += character.units as u32;
    }
    Ok(())
}

/// Puts the message with the number, and what stands before it; nothing for what is no string.
pub fn put_message<O: Sink>(heap: &Heap, message: u64, out: &mut O) -> Result<(), SinkFailed>
    ensures parted { OnOk result (IsParted (O.taken out.old) (O.taken out.new) (O.room out.old) (O.room out.new) (message_told heap.now.objects message) []) }
    ensures part { OnErr result (TookPart (O.taken out.old) (O.taken out.new) (message_told heap.now.objects message)) }
    ensures sure { IfSome (O.room out.old) (λ room. length (message_told heap.now.objects message) ≤ room → IsOk result) }
    ensures cause { HasCause (O.fault_count out.old) (O.fault_count out.new) result (record {}) }
{
    if !is_text(heap, message) {
        return Ok(());
    }
    put_all(out, b": ")?;
    put_text(heap, Ref(message), out)
}

/// The name of the class that objects of the kind are made of; none where that isn't one of the program.
fn name_of_kind(program: &Program, kind: Kind) -> &[u16]
    ensures { result.now ≡ name_in (class_of program.now kind) }
{
    match kind {
        Kind::Object(class) => match program.classes.get(class as usize) {
            Some(found) => found.name.as_slice(),
            None => &[],
        },
        Kind::Text | Kind::Booleans | Kind::Chars | Kind::Ints | Kind::Longs | Kind::Refs(_) => &[],
    }
}

/// The name of the class of the object with the number; none where there is no such object.
fn name_of<'a>(program: &'a Program, heap: &Heap, r: Ref) -> &'a [u16]
    ensures { result.now ≡ name_at program.now heap.now.objects r.0 }
{
    if !heap.has(r.0) {
        return &[];
    }
    name_of_kind(program, heap.kind(r))
}

/// The number in the first field of the object, where an exception has its message; 0 where it has no field.
fn message_of(heap: &Heap, r: Ref) -> u64
    ensures { result ≡ message_at heap.now.objects r.0 }
{
    if heap.has(r.0) && 0 < heap.length(r) {
        heap.get(r, 0)
    } else {
        0
    }
}

/// Puts the line for the exception.
pub fn put_throwable<O: Sink>(
    program: &Program,
    heap: &Heap,
    r: Ref,
    out: &mut O,
) -> Result<(), SinkFailed>
    ensures parted { OnOk result (IsParted (O.taken out.old) (O.taken out.new) (O.room out.old) (O.room out.new) (told program.now heap.now.objects r.0) []) }
    ensures part { OnErr result (TookPart (O.taken out.old) (O.taken out.new) (told program.now heap.now.objects r.0)) }
    ensures sure { IfSome (O.room out.old) (λ room. length (told program.now heap.now.objects r.0) ≤ room → IsOk result) }
    ensures cause { HasCause (O.fault_count out.old) (O.fault_count out.new) result (record {}) }
{
    put_all(out, b"exception ")?;
    put_name(name_of(program, heap, r), out)?;
    put_message(heap, message_of(heap, r), out)?;
    put_all(out, b"\n")
}
