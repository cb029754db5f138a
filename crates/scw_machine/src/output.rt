//! What the machine puts: bytes wait in a buffer, and go to a sink when it is full.

ghost use Rattle.std.specs.Prelude.{◌≡◌, ◌+◌, ◌-◌, ◌<◌, ◌≤◌, [], ◌++◌, length, take, drop, slice_index, Some, IfSome, IfOk, OnOk, OnErr, IsOk, IsTrue, IsFalse};
ghost use Rattle.std.specs.Io.KnownBytes.{append_known};
ghost use Rattle.std.specs.Vec.{vec_capacity, vec_len};
ghost use Rattle.scw_outside.specs.Causes.{HasCause};
ghost use Rattle.scw_outside.specs.Puts.{TookPart};
ghost use Rattle.scw_heap.specs.Heap.{object_at, words_at};
ghost use Rattle.scw_value.specs.Text.{utf8};
ghost use Rattle.scw_machine.specs.Output.{IsParted, IsText, bytes_in, said};
ghost use Rattle.scw_machine.specs.Tell.{message_in};

use scw_heap::{Heap, Kind, Ref};
use scw_outside::{Sink, SinkFailed, put_all};
use scw_text::NoMemory;
use scw_value::{Encoded, encode};
use std::alloc::Global;
use std::marker::Model;

/// Bytes that wait to be put, in room that is reserved once.
#[derive(Drop)]
pub struct Output {
    bytes: Vec<u8>,
    /// How many bytes may wait.
    most: usize,
}

impl Model for Output {
    ghost use Rattle.std.specs.Prelude.{ℕ, List, ◌≤◌};
    ghost use Rattle.std.specs.Vec.{vec_capacity, vec_len};
    ghost use Rattle.scw_machine.specs.Output.{IsReserved};

    ghost Value = { List ℕ };

    ghost view = { λ output. output.bytes.items };

    ghost invariant = { λ output. IsReserved (vec_len output.bytes) output.most (vec_capacity output.bytes) };
}

impl Output {
    /// Nothing waits. Only this call takes memory.
    ///
    /// # Errors
    ///
    /// `NoMemory` where memory runs out.
    pub fn new(alloc: Global, most: usize) -> Result<Output, NoMemory>
        requires { 4 ≤ most }
        ensures { IfOk result (λ output. output ≡ []) }
    {
        let bytes = Vec::with_capacity(alloc, most)?;
        Ok(Output { bytes, most })
    }

    /// Puts all that waits.
    ///
    /// # Errors
    ///
    /// `SinkFailed` where the sink fails, which then has a front of what waited.
    pub fn flush<O: Sink>(&mut self, out: &mut O) -> Result<(), SinkFailed>
        ensures ok { OnOk result (O.taken out.new ≡ append_known (O.taken out.old) self.old) }
        ensures empty { OnOk result (self.new ≡ []) }
        ensures left { OnOk result (IfSome (O.room out.old) (λ r. O.room out.new ≡ Some (r - length self.old))) }
        ensures part { OnErr result (TookPart (O.taken out.old) (O.taken out.new) self.old) }
        ensures sure { IfSome (O.room out.old) (λ r. length self.old ≤ r → IsOk result) }
        ensures cause { HasCause (O.fault_count out.old) (O.fault_count out.new) result (record {}) }
    {
        empty(&mut self.bytes, out)
    }

    /// Adds the text of the string with the number in UTF-8, and puts what waits whenever there is no
    /// room for the next character. Null, 0, counts as `null`.
    ///
    /// # Errors
    ///
    /// `SinkFailed` where the sink fails, which then has a front of what waited and the text.
    pub fn add_text<O: Sink>(&mut self, heap: &Heap, r: u64, out: &mut O) -> Result<(), SinkFailed>
        requires { 0 < r → IsText heap.now.objects r }
        ensures ok { OnOk result (append_known (O.taken out.new) self.new ≡ append_known (append_known (O.taken out.old) self.old) (said heap.now.objects r)) }
        ensures parted { OnOk result (IsParted (O.taken out.old) (O.taken out.new) (O.room out.old) (O.room out.new) (self.old ++ said heap.now.objects r) self.new) }
        ensures part { OnErr result (TookPart (O.taken out.old) (O.taken out.new) (self.old ++ said heap.now.objects r)) }
        ensures sure { IfSome (O.room out.old) (λ room. length (self.old ++ said heap.now.objects r) ≤ room → IsOk result) }
        ensures cause { HasCause (O.fault_count out.old) (O.fault_count out.new) result (record {}) }
    {
        if r == 0 {
            return self.add(b"null", out);
        }
        let text = Ref(r);
        let length = heap.length(text);
        let mut i = 0;
        while i < length {
            let character = character_at(heap, text, i);
            self.add(&character.bytes[..character.length], out)?;
            i += character.units as u32;
        }
        Ok(())
    }

    /// Adds the bytes, of which all fit in an empty buffer, and puts what waits if they don't fit behind it.
    fn add<O: Sink>(&mut self, bytes: &[u8], out: &mut O) -> Result<(), SinkFailed>
        requires { length bytes.now ≤ 4 }
        ensures parted { OnOk result (IsParted (O.taken out.old) (O.taken out.new) (O.room out.old) (O.room out.new) (self.old ++ bytes.now) self.new) }
        ensures part { OnErr result (TookPart (O.taken out.old) (O.taken out.new) (self.old ++ bytes.now)) }
        ensures sure { IfSome (O.room out.old) (λ room. length (self.old ++ bytes.now) ≤ room → IsOk result) }
        ensures cause { HasCause (O.fault_count out.old) (O.fault_count out.new) result (record {}) }
    {
        if self.most - self.bytes.len() < bytes.len() {
            empty(&mut self.bytes, out)?;
        }
        append(&mut self.bytes, bytes);
        Ok(())
    }
}

/// Puts the bytes, of which none is left then. The room stays.
fn empty<O: Sink>(waiting: &mut Vec<u8>, out: &mut O) -> Result<(), SinkFailed>
    ensures ok { OnOk result (O.taken out.new ≡ append_known (O.taken out.old) waiting.old.items) }
    ensures empty { OnOk result (waiting.new.items ≡ []) }
    ensures left { OnOk result (IfSome (O.room out.old) (λ r. O.room out.new ≡ Some (r - length waiting.old.items))) }
    ensures part { OnErr result (TookPart (O.taken out.old) (O.taken out.new) waiting.old.items) }
    ensures sure { IfSome (O.room out.old) (λ r. length waiting.old.items ≤ r → IsOk result) }
    ensures cause { HasCause (O.fault_count out.old) (O.fault_count out.new) result (record {}) }
    ensures len { vec_len waiting.new ≤ vec_len waiting.old }
    ensures capacity { vec_capacity waiting.old ≤ vec_capacity waiting.new }
{
    put_all(out, waiting.as_slice())?;
    waiting.clear();
    Ok(())
}

/// Puts the bytes behind the others. The room is reserved, so that no memory is taken.
fn append(waiting: &mut Vec<u8>, bytes: &[u8])
    requires { vec_len waiting.old + length bytes.now ≤ vec_capacity waiting.old }
    ensures items { waiting.new.items ≡ waiting.old.items ++ bytes.now }
    ensures len { vec_len waiting.new ≡ vec_len waiting.old + length bytes.now }
    ensures capacity { vec_capacity waiting.old ≤ vec_capacity waiting.new }
{
    waiting.extend_from_slice(bytes).unwrap();
}

/// Whether the number is that of a string.
pub fn is_text(heap: &Heap, r: u64) -> bool
    ensures text { IsTrue result → IsText heap.now.objects r }
    ensures other { IsFalse result → bytes_in (object_at heap.now.objects r) ≡ [] }
    ensures message { IsFalse result → message_in (object_at heap.now.objects r) ≡ [] }
{
    heap.has(r) && matches!(heap.kind(Ref(r)), Kind::Text)
}

/// The code unit of the string at `i`.
fn unit_at(heap: &Heap, text: Ref, i: u32) -> u16
    requires text { IsText heap.now.objects text.0 }
    requires within { i < length (words_at heap.now.objects text.0) }
    ensures { result ≡ slice_index (words_at heap.now.objects text.0) i }
{
    heap.get(text, i) as u16
}

/// The character of the string that begins at `i`: its bytes come first in what is put from there on.
pub fn character_at(heap: &Heap, text: Ref, i: u32) -> Encoded
    requires text { IsText heap.now.objects text.0 }
    requires within { i < length (words_at heap.now.objects text.0) }
    ensures bytes { utf8 (drop i (words_at heap.now.objects text.0)) ≡ take result.length result.bytes ++ utf8 (drop (i + result.units) (words_at heap.now.objects text.0)) }
    ensures some { 0 < result.units }
    ensures end { i + result.units ≤ length (words_at heap.now.objects text.0) }
    ensures within { result.length ≤ 4 }
{
    let length = heap.length(text);
    let behind = if i + 1 < length {
        Some(unit_at(heap, text, i + 1))
    } else {
        None
    };
    encode(unit_at(heap, text, i), behind)
}
