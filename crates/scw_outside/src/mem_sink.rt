//! A sink in memory.

ghost use Rattle.std.specs.Prelude.{◌≡◌, ◌+◌, ◌-◌, ◌<◌, ◌≤◌, [], ◌++◌, length, take, IfOk, OnErr, IsOk, IsErr, is_err, IsTrue, vec_len, vec_capacity};
ghost use Rattle.scw_outside.specs.Calls.{after, fresh, is_over, next_fails};
ghost use Rattle.scw_outside.specs.Causes.{HasCause};

use crate::calls::{Calls, Counts};
use crate::sink::{Sink, SinkFailed};
use scw_text::NoMemory;
use std::alloc::Global;

/// A sink in memory, which tells the bytes that it took. It tells its room once no listed call is
/// still to come.
#[derive(Drop)]
pub struct MemSink {
    bytes: Vec<u8>,
    left: usize,
    calls: Calls,
    ghost reserved: { vec_len bytes + left ≤ vec_capacity bytes },
}

impl MemSink {
    ghost use Rattle.scw_outside.specs.SinkView.{left_of, sink_calls, taken_of};

    /// An empty sink with room for `room` bytes, whose calls of these numbers, counted from 1, fail.
    /// `NoMemory` where the room can't be reserved; `put` takes no memory.
    pub fn new(alloc: Global, room: u32, fail: Counts) -> Result<MemSink, NoMemory>
        ensures taken { IfOk result (λ s. taken_of s ≡ []) }
        ensures left { IfOk result (λ s. left_of s ≡ room) }
        ensures calls { IfOk result (λ s. sink_calls s ≡ fresh fail) }
    {
        match Vec::with_capacity(alloc, room as usize) {
            Ok(bytes) => Ok(MemSink {
                bytes,
                left: room as usize,
                calls: Calls::new(fail),
            }),
            Err(_) => Err(NoMemory),
        }
    }

    /// The bytes taken so far.
    pub fn taken(&self) -> &[u8]
        ensures { result.now ≡ taken_of self.now }
    {
        &self.bytes
    }
}

impl Sink for MemSink {
    ghost use Rattle.std.specs.Prelude.{Some, None, if◌then◌else◌};
    ghost use Rattle.scw_outside.specs.Calls.{is_over};
    ghost use Rattle.scw_outside.specs.SinkView.{left_of, sink_calls, taken_of};

    ghost taken = { λ s. Some (taken_of s) };

    ghost room = { λ s. if is_over (sink_calls s) then Some (left_of s) else None };

    ghost fault_count = { λ s. (sink_calls s).faults };

    fn put(&mut self, bytes: &[u8]) -> Result<usize, SinkFailed>
        requires { 0 < length bytes.now }
        ensures some { IfOk result (λ n. (0 < n) × (n ≤ length bytes.now)) }
        ensures front { IfOk result (λ n. taken_of self.new ≡ taken_of self.old ++ take n bytes.now) }
        ensures kept { OnErr result (taken_of self.new ≡ taken_of self.old) }
        ensures sure { IsTrue (is_over (sink_calls self.old)) → 0 < left_of self.old → IsOk result }
        ensures over { IsTrue (is_over (sink_calls self.old)) → IsTrue (is_over (sink_calls self.new)) }
        ensures cause { HasCause (sink_calls self.old).faults (sink_calls self.new).faults result (record {}) }
        ensures listed { IsTrue (next_fails (sink_calls self.old)) → IsErr result }
        ensures full { left_of self.old ≡ 0 → IsErr result }
        ensures within { IfOk result (λ n. n ≤ left_of self.old) }
        ensures left { IfOk result (λ n. left_of self.new ≡ left_of self.old - n) }
        ensures same { OnErr result (left_of self.new ≡ left_of self.old) }
        ensures counted { sink_calls self.new ≡ after (is_err result) (sink_calls self.old) }
    {
        if self.calls.begin() || self.left == 0 {
            self.calls.fail();
            return Err(SinkFailed);
        }
        let count = bytes.len().min(self.left);
        match self.bytes.extend_from_slice(&bytes[..count]) {
            Ok(()) => {
                self.left -= count;
                Ok(count)
            }
            // The room was reserved.
            Err(_) => unreachable!(),
        }
    }

    fn faults(&self) -> u64 {
        self.calls.faults
    }
}
