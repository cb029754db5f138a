//! One row of a machine, and what it puts.

ghost use Rattle.std.specs.Prelude.{◌≡◌, ◌<◌, ◌≤◌, [], ◌++◌, length, IfSome, OnOk, OnErr, IsOk, IsTrue, IsFalse};
ghost use Rattle.scw_outside.specs.Causes.{HasCause};
ghost use Rattle.scw_outside.specs.Puts.{TookPart};
ghost use Rattle.scw_machine.specs.Output.{IsParted, IsText, said_by};
ghost use Rattle.scw_machine.specs.Row.{Turned, end_by};
ghost use Rattle.scw_machine.specs.Run as run;

use crate::end::{End, Place};
use crate::output::{Output, is_text};
use scw_frame::{MethodNumber, Program};
use scw_heap::{Heap, Ref};
use scw_outside::{Sink, SinkFailed};
use scw_step::{Event, State, Stop, step};

/// Whether something is said of the number: null or a string.
fn is_said(heap: &Heap, r: u64) -> bool
    ensures text { IsTrue result → 0 < r → IsText heap.now.objects r }
    ensures other { IsFalse result → said_by heap.now.objects r ≡ [] }
{
    r == 0 || is_text(heap, r)
}

/// Adds what is said of the string with the number.
fn say<O: Sink>(output: &mut Output, heap: &Heap, r: u64, out: &mut O) -> Result<(), SinkFailed>
    ensures parted { OnOk result (IsParted (O.taken out.old) (O.taken out.new) (O.room out.old) (O.room out.new) (output.old ++ said_by heap.now.objects r) output.new) }
    ensures part { OnErr result (TookPart (O.taken out.old) (O.taken out.new) (output.old ++ said_by heap.now.objects r)) }
    ensures sure { IfSome (O.room out.old) (λ room. length (output.old ++ said_by heap.now.objects r) ≤ room → IsOk result) }
    ensures cause { HasCause (O.fault_count out.old) (O.fault_count out.new) result (record {}) }
{
    if is_said(heap, r) {
        return output.add_text(heap, r, out);
    }
    Ok(())
}

/// The byte of the file for the place of a method whose code begins at `start`. The method 0 starts the program. No file
/// has its code, so all its places are at its start.
fn byte_of(method: u32, start: u32, place: u16) -> u32
    ensures { result ≡ run.byte_of method start place }
{
    if method == 0 {
        start
    } else {
        start.saturating_add(place as u32)
    }
}

/// Where the place of the method stands in the files.
fn place_at(program: &Program, method: MethodNumber, place: u16) -> Place
    ensures { result ≡ run.place_at program.now method.0 place }
{
    match program.methods.get(method.0 as usize) {
        Some(found) => Place {
            class: found.origin.file,
            method: found.origin.method,
            at: byte_of(method.0, found.origin.start, place),
        },
        None => Place {
            class: 0,
            method: 0,
            at: 0,
        },
    }
}

/// Why the run is over that stopped at the place of the method.
fn end_by(program: &Program, method: MethodNumber, place: u16, stop: Stop) -> End
    ensures { result ≡ end_by stop (run.place_at program.now method.0 place) }
{
    match stop {
        Stop::Undefined | Stop::Throws(_) | Stop::ThrowsObject(_) => {
            End::Stuck(place_at(program, method, place))
        }
        Stop::HeapFull(need) => End::HeapFull { need },
        Stop::TooManyFrames => End::Frames,
    }
}

/// Does one row, and answers why the run is over, if it is.
///
/// # Errors
///
/// `SinkFailed` where the sink fails; the row is done then.
fn turn<O: Sink>(
    program: &Program,
    state: &mut State,
    output: &mut Output,
    out: &mut O,
) -> Result<Option<End>, SinkFailed>
    ensures turned { Turned result program.now state.old state.new (O.taken out.old) (O.taken out.new) (O.room out.old) (O.room out.new) output.old output.new }
    ensures cause { HasCause (O.fault_count out.old) (O.fault_count out.new) result (record {}) }
{
    let method = state.frames.method();
    let place = state.frames.place();
    match step(program, state) {
        Ok(Event::On) => Ok(None),
        Ok(Event::Says(r)) => match say(output, &state.heap, r, out) {
            Ok(()) => Ok(None),
            Err(failed) => Err(failed),
        },
        Ok(Event::Ended) => Ok(Some(End::Ended)),
        Ok(Event::Thrown(r)) => Ok(Some(End::Thrown(Ref(r)))),
        Err(stop) => Ok(Some(end_by(program, method, place, stop))),
    }
}

/// What waits is put after so many rows at the latest.
const ROWS: u64 = 1_000_000;

/// Does the row with the number, and puts what waits if that is the last of a million.
///
/// # Errors
///
/// `SinkFailed` where the sink fails; the row is done then.
pub fn row<O: Sink>(
    program: &Program,
    state: &mut State,
    output: &mut Output,
    out: &mut O,
    number: u64,
) -> Result<Option<End>, SinkFailed>
    ensures turned { Turned result program.now state.old state.new (O.taken out.old) (O.taken out.new) (O.room out.old) (O.room out.new) output.old output.new }
    ensures cause { HasCause (O.fault_count out.old) (O.fault_count out.new) result (record {}) }
{
    match turn(program, state, output, out) {
        Ok(None) => {
            if number % ROWS < ROWS - 1 {
                return Ok(None);
            }
            match output.flush(out) {
                Ok(()) => Ok(None),
                Err(failed) => Err(failed),
            }
        }
        Ok(Some(end)) => Ok(Some(end)),
        Err(failed) => Err(failed),
    }
}
