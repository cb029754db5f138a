//! A loaded machine: its rows are done one by one, or many at a time.

ghost use Rattle.std.specs.Prelude.{◌≡◌, ◌≢◌, ◌+◌, ◌<◌, ◌≤◌, ◌^◌, [], true, length, IfSome, IsOk, OnErr, OnOk};
ghost use Rattle.std.specs.Io.KnownBytes.{append_known};
ghost use Rattle.scw_outside.specs.Causes.{HasCause, Rose};
ghost use Rattle.scw_outside.specs.Puts.{TookPart};
ghost use Rattle.scw_machine.specs.Tell.{told};
ghost use Rattle.scw_machine.specs.Run.{Came, Ran, end_of};
ghost use Rattle.scw_machine.specs.Unlimited.{RanUnlimited};
ghost use Rattle.scw_machine.specs.Row.{Closed, rows_of};
ghost use Rattle.scw_machine.specs.declared.end.End.TheVariants.{Steps, SinkFault};
ghost use Rattle.scw_machine.specs.declared.end.Turn.TheVariants.{Done};

use crate::end::{End, Turn};
use crate::output::Output;
use crate::row::row;
use crate::tell::put_throwable;
use scw_frame::Program;
use scw_heap::Ref;
use scw_outside::{Sink, SinkFailed};
use scw_step::State;
use std::marker::Model;

/// A loaded machine.
#[derive(Drop)]
pub struct Machine {
    program: Program,
    state: State,
    output: Output,
    done: u64,
    live: bool,
}

impl Model for Machine {
    ghost use Rattle.std.specs.Prelude.{◌≡◌, [], true};
    ghost use Rattle.scw_machine.specs.Run.{Running};

    ghost Value = { Running };

    ghost view = { λ m. record { program = m.program; state = m.state; done = m.done; live = m.live } };

    ghost invariant = { λ m. m.live ≡ true → m.output ≡ [] };
}

impl Machine {
    /// A machine that has done no row.
    pub(crate) fn start(program: Program, state: State, output: Output) -> Machine
        requires { output ≡ [] }
        ensures { result ≡ record { program = program; state = state; done = 0; live = true } }
    {
        Machine {
            program,
            state,
            output,
            done: 0,
            live: true,
        }
    }

    /// How many rows were done.
    pub fn done(&self) -> u64
        ensures { result ≡ self.now.done }
    {
        self.done
    }

    /// Does one row, and puts what it says at once.
    pub fn step<O: Sink>(&mut self, out: &mut O) -> Turn
        requires live { self.old.live ≡ true }
        requires within { self.old.done + 1 < 2 ^ 64 }
        ensures ran { Ran (end_of result) 1 self.old self.new (O.taken out.old) (O.taken out.new) (O.room out.old) }
        ensures unlimited { RanUnlimited (end_of result) 1 self.old self.new (O.taken out.old) (O.taken out.new) (O.room out.old) }
        ensures on { result ≢ Done Steps }
        ensures later { O.fault_count out.old ≤ O.fault_count out.new }
        ensures cause { result ≡ Done SinkFault → Rose (O.fault_count out.old) (O.fault_count out.new) }
    {
        match self.run(out, 1) {
            End::Steps => Turn::On,
            end => Turn::Done(end),
        }
    }

    /// Does so many rows, or those before the run is over, and puts all that they say. They are the rows of the run without
    /// limits from the same state: a limit ends a run, and changes nothing before.
    pub fn run<O: Sink>(&mut self, out: &mut O, steps: u64) -> End
        requires live { self.old.live ≡ true }
        requires within { self.old.done + steps < 2 ^ 64 }
        ensures ran { Ran result steps self.old self.new (O.taken out.old) (O.taken out.new) (O.room out.old) }
        ensures unlimited { RanUnlimited result steps self.old self.new (O.taken out.old) (O.taken out.new) (O.room out.old) }
        ensures later { O.fault_count out.old ≤ O.fault_count out.new }
        ensures cause { result ≡ SinkFault → Rose (O.fault_count out.old) (O.fault_count out.new) }
    {
        let answer = run_rows(&self.program, &mut self.state, &mut self.output, out, steps);
        self.done += answer.rows;
        self.live = matches!(answer.end, End::Steps);
        answer.end
    }

    /// Puts `exception` and the name of the exception's class, `: ` and its message if it has one, and a line feed. For what is
    /// no object of a class of the program the name has no letters. It takes no memory.
    ///
    /// # Errors
    ///
    /// `SinkFailed` where the sink fails, which then has a front of that.
    pub fn tell<E: Sink>(&self, r: Ref, err: &mut E) -> Result<(), SinkFailed>
        ensures ok { OnOk result (E.taken err.new ≡ append_known (E.taken err.old) (told self.now.program self.now.state.heap.objects r.0)) }
        ensures part { OnErr result (TookPart (E.taken err.old) (E.taken err.new) (told self.now.program self.now.state.heap.objects r.0)) }
        ensures sure { IfSome (E.room err.old) (λ room. length (told self.now.program self.now.state.heap.objects r.0) ≤ room → IsOk result) }
        ensures cause { HasCause (E.fault_count err.old) (E.fault_count err.new) result (record {}) }
    {
        put_throwable(&self.program, &self.state.heap, r, err)
    }
}

/// How many rows were done, and why no more.
#[derive(Clone, Copy)]
struct Answer {
    rows: u64,
    end: End,
}

/// How many rows were done with one that ended the run so.
fn rows_of(end: End) -> u64
    ensures value { result ≡ rows_of end }
    ensures within { result ≤ 1 }
{
    match end {
        End::Ended | End::Thrown(_) => 1,
        End::Steps | End::HeapFull { .. } | End::Frames | End::SinkFault | End::Stuck(_) => 0,
    }
}

/// The answer once all that waits is put.
fn close<O: Sink>(output: &mut Output, out: &mut O, answer: Answer) -> Answer
    ensures rows { result.rows ≡ answer.rows }
    ensures closed { Closed answer.end result.end (O.taken out.old) (O.taken out.new) (O.room out.old) (O.fault_count out.old) (O.fault_count out.new) output.old output.new }
    ensures later { O.fault_count out.old ≤ O.fault_count out.new }
{
    match output.flush(out) {
        Ok(()) => answer,
        Err(_) => Answer {
            rows: answer.rows,
            end: End::SinkFault,
        },
    }
}

/// Does so many rows, or those before the run is over, and puts all that they say.
fn run_rows<O: Sink>(
    program: &Program,
    state: &mut State,
    output: &mut Output,
    out: &mut O,
    steps: u64,
) -> Answer
    requires { output.old ≡ [] }
    ensures came { Came result.end steps result.rows program.now state.old state.new (O.taken out.old) (O.taken out.new) (O.room out.old) }
    ensures within { result.rows ≤ steps }
    ensures live { result.end ≡ Steps → output.new ≡ [] }
    ensures later { O.fault_count out.old ≤ O.fault_count out.new }
    ensures cause { result.end ≡ SinkFault → Rose (O.fault_count out.old) (O.fault_count out.new) }
{
    for i in 0..steps {
        match row(program, state, output, out, i) {
            Ok(None) => {}
            Ok(Some(end)) => {
                let rows = i + rows_of(end);
                return close(output, out, Answer { rows, end });
            }
            Err(_) => {
                return Answer {
                    rows: i + 1,
                    end: End::SinkFault,
                };
            }
        }
    }
    let end = End::Steps;
    close(output, out, Answer { rows: steps, end })
}
