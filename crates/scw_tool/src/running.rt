//! From a program to its class file, and from the file's bytes to a machine that runs it.

ghost use Rattle.std.specs.Prelude.{◌≡◌, IfOk, OnErr, encode_utf8_all};
ghost use Rattle.std.specs.String.{string_bytes};
ghost use Rattle.scw_core.specs.ProgramOf.{program_of};
ghost use Rattle.scw_tool.specs.Job.{Went};
ghost use Rattle.scw_tool.specs.Source.{HasMain, IsBuilt};

use crate::answer::{Answer, Excess, Run};
use crate::limit::{FRAME_WORDS, FRAMES, HEAP_UNITS, MOST_ROWS};
use crate::words::{name_of, utf8_of};
use scw_core::Program;
use scw_gen::Large;
use scw_outside::Sink;
use scw_run::{Loaded, RunFault, load_program, runs_do_the_same};
use scw_text::NoMemory;
use std::alloc::Global;

/// The object whose `main` is run.
const MAIN: &str = "Main";

// What doesn't fit, with the name as UTF-8.
fn excess_of(alloc: Global, large: &Large) -> Result<Excess, NoMemory>
    ensures class { IfOk result (λ x. string_bytes x.class ≡ encode_utf8_all large.now.class) }
    ensures kind { IfOk result (λ x. x.kind ≡ large.now.kind) }
    ensures number { IfOk result (λ x. x.number ≡ large.now.number) }
{
    Ok(Excess {
        class: utf8_of(alloc, large.class.as_slice())?,
        kind: large.kind,
        number: large.number,
    })
}

/// Makes the class file of a program, and runs it: the machine reads the file's bytes back, and what they say goes to `out`.
pub fn run_program<O: Sink>(
    alloc: Global,
    program: &Program,
    out: &mut O,
) -> Result<Answer, NoMemory>
    requires main { HasMain (program_of program.now) }
    requires built { IsBuilt (program_of program.now) }
    ensures went { IfOk result (λ a. Went (program_of program.now) (O.room out.old) (O.fault_count out.old)
        (O.fault_count out.new) (O.taken out.old) (O.taken out.new) a) }
    ensures kept { OnErr result (O.taken out.new ≡ O.taken out.old) }
{
    runs_do_the_same();
    let main = name_of(alloc, MAIN)?;
    match load_program(alloc, program, &main, HEAP_UNITS, FRAMES, FRAME_WORDS) {
        Ok(loaded) => {
            let Loaded { files, mut machine } = loaded;
            let end = machine.run(out, MOST_ROWS);
            Ok(Answer::Ran(Run {
                files,
                machine,
                end,
            }))
        }
        Err(RunFault::TooLarge(large)) => Ok(Answer::TooLarge(excess_of(alloc, &large)?)),
        Err(RunFault::NotBuilt) => unreachable!(),
        Err(RunFault::NoMain) => unreachable!(),
        Err(RunFault::NoMemory) => Err(NoMemory),
    }
}
