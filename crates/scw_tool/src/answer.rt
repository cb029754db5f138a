//! What a call of the program comes to.

ghost use Rattle.std.specs.Prelude.{◌≡◌, None};
ghost use Rattle.scw_tool.specs.Machine.{status_of_end};
ghost use Rattle.scw_tool.specs.Status.{files_of, number_of, steps_of};

use scw_classfile::{ClassRefusal, Files};
use scw_gen::LargeKind;
use scw_machine::{End, Machine};
use scw_text::Refusal;
use sqlite_items::Items;
use std::alloc::Global;

/// What a call of the program came to.
#[derive(Drop)]
pub struct Outcome {
    /// The status by `Answer::number`.
    pub status: u8,
    /// Why the source is refused, where it is.
    pub refusal: Option<Refusal>,
    /// The class files that were made, where they were run.
    pub files: Files,
    /// How many rows the machine did; with a write fault, before the row whose text wasn't put.
    pub steps: u64,
}

/// A class file that was run.
#[derive(Drop)]
pub struct Run {
    /// The class file, under the binary name of its class.
    pub files: Files,
    /// The machine, as it stands at the end.
    pub machine: Machine,
    /// Why it goes on no further.
    pub end: End,
}

/// What of a class doesn't fit a class file (JVMS 4.11).
#[derive(Drop)]
pub struct Excess {
    /// The binary name of the class.
    pub class: String,
    pub kind: LargeKind,
    /// How many there are.
    pub number: u64,
}

/// How a call ends.
#[derive(Drop)]
pub enum Answer {
    /// The source's class file was run.
    Ran(Run),
    /// The text of a class file was put.
    Shown,
    /// The words are no job.
    Words,
    /// The store didn't read the file.
    ReadFault,
    /// The text of a class file wasn't taken whole.
    ShowFault,
    /// The file is no class file.
    BadClass(ClassRefusal),
    /// The source's class doesn't fit a class file.
    TooLarge(Excess),
    /// Memory ran out.
    NoMemory,
    /// The source has a form that isn't built yet.
    NotBuilt,
}

fn number_of_end(end: End) -> u8
    ensures { result ≡ status_of_end end }
{
    match end {
        End::Ended => 0,
        End::Thrown(_) => 7,
        End::Steps => 8,
        End::HeapFull { .. } => 9,
        End::Frames => 10,
        End::SinkFault => 4,
        End::Stuck(_) => 11,
    }
}

impl Answer {
    /// The number with which the program ends.
    pub fn number(&self) -> u8
        ensures { result ≡ number_of self.now }
    {
        match self {
            Answer::Ran(run) => number_of_end(run.end),
            Answer::Shown => 0,
            Answer::Words => 2,
            Answer::ReadFault => 3,
            Answer::ShowFault => 4,
            Answer::BadClass(_) => 11,
            Answer::TooLarge(_) => 6,
            Answer::NoMemory => 12,
            Answer::NotBuilt => 14,
        }
    }

    pub fn into_outcome(self, alloc: Global) -> Outcome
        ensures status { result.status ≡ number_of self }
        ensures refusal { result.refusal ≡ None }
        ensures files { result.files ≡ files_of self }
        ensures steps { result.steps ≡ steps_of self }
    {
        let status = self.number();
        let (files, steps) = match self {
            Answer::Ran(run) => {
                let Run {
                    files,
                    machine,
                    end: _end,
                } = run;
                let steps = machine.done();
                (files, steps)
            }
            Answer::Shown | Answer::Words | Answer::ReadFault | Answer::ShowFault => {
                (Items::new(alloc), 0)
            }
            Answer::BadClass(_refusal) => (Items::new(alloc), 0),
            Answer::TooLarge(_excess) => (Items::new(alloc), 0),
            Answer::NoMemory | Answer::NotBuilt => (Items::new(alloc), 0),
        };
        Outcome {
            status,
            refusal: None,
            files,
            steps,
        }
    }
}
