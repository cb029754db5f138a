//! Class files loaded into the machine, and run.

ghost use Rattle.std.specs.Prelude.{◌≡◌, ◌≤◌, ◌<◌, ◌^◌, IfOk, length, true};

use scw_classfile::{FileOut, Files};
use scw_machine::{End, LoadFault, Machine, load};
use scw_outside::MemSink;
use scw_rows::{Stop, text_of};
use scw_text::{NoMemory, Text};
use sqlite_items::Items;
use std::alloc::{AllocError, Global};

/// How far a run may go.
#[derive(Clone, Copy)]
pub struct Limits {
    /// In units of 16 bytes.
    pub heap: u32,
    /// How many rows at most.
    pub rows: u32,
    /// How many more, where the machine goes on behind these.
    pub more: u32,
    /// The call of the sink that fails, or 0.
    pub fail: u64,
    /// How many bytes the sink takes.
    pub room: u32,
}

impl Limits {
    /// More than the code of a row needs.
    pub const USUAL: Limits = Limits {
        heap: 10_000,
        rows: 1_000,
        more: 0,
        fail: 0,
        room: 1_000_000,
    };
}

/// What a run came to.
#[derive(Drop)]
pub struct Ran {
    pub end: End,
    /// The rows that were done.
    pub done: u64,
    /// What was put.
    pub taken: Vec<u8>,
    /// The line of an exception that wasn't caught.
    pub told: Vec<u8>,
}

/// Why there is no machine.
#[derive(Clone, Copy)]
pub enum Unloaded {
    /// The file with the number is no class file.
    NoClass(u32),
    /// There is no main object of the name.
    NoMain,
}

impl Unloaded {
    pub fn text(self, alloc: Global) -> Result<String, AllocError> {
        match self {
            Unloaded::NoClass(file) => format!(in alloc; "no class file {file}"),
            Unloaded::NoMain => format!(in alloc; "no main object"),
        }
    }
}

fn files_of(alloc: Global, classes: &[&Vec<u8>]) -> Result<Files, NoMemory> {
    let mut files = Items::new(alloc);
    for class in classes {
        files.push(FileOut {
            name: Items::new(alloc),
            bytes: Items::from_slice(alloc, class)?,
        })?;
    }
    Ok(files)
}

/// Runs the machine. Each way out of a function gives back the machine that it has, with all that is known of it: this one
/// and the next are the only ones that have one.
fn run_machine(machine: &mut Machine, limits: &Limits, out: &mut MemSink, err: &mut MemSink) -> End
    requires live { machine.old.live ≡ true }
    requires fresh { machine.old.done ≡ 0 }
{
    let mut end = machine.run(out, u64::from(limits.rows));
    if matches!(end, End::Steps) {
        end = machine.run(out, u64::from(limits.more));
    }
    if let End::Thrown(r) = end {
        let _ = machine.tell(r, err);
    }
    end
}

/// How the run of the files ends, and after how many rows.
fn run_files(
    alloc: Global,
    files: &Files,
    main: &Text,
    limits: &Limits,
    out: &mut MemSink,
    err: &mut MemSink,
) -> Result<(End, u64), LoadFault>
    requires { length files.now < 2 ^ 32 }
{
    let mut machine = load(alloc, files, main, limits.heap, 100_000, 4_000_000)?;
    let end = run_machine(&mut machine, limits, out, err);
    Ok((end, machine.done()))
}

/// Loads the class files, and runs `main` of the object with the name.
pub fn run(
    alloc: Global,
    classes: &[&Vec<u8>],
    main: &str,
    limits: &Limits,
) -> Result<Result<Ran, Unloaded>, Stop> {
    let files = files_of(alloc, classes)?;
    if files.len() >= 0x1_0000_0000 {
        return Err(Stop::NoMemory);
    }
    let main = text_of(alloc, main)?;
    let fail = Items::from_slice(alloc, &[limits.fail])?;
    let mut out = MemSink::new(alloc, limits.room, fail)?;
    let mut err = MemSink::new(alloc, 1_000, Items::new(alloc))?;
    match run_files(alloc, &files, &main, limits, &mut out, &mut err) {
        Ok((end, done)) => Ok(Ok(Ran {
            end,
            done,
            taken: out.taken().to_vec(alloc)?,
            told: err.taken().to_vec(alloc)?,
        })),
        Err(LoadFault::Bad { file, .. }) => Ok(Err(Unloaded::NoClass(file))),
        Err(LoadFault::NoMain) => Ok(Err(Unloaded::NoMain)),
        Err(LoadFault::NoMemory) => Err(Stop::NoMemory),
    }
}
