//! Runs the examples that lie in its folder. For each it puts the status, and whether what was printed is what the file
//! beside the example says: the output, and behind it the line for errors.
#![tactic(auto)]

use scw_outside::{DirStore, MemSink, StdSink, Store, StoreFault, put_all};
use scw_text::{Bytes, NoMemory, Text};
use scw_tool::scw_main;
use sqlite_items::Items;
use std::alloc::{AllocError, Global};
use std::process::ExitCode;

const EXAMPLES: [&str; 11] = [
    "Main",
    "arithmetic",
    "blocks",
    "conditions",
    "division_by_zero",
    "endless_calls",
    "endless_loop",
    "endless_text",
    "loops",
    "methods",
    "texts",
];

/// More bytes than an example puts.
const MOST: u32 = 4096;

fn text_of(alloc: Global, name: &str) -> Result<Text, AllocError> {
    Ok(Items::from_vec(name.chars().collect(alloc)?))
}

/// What is to be printed of an example; nothing where there is no such file.
fn wanted<S: Store>(alloc: Global, store: &mut S, name: &str) -> Result<Bytes, NoMemory> {
    let file = text_of(alloc, format!(in alloc; "{name}.out")?.as_str())?;
    match store.read(alloc, &file, MOST) {
        Ok(bytes) => Ok(bytes),
        Err(StoreFault::Failed) => Ok(Items::new(alloc)),
        Err(StoreFault::NoMemory) => Err(NoMemory),
    }
}

/// The words `run NAME.scala`.
fn words_of(alloc: Global, name: &str) -> Result<Vec<String>, AllocError> {
    let mut words = Vec::new(alloc);
    words.push(format!(in alloc; "run")?)?;
    words.push(format!(in alloc; "{name}.scala")?)?;
    Ok(words)
}

/// The line of an example: its status, and whether it printed what is wanted.
fn line_of<S: Store>(alloc: Global, store: &mut S, name: &str) -> Result<String, NoMemory> {
    let words = words_of(alloc, name)?;
    let mut out = MemSink::new(alloc, MOST, Items::new(alloc))?;
    let mut err = MemSink::new(alloc, MOST, Items::new(alloc))?;
    let status = scw_main(alloc, &words, store, &mut out, &mut err).status;
    let mut printed = Vec::new(alloc);
    printed.extend_from_slice(out.taken())?;
    printed.extend_from_slice(err.taken())?;
    let is_wanted = printed.as_slice() == wanted(alloc, store, name)?.as_slice();
    let says = if is_wanted {
        "as written"
    } else {
        "NOT as written"
    };
    Ok(format!(in alloc; "{name}: status {status}, {says}\n")?)
}

fn main(rt: HostRuntime) -> ExitCode {
    let alloc = rt.alloc();
    let mut store = DirStore::new(&rt, Items::new(alloc));
    let mut out = StdSink::new(rt.stdout());
    for name in &EXAMPLES {
        let Ok(line) = line_of(alloc, &mut store, name) else {
            return ExitCode::FAILURE;
        };
        if put_all(&mut out, line.as_bytes()).is_err() {
            return ExitCode::FAILURE;
        }
    }
    ExitCode::SUCCESS
}
