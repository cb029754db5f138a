//! Tries the tables of `data/` on the machine: instructions whose output is printed, exceptions, runs to each limit, and what
//! class files are linked to. It puts a line for each case that passed, and their counts.
#![tactic(auto)]

mod code;
mod linked;
mod parts;
mod running;
mod runs;

use code::Codes;
use linked::Linked;
use parts::{Parts, parts_of};
use runs::Runs;
use scw_outside::{DirStore, Sink, StdSink, Store};
use scw_rows::{Counts, Stop, end_of, try_table};
use sqlite_items::Items;
use std::alloc::Global;
use std::process::ExitCode;

/// The tables of code and what it prints.
const CODES: [&str; 5] = ["instructions", "jumps", "objects", "texts", "exceptions"];

/// Tries all tables.
fn try_all<D: Store, O: Sink>(
    alloc: Global,
    parts: &Parts,
    store: &mut D,
    out: &mut O,
) -> Result<Counts, Stop> {
    let mut counts = Counts::NONE;
    for table in CODES {
        try_table(alloc, &mut Codes { parts }, table, store, out, &mut counts)?;
    }
    try_table(alloc, &mut Runs { parts }, "runs", store, out, &mut counts)?;
    try_table(
        alloc,
        &mut Linked { parts },
        "linked",
        store,
        out,
        &mut counts,
    )?;
    Ok(counts)
}

fn tried<O: Sink>(rt: &HostRuntime, out: &mut O) -> Result<Counts, Stop> {
    let alloc = rt.alloc();
    let mut store = DirStore::new(rt, Items::new(alloc));
    let parts = parts_of(alloc, &mut store)?;
    try_all(alloc, &parts, &mut store, out)
}

fn main(rt: HostRuntime) -> ExitCode {
    let mut out = StdSink::new(rt.stdout());
    let counts = tried(&rt, &mut out);
    end_of(rt.alloc(), counts, &mut out)
}
