//! Tries the tables of `data/`: whole calls of the program, texts that are sources of the small language or none, and the
//! code of sources.
#![tactic(auto)]

mod call;
mod code;
mod gap;
mod run;
mod source;

use call::Calls;
use code::Codes;
use gap::Gaps;
use run::Runs;
use scw_outside::{DirStore, Sink, StdSink, Store};
use scw_rows::{Counts, Stop, end_of, try_table};
use source::Sources;
use sqlite_items::Items;
use std::alloc::Global;
use std::process::ExitCode;

/// Tries the tables, and counts their cases.
fn tried<D: Store, O: Sink>(alloc: Global, store: &mut D, out: &mut O) -> Result<Counts, Stop> {
    let mut counts = Counts::NONE;
    try_table(alloc, &mut Calls, "calls", store, out, &mut counts)?;
    try_table(alloc, &mut Runs, "runs", store, out, &mut counts)?;
    let mut forms = Sources::read(alloc);
    try_table(alloc, &mut forms, "forms", store, out, &mut counts)?;
    try_table(alloc, &mut forms, "limits", store, out, &mut counts)?;
    try_table(alloc, &mut Gaps, "gaps", store, out, &mut counts)?;
    let mut typed = Sources::typed(alloc);
    try_table(alloc, &mut typed, "types", store, out, &mut counts)?;
    try_table(alloc, &mut Codes, "code", store, out, &mut counts)?;
    Ok(counts)
}

fn main(rt: HostRuntime) -> ExitCode {
    let alloc = rt.alloc();
    let mut store = DirStore::new(&rt, Items::new(alloc));
    let mut out = StdSink::new(rt.stdout());
    let tried = tried(alloc, &mut store, &mut out);
    end_of(alloc, tried, &mut out)
}
