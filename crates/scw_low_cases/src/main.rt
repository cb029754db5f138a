//! Tries the tables of cases on the crates that know nothing of classes and instructions: texts and sources, numbers, the heap,
//! stores and sinks. It puts a line for each case that passed, and their counts.
#![tactic(auto)]

mod folders;
mod heaps;
mod numbers;
mod script;
mod sources;
mod stores;
mod units;

use folders::FolderScripts;
use heaps::{Makings, Sizes, Words};
use numbers::Computations;
use scw_outside::{DirStore, Sink, StdSink, Store};
use scw_rows::{Counts, Stop, end_of, try_table};
use sources::{Places, Sources};
use sqlite_items::Items;
use std::alloc::Global;
use std::process::ExitCode;
use stores::{SinkScripts, StoreScripts, WriterScripts};
use units::{Modified, Put, Unread};

fn try_texts<D: Store, O: Sink>(
    alloc: Global,
    store: &mut D,
    out: &mut O,
    counts: &mut Counts,
) -> Result<(), Stop> {
    try_table(alloc, &mut Modified, "modified", store, out, counts)?;
    try_table(alloc, &mut Unread, "modified_faults", store, out, counts)?;
    try_table(alloc, &mut Sources, "sources", store, out, counts)?;
    try_table(alloc, &mut Places, "places", store, out, counts)?;
    try_table(alloc, &mut Computations, "numbers", store, out, counts)?;
    try_table(alloc, &mut Put, "put_units", store, out, counts)
}

fn try_memory<D: Store, O: Sink>(
    alloc: Global,
    store: &mut D,
    out: &mut O,
    counts: &mut Counts,
) -> Result<(), Stop> {
    try_table(alloc, &mut Sizes, "heap_sizes", store, out, counts)?;
    try_table(alloc, &mut Makings, "heaps", store, out, counts)?;
    try_table(alloc, &mut Words, "heap_words", store, out, counts)?;
    try_table(alloc, &mut StoreScripts, "stores", store, out, counts)?;
    try_table(alloc, &mut SinkScripts, "sinks", store, out, counts)?;
    try_table(alloc, &mut WriterScripts, "writers", store, out, counts)
}

/// Tries all tables.
fn tried<O: Sink>(rt: &HostRuntime, out: &mut O) -> Result<Counts, Stop> {
    let alloc = rt.alloc();
    let mut store = DirStore::new(rt, Items::new(alloc));
    let mut counts = Counts::NONE;
    try_texts(alloc, &mut store, out, &mut counts)?;
    try_memory(alloc, &mut store, out, &mut counts)?;
    let mut folders = FolderScripts::new(rt);
    try_table(alloc, &mut folders, "folders", &mut store, out, &mut counts)?;
    Ok(counts)
}

fn main(rt: HostRuntime) -> ExitCode {
    let mut out = StdSink::new(rt.stdout());
    let counts = tried(&rt, &mut out);
    end_of(rt.alloc(), counts, &mut out)
}
