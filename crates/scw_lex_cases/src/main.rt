//! Tries the tables of `data/` on the tokens of `scw_lex`: sources with their tokens and the places of these, and sources
//! that are refused.
#![tactic(auto)]

mod kinds;
mod lexed;
mod marks;
mod refused;
mod texts;
mod view;

use scw_outside::{DirStore, Sink, StdSink, Store};
use scw_rows::{Counts, Stop, end_of, try_table};
use sqlite_items::Items;
use std::alloc::Global;
use std::process::ExitCode;
use view::View;

/// The tables, and what is shown of the sources in each.
const TABLES: [(&str, View); 12] = [
    ("names", View::Kinds),
    ("comments", View::Kinds),
    ("numbers", View::Kinds),
    ("literals", View::Kinds),
    ("limits", View::Rule),
    ("newlines", View::Texts),
    ("line_ends", View::Places),
    ("programs", View::Program),
    ("spans", View::Marks),
    ("language", View::Texts),
    ("refusals", View::Message),
    ("words", View::Words),
];

fn try_all<D: Store, O: Sink>(alloc: Global, store: &mut D, out: &mut O) -> Result<Counts, Stop> {
    let mut counts = Counts::NONE;
    for (table, view) in TABLES {
        let mut subject = view;
        try_table(alloc, &mut subject, table, store, out, &mut counts)?;
    }
    Ok(counts)
}

fn main(rt: HostRuntime) -> ExitCode {
    let alloc = rt.alloc();
    let mut store = DirStore::new(&rt, Items::new(alloc));
    let mut out = StdSink::new(rt.stdout());
    let tried = try_all(alloc, &mut store, &mut out);
    end_of(alloc, tried, &mut out)
}
