//! Tries the tables of `data/` on class files and the code in them: what is read, written again and refused, and the texts
//! of classes.
#![tactic(auto)]

mod class;
mod code;
mod files;
mod jump;
mod text;
mod unread;
mod view;

use files::parts_of;
use scw_outside::{DirStore, Sink, StdSink, Store};
use scw_rows::{Counts, Stop, end_of, try_table};
use sqlite_items::Items;
use std::alloc::Global;
use std::process::ExitCode;
use view::{Trial, View};

/// The tables, and what is shown of what stands in each.
const TABLES: [(&str, View); 9] = [
    ("code", View::Code),
    ("code_faults", View::Code),
    ("jumps", View::Jump),
    ("changes", View::Refusal),
    ("fronts", View::Fronts),
    ("again", View::Again),
    ("entries", View::Entry),
    ("texts", View::Line),
    ("unread", View::Unread),
];

fn try_all<D: Store, O: Sink>(alloc: Global, store: &mut D, out: &mut O) -> Result<Counts, Stop> {
    let parts = parts_of(alloc, store)?;
    let mut counts = Counts::NONE;
    for (table, view) in TABLES {
        let mut subject = Trial {
            view,
            parts: &parts,
        };
        try_table(alloc, &mut subject, table, store, out, &mut counts)?;
    }
    Ok(counts)
}

fn main(rt: HostRuntime) -> ExitCode {
    let alloc = rt.alloc();
    let mut store = DirStore::new(&rt, Items::new(alloc));
    let mut out = StdSink::new(rt.stdout());
    let tried = try_all(alloc, &mut store, &mut out);
    end_of(alloc, tried, &mut out)
}
