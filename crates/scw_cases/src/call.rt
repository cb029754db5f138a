//! Whole calls of the program, over a store and sinks in memory.

use crate::run::shown;
use scw_classfile::{Files, read_class};
use scw_outside::{Counts, Entries, MemSink, MemStore};
use scw_rows::{Stop, Subject, bytes_of, text_of};
use scw_text::{Bytes, NoMemory};
use scw_tool::scw_main;
use sqlite_items::Items;
use std::alloc::{AllocError, Global};
use std::fmt::Write;

/// More room than any case fills.
const AMPLE: u32 = 30_000_000;

/// How many rows a run may do.
const ALL_ROWS: u64 = 50_000_000;

/// Calls, each over a store with one file.
#[derive(Drop)]
pub struct Calls;

/// A call, as its row says it.
#[derive(Clone, Copy)]
struct Call<'c> {
    words: &'c str,
    /// The name of the file.
    name: &'c str,
    /// What it holds.
    content: &'c str,
    faults: &'c str,
}

/// What a call came to, and what it put.
#[derive(PartialEq, Eq, Drop)]
struct Ended {
    status: u8,
    /// The class files that it made.
    files: String,
    rows: u64,
    out: Vec<u8>,
    /// Whether the store holds the same as before.
    is_kept: bool,
}

/// The words, with `∅` for an empty one.
fn words_of(alloc: Global, cell: &str) -> Result<Vec<String>, AllocError> {
    let mut words = Vec::new(alloc);
    for word in cell.split_whitespace() {
        let word = if word == "∅" { "" } else { word };
        words.push(format!(in alloc; "{word}")?)?;
    }
    Ok(words)
}

/// The numbers that the cell gives to the part, as `PART=NUMBER`.
fn numbers_of(alloc: Global, cell: &str, part: &str) -> Result<Counts, AllocError> {
    let mut numbers = Items::new(alloc);
    for word in cell.split_whitespace() {
        if let Some((name, number)) = word.split_once('=')
            && name == part
        {
            numbers.push(number.parse::<u64>().unwrap_or(0))?;
        }
    }
    Ok(numbers)
}

/// A sink with the room and the calls that fail which the cell says.
fn sink_of(alloc: Global, cell: &str, part: &str) -> Result<MemSink, NoMemory> {
    let room = match numbers_of(alloc, cell, "room")?.as_slice() {
        [room] if part == "out" => u32::try_from(*room).unwrap_or(AMPLE),
        _ => AMPLE,
    };
    MemSink::new(alloc, room, numbers_of(alloc, cell, part)?)
}

/// The bytes of a file: those of the text, or those that stand behind `hex:`.
fn content_of(alloc: Global, text: &str) -> Result<Bytes, AllocError> {
    match text.strip_prefix("hex:") {
        Some(digits) => Ok(Items::from_vec(bytes_of(alloc, digits)?)),
        None => Items::from_slice(alloc, text.as_bytes()),
    }
}

/// The one file of the store.
fn entries_of(alloc: Global, call: &Call<'_>) -> Result<Entries, AllocError> {
    let mut entries = Items::new(alloc);
    entries.push((text_of(alloc, call.name)?, content_of(alloc, call.content)?))?;
    Ok(entries)
}

/// Whether both have one file, and the same.
fn is_same(entries: &Entries, others: &Entries) -> bool {
    match (entries.as_slice(), others.as_slice()) {
        ([(name, bytes)], [(other, others)]) => {
            name.as_slice() == other.as_slice() && bytes.as_slice() == others.as_slice()
        }
        _ => false,
    }
}

/// The name of each class file, and the version that is read from it.
fn files_text(alloc: Global, files: &Files) -> Result<String, AllocError> {
    let mut text = String::new(alloc);
    for file in files.as_slice() {
        let name: String = file.name.as_slice().iter().copied().collect(alloc)?;
        match read_class(alloc, file.bytes.as_slice()) {
            Ok(class) => write!(text, ", {name} {}", class.major)?,
            Err(_) => write!(text, ", {name} unread")?,
        }
    }
    Ok(text)
}

/// Makes the call.
fn made(alloc: Global, call: &Call<'_>, err: &mut MemSink) -> Result<Ended, NoMemory> {
    let words = words_of(alloc, call.words)?;
    let fails = numbers_of(alloc, call.faults, "store")?;
    let mut store = MemStore::new(entries_of(alloc, call)?, fails);
    let mut out = sink_of(alloc, call.faults, "out")?;
    let outcome = scw_main(alloc, &words, &mut store, &mut out, err);
    let is_kept = is_same(store.entries(), &entries_of(alloc, call)?);
    Ok(Ended {
        status: outcome.status,
        files: files_text(alloc, &outcome.files)?,
        rows: outcome.steps,
        out: out.taken().to_vec(alloc)?,
        is_kept,
    })
}

/// What a call came to, as a text.
fn text_of_ended(alloc: Global, ended: &Ended, err: &[u8]) -> Result<String, AllocError> {
    let rows = match ended.rows {
        0 => "no rows",
        ALL_ROWS => "all rows",
        _ => "some rows",
    };
    let store = if ended.is_kept { "" } else { ", another store" };
    format!(in alloc;
        "status {}{}, {rows}{store}, out «{}», err «{}»",
        ended.status,
        ended.files,
        shown(alloc, ended.out.as_slice())?,
        shown(alloc, err)?
    )
}

/// Makes the call, and makes it again with a sink for errors that doesn't fail.
fn answered(alloc: Global, call: &Call<'_>) -> Result<String, NoMemory> {
    let mut err = sink_of(alloc, call.faults, "err")?;
    let first = made(alloc, call, &mut err)?;
    let mut calm = sink_of(alloc, "", "err")?;
    if made(alloc, call, &mut calm)? != first {
        return Ok(format!(in alloc; "something else at a second call")?);
    }
    Ok(text_of_ended(alloc, &first, err.taken())?)
}

impl Subject for Calls {
    fn answer(&mut self, alloc: Global, cells: &[String]) -> Result<String, Stop> {
        let [_, words, file, faults] = cells else {
            return Ok(format!(in alloc; "a row has five cells")?);
        };
        let Some((name, content)) = file.split_once('=') else {
            return Ok(format!(in alloc; "the file has no name")?);
        };
        let call = Call {
            words: words.as_str(),
            name,
            content,
            faults: faults.as_str(),
        };
        answered(alloc, &call).map_err(|_| Stop::NoMemory)
    }
}
