//! Stores and sinks in memory, and a sink over a writer.

use crate::script::{counts_of, with_sink, with_store};
use scw_outside::{Entries, MemSink, MemStore, StdSink};
use scw_rows::{Stop, Subject, text_of};
use sqlite_items::Items;
use std::alloc::{AllocError, Global};
use std::fmt::Write as _;
use std::io::{self, ErrorKind, Write};

/// The entries `NAME=CONTENT`, with a space between two.
fn entries_of(alloc: Global, cell: &str) -> Result<Entries, AllocError> {
    let mut entries = Items::new(alloc);
    for entry in cell.split_whitespace() {
        let (name, content) = entry.split_once('=').unwrap_or((entry, ""));
        let bytes = Items::from_slice(alloc, content.as_bytes())?;
        entries.push((text_of(alloc, name)?, bytes))?;
    }
    Ok(entries)
}

/// Entries of a store in memory, the numbers of its calls that fail, and a script; and how many entries it has at last.
#[derive(Drop)]
pub struct StoreScripts;

impl Subject for StoreScripts {
    fn answer(&mut self, alloc: Global, cells: &[String]) -> Result<String, Stop> {
        let [entries, fail, script] = cells else {
            return Ok(String::new(alloc));
        };
        let entries = entries_of(alloc, entries.as_str())?;
        let mut store = MemStore::new(entries, counts_of(alloc, fail.as_str())?);
        let mut text = with_store(alloc, &mut store, script.as_str())?;
        write!(text, "; entries {}", store.entries().len())?;
        Ok(text)
    }
}

/// The room of a sink in memory, the numbers of its calls that fail, and a script; and what it has taken at last.
#[derive(Drop)]
pub struct SinkScripts;

impl Subject for SinkScripts {
    fn answer(&mut self, alloc: Global, cells: &[String]) -> Result<String, Stop> {
        let [room, fail, script] = cells else {
            return Ok(String::new(alloc));
        };
        let room = room.as_str().parse::<u32>().unwrap_or(0).min(1000);
        let fail = counts_of(alloc, fail.as_str())?;
        let Ok(mut sink) = MemSink::new(alloc, room, fail) else {
            return Err(Stop::NoMemory);
        };
        let mut text = with_sink(alloc, &mut sink, script.as_str())?;
        write!(
            text,
            "; took `{}`",
            str::from_utf8(sink.taken()).unwrap_or("?")
        )?;
        Ok(text)
    }
}

/// A writer that takes so many bytes at a time, and none once it has no room: then it answers 0, or fails.
#[derive(Drop)]
struct Short {
    step: usize,
    room: usize,
    fails: bool,
}

impl Write for Short {
    fn write(&mut self, bytes: &[u8]) -> io::Result<usize> {
        let count = bytes.len().min(self.step).min(self.room);
        if count == 0 && self.fails {
            return Err(io::Error::from(ErrorKind::BrokenPipe));
        }
        self.room = self.room.saturating_sub(count);
        Ok(count)
    }

    fn flush(&mut self) -> io::Result<()> {
        Ok(())
    }
}

/// How many bytes a writer takes at a time, how many in all, whether it fails then or answers 0, and a script.
#[derive(Drop)]
pub struct WriterScripts;

impl Subject for WriterScripts {
    fn answer(&mut self, alloc: Global, cells: &[String]) -> Result<String, Stop> {
        let [step, room, then, script] = cells else {
            return Ok(String::new(alloc));
        };
        let mut sink = StdSink::new(Short {
            step: step.as_str().parse::<usize>().unwrap_or(0),
            room: room.as_str().parse::<usize>().unwrap_or(0),
            fails: then.as_str() == "fails",
        });
        with_sink(alloc, &mut sink, script.as_str())
    }
}
