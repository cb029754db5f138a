//! Scripts of calls: commands with `; ` between two, and words with a space between two.

use scw_outside::{Counts, Sink, SinkFailed, Store, StoreFault, put_all};
use scw_rows::{Stop, text_of};
use sqlite_items::Items;
use std::alloc::{AllocError, Global};
use std::fmt::Write;

/// The numbers of calls that fail.
pub(crate) fn counts_of(alloc: Global, cell: &str) -> Result<Counts, AllocError> {
    let mut counts = Items::new(alloc);
    for number in cell.split_whitespace() {
        counts.push(number.parse::<u64>().unwrap_or(0))?;
    }
    Ok(counts)
}

/// Says what was read; of a text above 50 bytes the number of its bytes.
fn put_read<S: Store>(
    alloc: Global,
    store: &mut S,
    name: &str,
    limit: &str,
    text: &mut String,
) -> Result<(), Stop> {
    let limit = limit.parse::<u32>().unwrap_or(u32::MAX);
    match store.read(alloc, &text_of(alloc, name)?, limit) {
        Ok(bytes) if bytes.len() > 50 => Ok(write!(text, "{} bytes", bytes.len())?),
        Ok(bytes) => Ok(write!(
            text,
            "`{}`",
            str::from_utf8(bytes.as_slice()).unwrap_or("?")
        )?),
        Err(StoreFault::Failed) => Ok(text.push_str("failed")?),
        Err(StoreFault::NoMemory) => Err(Stop::NoMemory),
    }
}

/// Says whether the content was written.
fn put_written<S: Store>(
    alloc: Global,
    store: &mut S,
    name: &str,
    content: &str,
    text: &mut String,
) -> Result<(), Stop> {
    let bytes = Items::from_slice(alloc, content.as_bytes())?;
    match store.write(alloc, &text_of(alloc, name)?, &bytes) {
        Ok(()) => Ok(text.push_str("written")?),
        Err(StoreFault::Failed) => Ok(text.push_str("failed")?),
        Err(StoreFault::NoMemory) => Err(Stop::NoMemory),
    }
}

/// Does the commands `read NAME LIMIT` and `write NAME CONTENT` on the store, and says what came of each, and at last how
/// often the store has failed.
pub(crate) fn with_store<S: Store>(
    alloc: Global,
    store: &mut S,
    script: &str,
) -> Result<String, Stop> {
    let mut text = String::new(alloc);
    for command in script.split("; ") {
        let (verb, words) = command.split_once(' ').unwrap_or((command, ""));
        let (name, last) = words.split_once(' ').unwrap_or((words, ""));
        match verb {
            "read" => put_read(alloc, store, name, last, &mut text)?,
            _ => put_written(alloc, store, name, last, &mut text)?,
        }
        text.push_str("; ")?;
    }
    write!(text, "faults {}", store.faults())?;
    Ok(text)
}

/// Does the commands `put TEXT` and `all TEXT` on the sink, and says how many bytes each took, that all were taken, or that it
/// failed; and at last how often the sink has failed.
pub(crate) fn with_sink<O: Sink>(
    alloc: Global,
    sink: &mut O,
    script: &str,
) -> Result<String, Stop> {
    let mut text = String::new(alloc);
    for command in script.split("; ") {
        let (verb, content) = command.split_once(' ').unwrap_or((command, ""));
        let took = if verb == "all" {
            put_all(sink, content.as_bytes()).map(|()| content.len())
        } else if content.is_empty() {
            Ok(0)
        } else {
            sink.put(content.as_bytes())
        };
        match took {
            Ok(count) => write!(text, "{count}; ")?,
            Err(SinkFailed) => text.push_str("failed; ")?,
        }
    }
    write!(text, "faults {}", sink.faults())?;
    Ok(text)
}
