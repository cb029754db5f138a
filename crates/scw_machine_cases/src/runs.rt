//! Class files that are run to a limit.

use crate::code::class_of_words;
use crate::parts::{Parts, class_of};
use crate::running::{Limits, run};
use scw_rows::{Stop, Subject};
use std::alloc::Global;

/// A class, the name of an object, and the limits.
#[derive(Drop)]
pub struct Runs<'p> {
    pub parts: &'p Parts,
}

/// The number, or the other one where there is none.
fn number_or(cell: &str, other: u32) -> u32 {
    cell.parse::<u32>().unwrap_or(other)
}

/// The limits that the cells say.
fn limits_of(heap: &str, rows: &str, fail: &str, room: &str) -> Limits {
    let (rows, more) = rows.split_once(' ').unwrap_or((rows, ""));
    Limits {
        heap: number_or(heap, 0),
        rows: number_or(rows, 0),
        more: number_or(more, 0),
        fail: u64::from(number_or(fail, 0)),
        room: number_or(room, Limits::USUAL.room),
    }
}

impl Subject for Runs<'_> {
    fn answer(&mut self, alloc: Global, cells: &[String]) -> Result<String, Stop> {
        let [class, main, heap, rows, fail, room] = cells else {
            return Ok(format!(in alloc; "a row has seven cells")?);
        };
        let limits = limits_of(heap.as_str(), rows.as_str(), fail.as_str(), room.as_str());
        let class = match class.as_str().strip_prefix("code ") {
            Some(words) => class_of_words(alloc, self.parts, words)?,
            None => class_of(alloc, self.parts, class.as_str())?,
        };
        let shape = class_of(alloc, self.parts, "shape")?;
        match run(alloc, &[&class, &shape], main.as_str(), &limits)? {
            Ok(ran) => Ok(format!(in alloc;
                "{:?}, {} rows, {} bytes",
                ran.end,
                ran.done,
                ran.taken.len()
            )?),
            Err(fault) => Ok(fault.text(alloc)?),
        }
    }
}
