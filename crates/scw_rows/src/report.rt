//! A table tried row by row, and what is put of it.

use crate::bytes::text_of;
use crate::table::{Row, rows_of};
use scw_outside::{Sink, SinkFailed, Store, StoreFault, put_all};
use scw_text::NoMemory;
use std::alloc::{AllocError, Global};
use std::process::ExitCode;

/// More bytes than a table has.
const MOST_BYTES: u32 = 4_000_000;

/// Why a table was not tried to its end.
#[derive(Clone, Copy, Debug, PartialEq, Eq)]
pub enum Stop {
    /// The file of the table wasn't read, or isn't UTF-8.
    Unread,
    /// The lines weren't taken.
    NotPut,
    /// Memory ran out.
    NoMemory,
}

impl From<AllocError> for Stop {
    fn from(_: AllocError) -> Self {
        Stop::NoMemory
    }
}

impl From<NoMemory> for Stop {
    fn from(_: NoMemory) -> Self {
        Stop::NoMemory
    }
}

impl From<SinkFailed> for Stop {
    fn from(_: SinkFailed) -> Self {
        Stop::NotPut
    }
}

impl From<StoreFault> for Stop {
    fn from(fault: StoreFault) -> Self {
        match fault {
            StoreFault::Failed => Stop::Unread,
            StoreFault::NoMemory => Stop::NoMemory,
        }
    }
}

/// How many cases passed, and how many didn't.
#[derive(Clone, Copy, Debug, PartialEq, Eq)]
pub struct Counts {
    pub passed: u64,
    pub failed: u64,
}

impl Counts {
    /// None of either.
    pub const NONE: Counts = Counts {
        passed: 0,
        failed: 0,
    };
}

/// What is tried on the rows of a table.
pub trait Subject {
    /// What comes of the cells, as a text. It is held against the last cell of the row.
    fn answer(&mut self, alloc: Global, cells: &[String]) -> Result<String, Stop>;
}

/// Tries one row, and puts its line: the name of the table, that of the case, and what came where it isn't what is wanted.
fn try_row<S: Subject, O: Sink>(
    alloc: Global,
    subject: &mut S,
    table: &str,
    row: &Row,
    out: &mut O,
) -> Result<bool, Stop> {
    let answer = subject.answer(alloc, &row.tried)?;
    let passed = answer.as_str() == row.wanted.as_str();
    let name = row.name.as_str();
    let line = if passed {
        format!(in alloc; "{table}: {name}\n")?
    } else {
        format!(in alloc;
            "FAILED {table}: {name}\n  came: {answer}\n  wanted: {}\n",
            row.wanted
        )?
    };
    put_all(out, line.as_bytes())?;
    Ok(passed)
}

/// The rows of the file `TABLE.cases`.
pub fn read_table<D: Store>(alloc: Global, table: &str, store: &mut D) -> Result<Vec<Row>, Stop> {
    let file = text_of(alloc, format!(in alloc; "{table}.cases")?.as_str())?;
    let bytes = store.read(alloc, &file, MOST_BYTES)?;
    match str::from_utf8(bytes.as_slice()) {
        Ok(text) => Ok(rows_of(alloc, text)?),
        Err(_) => Err(Stop::Unread),
    }
}

/// Tries the rows of the file `TABLE.cases`, puts a line for each, and counts them.
pub fn try_table<S: Subject, D: Store, O: Sink>(
    alloc: Global,
    subject: &mut S,
    table: &str,
    store: &mut D,
    out: &mut O,
    counts: &mut Counts,
) -> Result<(), Stop> {
    for row in &read_table(alloc, table, store)? {
        if try_row(alloc, subject, table, row, out)? {
            counts.passed = counts.passed.saturating_add(1);
        } else {
            counts.failed = counts.failed.saturating_add(1);
        }
    }
    Ok(())
}

/// Puts the counts, or that the tables weren't tried to their end, as the last line. The status is that of success where
/// all cases passed.
pub fn end_of<O: Sink>(alloc: Global, tried: Result<Counts, Stop>, out: &mut O) -> ExitCode {
    let line = match tried {
        Ok(Counts { passed, failed }) => {
            format!(in alloc; "{passed} cases passed, {failed} failed\n")
        }
        Err(stop) => format!(in alloc; "stopped: {stop:?}\n"),
    };
    let Ok(line) = line else {
        return ExitCode::FAILURE;
    };
    match (tried, put_all(out, line.as_bytes())) {
        (Ok(Counts { failed: 0, .. }), Ok(())) => ExitCode::SUCCESS,
        _ => ExitCode::FAILURE,
    }
}
