//! Sources that are compiled, loaded and run for so many rows.

use scw_outside::MemSink;
use scw_rows::{Stop, Subject, text_of};
use scw_run::{Loaded, RunFault, load_program};
use scw_small::read_program;
use scw_text::NoMemory;
use sqlite_items::Items;
use std::alloc::{AllocError, Global};

/// More bytes than a run puts.
const AMPLE: u32 = 10_000;

/// How many bytes are shown in any case.
const MOST_SHOWN: usize = 100;

/// Sources, and numbers of rows.
#[derive(Drop)]
pub struct Runs;

/// The text of the bytes. Where they are many and one line again and again, that line and `..`.
pub fn shown(alloc: Global, bytes: &[u8]) -> Result<String, AllocError> {
    let text = str::from_utf8(bytes).unwrap_or("no UTF-8");
    let first = text.lines().next().unwrap_or("");
    if MOST_SHOWN < text.len() && text.ends_with('\n') && text.lines().all(|line| line == first) {
        return format!(in alloc; "{first}\n..");
    }
    format!(in alloc; "{text}")
}

/// Why the machine stops that has loaded the source's class file, after how many rows, and what it put.
fn ran(alloc: Global, source: &str, rows: u64) -> Result<String, NoMemory> {
    let Some(program) = read_program(alloc, source.as_bytes())? else {
        return Ok(format!(in alloc; "no source")?);
    };
    let mut out = MemSink::new(alloc, AMPLE, Items::new(alloc))?;
    let main = text_of(alloc, "Main")?;
    let mut machine = match load_program(alloc, &program, &main, 10_000, 100, 10_000) {
        Ok(
            Loaded {
                files: _files,
                machine,
            },
        ) => machine,
        Err(RunFault::NoMemory) => return Err(NoMemory),
        Err(fault) => return Ok(format!(in alloc; "{fault:?}")?),
    };
    let end = machine.run(&mut out, rows);
    let put = shown(alloc, out.taken())?;
    Ok(format!(in alloc; "{end:?} after {} rows, out «{put}»", machine.done())?)
}

impl Subject for Runs {
    fn answer(&mut self, alloc: Global, cells: &[String]) -> Result<String, Stop> {
        let [_, source, rows] = cells else {
            return Ok(format!(in alloc; "a row has four cells")?);
        };
        ran(alloc, source.as_str(), rows.parse::<u64>().unwrap_or(0)).map_err(|_| Stop::NoMemory)
    }
}
