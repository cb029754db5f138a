//! What may stand between two tokens.

use scw_reader::read_small;
use scw_rows::{Stop, Subject};
use scw_text::NoMemory;
use std::alloc::Global;

/// Sources whose tokens stand with one space between two.
#[derive(Drop)]
pub struct Gaps;

/// Whether the source is read with this text before the token of this number, and a space before each other.
fn is_gap(alloc: Global, source: &str, place: usize, gap: &str) -> Result<bool, NoMemory> {
    let mut text = String::new(alloc);
    for (i, token) in source.split_whitespace().enumerate() {
        text.push_str(if i == place { gap } else { " " })?;
        text.push_str(token)?;
    }
    Ok(read_small(alloc, text.as_bytes())?.is_some())
}

/// What may stand before the token: the text that says so.
fn gap_at(alloc: Global, source: &str, place: usize) -> Result<&'static str, NoMemory> {
    if !is_gap(alloc, source, place, "    ")? || is_gap(alloc, source, place, " \t")? {
        return Ok("!");
    }
    Ok(if is_gap(alloc, source, place, " \n\n ")? {
        "\n"
    } else {
        ""
    })
}

/// The source with a line feed before each token before which line feeds may stand.
fn with_gaps(alloc: Global, source: &str) -> Result<String, NoMemory> {
    let mut shown = String::new(alloc);
    for (i, token) in source.split_whitespace().enumerate() {
        let gap = gap_at(alloc, source, i)?;
        if i != 0 {
            shown.push(' ')?;
        }
        shown.push_str(gap)?;
        shown.push_str(token)?;
    }
    Ok(shown)
}

impl Subject for Gaps {
    fn answer(&mut self, alloc: Global, cells: &[String]) -> Result<String, Stop> {
        let Some(source) = cells.first() else {
            return Ok(format!(in alloc; "a source is missing")?);
        };
        with_gaps(alloc, source.as_str()).map_err(|_| Stop::NoMemory)
    }
}
