//! The rows of a table.

use crate::cell::text_of_cell;
use std::alloc::{AllocError, Global};

/// What stands between two cells.
const BETWEEN: &str = " ¦ ";

/// A line of a table.
#[derive(Drop)]
pub struct Row {
    /// The front of the line that names the case: the cells before the last as they are written, of which 100 characters at
    /// most, and `..` where there are more.
    pub name: String,
    /// The texts that the cells before the last stand for.
    pub tried: Vec<String>,
    /// The text of the last.
    pub wanted: String,
}

/// Whether the line is none of the rows.
fn is_no_row(line: &str) -> bool {
    line.is_empty() || line == "#" || line.starts_with("# ")
}

/// Characters that a name has at most.
const MOST_CHARACTERS: usize = 100;

/// The name of a row, of its cells before the last.
fn name_of(alloc: Global, cells: &str) -> Result<String, AllocError> {
    let mut name = String::new(alloc);
    for (i, c) in cells.trim().chars().enumerate() {
        if i == MOST_CHARACTERS {
            name.push_str("..")?;
            break;
        }
        name.push(c)?;
    }
    Ok(name)
}

/// The row of a line.
fn row_of(alloc: Global, line: &str) -> Result<Row, AllocError> {
    let (cells, last) = line.rsplit_once(BETWEEN).unwrap_or(("", line));
    let mut tried = Vec::new(alloc);
    for cell in cells.split(BETWEEN) {
        tried.push(text_of_cell(alloc, cell)?)?;
    }
    Ok(Row {
        name: name_of(alloc, cells)?,
        tried,
        wanted: text_of_cell(alloc, last)?,
    })
}

/// The rows of a table, in their order.
pub fn rows_of(alloc: Global, table: &str) -> Result<Vec<Row>, AllocError> {
    let mut rows = Vec::new(alloc);
    for line in table.lines() {
        if !is_no_row(line) {
            rows.push(row_of(alloc, line)?)?;
        }
    }
    Ok(rows)
}
