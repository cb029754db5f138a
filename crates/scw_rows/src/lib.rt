//! Cases as data: tables in files, a row a case, and a line for each case that passed.
//!
//! A table is a text in UTF-8. A line that is empty, or is `#`, or begins with `# `, is none of its rows. Each other line is a
//! row: cells with ` ¦ ` (U+00A6 between spaces) between two. White space about a cell isn't part of it. In a cell `⏎`
//! stands for a line feed, `⟨1f600⟩` for the character with that number, and `⟨ab×3⟩` for `ababab`.
//!
//! The last cell of a row says what is wanted, and those before it what is tried.
#![tactic(auto)]

mod bytes;
mod cell;
mod report;
mod table;

pub use bytes::{bytes_of, text_of};
pub use report::{Counts, Stop, Subject, end_of, read_table, try_table};
pub use table::{Row, rows_of};
