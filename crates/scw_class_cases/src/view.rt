//! What is shown of what stands in a row.

use crate::class::{again, entry, fronts, refusal};
use crate::code::code;
use crate::files::{change, file_of};
use crate::jump::jumps;
use crate::text::{line, line_of};
use crate::unread::unread_class;
use scw_rows::{Row, Stop, Subject, bytes_of};
use std::alloc::{AllocError, Global};

/// What is shown.
#[derive(Clone, Copy)]
pub enum View {
    /// The instructions of bytes, and what comes behind them.
    Code,
    /// Where opcodes stand in bytes, and whether jumps lead to them.
    Jump,
    /// The rule that a changed file breaks.
    Refusal,
    /// What comes of the fronts of a file.
    Fronts,
    /// Whether a changed file is written again.
    Again,
    /// An entry of the pool of a file, or its counts.
    Entry,
    /// A line of the text of a file.
    Line,
    /// A line of the text of a class that no bytes give.
    Unread,
}

/// What is shown of the rows of a table.
#[derive(Drop)]
pub struct Trial<'a> {
    /// What is shown.
    pub view: View,
    /// The parts of the files.
    pub parts: &'a [Row],
}

/// The two words with a space between them. The second is empty where there is one.
fn two_words(words: &str) -> (&str, &str) {
    words.split_once(' ').unwrap_or((words, ""))
}

impl<'a> Trial<'a> {
    /// The file with the changes.
    fn changed(&self, alloc: Global, name: &str, changes: &str) -> Result<Vec<u8>, AllocError> {
        let mut bytes = file_of(alloc, self.parts, name)?;
        change(alloc, &mut bytes, changes)?;
        Ok(bytes)
    }
}

impl<'a> Subject for Trial<'a> {
    fn answer(&mut self, alloc: Global, cells: &[String]) -> Result<String, Stop> {
        match (self.view, cells) {
            (View::Code, [.., bytes]) => code(alloc, &bytes_of(alloc, bytes.as_str())?),
            (View::Jump, [.., bytes]) => jumps(alloc, &bytes_of(alloc, bytes.as_str())?),
            (View::Refusal, [_, name, changes]) => {
                refusal(
                    alloc,
                    &self.changed(alloc, name.as_str(), changes.as_str())?,
                )
            }
            (View::Again, [_, name, changes]) => {
                again(
                    alloc,
                    &self.changed(alloc, name.as_str(), changes.as_str())?,
                )
            }
            (View::Unread, [_, instrs, number]) => {
                let class = unread_class(alloc, instrs.as_str())?;
                line_of(alloc, &class, number.as_str())
            }
            (View::Fronts, [name]) => { fronts(alloc, &file_of(alloc, self.parts, name.as_str())?) }
            (View::Entry, [words]) => {
                let (name, index) = two_words(words.as_str());
                entry(alloc, &file_of(alloc, self.parts, name)?, index)
            }
            (View::Line, [words]) => {
                let (name, number) = two_words(words.as_str());
                line(alloc, &file_of(alloc, self.parts, name)?, number)
            }
            _ => Ok(format!(in alloc; "another number of cells")?),
        }
    }
}
