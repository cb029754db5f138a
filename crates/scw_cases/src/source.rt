//! Texts that are sources of the small language, and texts that are none.

use scw_reader::read_small;
use scw_rows::{Stop, Subject};
use scw_small::read_program;
use scw_text::NoMemory;
use std::alloc::Global;

/// What is asked of a text.
#[derive(Clone, Copy, Debug, PartialEq, Eq)]
enum Question {
    /// Whether it is read, by its form alone.
    Form,
    /// Whether it has a program.
    Program,
}

/// The texts of a table, each in its frame.
#[derive(Drop)]
pub struct Sources {
    question: Question,
    /// A source with `…` for the text. It stays until a row brings another.
    frame: String,
}

impl Sources {
    /// Texts that are read or not.
    pub fn read(alloc: Global) -> Sources {
        Sources {
            question: Question::Form,
            frame: String::new(alloc),
        }
    }

    /// Texts that have a program or none.
    pub fn typed(alloc: Global) -> Sources {
        Sources {
            question: Question::Program,
            frame: String::new(alloc),
        }
    }
}

/// The answer to the question.
fn judged(alloc: Global, question: Question, source: &[u8]) -> Result<&'static str, NoMemory> {
    Ok(match question {
        Question::Form => match read_small(alloc, source)? {
            Some(_) => "read",
            None => "not read",
        },
        Question::Program => match read_program(alloc, source)? {
            Some(_) => "a program",
            None => "none",
        },
    })
}

impl Subject for Sources {
    fn answer(&mut self, alloc: Global, cells: &[String]) -> Result<String, Stop> {
        if let Some(frame) = cells.iter().find(|cell| cell.contains('…')) {
            self.frame = frame.clone()?;
        }
        let (Some(text), Some((front, back))) = (cells.first(), self.frame.split_once('…')) else {
            return Ok(format!(in alloc; "a text or its frame is missing")?);
        };
        let source = format!(in alloc; "{front}{text}{back}")?;
        match judged(alloc, self.question, source.as_bytes()) {
            Ok(answer) => Ok(format!(in alloc; "{answer}")?),
            Err(NoMemory) => Err(Stop::NoMemory),
        }
    }
}
