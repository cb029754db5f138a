//! What is shown of the source in a row.

use crate::kinds::kinds;
use crate::marks::marked;
use crate::refused::{message, rule};
use crate::texts::{program, texts};
use scw_lex::WORDS;
use scw_rows::{Stop, Subject};
use std::alloc::{AllocError, Global};

/// What is shown of a source.
#[derive(Clone, Copy)]
pub enum View {
    /// Its tokens by kinds and values, or its refusal with its bytes.
    Kinds,
    /// Whether it is accepted, or by which rule it is refused.
    Rule,
    /// The texts of its tokens.
    Texts,
    /// The same, with the places of newline tokens.
    Places,
    /// The texts of its tokens, where CR LF at its line ends changes no token.
    Program,
    /// The source with marks about its tokens, or about what is refused.
    Marks,
    /// Whether it is accepted, or the message of its refusal.
    Message,
    /// The reserved words and signs, whatever the source is.
    Words,
}

/// The reserved words and signs, with a space between two.
fn words(alloc: Global) -> Result<String, AllocError> {
    let mut words = String::new(alloc);
    for (text, _) in WORDS {
        if !words.is_empty() {
            words.push(' ')?;
        }
        for byte in text {
            words.push(char::from(*byte))?;
        }
    }
    Ok(words)
}

impl Subject for View {
    fn answer(&mut self, alloc: Global, cells: &[String]) -> Result<String, Stop> {
        let [cell] = cells else {
            return Ok(format!(in alloc; "not two cells")?);
        };
        let text = cell.as_str();
        match self {
            View::Kinds => kinds(alloc, text),
            View::Rule => rule(alloc, text),
            View::Texts => texts(alloc, text, false),
            View::Places => texts(alloc, text, true),
            View::Program => program(alloc, text),
            View::Marks => marked(alloc, text),
            View::Message => message(alloc, text),
            View::Words => Ok(words(alloc)?),
        }
    }
}
