//! The tokens of a text.

use scw_lex::{Tokens, lex};
use scw_rows::Stop;
use scw_text::{Fault, Refusal, Source};
use sqlite_items::Items;
use std::alloc::Global;

/// The number that each source has.
pub const FILE: u32 = 7;

/// The source of the text.
pub fn source_of(alloc: Global, text: &str) -> Result<Source, Stop> {
    let bytes = Items::from_slice(alloc, text.as_bytes())?;
    match Source::new(FILE, Items::new(alloc), bytes) {
        Ok(source) => Ok(source),
        Err(_) => Err(Stop::Unread),
    }
}

/// The tokens of the source, or its refusal.
pub fn lexed(alloc: Global, source: &Source) -> Result<Result<Tokens, Refusal>, Stop> {
    match lex(alloc, source) {
        Ok(tokens) => Ok(Ok(tokens)),
        Err(Fault::Refused(refusal)) => Ok(Err(refusal)),
        Err(Fault::NoMemory) => Err(Stop::NoMemory),
    }
}

/// The tokens of the text, or its refusal.
pub fn tokens_of(alloc: Global, text: &str) -> Result<Result<Tokens, Refusal>, Stop> {
    let source = source_of(alloc, text)?;
    lexed(alloc, &source)
}
