//! Tokens, and what is refused, by marks about their bytes.

use crate::lexed::{FILE, tokens_of};
use scw_lex::{Tok, Token};
use scw_rows::Stop;
use scw_text::{Refusal, Span};
use std::alloc::{AllocError, Global};

/// Adds the marks of the part.
fn push_marks(marks: &mut Vec<(u32, char)>, span: Span) -> Result<(), AllocError> {
    marks.push((span.start, '⟦'))?;
    marks.push((span.end, '⟧'))?;
    Ok(())
}

/// The marks of the tokens but newlines and the end.
fn marks_of(alloc: Global, tokens: &[Token]) -> Result<Vec<(u32, char)>, AllocError> {
    let mut marks = Vec::new(alloc);
    for token in tokens {
        if !matches!(token.kind, Tok::Nl | Tok::Nl2 | Tok::Eof) {
            push_marks(&mut marks, token.span)?;
        }
    }
    Ok(marks)
}

/// Puts the marks of the place.
fn put_marks(out: &mut String, marks: &[(u32, char)], at: usize) -> Result<(), AllocError> {
    for (place, mark) in marks {
        if *place as usize == at {
            out.push(*mark)?;
        }
    }
    Ok(())
}

/// The text with the marks at their places.
fn with_marks(alloc: Global, text: &str, marks: &[(u32, char)]) -> Result<String, AllocError> {
    let mut out = String::new(alloc);
    for (at, c) in text.char_indices() {
        put_marks(&mut out, marks, at)?;
        out.push(c)?;
    }
    put_marks(&mut out, marks, text.len())?;
    Ok(out)
}

/// The rule of the refusal, and the text with marks about its part.
fn marked_refusal(alloc: Global, text: &str, refusal: &Refusal) -> Result<String, AllocError> {
    if refusal.span.file != FILE {
        return format!(in alloc; "rule {}: in another source", refusal.rule);
    }
    let mut marks = Vec::new(alloc);
    push_marks(&mut marks, refusal.span)?;
    let marked = with_marks(alloc, text, &marks)?;
    format!(in alloc; "rule {}: {marked}", refusal.rule)
}

/// The text with marks about its tokens, or about what is refused.
pub fn marked(alloc: Global, text: &str) -> Result<String, Stop> {
    match tokens_of(alloc, text)? {
        Ok(tokens) => {
            let marks = marks_of(alloc, tokens.as_slice())?;
            Ok(with_marks(alloc, text, &marks)?)
        }
        Err(refusal) => Ok(marked_refusal(alloc, text, &refusal)?),
    }
}
