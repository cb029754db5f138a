//! Tokens by their kinds and values.

use crate::lexed::tokens_of;
use scw_lex::{Tok, Token};
use scw_rows::Stop;
use std::alloc::{AllocError, Global};
use std::fmt::Write;

fn put_chars(out: &mut String, chars: &[char]) -> Result<(), AllocError> {
    for c in chars {
        out.push(*c)?;
    }
    Ok(())
}

/// Puts the text of an identifier, the value of a literal, or the name of what is reserved.
fn put_kind(out: &mut String, kind: &Tok) -> Result<(), AllocError> {
    match kind {
        Tok::Id(text) => put_chars(out, text.as_slice()),
        Tok::Back(text) => {
            out.push('`')?;
            put_chars(out, text.as_slice())?;
            out.push('`')
        }
        Tok::Int(n) => write!(out, "{{Int {n}}}"),
        Tok::Long(n) => write!(out, "{{Long {n}}}"),
        Tok::MinInt => out.push_str("{MinInt}"),
        Tok::MinLong => out.push_str("{MinLong}"),
        Tok::Char(unit) => write!(out, "{{Char {unit}}}"),
        Tok::Str(units) => write!(out, "{{Str {:?}}}", units.as_slice()),
        Tok::Nl => out.push_str("<nl>"),
        Tok::Nl2 => out.push_str("<nl2>"),
        kind => write!(out, "{kind:?}"),
    }
}

/// The tokens but the end, with a space between two, or `(none)`.
fn kinds_of(alloc: Global, tokens: &[Token]) -> Result<String, AllocError> {
    let mut out = String::new(alloc);
    for token in tokens {
        if matches!(token.kind, Tok::Eof) {
            break;
        }
        if !out.is_empty() {
            out.push(' ')?;
        }
        put_kind(&mut out, &token.kind)?;
    }
    if out.is_empty() {
        out.push_str("(none)")?;
    }
    Ok(out)
}

/// The tokens of the text, or its refusal with the bytes of its span.
pub fn kinds(alloc: Global, text: &str) -> Result<String, Stop> {
    match tokens_of(alloc, text)? {
        Ok(tokens) => Ok(kinds_of(alloc, tokens.as_slice())?),
        Err(refusal) => {
            let span = refusal.span;
            Ok(format!(in alloc; "rule {} at {}..{}", refusal.rule, span.start, span.end)?)
        }
    }
}
