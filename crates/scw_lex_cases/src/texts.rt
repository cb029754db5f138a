//! Tokens by their texts.

use crate::kinds::kinds;
use crate::lexed::tokens_of;
use scw_lex::{Tok, Token};
use scw_rows::Stop;
use std::alloc::{AllocError, Global};
use std::fmt::Write;

/// The part of the text, or nothing.
fn part<'a>(text: &'a str, token: &Token) -> &'a str {
    text.get(token.span.start as usize..token.span.end as usize)
        .unwrap_or("")
}

/// Puts the sign of a newline token, with its place or without.
fn put_newline(out: &mut String, sign: &str, at: u32, has_places: bool) -> Result<(), AllocError> {
    if has_places {
        write!(out, "<{sign} at {at}>")
    } else {
        write!(out, "<{sign}>")
    }
}

/// The texts of the tokens with a space between two, or `(none)`, and signs for the newline tokens at line feeds.
fn texts_of(
    alloc: Global,
    text: &str,
    tokens: &[Token],
    has_places: bool,
) -> Result<String, AllocError> {
    let mut out = String::new(alloc);
    for token in tokens {
        if matches!(token.kind, Tok::Eof) {
            break;
        }
        if !out.is_empty() {
            out.push(' ')?;
        }
        match (&token.kind, part(text, token)) {
            (Tok::Nl, "\n") => put_newline(&mut out, "nl", token.span.start, has_places)?,
            (Tok::Nl2, "\n") => put_newline(&mut out, "nl2", token.span.start, has_places)?,
            (_, bytes) => out.push_str(bytes)?,
        }
    }
    if out.is_empty() {
        out.push_str("(none)")?;
    }
    Ok(out)
}

/// The texts of the tokens of the text, or the rule by which it is refused.
pub fn texts(alloc: Global, text: &str, has_places: bool) -> Result<String, Stop> {
    match tokens_of(alloc, text)? {
        Ok(tokens) => Ok(texts_of(alloc, text, tokens.as_slice(), has_places)?),
        Err(refusal) => Ok(format!(in alloc; "rule {}", refusal.rule)?),
    }
}

/// The text with CR LF for each LF.
fn with_returns(alloc: Global, text: &str) -> Result<String, AllocError> {
    let mut out = String::new(alloc);
    for c in text.chars() {
        if c == '\n' {
            out.push('\r')?;
        }
        out.push(c)?;
    }
    Ok(out)
}

/// The texts of the tokens of the text, unless others come with CR LF at the line ends: then these tokens.
pub fn program(alloc: Global, text: &str) -> Result<String, Stop> {
    let returned = kinds(alloc, with_returns(alloc, text)?.as_str())?;
    if returned.as_str() == kinds(alloc, text)?.as_str() {
        texts(alloc, text, false)
    } else {
        Ok(format!(in alloc; "with CR LF: {returned}")?)
    }
}
