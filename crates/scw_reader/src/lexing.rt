//! Finds the token that bytes begin with: SLS 1.

ghost use Rattle.std.specs.Prelude.{◌≡◌, ◌<◌, List, ℕ, length, map, codes};
ghost use Rattle.std.specs.List.{list_all, list_any};
ghost use Rattle.std.specs.Str.{bytes_eq};
ghost use Rattle.std.specs.Char.{is_ascii_lowercase, is_ascii_alphanumeric};
ghost use Rattle.scw_reader.specs.declared.class.Class.TheVariants as class;
ghost use Rattle.scw_reader.specs.Character.{is_in, is_of};
ghost use Rattle.scw_reader.specs.Token as token;
ghost use Rattle.scw_reader.specs.Layout as layout;
ghost use Rattle.scw_reader.specs.Lexing as spec;
ghost use Rattle.scw_reader.specs.Outcome.{Gives};

use crate::class::{Class, is_in, run};
use crate::failure::Failure;
use crate::number::{number_at, number_goes_on};
use crate::token::{MAX_NAME, NO_NAMES, SIGNS, Sign, Token, WORDS, Word};
use scw_text::Bytes;
use std::alloc::Global;

/// What stands in the table beside the text.
fn lookup<T: Copy>(mut table: &[(&[u8], T)], text: &[u8]) -> Option<T>
    ensures { result ≡ spec.lookup (map (λ e. (e.0.now, e.1)) table.entry.now) text.now }
{
    while let [entry, rest @ ..] = table {
        if entry.0 == text {
            return Some(entry.1);
        }
        table = rest;
    }
    None
}

#[tactic(auto, unfolding(crate::specs::Lexing::word_of))]
fn word_of(text: &[u8]) -> Option<Word>
    ensures { result ≡ spec.word_of text.now }
{
    lookup(&WORDS, text)
}

#[tactic(auto, unfolding(crate::specs::Lexing::sign_of))]
fn sign_of(text: &[u8]) -> Option<Sign>
    ensures { result ≡ spec.sign_of text.now }
{
    lookup(&SIGNS, text)
}

/// Whether the bytes begin with a character of the class.
fn begins(class: Class, bytes: &[u8]) -> bool
    ensures { result ≡ token.begins (is_in class) bytes.now }
{
    match bytes {
        [] => false,
        [first, ..] => is_in(class, *first),
    }
}

/// Whether the text stands in the table.
fn is_listed(mut table: &[&[u8]], text: &[u8]) -> bool
    ensures { result ≡ list_any (λ other. bytes_eq other text.now) (map (λ other. other.now) table.entry.now) }
{
    while let [other, rest @ ..] = table {
        if *other == text {
            return true;
        }
        table = rest;
    }
    false
}

/// Whether there are letters and digits alone.
fn is_plain(text: &[u8]) -> bool
    ensures { result ≡ list_all is_ascii_alphanumeric text.now }
{
    text.iter().all(|c| c.is_ascii_alphanumeric())
}

/// Whether a small letter stands first.
fn begins_small(text: &[u8]) -> bool
    ensures { result ≡ token.begins is_ascii_lowercase text.now }
{
    match text {
        [] => false,
        [first, ..] => first.is_ascii_lowercase(),
    }
}

fn is_name(text: &[u8]) -> bool
    ensures { result ≡ token.is_name text.now }
{
    if !begins_small(text) || !is_plain(text) {
        return false;
    }
    text.len() <= MAX_NAME && !is_listed(&NO_NAMES, text)
}

/// A word of the table, or a name.
#[tactic(auto, unfolding(crate::specs::Lexing::word_of))]
fn named(alloc: Global, text: &[u8]) -> Result<Token, Failure>
    ensures { Gives (λ t. t) result (spec.named text.now (spec.word_of text.now)) }
{
    if let Some(word) = word_of(text) {
        return Ok(Token::Word(word));
    }
    if is_name(text) {
        Ok(Token::Name(Bytes::from_slice(alloc, text)?))
    } else {
        Err(Failure::Other)
    }
}

/// The word or name that the bytes begin with, and what follows it.
#[tactic(auto, unfolding(crate::specs::Lexing::word_at))]
fn word_at(alloc: Global, bytes: &[u8]) -> Result<(Token, &[u8]), Failure>
    ensures { Gives (λ r. (r.0, r.1.now)) result (spec.word_at bytes.now) }
{
    let (text, rest) = run(Class::Word, bytes);
    Ok((named(alloc, text)?, rest))
}

/// The text whose first quote stands before the bytes, and what follows it.
#[tactic(auto, unfolding(crate::specs::Lexing::text_at))]
fn text_at(alloc: Global, bytes: &[u8]) -> Result<(Token, &[u8]), Failure>
    ensures { Gives (λ r. (r.0, r.1.now)) result (spec.text_at bytes.now) }
{
    let (text, rest) = run(Class::Text, bytes);
    match rest {
        [b'"', rest @ ..] => Ok((Token::Text(Bytes::from_slice(alloc, text)?), rest)),
        _ => Err(Failure::Other),
    }
}

/// The sign that the bytes begin with, and what follows it.
#[tactic(auto, unfolding(crate::specs::Lexing::sign_at))]
fn sign_at(bytes: &[u8]) -> Result<(Token, &[u8]), Failure>
    requires { 0 < length bytes.now }
    ensures { Gives (λ r. (r.0, r.1.now)) result (spec.sign_at bytes.now) }
{
    let (operator, _) = run(Class::Operator, bytes);
    let (text, rest) = bytes.split_at(operator.len().max(1));
    match sign_of(text) {
        Some(sign) => Ok((Token::Sign(sign), rest)),
        None => Err(Failure::Other),
    }
}

fn some_token_at(alloc: Global, bytes: &[u8]) -> Result<(Token, &[u8]), Failure>
    ensures { Gives (λ r. (r.0, r.1.now)) result (spec.some_token_at bytes.now) }
{
    match bytes {
        [] => Err(Failure::Other),
        [first, rest @ ..] => {
            if is_in(Class::Digit, *first) {
                number_at(bytes)
            } else if is_in(Class::Word, *first) {
                word_at(alloc, bytes)
            } else if *first == b'"' {
                text_at(alloc, rest)
            } else {
                sign_at(bytes)
            }
        }
    }
}

/// Whether the sign is made of what operators are made of.
fn is_operator(sign: Sign) -> bool
    ensures { result ≡ token.begins (is_in class.Operator) (token.sign_text sign) }
{
    match sign {
        Sign::OpenParen
        | Sign::CloseParen
        | Sign::OpenBracket
        | Sign::CloseBracket
        | Sign::OpenBrace
        | Sign::CloseBrace
        | Sign::Comma
        | Sign::Semicolon => false,
        Sign::Colon
        | Sign::Assign
        | Sign::Plus
        | Sign::Times
        | Sign::Minus
        | Sign::Divide
        | Sign::Remainder
        | Sign::Less
        | Sign::LessOrEqual
        | Sign::Greater
        | Sign::GreaterOrEqual
        | Sign::Equal
        | Sign::Unequal
        | Sign::And
        | Sign::Or => true,
    }
}

/// Whether the bytes behind the token make a longer one of it.
fn goes_on(token: &Token, bytes: &[u8]) -> bool
    ensures { result ≡ layout.goes_on token.now bytes.now }
{
    match token {
        Token::Word(_) | Token::Name(_) => begins(Class::Word, bytes),
        Token::Sign(sign) => is_operator(*sign) && begins(Class::Operator, bytes),
        Token::Int(n) => number_goes_on(*n, bytes),
        Token::Long(_) => false,
        Token::Text(text) => text.is_empty() && begins_quote(bytes),
    }
}

fn begins_quote(bytes: &[u8]) -> bool
    ensures { result ≡ token.begins (is_of (codes "\"")) bytes.now }
{
    match bytes {
        [] => false,
        [first, ..] => *first == b'"',
    }
}

/// The token that the bytes begin with, and what follows it.
#[tactic(auto, unfolding(crate::specs::Lexing::token_at))]
pub(crate) fn token_at(alloc: Global, bytes: &[u8]) -> Result<(Token, &[u8]), Failure>
    ensures { Gives (λ r. (r.0, r.1.now)) result (spec.token_at bytes.now) }
{
    let (token, rest) = some_token_at(alloc, bytes)?;
    if goes_on(&token, rest) {
        return Err(Failure::Other);
    }
    Ok((token, rest))
}
