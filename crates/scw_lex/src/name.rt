//! Identifiers: SLS 1.1, and 1.3.4 and 1.3.5 for what an identifier doesn't stand before.

ghost use Rattle.std.specs.Prelude.{◌≡◌, ◌≤◌, ◌<◌, ◌+◌, length, IfOk};
ghost use Rattle.scw_text.specs.declared.source.TheConstants.{MAX_SOURCE_BYTES};
ghost use Rattle.scw_lex.specs.Within.{IsWithin};
ghost use Rattle.std.specs.List.{prefix_len};
ghost use Rattle.scw_lex.specs.Character as character;
ghost use Rattle.scw_lex.specs.Name as spec;

use crate::character::{is_letter, is_operator, is_word};
use crate::piece::Piece;
use crate::reserved::word_of;
use crate::token::Tok;
use crate::utf8::byte_len;
use scw_text::{NoMemory, Rule, Text};
use std::alloc::Global;

/// The most bytes of an identifier in UTF-8, so that the names that are made of it stay short.
pub const MAX_NAME_BYTES: usize = 200;

/// Whether a comment begins with the text: SLS 1.4.
pub(crate) fn begins_comment(text: &[char]) -> bool
    ensures { result ≡ spec.begins_comment text.now }
{
    matches!(text, ['/', '/' | '*', ..])
}

/// How many characters of a word stand at the front.
fn word_len(text: &[char]) -> usize
    ensures value { result ≡ prefix_len character.is_word text.now }
    ensures within { result ≤ length text.now }
{
    let mut len = 0;
    while len < text.len() && is_word(text[len]) {
        len += 1;
    }
    len
}

/// How many operator characters stand at the front, before any comment.
fn operator_len(text: &[char]) -> usize
    ensures value { result ≡ spec.operator_len text.now }
    ensures within { result ≤ length text.now }
{
    let mut len = 0;
    let mut rest = text;
    while let [c, more @ ..] = rest {
        if !is_operator(*c) || begins_comment(rest) {
            break;
        }
        len += 1;
        rest = more;
    }
    len
}

/// Whether operator characters join the word: it ends in `_`, which isn't its first character.
fn is_joining(word: &[char]) -> bool
    ensures { result ≡ spec.is_joining word.now }
{
    1 < word.len() && word[word.len() - 1] == '_'
}

/// How many characters the identifier has that begins with a letter.
#[tactic(auto, unfolding(crate::specs::Name::word_name_len))]
pub(crate) fn word_name_len(text: &[char]) -> usize
    ensures value { result ≡ spec.word_name_len text.now }
    ensures within { result ≤ length text.now }
{
    let len = word_len(text);
    let (word, rest) = text.split_at(len);
    if is_joining(word) {
        len + operator_len(rest)
    } else {
        len
    }
}

/// How many characters the identifier has that begins the text.
fn name_len(text: &[char]) -> usize
    ensures value { result ≡ spec.name_len text.now }
    ensures within { result ≤ length text.now }
{
    if begins_letter(text) {
        word_name_len(text)
    } else {
        operator_len(text)
    }
}

fn begins_letter(text: &[char]) -> bool
    ensures { result ≡ character.begins character.is_letter text.now }
{
    match text {
        [] => false,
        [c, ..] => is_letter(*c),
    }
}

/// Whether `\u` stands at the end of the name and behind it.
fn is_escape_split(name: &[char], rest: &[char]) -> bool
    ensures { result ≡ spec.is_escape_split name.now rest.now }
{
    matches!(name, [.., '\\']) && matches!(rest, ['u', ..])
}

/// The token of an identifier that isn't reserved, before this rest, or what is refused of it.
fn plain_name(alloc: Global, name: &[char], rest: &[char]) -> Result<Piece, NoMemory>
    requires any { 0 < length name.now }
    requires within { length name.now ≤ MAX_SOURCE_BYTES }
    ensures value { IfOk result (λ piece. piece ≡ spec.plain_name name.now rest.now) }
    ensures within { IfOk result (IsWithin (length name.now + length rest.now)) }
{
    if MAX_NAME_BYTES < byte_len(name) {
        return Ok(Piece::Refused(Rule::BadName, 0, name.len()));
    }
    if begins_letter(name) && matches!(rest, ['"', ..]) {
        return Ok(Piece::Refused(Rule::LeftOutToken, 0, name.len()));
    }
    if is_escape_split(name, rest) {
        return Ok(Piece::Refused(Rule::LeftOutToken, name.len() - 1, 2));
    }
    let kind = Tok::Id(Text::from_slice(alloc, name)?);
    Ok(Piece::Token(kind, name.len()))
}

/// The identifier or reserved word that begins the text.
#[tactic(auto, unfolding(crate::specs::Name::name_piece))]
pub(crate) fn name_piece(alloc: Global, text: &[char]) -> Result<Piece, NoMemory>
    requires any { 0 < spec.name_len text.now }
    requires within { length text.now ≤ MAX_SOURCE_BYTES }
    ensures value { IfOk result (λ piece. piece ≡ spec.name_piece text.now) }
    ensures within { IfOk result (IsWithin (length text.now)) }
{
    let (name, rest) = text.split_at(name_len(text));
    match word_of(name) {
        Some(word) => Ok(Piece::Token(word.token(), name.len())),
        None => plain_name(alloc, name, rest),
    }
}
