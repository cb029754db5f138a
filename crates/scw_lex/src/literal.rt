//! Characters and strings: SLS 1.3.4 and 1.3.5, and backquoted identifiers: SLS 1.1.

ghost use Rattle.std.specs.Prelude.{◌≡◌, ◌≤◌, ◌<◌, ◌+◌, ◌++◌, [], false, length, IfOk, IfErr, IfSome, IsTrue, OnOk};
ghost use Rattle.std.specs.Result.{result_map_both};
ghost use Rattle.std.specs.Char.Escape.{encode_utf16};
ghost use Rattle.scw_text.specs.Modified.{unit_bytes};
ghost use Rattle.scw_text.specs.declared.source.TheConstants.{MAX_SOURCE_BYTES};
ghost use Rattle.scw_lex.specs.Within.{IsWithin};
ghost use Rattle.scw_lex.specs.Literal as spec;

use crate::character::is_letter;
use crate::escape::{Spelling, escape_at, escape_place};
use crate::name::{MAX_NAME_BYTES, word_name_len};
use crate::piece::Piece;
use crate::token::Tok;
use crate::utf8::byte_len;
use scw_text::{NoMemory, Rule, Text, Units};
use std::alloc::{AllocError, Global};

/// The most bytes of a string in modified UTF-8, as a class file takes it: JVMS 4.4.7.
pub const MAX_TEXT_BYTES: usize = 65_535;

/// Whether the `'` before the text begins a symbol literal.
fn is_symbol(text: &[char]) -> bool
    ensures { result ≡ spec.is_symbol text.now }
{
    match text {
        [] => false,
        [c, rest @ ..] => is_letter(*c) && !matches!(rest, ['\'', ..]),
    }
}

/// The content of a character that begins with an escape, behind its backslash.
fn escaped_content(text: &[char]) -> Option<Spelling>
    ensures value { result ≡ spec.escaped_content text.now }
    ensures within { IfSome result (λ content. content.len ≤ 6) }
{
    match text {
        [] | ['\n' | '\r', ..] => None,
        [_, ..] => {
            let escape = escape_at(text);
            Some(Spelling {
                unit: escape.unit,
                len: escape.len + 1,
            })
        }
    }
}

/// The content of a character that is one character, which has one code unit.
fn plain_content(c: char) -> Option<Spelling>
    ensures value { result ≡ spec.plain_content c }
    ensures within { IfSome result (λ content. content.len ≤ 6) }
{
    let code = c as u32;
    if code < 0x1_0000 {
        Some(Spelling {
            unit: Some(code as u16),
            len: 1,
        })
    } else {
        None
    }
}

/// The content of a character, behind the quote: one character that is no quote, backslash or line end, or an escape.
fn content_at(text: &[char]) -> Option<Spelling>
    ensures value { result ≡ spec.content_at text.now }
    ensures within { IfSome result (λ content. content.len ≤ 6) }
{
    match text {
        [] | ['\'' | '\n' | '\r', ..] => None,
        ['\\', rest @ ..] => escaped_content(rest),
        [c, ..] => plain_content(*c),
    }
}

/// Whether a `'` stands behind so many characters.
fn is_closed_at(text: &[char], at: usize) -> bool
    ensures value { result ≡ spec.is_closed_at text.now at }
    ensures within { IsTrue result → at < length text.now }
{
    at < text.len() && text[at] == '\''
}

/// The character with this content, which has its closing quote.
fn closed_unit(unit: Option<u16>, len: usize) -> Piece
    requires { len ≤ 6 }
    ensures { result ≡ spec.closed_unit unit len }
{
    match unit {
        Some(unit) => Piece::Token(Tok::Char(unit), len + 2),
        None => Piece::Refused(Rule::BadEscape, 1, 1),
    }
}

/// The character whose quote stands before the text, or what is refused of it.
#[tactic(auto, unfolding(crate::specs::Literal::character_piece))]
pub(crate) fn character_piece(text: &[char]) -> Piece
    requires { length text.now ≤ MAX_SOURCE_BYTES }
    ensures value { result ≡ spec.character_piece text.now }
    ensures within { IsWithin (length text.now + 1) result }
{
    if is_symbol(text) {
        return Piece::Refused(Rule::LeftOutToken, 0, word_name_len(text) + 1);
    }
    match content_at(text) {
        Some(content) if is_closed_at(text, content.len) => closed_unit(content.unit, content.len),
        _ => Piece::Refused(Rule::OpenText, 0, 1),
    }
}

/// How many characters of a string of one line stand before its closing quote, behind the opening one.
fn closing_quote(text: &[char]) -> Option<usize>
    ensures value { result ≡ spec.closing_quote 0 false text.now }
    ensures within { IfSome result (λ len. len < length text.now) }
{
    let mut len = 0;
    let mut is_escaped = false;
    let mut rest = text;
    while let [c, more @ ..] = rest {
        if *c == '\n' || *c == '\r' {
            return None;
        }
        if !is_escaped && *c == '"' {
            return Some(len);
        }
        is_escaped = !is_escaped && *c == '\\';
        len += 1;
        rest = more;
    }
    None
}

/// Puts the code units of a character behind those that are there.
fn push_units(units: &mut Vec<u16>, c: char) -> Result<(), AllocError>
    ensures { OnOk result (units.new.items ≡ units.old.items ++ encode_utf16 c) }
{
    let mut pair = [0; 2];
    units.extend_from_slice(c.encode_utf16(&mut pair))
}

/// The code units of a text in which a backslash stands for itself.
fn plain_units(alloc: Global, text: &[char]) -> Result<Vec<u16>, AllocError>
    ensures { IfOk result (λ units. units.items ≡ spec.plain_units text.now) }
{
    let mut units = Vec::new(alloc);
    for c in text {
        push_units(&mut units, *c)?;
    }
    Ok(units)
}

/// The code units of a text with escapes, or how many characters stand before the first escape that is not in the list.
fn escaped_units(alloc: Global, text: &[char]) -> Result<Result<Vec<u16>, usize>, AllocError>
    ensures value { IfOk result (λ read. result_map_both (λ units. units.items) (λ at. at) read ≡ spec.escaped_units 0 0 [] text.now) }
    ensures within { IfOk result (λ read. IfErr read (λ at. at < length text.now)) }
{
    let mut units = Vec::new(alloc);
    let mut skipped = 0;
    let mut at = 0;
    let mut rest = text;
    while let [c, more @ ..] = rest {
        if 0 < skipped {
            skipped -= 1;
        } else if *c == '\\' {
            let escape = escape_at(more);
            match escape.unit {
                Some(unit) => units.push(unit)?,
                None => return Ok(Err(at)),
            }
            skipped = escape.len;
        } else {
            push_units(&mut units, *c)?;
        }
        at += 1;
        rest = more;
    }
    Ok(Ok(units))
}

/// How many bytes the unit has in modified UTF-8.
#[tactic(auto, unfolding(scw_text::specs::Modified::unit_bytes))]
fn modified_len(unit: u16) -> usize
    ensures value { result ≡ length (unit_bytes unit) }
    ensures within { result ≤ 3 }
{
    if 0 < unit && unit < 0x80 {
        1
    } else if unit < 0x800 {
        2
    } else {
        3
    }
}

/// Whether the text has more bytes in modified UTF-8 than a class file takes.
fn is_long(units: &[u16]) -> bool
    ensures { result ≡ spec.is_long units.now }
{
    let mut len = 0;
    for unit in units {
        len += modified_len(*unit);
        if MAX_TEXT_BYTES < len {
            return true;
        }
    }
    false
}

/// The string of one line that has these units and this length with its quotes.
fn string_of(units: Vec<u16>, len: usize) -> Piece
    ensures { result ≡ spec.string_of units.items len }
{
    if is_long(units.as_slice()) {
        Piece::Refused(Rule::LongText, 0, len)
    } else {
        Piece::Token(Tok::Str(Units::from_vec(units)), len)
    }
}

/// The string of one line whose quote stands before the text, or what is refused of it.
#[tactic(auto, unfolding(crate::specs::Literal::line_string))]
fn line_string(alloc: Global, text: &[char]) -> Result<Piece, NoMemory>
    requires { length text.now ≤ MAX_SOURCE_BYTES }
    ensures value { IfOk result (λ piece. piece ≡ spec.line_string text.now) }
    ensures within { IfOk result (IsWithin (length text.now + 1)) }
{
    let Some(len) = closing_quote(text) else {
        return Ok(Piece::Refused(Rule::OpenText, 0, 1));
    };
    let (content, _) = text.split_at(len);
    match escaped_units(alloc, content)? {
        Ok(units) => Ok(string_of(units, len + 2)),
        Err(at) => Ok(Piece::Refused(Rule::BadEscape, at + 1, 1)),
    }
}

/// How many characters of a string of many lines stand before its three closing quotes, behind the opening ones: they
/// are the last of the first run of three or more.
fn closing_quotes(text: &[char]) -> Option<usize>
    ensures value { result ≡ spec.closing_quotes 0 text.now }
    ensures within { IfSome result (λ len. len + 3 ≤ length text.now) }
{
    let mut len = 0;
    let mut rest = text;
    while let [_, more @ ..] = rest {
        if matches!(rest, ['"', '"', '"', ..]) && !matches!(rest, ['"', '"', '"', '"', ..]) {
            return Some(len);
        }
        len += 1;
        rest = more;
    }
    None
}

/// The string of many lines with this content, which has its closing quotes.
fn closed_lines(alloc: Global, content: &[char]) -> Result<Piece, NoMemory>
    requires { length content.now ≤ MAX_SOURCE_BYTES }
    ensures value { IfOk result (λ piece. piece ≡ spec.closed_lines content.now) }
    ensures within { IfOk result (IsWithin (length content.now + 6)) }
{
    let units = plain_units(alloc, content)?;
    if is_long(units.as_slice()) {
        return Ok(Piece::Refused(Rule::LongText, 0, content.len() + 6));
    }
    match escape_place(content) {
        Some(at) => Ok(Piece::Refused(Rule::LeftOutToken, at + 3, 2)),
        None => {
            let kind = Tok::Str(Units::from_vec(units));
            Ok(Piece::Token(kind, content.len() + 6))
        }
    }
}

/// The string of many lines whose three quotes stand before the text, or what is refused of it.
#[tactic(auto, unfolding(crate::specs::Literal::lines_string))]
fn lines_string(alloc: Global, text: &[char]) -> Result<Piece, NoMemory>
    requires { length text.now ≤ MAX_SOURCE_BYTES }
    ensures value { IfOk result (λ piece. piece ≡ spec.lines_string text.now) }
    ensures within { IfOk result (IsWithin (length text.now + 3)) }
{
    match closing_quotes(text) {
        Some(len) => closed_lines(alloc, text.split_at(len).0),
        None => Ok(Piece::Refused(Rule::OpenText, 0, 3)),
    }
}

/// The string whose first quote stands before the text, or what is refused of it.
pub(crate) fn string_piece(alloc: Global, text: &[char]) -> Result<Piece, NoMemory>
    requires { length text.now ≤ MAX_SOURCE_BYTES }
    ensures value { IfOk result (λ piece. piece ≡ spec.string_piece text.now) }
    ensures within { IfOk result (IsWithin (length text.now + 1)) }
{
    match text {
        ['"', '"', rest @ ..] => lines_string(alloc, rest),
        _ => line_string(alloc, text),
    }
}

/// How many characters stand before the next backquote or line end.
fn back_len(text: &[char]) -> usize
    ensures value { result ≡ spec.back_len text.now }
    ensures within { result ≤ length text.now }
{
    let mut len = 0;
    while len < text.len() && text[len] != '`' && text[len] != '\n' {
        len += 1;
    }
    len
}

/// The backquoted identifier with these characters, which has its closing backquote, or what is refused of it.
fn closed_back(alloc: Global, name: &[char]) -> Result<Piece, NoMemory>
    requires { length name.now ≤ MAX_SOURCE_BYTES }
    ensures value { IfOk result (λ piece. piece ≡ spec.closed_back name.now) }
    ensures within { IfOk result (IsWithin (length name.now + 2)) }
{
    let len = name.len() + 2;
    if name.is_empty() || MAX_NAME_BYTES < byte_len(name) {
        return Ok(Piece::Refused(Rule::BadName, 0, len));
    }
    match escape_place(name) {
        Some(at) => Ok(Piece::Refused(Rule::LeftOutToken, at + 1, 2)),
        None => Ok(Piece::Token(Tok::Back(Text::from_slice(alloc, name)?), len)),
    }
}

/// The identifier whose backquote stands before the text, or what is refused of it.
#[tactic(auto, unfolding(crate::specs::Literal::back_piece))]
pub(crate) fn back_piece(alloc: Global, text: &[char]) -> Result<Piece, NoMemory>
    requires { length text.now ≤ MAX_SOURCE_BYTES }
    ensures value { IfOk result (λ piece. piece ≡ spec.back_piece text.now) }
    ensures within { IfOk result (IsWithin (length text.now + 1)) }
{
    let (name, rest) = text.split_at(back_len(text));
    match rest {
        ['`', ..] => closed_back(alloc, name),
        _ => Ok(Piece::Refused(Rule::OpenText, 0, 1)),
    }
}
