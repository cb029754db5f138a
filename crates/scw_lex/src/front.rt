//! What stands at the front of a text: SLS 1.

ghost use Rattle.std.specs.Prelude.{◌≡◌, ◌≤◌, length, IfOk, IsTrue};
ghost use Rattle.scw_text.specs.declared.source.TheConstants.{MAX_SOURCE_BYTES};
ghost use Rattle.scw_lex.specs.Character as character;
ghost use Rattle.scw_lex.specs.Reserved as reserved;
ghost use Rattle.scw_lex.specs.Within.{IsWithin};
ghost use Rattle.scw_lex.specs.Front as spec;

use crate::character::{Class, class_of};
use crate::comment::comment_piece;
use crate::literal::{back_piece, character_piece, string_piece};
use crate::name::{begins_comment, name_piece};
use crate::number::{number_piece, point_piece};
use crate::piece::Piece;
use crate::reserved::separator;
use scw_text::{NoMemory, Rule};
use std::alloc::Global;

/// The bracket or separator that the character is.
fn separated(c: char) -> Piece
    ensures value { result ≡ spec.separated (reserved.separator c) }
    ensures within { IsWithin 1 result }
{
    match separator(c) {
        Some(sign) => Piece::Token(sign.token(), 1),
        None => Piece::Refused(Rule::BadChar, 0, 1),
    }
}

/// The bracket or separator that begins the text, or a floating form that begins with a point.
fn separator_piece(text: &[char]) -> Piece
    requires { length text.now ≤ MAX_SOURCE_BYTES }
    ensures value { result ≡ spec.separator_piece text.now }
    ensures within { IsWithin (length text.now) result }
{
    match text {
        [] => Piece::Refused(Rule::BadChar, 0, 0),
        ['.', ..] => point_piece(text),
        [c, ..] => separated(*c),
    }
}

/// The literal or identifier that begins with a quote.
fn quote_piece(alloc: Global, text: &[char]) -> Result<Piece, NoMemory>
    requires { length text.now ≤ MAX_SOURCE_BYTES }
    ensures value { IfOk result (λ piece. piece ≡ spec.quote_piece text.now) }
    ensures within { IfOk result (IsWithin (length text.now)) }
{
    match text {
        [] => Ok(Piece::Refused(Rule::BadChar, 0, 0)),
        ['`', rest @ ..] => back_piece(alloc, rest),
        ['"', rest @ ..] => string_piece(alloc, rest),
        [_, rest @ ..] => Ok(character_piece(rest)),
    }
}

/// The comment or the identifier that begins with an operator character.
fn operator_piece(alloc: Global, text: &[char]) -> Result<Piece, NoMemory>
    requires operator { IsTrue (character.begins character.is_operator text.now) }
    requires within { length text.now ≤ MAX_SOURCE_BYTES }
    ensures value { IfOk result (λ piece. piece ≡ spec.operator_piece text.now) }
    ensures within { IfOk result (IsWithin (length text.now)) }
{
    if begins_comment(text) {
        Ok(comment_piece(text))
    } else {
        name_piece(alloc, text)
    }
}

/// What stands at the front of the text: white space, a comment, a token, or what breaks a rule.
#[tactic(auto, unfolding(crate::specs::Front::piece_at))]
pub(crate) fn piece_at(alloc: Global, text: &[char]) -> Result<Piece, NoMemory>
    requires { length text.now ≤ MAX_SOURCE_BYTES }
    ensures value { IfOk result (λ piece. piece ≡ spec.piece_at text.now) }
    ensures within { IfOk result (IsWithin (length text.now)) }
{
    let [c, ..] = text else {
        return Ok(Piece::Refused(Rule::BadChar, 0, 0));
    };
    match class_of(*c) {
        Class::Letter => name_piece(alloc, text),
        Class::Digit => Ok(number_piece(text)),
        Class::White => Ok(Piece::Skip(1)),
        Class::Separator => Ok(separator_piece(text)),
        Class::Quote => quote_piece(alloc, text),
        Class::Operator => operator_piece(alloc, text),
        Class::Other => Ok(Piece::Refused(Rule::BadChar, 0, 1)),
    }
}
