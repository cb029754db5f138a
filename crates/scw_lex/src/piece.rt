//! What stands at the front of a text.

use crate::token::Tok;
use scw_text::Rule;

/// What stands at the front of a text. All numbers count characters.
#[derive(Debug, Drop)]
pub enum Piece {
    /// White space or a comment, with its length.
    Skip(usize),
    /// A token, with its length.
    Token(Tok, usize),
    /// What breaks a rule: how far from here it begins, and its length.
    Refused(Rule, usize, usize),
}
