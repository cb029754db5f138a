//! Comments: SLS 1.4.

ghost use Rattle.std.specs.Prelude.{◌≡◌, ◌≤◌, length, IfSome, IsTrue};
ghost use Rattle.scw_text.specs.declared.source.TheConstants.{MAX_SOURCE_BYTES};
ghost use Rattle.scw_lex.specs.declared.comment.Begun.TheVariants as begun;
ghost use Rattle.scw_lex.specs.Within.{IsWithin};
ghost use Rattle.scw_lex.specs.Name.{begins_comment};
ghost use Rattle.scw_lex.specs.Comment as spec;

use crate::piece::Piece;
use scw_text::Rule;

/// The character before, where it may begin `*/` or `/*`.
#[derive(Clone, Copy, Debug, PartialEq, Eq)]
pub(crate) enum Begun {
    /// It begins neither.
    Nothing,
    /// `*`
    Star,
    /// `/`
    Slash,
}

/// How many characters stand before the line end.
fn line_len(text: &[char]) -> usize
    ensures value { result ≡ spec.line_len text.now }
    ensures within { result ≤ length text.now }
{
    let mut len = 0;
    while len < text.len() && text[len] != '\n' {
        len += 1;
    }
    len
}

/// What the character may begin.
fn begun_by(c: char) -> Begun
    ensures { result ≡ spec.begun_by c }
{
    match c {
        '*' => Begun::Star,
        '/' => Begun::Slash,
        _ => Begun::Nothing,
    }
}

/// How many characters a comment has behind its `/*`, if it is closed.
fn block_len(text: &[char]) -> Option<usize>
    ensures value { result ≡ spec.block_len 0 begun.Nothing 0 text.now }
    ensures within { IfSome result (λ len. len ≤ length text.now) }
{
    let mut inner: usize = 0;
    let mut begun = Begun::Nothing;
    let mut len = 0;
    let mut rest = text;
    while let [c, more @ ..] = rest {
        len += 1;
        if begun == Begun::Star && *c == '/' {
            if inner == 0 {
                return Some(len);
            }
            inner -= 1;
            begun = Begun::Nothing;
        } else if begun == Begun::Slash && *c == '*' {
            inner += 1;
            begun = Begun::Nothing;
        } else {
            begun = begun_by(*c);
        }
        rest = more;
    }
    None
}

/// The comment that begins the text.
pub(crate) fn comment_piece(text: &[char]) -> Piece
    requires comment { IsTrue (begins_comment text.now) }
    requires within { length text.now ≤ MAX_SOURCE_BYTES }
    ensures value { result ≡ spec.comment_piece text.now }
    ensures within { IsWithin (length text.now) result }
{
    match text {
        [_, '*', rest @ ..] => match block_len(rest) {
            Some(len) => Piece::Skip(len + 2),
            None => Piece::Refused(Rule::OpenComment, 0, 2),
        },
        _ => Piece::Skip(line_len(text)),
    }
}
