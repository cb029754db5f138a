//! What stands between two tokens: SLS 1.2.

ghost use Rattle.std.specs.Prelude.{◌≡◌, ◌≤◌, ◌+◌, ◌<◌, false, length, IfSome};
ghost use Rattle.std.specs.Str.{encode_utf8_all};
ghost use Rattle.scw_text.specs.declared.source.TheConstants.{MAX_SOURCE_BYTES};
ghost use Rattle.scw_lex.specs.Gap as spec;

use crate::token::Gap;
use crate::utf8::front_len;

/// How many characters stand before the first line end, if there is one.
fn line_end(text: &[char]) -> Option<usize>
    ensures value { result ≡ spec.line_end 0 text.now }
    ensures within { IfSome result (λ len. len < length text.now) }
{
    let mut len = 0;
    let mut rest = text;
    while let [c, more @ ..] = rest {
        if *c == '\n' {
            return Some(len);
        }
        len += 1;
        rest = more;
    }
    None
}

/// Whether a line of white space alone stands between two line ends.
fn has_blank_line(text: &[char]) -> bool
    ensures { result ≡ spec.has_blank_line false text.now }
{
    let mut is_open = false;
    for c in text {
        if *c == '\n' {
            if is_open {
                return true;
            }
            is_open = true;
        } else {
            is_open = is_open && matches!(*c, ' ' | '\t' | '\r' | '\u{c}');
        }
    }
    false
}

/// What the text between two tokens is, which begins at the byte.
#[tactic(auto, unfolding(crate::specs::Gap::gap_of))]
pub(crate) fn gap_of(at: u32, text: &[char]) -> Gap
    requires { at + length (encode_utf8_all text.now) ≤ MAX_SOURCE_BYTES }
    ensures { result ≡ spec.gap_of at text.now }
{
    match line_end(text) {
        None => Gap::Joined,
        Some(len) => {
            let first = at + front_len(text, len);
            if has_blank_line(text) {
                Gap::BlankLine(first)
            } else {
                Gap::LineEnd(first)
            }
        }
    }
}
