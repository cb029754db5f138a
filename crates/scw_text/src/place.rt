//! Lines and columns.

ghost use Rattle.std.specs.Prelude.{◌≡◌, ◌+◌, ◌<◌, ◌≤◌, ◌^◌, length};
ghost use Rattle.scw_text.specs.Place.{column_of, ends_char, line_of};

use crate::modified::is_continuation;

/// Where a place of a text is shown.
#[derive(Clone, Copy, Debug, PartialEq, Eq)]
pub struct Place {
    /// The line, from 1. A line feed is on the line that it ends.
    pub line: u32,
    /// The column, from 1, in whole characters.
    pub column: u32,
}

impl Place {
    /// The place after the byte at `at`, where this one is before it.
    #[tactic(auto, using(crate::proofs::PlaceLemmas::place_steps))]
    pub(crate) fn past(self, bytes: &[u8], at: usize) -> Place
        requires within { at < length bytes.now }
        requires few { at < 2 ^ 31 }
        requires line { self.line ≡ line_of bytes.now at }
        requires column { self.column ≡ column_of bytes.now at }
        ensures line { result.line ≡ line_of bytes.now (at + 1) }
        ensures column { result.column ≡ column_of bytes.now (at + 1) }
    {
        if bytes[at] == b'\n' {
            Place {
                line: self.line + 1,
                column: 1,
            }
        } else if ends_char(bytes, at + 1) {
            Place {
                line: self.line,
                column: self.column + 1,
            }
        } else {
            self
        }
    }
}

/// Whether a character ends there.
fn ends_char(bytes: &[u8], at: usize) -> bool
    requires { at ≤ length bytes.now }
    ensures { result ≡ ends_char bytes.now at }
{
    at == bytes.len() || !is_continuation(bytes[at])
}
