//! Escapes in characters and strings: SLS 1.3.6, and 1.1 for `\u`.

ghost use Rattle.std.specs.Prelude.{◌≡◌, ◌≤◌, ◌<◌, ◌+◌, length, IfSome};
ghost use Rattle.scw_lex.specs.Escape as spec;

use crate::number::hex_len;

/// What stands behind a backslash, and the code unit that it stands for.
#[rattlefmt::skip]
pub const ESCAPES: [(char, u16); 8] = [
    ('b', 8), ('t', 9), ('n', 10), ('f', 12), ('r', 13), ('"', 34), ('\'', 39), ('\\', 92),
];

/// How a code unit is spelled.
#[derive(Clone, Copy, Debug, PartialEq, Eq)]
pub(crate) struct Spelling {
    /// The code unit, or none for an escape that is not in the list.
    pub unit: Option<u16>,
    /// How many characters spell it.
    pub len: usize,
}

/// The code unit that the table has for the character.
fn unit_in(mut table: &[(char, u16)], c: char) -> Option<u16>
    ensures { result ≡ spec.unit_in table.entry.now c }
{
    while let [entry, rest @ ..] = table {
        if entry.0 == c {
            return Some(entry.1);
        }
        table = rest;
    }
    None
}

/// The number of a hexadecimal digit, and 0 for what is none.
fn hex_value(c: char) -> u16
    ensures value { result ≡ spec.hex_value c }
    ensures within { result < 16 }
{
    match c.to_digit(16) {
        Some(digit) => digit as u16,
        None => 0,
    }
}

/// The code unit that four digits write.
fn four_digits(text: &[char]) -> u16
    ensures { result ≡ spec.four_digits text.now }
{
    match text {
        [a, b, c, d, ..] => {
            ((hex_value(*a) * 16 + hex_value(*b)) * 16 + hex_value(*c)) * 16 + hex_value(*d)
        }
        _ => 0,
    }
}

/// What stands behind `\u`: four digits, or less, which make no escape.
fn unicode_escape(text: &[char]) -> Spelling
    ensures value { result ≡ spec.unicode_escape text.now }
    ensures within { result.len ≤ 5 }
{
    let digits = hex_len(text).min(4);
    let unit = if digits == 4 {
        Some(four_digits(text))
    } else {
        None
    };
    Spelling {
        unit,
        len: digits + 1,
    }
}

/// The escape whose backslash stands before the text, without that.
pub(crate) fn escape_at(text: &[char]) -> Spelling
    ensures value { result ≡ spec.escape_at text.now }
    ensures within { result.len ≤ 5 }
{
    match text {
        [] => Spelling { unit: None, len: 0 },
        ['u', rest @ ..] => unicode_escape(rest),
        [c, ..] => Spelling {
            unit: unit_in(&ESCAPES, *c),
            len: 1,
        },
    }
}

/// How many characters stand before the first `\u`, if there is one.
pub(crate) fn escape_place(text: &[char]) -> Option<usize>
    ensures value { result ≡ spec.escape_place 0 text.now }
    ensures within { IfSome result (λ place. place + 2 ≤ length text.now) }
{
    let mut rest = text;
    let mut place = 0;
    while let [_, more @ ..] = rest {
        if matches!(rest, ['\\', 'u', ..]) {
            return Some(place);
        }
        place += 1;
        rest = more;
    }
    None
}
