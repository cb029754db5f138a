//! Classes of characters: SLS 1.

ghost use Rattle.std.specs.Prelude.{◌≡◌, ◌≤◌, take, drop, length};
ghost use Rattle.std.specs.List.{prefix_len};
ghost use Rattle.scw_reader.specs.Character as spec;

/// A class of characters.
#[derive(Clone, Copy, Debug, PartialEq, Eq)]
pub(crate) enum Class {
    /// A letter or a digit of the whole language, in which `$` and `_` are letters.
    Word,
    /// A decimal digit.
    Digit,
    /// What operators are made of.
    Operator,
    /// What may stand in a text.
    Text,
    /// A space or a line feed.
    Blank,
}

pub(crate) fn is_in(class: Class, c: u8) -> bool
    ensures { result ≡ spec.is_in class c }
{
    match class {
        Class::Word => c.is_ascii_alphanumeric() || b"$_".contains(&c),
        Class::Digit => c.is_ascii_digit(),
        Class::Operator => b"!#%&*+-/:<=>?@\\^|~".contains(&c),
        Class::Text => (c == b' ' || c.is_ascii_graphic()) && !b"\"\\".contains(&c),
        Class::Blank => b" \n".contains(&c),
    }
}

/// The characters of the class that the bytes begin with, and what follows them.
pub(crate) fn run(class: Class, bytes: &[u8]) -> (&[u8], &[u8])
    ensures front { result.0.now ≡ take (prefix_len (spec.is_in class) bytes.now) bytes.now }
    ensures rest { result.1.now ≡ drop (prefix_len (spec.is_in class) bytes.now) bytes.now }
{
    let mut end = 0;
    while end < bytes.len() && is_in(class, bytes[end]) {
        end += 1;
    }
    bytes.split_at(end)
}
