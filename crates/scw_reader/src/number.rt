//! Numbers: SLS 1.3.1.

ghost use Rattle.std.specs.Prelude.{◌≡◌, ◌<◌, List, ℕ, length, IsTrue};
ghost use Rattle.std.specs.List.{list_all};
ghost use Rattle.std.specs.Char.{is_ascii_digit, is_ascii_hexdigit};
ghost use Rattle.scw_reader.specs.Layout as layout;
ghost use Rattle.scw_reader.specs.Token as token;
ghost use Rattle.scw_reader.specs.Lexing as spec;
ghost use Rattle.scw_reader.specs.Outcome.{Gives};

use crate::class::{Class, run};
use crate::failure::Failure;
use crate::token::{MAX_INT, MAX_LONG, Token};

/// Whether there is a zero before other digits.
fn has_leading_zero(digits: &[u8]) -> bool
    ensures { result ≡ spec.has_leading_zero digits.now }
{
    match digits {
        [] | [_] => false,
        [first, _, ..] => *first == b'0',
    }
}

/// The number of the digits, if there is one and they fit 64 bits.
fn value_of(digits: &[u8]) -> Result<u64, Failure>
    requires { IsTrue (list_all is_ascii_digit digits.now) }
    ensures { Gives (λ n. n) result (spec.value_of digits.now) }
{
    let Ok(text) = str::from_utf8(digits) else {
        return Err(Failure::Other);
    };
    match text.parse::<u64>() {
        Ok(n) => Ok(n),
        Err(_) => Err(Failure::Other),
    }
}

/// The number of the digits, if they have no leading zero.
#[tactic(auto, unfolding(crate::specs::Lexing::numeral))]
fn numeral(digits: &[u8]) -> Result<u64, Failure>
    requires { IsTrue (list_all is_ascii_digit digits.now) }
    ensures { Gives (λ n. n) result (spec.numeral digits.now) }
{
    if has_leading_zero(digits) {
        return Err(Failure::Other);
    }
    value_of(digits)
}

fn int_of(n: u64) -> Result<Token, Failure>
    ensures { Gives (λ t. t) result (spec.int_of n) }
{
    if n <= MAX_INT {
        Ok(Token::Int(n as u32))
    } else {
        Err(Failure::Other)
    }
}

fn long_of(n: u64) -> Result<Token, Failure>
    ensures { Gives (λ t. t) result (spec.long_of n) }
{
    if n <= MAX_LONG {
        Ok(Token::Long(n))
    } else {
        Err(Failure::Other)
    }
}

/// The number with the suffix that stands behind its digits, and what follows it.
fn suffixed(n: u64, bytes: &[u8]) -> Result<(Token, &[u8]), Failure>
    ensures { Gives (λ r. (r.0, r.1.now)) result (spec.suffixed n bytes.now) }
{
    match bytes {
        [b'L', rest @ ..] => Ok((long_of(n)?, rest)),
        _ => Ok((int_of(n)?, bytes)),
    }
}

/// The number that the bytes begin with, and what follows it.
#[tactic(auto, unfolding(crate::specs::Lexing::number_at))]
pub(crate) fn number_at(bytes: &[u8]) -> Result<(Token, &[u8]), Failure>
    ensures { Gives (λ r. (r.0, r.1.now)) result (spec.number_at bytes.now) }
{
    let (digits, rest) = run(Class::Digit, bytes);
    let n = numeral(digits)?;
    suffixed(n, rest)
}

/// Whether the digits of an exponent stand there (SLS 1.3.2).
fn is_exponent(bytes: &[u8]) -> bool
    ensures { result ≡ layout.is_exponent bytes.now }
{
    match bytes {
        [] => false,
        [c] => c.is_ascii_digit(),
        [c, d, ..] => c.is_ascii_digit() || (b"+-".contains(c) && d.is_ascii_digit()),
    }
}

fn begins_digit(bytes: &[u8]) -> bool
    ensures { result ≡ token.begins is_ascii_digit bytes.now }
{
    match bytes {
        [] => false,
        [c, ..] => c.is_ascii_digit(),
    }
}

fn begins_hex_digit(bytes: &[u8]) -> bool
    ensures { result ≡ token.begins is_ascii_hexdigit bytes.now }
{
    match bytes {
        [] => false,
        [c, ..] => c.is_ascii_hexdigit(),
    }
}

/// Whether the bytes behind decimal digits make a longer number of them.
pub(crate) fn number_goes_on(n: u32, bytes: &[u8]) -> bool
    ensures { result ≡ layout.number_goes_on n bytes.now }
{
    match bytes {
        [] => false,
        [c, rest @ ..] => {
            c.is_ascii_digit()
                || b"LlFfDd".contains(c)
                || (b"Ee".contains(c) && is_exponent(rest))
                || (b".".contains(c) && begins_digit(rest))
                || (n == 0 && b"Xx".contains(c) && begins_hex_digit(rest))
        }
    }
}
