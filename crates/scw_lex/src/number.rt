//! Numbers: SLS 1.3.1, and 1.3.2 for the floating forms, which are refused.

ghost use Rattle.std.specs.Prelude.{◌≡◌, ◌≤◌, ◌<◌, ◌+◌, ◌*◌, ◌^◌, length, SomeIff, IsTrue, if◌then◌else◌};
ghost use Rattle.std.specs.List.{prefix_len};
ghost use Rattle.std.specs.Char.{digit_value, is_ascii_digit, is_ascii_hexdigit};
ghost use Rattle.scw_text.specs.declared.source.TheConstants.{MAX_SOURCE_BYTES};
ghost use Rattle.scw_lex.specs.Within.{IsWithin};
ghost use Rattle.scw_lex.specs.Character as character;
ghost use Rattle.scw_lex.specs.Number as spec;

use crate::piece::Piece;
use crate::token::Tok;
use scw_text::Rule;

/// The largest decimal number of 32 bits.
pub const MAX_INT: u64 = 2_147_483_647;

/// The largest decimal number of 64 bits.
pub const MAX_LONG: u64 = 9_223_372_036_854_775_807;

/// The largest hexadecimal number of 32 bits.
pub const MAX_INT_BITS: u64 = 4_294_967_295;

/// How many decimal digits stand at the front.
fn digits_len(text: &[char]) -> usize
    ensures value { result ≡ prefix_len is_ascii_digit text.now }
    ensures within { result ≤ length text.now }
{
    let mut len = 0;
    while len < text.len() && text[len].is_ascii_digit() {
        len += 1;
    }
    len
}

/// How many hexadecimal digits stand at the front.
pub(crate) fn hex_len(text: &[char]) -> usize
    ensures value { result ≡ prefix_len is_ascii_hexdigit text.now }
    ensures within { result ≤ length text.now }
{
    let mut len = 0;
    while len < text.len() && text[len].is_ascii_hexdigit() {
        len += 1;
    }
    len
}

/// The number of a digit, and 36 for what is none.
fn digit_of(c: char) -> u64
    ensures value { result ≡ digit_value c }
    ensures within { result ≤ 36 }
{
    match c.to_digit(36) {
        Some(digit) => u64::from(digit),
        None => 36,
    }
}

/// The number with one more digit, if it has at most 64 bits.
fn with_digit(radix: u64, value: u64, c: char) -> Option<u64>
    ensures { SomeIff result (value * radix + digit_value c < 2 ^ 64) (value * radix + digit_value c) }
{
    value.checked_mul(radix)?.checked_add(digit_of(c))
}

/// The number of the digits, if it has at most 64 bits.
#[tactic(auto, using(crate::proofs::NumberLemmas::value_fits, crate::proofs::NumberLemmas::value_is_large))]
fn value_of(radix: u64, digits: &[char]) -> Option<u64>
    requires { 0 < radix }
    ensures { result ≡ spec.value_of radix digits.now }
{
    let mut value = 0;
    let mut rest = digits;
    while let [c, more @ ..] = rest {
        match with_digit(radix, value, *c) {
            Some(more_value) => value = more_value,
            None => return None,
        }
        rest = more;
    }
    Some(value)
}

/// Whether the suffix of a long number stands at the front.
fn begins_long(text: &[char]) -> bool
    ensures { result ≡ spec.begins_long text.now }
{
    matches!(text, ['l' | 'L', ..])
}

/// The hexadecimal number of 32 bits that the digits write, with its length.
fn hex_int(digits: &[char], len: usize) -> Piece
    requires { 0 < len }
    ensures value { result ≡ spec.hex_int (spec.value_of 16 digits.now) len }
    ensures within { IsWithin len result }
{
    match value_of(16, digits) {
        Some(value) if value <= MAX_INT_BITS => Piece::Token(Tok::Int(value as u32), len),
        _ => Piece::Refused(Rule::BadNumber, 0, len),
    }
}

/// The hexadecimal number of 64 bits that the digits write, with its length.
fn hex_long(digits: &[char], len: usize) -> Piece
    requires { 0 < len }
    ensures value { result ≡ spec.hex_long (spec.value_of 16 digits.now) len }
    ensures within { IsWithin len result }
{
    match value_of(16, digits) {
        Some(value) => Piece::Token(Tok::Long(value), len),
        None => Piece::Refused(Rule::BadNumber, 0, len),
    }
}

/// The hexadecimal number behind its `0x`, which begins the text.
#[tactic(auto, unfolding(crate::specs::Number::hex_number))]
fn hex_number(text: &[char]) -> Piece
    requires { length text.now ≤ MAX_SOURCE_BYTES }
    ensures value { result ≡ spec.hex_number text.now }
    ensures within { IsWithin (length text.now + 2) result }
{
    let (digits, rest) = text.split_at(hex_len(text));
    if begins_long(rest) {
        hex_long(digits, digits.len() + 3)
    } else {
        hex_int(digits, digits.len() + 2)
    }
}

/// Whether there is a zero before other digits.
fn has_leading_zero(digits: &[char]) -> bool
    ensures { result ≡ spec.has_leading_zero digits.now }
{
    matches!(digits, ['0', _, ..])
}

/// The decimal number of 32 bits with the value, with its length.
fn int_of(value: u64, len: usize) -> Piece
    requires { 0 < len }
    ensures value { result ≡ spec.int_of value len }
    ensures within { IsWithin len result }
{
    if value <= MAX_INT {
        Piece::Token(Tok::Int(value as u32), len)
    } else if value == MAX_INT + 1 {
        Piece::Token(Tok::MinInt, len)
    } else {
        Piece::Refused(Rule::BadNumber, 0, len)
    }
}

/// The decimal number of 64 bits with the value, with its length.
fn long_of(value: u64, len: usize) -> Piece
    requires { 0 < len }
    ensures value { result ≡ spec.long_of value len }
    ensures within { IsWithin len result }
{
    if value <= MAX_LONG {
        Piece::Token(Tok::Long(value), len)
    } else if value == MAX_LONG + 1 {
        Piece::Token(Tok::MinLong, len)
    } else {
        Piece::Refused(Rule::BadNumber, 0, len)
    }
}

/// The value of decimal digits without a leading zero, if it has at most 64 bits.
fn decimal_value(digits: &[char]) -> Option<u64>
    ensures { result ≡ spec.decimal_value digits.now }
{
    if has_leading_zero(digits) {
        None
    } else {
        value_of(10, digits)
    }
}

/// The number that the decimal digits write, long or not.
fn decimal_number(digits: &[char], is_long: bool) -> Piece
    requires within { length digits.now ≤ MAX_SOURCE_BYTES }
    requires any { 0 < length digits.now }
    ensures value { result ≡ spec.decimal_number digits.now is_long }
    ensures within { IsWithin (length digits.now + (if is_long then 1 else 0)) result }
{
    let len = digits.len() + usize::from(is_long);
    match decimal_value(digits) {
        Some(value) => {
            if is_long {
                long_of(value, len)
            } else {
                int_of(value, len)
            }
        }
        None => Piece::Refused(Rule::BadNumber, 0, len),
    }
}

/// How many characters of a fraction stand at the front: a point and digits.
fn fraction_len(text: &[char]) -> usize
    ensures value { result ≡ spec.fraction_len text.now }
    ensures within { result ≤ length text.now }
{
    match text {
        ['.', rest @ ..] => {
            let digits = digits_len(rest);
            if digits == 0 { 0 } else { 1 + digits }
        }
        _ => 0,
    }
}

/// How many characters the digits of an exponent have, with a sign or without one.
fn signed_len(text: &[char]) -> usize
    ensures value { result ≡ spec.signed_len text.now }
    ensures within { result ≤ length text.now }
{
    match text {
        ['+' | '-', rest @ ..] => {
            let digits = digits_len(rest);
            if digits == 0 { 0 } else { 1 + digits }
        }
        _ => digits_len(text),
    }
}

/// How many characters of an exponent stand at the front.
fn exponent_len(text: &[char]) -> usize
    ensures value { result ≡ spec.exponent_len text.now }
    ensures within { result ≤ length text.now }
{
    match text {
        ['e' | 'E', rest @ ..] => {
            let digits = signed_len(rest);
            if digits == 0 { 0 } else { 1 + digits }
        }
        _ => 0,
    }
}

/// How many characters of a floating type stand at the front, one at most.
fn suffix_len(text: &[char]) -> usize
    ensures value { result ≡ spec.suffix_len text.now }
    ensures within { result ≤ length text.now }
{
    match text {
        ['f' | 'F' | 'd' | 'D', ..] => 1,
        _ => 0,
    }
}

/// How many characters behind digits make a floating form of them: a fraction, an exponent, a type.
#[tactic(auto, unfolding(crate::specs::Number::float_len))]
fn float_len(text: &[char]) -> usize
    ensures value { result ≡ spec.float_len text.now }
    ensures within { result ≤ length text.now }
{
    let fraction = fraction_len(text);
    let (_, rest) = text.split_at(fraction);
    let exponent = exponent_len(rest);
    let (_, rest) = rest.split_at(exponent);
    fraction + exponent + suffix_len(rest)
}

/// The decimal number that begins the text.
#[tactic(auto, unfolding(crate::specs::Number::decimal_piece))]
fn decimal_piece(text: &[char]) -> Piece
    requires within { length text.now ≤ MAX_SOURCE_BYTES }
    requires digit { IsTrue (character.begins is_ascii_digit text.now) }
    ensures value { result ≡ spec.decimal_piece text.now }
    ensures within { IsWithin (length text.now) result }
{
    let (digits, rest) = text.split_at(digits_len(text));
    let floating = float_len(rest);
    if 0 < floating {
        return Piece::Refused(Rule::BadNumber, 0, digits.len() + floating);
    }
    decimal_number(digits, begins_long(rest))
}

fn begins_hex_digit(text: &[char]) -> bool
    ensures { result ≡ character.begins is_ascii_hexdigit text.now }
{
    match text {
        [] => false,
        [c, ..] => c.is_ascii_hexdigit(),
    }
}

/// The number that begins the text.
#[tactic(auto, unfolding(crate::specs::Number::number_piece))]
pub(crate) fn number_piece(text: &[char]) -> Piece
    requires within { length text.now ≤ MAX_SOURCE_BYTES }
    requires digit { IsTrue (character.begins is_ascii_digit text.now) }
    ensures value { result ≡ spec.number_piece text.now }
    ensures within { IsWithin (length text.now) result }
{
    match text {
        ['0', 'x' | 'X', rest @ ..] if begins_hex_digit(rest) => hex_number(rest),
        _ => decimal_piece(text),
    }
}

/// The point that begins the text, or a floating form that begins with it.
pub(crate) fn point_piece(text: &[char]) -> Piece
    requires within { length text.now ≤ MAX_SOURCE_BYTES }
    requires any { 0 < length text.now }
    ensures value { result ≡ spec.point_piece text.now }
    ensures within { IsWithin (length text.now) result }
{
    if 0 < fraction_len(text) {
        Piece::Refused(Rule::BadNumber, 0, float_len(text))
    } else {
        Piece::Token(Tok::KwDot, 1)
    }
}
