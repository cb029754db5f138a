//! Characters at the end of a text: of bytes, numbers, flags and UTF-16 units.

ghost use Rattle.std.specs.Fmt.{decimal, signed_decimal};
ghost use Rattle.std.specs.Prelude.{◌≡◌, ◌≤◌, ◌++◌, [], ◌∷◌, length, true, IfOk, OnOk};
ghost use Rattle.scw_value.specs.Text.{is_high, is_low, point};
ghost use Rattle.scw_dis.specs.Character.{alone, characters, flags_text, spaced};

use itoa::Buffer;
use std::alloc::AllocError;

/// Writes the characters whose numbers the bytes are: those of a text of ASCII.
pub fn write_ascii(text: &[u8], out: &mut Vec<char>) -> Result<(), AllocError>
    ensures { OnOk result (out.new.items ≡ out.old.items ++ text.now) }
{
    for byte in text {
        out.push(char::from(*byte))?;
    }
    Ok(())
}

/// Writes a number from 0.
pub fn write_number(n: u64, out: &mut Vec<char>) -> Result<(), AllocError>
    ensures { OnOk result (out.new.items ≡ out.old.items ++ decimal n) }
{
    let mut buffer = Buffer::new();
    write_ascii(buffer.format(n).as_bytes(), out)
}

/// Writes a number from 0 behind a space.
pub fn write_spaced(n: u64, out: &mut Vec<char>) -> Result<(), AllocError>
    ensures { OnOk result (out.new.items ≡ out.old.items ++ spaced n) }
{
    write_ascii(b" ", out)?;
    write_number(n, out)
}

/// Writes a number that may have a sign.
pub fn write_signed(n: i64, out: &mut Vec<char>) -> Result<(), AllocError>
    ensures { OnOk result (out.new.items ≡ out.old.items ++ signed_decimal n) }
{
    let mut buffer = Buffer::new();
    write_ascii(buffer.format(n).as_bytes(), out)
}

/// The hexadecimal digits.
const DIGITS: [u8; 16] = *b"0123456789abcdef";

/// Writes flags, in four hexadecimal digits.
#[tactic(auto, unfolding(crate::specs::Character::flags_text))]
pub fn write_flags(flags: u16, out: &mut Vec<char>) -> Result<(), AllocError>
    ensures { OnOk result (out.new.items ≡ out.old.items ++ flags_text flags) }
{
    let digits = [
        DIGITS[usize::from(flags / 4096)],
        DIGITS[usize::from(flags / 256 % 16)],
        DIGITS[usize::from(flags / 16 % 16)],
        DIGITS[usize::from(flags % 16)],
    ];
    write_ascii(&digits, out)
}

/// Whether the unit is the first of a pair of surrogates.
fn is_high(unit: u16) -> bool
    ensures { result ≡ is_high unit }
{
    0xd800 <= unit && unit < 0xdc00
}

/// Whether the unit is the second of a pair of surrogates.
fn is_low(unit: u16) -> bool
    ensures { result ≡ is_low unit }
{
    0xdc00 <= unit && unit < 0xe000
}

/// The character of a unit that is in no pair, which is `?` where it is a surrogate.
fn alone(unit: u16) -> char
    ensures { result ∷ [] ≡ alone unit }
{
    match char::from_u32(u32::from(unit)) {
        Some(character) => character,
        None => '?',
    }
}

/// The character of a high surrogate and the low one behind it.
fn point(high: u16, low: u16) -> char
    requires high { is_high high ≡ true }
    requires low { is_low low ≡ true }
    ensures { result ≡ point high low }
{
    let point = 0x1_0000 + (u32::from(high) - 0xd800) * 0x400 + (u32::from(low) - 0xdc00);
    char::from_u32(point).unwrap()
}

/// Writes the character that begins with the unit, and gives the units behind it.
fn write_character<'u>(
    first: u16,
    behind: &'u [u16],
    out: &mut Vec<char>,
) -> Result<&'u [u16], AllocError>
    ensures text { IfOk result (λ rest. out.new.items ++ characters rest.now ≡ out.old.items ++ characters (first ∷ behind.now)) }
    ensures less { IfOk result (λ rest. length rest.now ≤ length behind.now) }
{
    match behind {
        [low, rest @ ..] if is_high(first) && is_low(*low) => {
            out.push(point(first, *low))?;
            Ok(rest)
        }
        [] | [_, ..] => {
            out.push(alone(first))?;
            Ok(behind)
        }
    }
}

/// Writes the characters of UTF-16 units.
pub fn write_units(units: &[u16], out: &mut Vec<char>) -> Result<(), AllocError>
    ensures { OnOk result (out.new.items ≡ out.old.items ++ characters units.now) }
{
    let mut rest = units;
    while let [first, behind @ ..] = rest {
        rest = write_character(*first, behind, out)?;
    }
    Ok(())
}
