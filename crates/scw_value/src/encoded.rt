//! The bytes that a text of UTF-16 units is put as, one character after the other.

ghost use Rattle.std.specs.Prelude.{◌≡◌, ◌<◌, ◌≤◌, [], ◌∷◌, take, true};
ghost use Rattle.scw_value.specs.Text.{is_high, is_low, alone, pair, bytes_at, units_at};

/// The bytes of one character, and how many units of the text it takes.
#[derive(Clone, Copy, Debug, PartialEq, Eq)]
pub struct Encoded {
    /// The bytes, of which the first `length` count; the others are 0.
    pub bytes: [u8; 4],
    /// From 1 to 4.
    pub length: usize,
    /// 1, or 2 for a pair of surrogates.
    pub units: usize,
}

#[inline]
fn is_high(unit: u16) -> bool
    ensures { result ≡ is_high unit }
{
    0xd800 <= unit && unit < 0xdc00
}

#[inline]
fn is_low(unit: u16) -> bool
    ensures { result ≡ is_low unit }
{
    0xdc00 <= unit && unit < 0xe000
}

#[inline]
fn of_one(byte: u8) -> Encoded
    ensures { result ≡ record { bytes = byte ∷ 0 ∷ 0 ∷ 0 ∷ []; length = 1; units = 1 } }
{
    Encoded {
        bytes: [byte, 0, 0, 0],
        length: 1,
        units: 1,
    }
}

/// The bytes of a unit that is in no pair.
#[inline]
fn of_unit(unit: u16) -> Encoded
    ensures bytes { take result.length result.bytes ≡ alone unit }
    ensures some { 0 < result.length }
    ensures within { result.length ≤ 4 }
    ensures units { result.units ≡ 1 }
{
    if unit < 0x80 {
        of_one(unit as u8)
    } else if unit < 0x800 {
        Encoded {
            bytes: [(0xc0 + unit / 64) as u8, (0x80 + unit % 64) as u8, 0, 0],
            length: 2,
            units: 1,
        }
    } else if is_high(unit) || is_low(unit) {
        of_one(b'?')
    } else {
        Encoded {
            bytes: [
                (0xe0 + unit / 4096) as u8,
                (0x80 + unit / 64 % 64) as u8,
                (0x80 + unit % 64) as u8,
                0,
            ],
            length: 3,
            units: 1,
        }
    }
}

/// The bytes of a high surrogate and the low one behind it.
#[inline]
fn of_pair(high: u16, low: u16) -> Encoded
    requires high { is_high high ≡ true }
    requires low { is_low low ≡ true }
    ensures { result ≡ record { bytes = pair high low; length = 4; units = 2 } }
{
    let point = 0x1_0000 + (u32::from(high) - 0xd800) * 0x400 + (u32::from(low) - 0xdc00);
    Encoded {
        bytes: [
            (0xf0 + point / 262_144) as u8,
            (0x80 + point / 4096 % 64) as u8,
            (0x80 + point / 64 % 64) as u8,
            (0x80 + point % 64) as u8,
        ],
        length: 4,
        units: 2,
    }
}

/// The character that begins with the unit, given the unit behind it, if there is one.
#[inline]
pub fn encode(first: u16, second: Option<u16>) -> Encoded
    ensures bytes { take result.length result.bytes ≡ bytes_at first second }
    ensures some { 0 < result.length }
    ensures within { result.length ≤ 4 }
    ensures units { result.units ≡ units_at first second }
{
    match second {
        Some(low) if is_high(first) && is_low(low) => of_pair(first, low),
        Some(_) | None => of_unit(first),
    }
}
