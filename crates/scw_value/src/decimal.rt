//! The text of a number: `toString` of SLS 12.2.1.

ghost use Rattle.std.specs.Prelude.{◌≡◌, ◌<◌, ◌≤◌, List, ℕ, length, drop, slice_index, IsAscii};
ghost use Rattle.std.specs.Int.{w32, w64, cast_signed};
ghost use Rattle.scw_value.specs.Text.{number_text};

use std::marker::Model;

// The longest text is that of the least `Long`: 19 digits after the sign.
const MOST: usize = 20;

/// The characters of a number, which stand at the end of the bytes.
#[derive(Drop)]
pub struct Decimal {
    bytes: [u8; MOST],
    start: usize,
}

impl Model for Decimal {
    ghost Value = { List ℕ };

    ghost view = { λ d. drop d.start d.bytes };

    ghost invariant = { λ d. (d.start ≤ 20) × IsAscii (drop d.start d.bytes) };
}

impl Decimal {
    /// The text of an `Int`.
    pub fn of_int(bits: u32) -> Decimal
        ensures { result ≡ number_text (cast_signed w32 bits) }
    {
        Decimal::of_long(crate::widened(bits))
    }

    /// The text of a `Long`.
    pub fn of_long(bits: u64) -> Decimal
        ensures { result ≡ number_text (cast_signed w64 bits) }
    {
        let n = bits.cast_signed();
        let mut bytes = [0; MOST];
        let start = itoa::write_digits(n.unsigned_abs(), &mut bytes, MOST);
        if n < 0 {
            bytes[start - 1] = b'-';
            return Decimal {
                bytes,
                start: start - 1,
            };
        }
        Decimal { bytes, start }
    }

    /// How many characters there are.
    #[inline]
    pub fn len(&self) -> usize
        ensures value { result ≡ length self.now }
        ensures within { result ≤ 20 }
    {
        MOST - self.start
    }

    /// The character at the place.
    #[inline]
    pub fn at(&self, i: usize) -> u8
        requires { i < length self.now }
        ensures value { result ≡ slice_index self.now i }
        ensures ascii { result < 128 }
    {
        self.bytes[self.start + i]
    }
}
