//! Conversions between numbers: SLS 12.2.1, JVMS 6.5 `i2b`, `i2c`, `i2s`, `i2l`, `l2i`.

ghost use Rattle.std.specs.Prelude.{◌≡◌};
ghost use Rattle.scw_value.specs.Number.{converted, widened, narrowed};

/// A conversion of an `Int` to an `Int` that a narrower type can hold.
#[derive(Clone, Copy, Debug, PartialEq, Eq)]
pub enum Conversion {
    /// `toByte`
    IntToByte,
    /// `toChar`
    IntToChar,
    /// `toShort`
    IntToShort,
}

/// The `Int`, converted.
#[inline]
pub fn int_converted(c: Conversion, n: u32) -> u32
    ensures { result ≡ converted c n }
{
    match c {
        Conversion::IntToByte => i32::from(((n % 0x100) as u8).cast_signed()).cast_unsigned(),
        Conversion::IntToChar => n % 0x1_0000,
        Conversion::IntToShort => i32::from(((n % 0x1_0000) as u16).cast_signed()).cast_unsigned(),
    }
}

/// The `Long` of the same number.
#[inline]
pub fn widened(n: u32) -> u64
    ensures { result ≡ widened n }
{
    i64::from(n.cast_signed()).cast_unsigned()
}

/// The `Int` of the low 32 bits.
#[inline]
pub fn narrowed(n: u64) -> u32
    ensures { result ≡ narrowed n }
{
    (n % 0x1_0000_0000) as u32
}
