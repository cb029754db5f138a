//! Shifts: SLS 12.2.1, JVMS 6.5 `ishl` to `lushr`. The count is the low 5 bits of the second operand, or the low 6 for a `Long`.

ghost use Rattle.std.specs.Prelude.{◌≡◌};
ghost use Rattle.std.specs.Int.{w32, w64};
ghost use Rattle.scw_value.specs.Number.{shifted};

/// A shift.
#[derive(Clone, Copy, Debug, PartialEq, Eq)]
pub enum Shift {
    /// `<<`
    Left,
    /// `>>`, which keeps the sign
    Right,
    /// `>>>`
    UnsignedRight,
}

/// The `Int`, shifted.
#[inline]
pub fn int_shifted(op: Shift, a: u32, by: u32) -> u32
    ensures { result ≡ shifted w32 op a by }
{
    let count = by % 32;
    match op {
        Shift::Left => a << count,
        Shift::Right => (a.cast_signed() >> count).cast_unsigned(),
        Shift::UnsignedRight => a >> count,
    }
}

/// The `Long`, shifted.
#[inline]
pub fn long_shifted(op: Shift, a: u64, by: u32) -> u64
    ensures { result ≡ shifted w64 op a by }
{
    let count = by % 64;
    match op {
        Shift::Left => a << count,
        Shift::Right => (a.cast_signed() >> count).cast_unsigned(),
        Shift::UnsignedRight => a >> count,
    }
}
