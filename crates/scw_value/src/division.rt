//! Quotients and remainders: SLS 12.2.1, JVMS 6.5 `idiv`, `irem`, `ldiv`, `lrem`.

ghost use Rattle.std.specs.Prelude.{◌≡◌, ◌<◌};
ghost use Rattle.std.specs.Int.{w32, w64};
ghost use Rattle.scw_value.specs.Number.{divided};

/// An operator of two numbers that has no answer where the second is 0.
#[derive(Clone, Copy, Debug, PartialEq, Eq)]
pub enum Division {
    /// `/`
    Divide,
    /// `%`
    Remainder,
}

/// What the operator makes of two `Int`s.
#[inline]
pub fn int_divided(op: Division, a: u32, b: u32) -> u32
    requires { 0 < b }
    ensures { result ≡ divided w32 op a b }
{
    let dividend = a.cast_signed();
    let divisor = b.cast_signed();
    match op {
        Division::Divide => dividend.wrapping_div(divisor).cast_unsigned(),
        Division::Remainder => dividend.wrapping_rem(divisor).cast_unsigned(),
    }
}

/// What the operator makes of two `Long`s.
#[inline]
pub fn long_divided(op: Division, left: u64, right: u64) -> u64
    requires { 0 < right }
    ensures { result ≡ divided w64 op left right }
{
    let left = left.cast_signed();
    let right = right.cast_signed();
    match op {
        Division::Divide => left.wrapping_div(right).cast_unsigned(),
        Division::Remainder => left.wrapping_rem(right).cast_unsigned(),
    }
}
