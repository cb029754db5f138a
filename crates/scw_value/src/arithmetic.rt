//! Sums, differences, products and the operators on bits: SLS 12.2.1, JVMS 6.5 `iadd` to `lxor`.

ghost use Rattle.std.specs.Prelude.{◌≡◌};
ghost use Rattle.std.specs.Int.{w32, w64};
ghost use Rattle.scw_value.specs.Number.{computed, negated};

/// An operator of two numbers that answers for all of them.
#[derive(Clone, Copy, Debug, PartialEq, Eq)]
pub enum Arithmetic {
    /// `+`
    Add,
    /// `-`
    Subtract,
    /// `*`
    Multiply,
    /// `&`
    And,
    /// `|`
    Or,
    /// `^`
    Xor,
}

/// What the operator makes of two `Int`s.
#[inline]
pub fn int_computed(op: Arithmetic, a: u32, b: u32) -> u32
    ensures { result ≡ computed w32 op a b }
{
    match op {
        Arithmetic::Add => a.wrapping_add(b),
        Arithmetic::Subtract => a.wrapping_sub(b),
        Arithmetic::Multiply => a.wrapping_mul(b),
        Arithmetic::And => a & b,
        Arithmetic::Or => a | b,
        Arithmetic::Xor => a ^ b,
    }
}

/// What the operator makes of two `Long`s.
#[inline]
pub fn long_computed(op: Arithmetic, left: u64, right: u64) -> u64
    ensures { result ≡ computed w64 op left right }
{
    match op {
        Arithmetic::Add => left.wrapping_add(right),
        Arithmetic::Subtract => left.wrapping_sub(right),
        Arithmetic::Multiply => left.wrapping_mul(right),
        Arithmetic::And => left & right,
        Arithmetic::Or => left | right,
        Arithmetic::Xor => left ^ right,
    }
}

/// The `Int` with the other sign; the least one is its own.
#[inline]
pub fn int_negated(a: u32) -> u32
    ensures { result ≡ negated w32 a }
{
    0u32.wrapping_sub(a)
}

/// The `Long` with the other sign; the least one is its own.
#[inline]
pub fn long_negated(a: u64) -> u64
    ensures { result ≡ negated w64 a }
{
    0u64.wrapping_sub(a)
}
