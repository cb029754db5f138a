//! Comparisons of signed numbers: SLS 12.2.1, JVMS 6.5 `if_icmp<cond>` and `lcmp`.

ghost use Rattle.std.specs.Prelude.{◌≡◌};
ghost use Rattle.std.specs.Int.{w32, w64};
ghost use Rattle.scw_value.specs.Number.{compared, order};

/// A question about two numbers.
#[derive(Clone, Copy, Debug, PartialEq, Eq)]
pub enum Comparison {
    /// `==`
    Equal,
    /// `!=`
    NotEqual,
    /// `<`
    Less,
    /// `>=`
    GreaterOrEqual,
    /// `>`
    Greater,
    /// `<=`
    LessOrEqual,
}

/// Whether the comparison holds of two `Int`s.
#[inline]
pub fn int_compared(c: Comparison, a: u32, b: u32) -> bool
    ensures { result ≡ compared w32 c a b }
{
    let left = a.cast_signed();
    let right = b.cast_signed();
    match c {
        Comparison::Equal => left == right,
        Comparison::NotEqual => left != right,
        Comparison::Less => left < right,
        Comparison::GreaterOrEqual => left >= right,
        Comparison::Greater => left > right,
        Comparison::LessOrEqual => left <= right,
    }
}

/// The `Int` -1, 0 or 1 where the first `Long` is below, equal to or above the second.
#[inline]
pub fn long_order(a: u64, b: u64) -> u32
    ensures { result ≡ order w64 a b }
{
    let left = a.cast_signed();
    let right = b.cast_signed();
    if left < right {
        u32::MAX
    } else if right < left {
        1
    } else {
        0
    }
}
