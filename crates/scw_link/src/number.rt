//! Numbers of classes, methods, fields and the like, which a program holds in 32 bits.

ghost use Rattle.std.specs.Prelude.{◌≡◌, ◌+◌, IfOk};

use scw_text::NoMemory;

/// A number in 32 bits. A larger one would count more things than memory holds.
pub fn narrow(n: usize) -> Result<u32, NoMemory>
    ensures { IfOk result (λ k. k ≡ n) }
{
    if n <= 0xffff_ffff {
        Ok(n as u32)
    } else {
        Err(NoMemory)
    }
}

/// The sum of two counts, which memory can hold.
pub fn sum(a: usize, b: usize) -> Result<usize, NoMemory>
    ensures { IfOk result (λ n. n ≡ a + b) }
{
    match a.checked_add(b) {
        Some(n) => Ok(n),
        None => Err(NoMemory),
    }
}
