//! The numbers of 32 and 64 bits, their arithmetic, comparisons and texts, and the bytes of a text that is put.
//! Both the meaning of programs and the machine stand on it.
//!
//! A number is given by its bits: a `u32` is an `Int` and a `u64` is a `Long`, in two's complement (JVMS 2.3.1).
//! Nothing here allocates.
#![tactic(auto)]

mod arithmetic;
mod comparison;
mod conversion;
mod decimal;
mod division;
mod encoded;
mod shift;

pub use arithmetic::{Arithmetic, int_computed, int_negated, long_computed, long_negated};
pub use comparison::{Comparison, int_compared, long_order};
pub use conversion::{Conversion, int_converted, narrowed, widened};
pub use decimal::Decimal;
pub use division::{Division, int_divided, long_divided};
pub use encoded::{Encoded, encode};
pub use shift::{Shift, int_shifted, long_shifted};
