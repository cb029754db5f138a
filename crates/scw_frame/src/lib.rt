//! Programs whose names are resolved, the frames of a machine that runs one (JVMS 2.6), and the instructions that change
//! a frame and nothing else (JVMS 6.5).
//!
//! It knows no heap: a reference is a number.
#![tactic(auto)]

mod frames;
mod jump;
mod local;
mod number;
mod operand;
mod operation;
mod program;
mod stack;
mod value;

pub use frames::Frames;
pub use jump::{jump_if_ints, jump_if_null, jump_if_same, jump_if_zero, switch};
pub use local::{increment, load, store};
pub use number::{
    Divided, compare_longs, compute_ints, compute_longs, convert, divide_ints, divide_longs,
    narrow, negate_int, negate_long, shift_int, shift_long, widen,
};
pub use operand::{pop, pop_int, pop_long, pop_of, pop_reference, push};
pub use operation::{BuiltIn, Elements, Instruction, Operation, Primitive, StackOperation};
pub use program::{
    Base, Case, Catch, Class, ClassNumber, Guard, Method, MethodNumber, Origin, Program,
    ReferenceType, SelectorNumber, StaticNumber, Switch, SwitchNumber, Target, TextNumber,
    TypeNumber,
};
pub use stack::rearrange;
pub use value::{Value, ValueKind};
