//! The heap of the machine that runs class files (JVMS 2.5.3): objects, strings and arrays in one reserved arena.
//!
//! It gives out room until there is none, and collects no garbage. It knows no class: a kind is a number.
#![tactic(auto)]

mod cell;
mod field;
mod header;
mod heap;
mod kind;

pub use heap::{Full, Heap};
pub use kind::{Kind, Ref, Word, units_of};
