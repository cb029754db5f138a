//! Types a source of the small language, one object with loops and calls, and makes its core program.
//!
//! A source is read by `scw_reader`; its names, types and scopes are judged here. It knows nothing of class files.
#![tactic(auto)]

mod method;
mod names;
mod program;
mod rule;
mod scope;
mod state;
mod symbol;
mod typed;
mod typing;

pub use program::{read_program, typed_program};
