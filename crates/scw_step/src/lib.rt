//! One step of the machine: what each instruction does to frames, heap and static fields (JVMS 2.5, 2.6 and 6.5).
//!
//! No file is read here, and nothing is put.
#![tactic(auto)]

mod array;
mod built_in;
mod call;
mod cast;
mod class;
mod creation;
mod event;
mod field;
mod instruction;
mod new_text;
mod object;
mod object_method;
mod raise;
mod returns;
mod run_method;
mod same;
mod state;
mod stop;
mod string_method;
mod subtype;
mod text;
mod throwable;
mod unwind;

pub use event::Event;
pub use instruction::step;
pub use state::State;
pub use stop::{Fault, Stop};
