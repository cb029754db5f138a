//! A core program made a class file, which is loaded into the machine; and what each answer of the machine says of the
//! program.
//!
//! It opens no file, and it puts nothing: the machine is run by its own calls.
#![tactic(auto)]

mod laws;
mod loading;

pub use laws::runs_do_the_same;
pub use loading::{Loaded, RunFault, load_program};
