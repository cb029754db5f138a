//! The machine that runs class files (JVMS 2): a program is loaded, and its steps are done one after another.
#![tactic(auto)]

mod end;
mod loading;
mod machine;
mod output;
mod row;
mod tell;

pub use end::{End, Place, Turn};
pub use loading::{LoadFault, load};
pub use machine::Machine;
pub use output::Output;
