//! The top call: a source that is compiled and run, and the text of class files.
#![tactic(auto)]

mod answer;
mod error_line;
mod limit;
mod running;
mod show;
mod top;
mod words;

pub use answer::{Answer, Excess, Outcome, Run};
pub use error_line::report;
pub use top::scw_main;
