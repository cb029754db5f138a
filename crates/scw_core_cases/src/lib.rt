//! Core programs that no source of the small language has: the code that `generate` gives them, or why it gives none, and the
//! method that a program begins with.
//!
//! It has tests alone: in the crates that they call, the code of these would be proved a second time.
#![tactic(auto)]

#[cfg(test)]
mod code;
#[cfg(test)]
mod main_method;
#[cfg(test)]
mod program;
#[cfg(test)]
mod tree;
