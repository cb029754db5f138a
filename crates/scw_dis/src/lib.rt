//! The text of a class file: its members, its code with the names that indices lead to, and its other attributes by
//! name and length.
//!
//! It judges nothing: what leads nowhere has no text.
#![tactic(auto)]

mod attribute;
mod characters;
mod class;
mod code;
mod entry;
mod instruction;
mod member;
mod mnemonic;
mod operand;

pub use class::dis;
