//! The class file of a program, which does what the program does when the machine runs it.
//!
//! A program of a form that has no code yet is refused as not built. It opens no file and runs nothing.
#![tactic(auto)]

mod begin;
mod program_file;

pub use program_file::class_file;
