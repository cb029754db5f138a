//! The loader of the machine: from class files to a program whose names are resolved (JVMS 5.3 to 5.4).
#![tactic(auto)]

mod ancestors;
mod built_in_class;
mod built_in_method;
mod calls;
mod classes;
mod code;
mod descriptor;
mod launch;
mod laws;
mod linking;
mod meaning;
mod members;
mod methods;
mod names;
mod number;
mod numbers;
mod pools;
mod resolve;
mod selectors;
mod site;
mod sizes;
mod types;
mod units;

pub use launch::has_main;
pub use laws::sizes_are_those_of_the_bytes;
pub use linking::link;
