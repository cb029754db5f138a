//! The core program: the trees that are left after typing, with the classes that they belong to, and what they mean.
//!
//! It knows neither the source's syntax nor class files.
#![tactic(auto)]

mod class;
mod core_type;
mod laws;
mod main_method;
mod operator;
mod plain;
mod program;
pub mod symbol;
mod tree;

pub use class::{
    Access, BodyKind, ClassKind, Classes, CoreClass, Member, MemberKind, Modifiers, OverridePair,
    Parameter,
};
pub use core_type::{CoreType, Erased};
pub use laws::{a_run_goes_on, coming_as_far_is_an_order, likeness_goes_on, sameness_goes_on};
pub use operator::{Literal, Logic, NumericType, Op, Primitive, RunMethod, TextId, Width};
pub use plain::{Path, Plain, PlainParameter};
pub use program::{
    Body, EntryTree, FunctionClass, Head, Implicit, ImplicitTree, MethodId, Prefix, PreludeSymbols,
    Program, SymKind, Table, Template,
};
pub use tree::{Case, CorePat, Local, NodeInfo, Pattern, Tree};
