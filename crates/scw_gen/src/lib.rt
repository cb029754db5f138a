//! The class file of a class of a core program.
//!
//! A class or tree of a form that has no code yet is refused as not built. It opens no file and runs nothing.
#![tactic(auto)]

mod around;
mod built;
mod class_file;
mod emit;
mod encode;
mod excess;
mod failure;
mod fault;
mod instr;
mod kind;
mod method;
mod mode;
mod name;
mod named;
mod opcode;
mod operator;
mod pool;
mod room;
mod scope;
mod typed;
mod typed_op;

pub use class_file::generate;
pub use excess::{Excess, MAX_ARGUMENTS, MAX_POOL, MAX_SHORT};
pub use fault::{GenFault, Large, LargeKind};
pub use instr::{BuiltIn, Compared, Constant, Instr};
pub use kind::{Kind, Word};
pub use mode::Mode;
pub use named::Named;
pub use operator::Form;
pub use pool::MethodName;
pub use scope::Slot;
pub use typed::Known;
