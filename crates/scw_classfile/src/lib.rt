//! Class files: their structures under the JVMS's names, their bytes, and the class of bytes.
//!
//! Bytes are a class, or break a first rule at a place. What the code of a method does isn't known here.
#![tactic(auto)]

mod access_flags;
mod attribute;
mod class;
mod class_file;
mod class_rule;
mod code;
mod code_array;
mod context;
mod descriptor;
mod fault;
mod field;
mod flaw;
mod handler;
mod index;
mod kind;
mod laws;
mod member;
mod number;
mod pool;
mod pool_entry;
mod pool_flaw;
mod tag;

pub use access_flags::AccessFlags;
pub use class::{read_class, write_class};
pub use class_file::{
    AttrBody, Attribute, Attributes, ClassFile, Code, FileOut, Files, Handler, Handlers, Indices,
    MemberInfo, MemberInfos, Pool,
};
pub use class_rule::ClassRule;
pub use descriptor::is_method;
pub use fault::{ClassFault, ClassRefusal};
pub use laws::bytes_tell_the_class;
pub use pool_entry::PoolEntry;
