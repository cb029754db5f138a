//! What a class file holds: JVMS 4, with the fields in their order.

use crate::access_flags::AccessFlags;
use crate::pool_entry::PoolEntry;
use scw_code::Instrs;
use scw_text::{Bytes, Text};
use sqlite_items::Items;

/// Places in the pool.
pub type Indices = Items<u16>;

/// The constant pool (JVMS 4.4), whose first entry has index 1.
pub type Pool = Items<PoolEntry>;

/// Fields or methods, in order.
pub type MemberInfos = Items<MemberInfo>;

/// Attributes, in order.
pub type Attributes = Items<Attribute>;

/// Exception handlers, in the order in which they are searched.
pub type Handlers = Items<Handler>;

/// Class files and their names.
pub type Files = Items<FileOut>;

/// An entry of the exception table (JVMS 4.7.3).
#[derive(Clone, Copy, Debug, PartialEq, Eq)]
pub struct Handler {
    /// The first position in the code that it guards.
    pub from: u16,
    /// The position after the last that it guards.
    pub to: u16,
    /// Where the handler's code begins.
    pub at: u16,
    /// The class of the exceptions that it catches, or 0 for all.
    pub class: u16,
}

/// An attribute (JVMS 4.7).
#[cycle(class_tree)]
#[derive(Drop)]
pub struct Attribute {
    /// The index of its name.
    pub name: u16,
    pub body: AttrBody,
}

/// What an attribute holds.
#[cycle(class_tree)]
#[derive(Drop)]
pub enum AttrBody {
    /// The attribute `Code` in a method's own list (JVMS 4.7.3).
    Code(Code),
    /// Any other attribute, as its bytes (JVMS 4.7.1).
    Other(Bytes),
}

/// The code of a method (JVMS 4.7.3).
#[cycle(class_tree)]
#[derive(Drop)]
pub struct Code {
    /// How deep the operand stack gets.
    pub stack: u16,
    /// How many local variables there are.
    pub locals: u16,
    pub code: Instrs,
    pub handlers: Handlers,
    pub attributes: Items<Attribute>,
}

/// A field (JVMS 4.5) or a method (JVMS 4.6).
#[derive(Drop)]
pub struct MemberInfo {
    pub flags: AccessFlags,
    /// The index of the name.
    pub name: u16,
    /// The index of the descriptor.
    pub descriptor: u16,
    pub attributes: Attributes,
}

/// A class file (JVMS 4.1).
#[derive(Drop)]
pub struct ClassFile {
    pub minor: u16,
    pub major: u16,
    pub pool: Pool,
    pub flags: AccessFlags,
    /// The index of the class itself.
    pub this: u16,
    /// The index of its superclass, or 0.
    pub parent: u16,
    pub interfaces: Indices,
    pub fields: MemberInfos,
    pub methods: MemberInfos,
    pub attributes: Attributes,
}

/// The bytes of a class file, and the name of the file.
#[derive(Drop)]
pub struct FileOut {
    pub name: Text,
    pub bytes: Bytes,
}
