//! Entries of the constant pool: JVMS 4.4.

use scw_text::Units;

/// An entry of the constant pool (JVMS 4.4).
#[derive(Debug, Drop)]
pub enum PoolEntry {
    /// `CONSTANT_Utf8` (JVMS 4.4.7): a text, in UTF-16 units.
    Utf8(Units),
    /// `CONSTANT_Integer` (JVMS 4.4.4), by its bits.
    Integer(u32),
    /// `CONSTANT_Float` (JVMS 4.4.4), by its bits.
    Float(u32),
    /// `CONSTANT_Long` (JVMS 4.4.5), by its bits. A `Second` follows it.
    Long(u64),
    /// `CONSTANT_Double` (JVMS 4.4.5), by its bits. A `Second` follows it.
    Double(u64),
    /// `CONSTANT_Class` (JVMS 4.4.1): the index of the name.
    Class(u16),
    /// `CONSTANT_String` (JVMS 4.4.3): the index of the text.
    Str(u16),
    /// `CONSTANT_MethodType` (JVMS 4.4.9): the index of the descriptor.
    MethodType(u16),
    /// `CONSTANT_Fieldref` (JVMS 4.4.2): the class, then the name and type.
    Fieldref(u16, u16),
    /// `CONSTANT_Methodref` (JVMS 4.4.2): the class, then the name and type.
    Methodref(u16, u16),
    /// `CONSTANT_InterfaceMethodref` (JVMS 4.4.2): the class, then the name and type.
    InterfaceMethodref(u16, u16),
    /// `CONSTANT_NameAndType` (JVMS 4.4.6): the name, then the descriptor.
    NameAndType(u16, u16),
    /// `CONSTANT_InvokeDynamic` (JVMS 4.4.10): the bootstrap method, then the name and type.
    InvokeDynamic(u16, u16),
    /// `CONSTANT_MethodHandle` (JVMS 4.4.8): the kind from 1 to 9, then the field or method.
    MethodHandle(u8, u16),
    /// The second place of a `Long` or a `Double`, which has no bytes of its own (JVMS 4.4.5).
    Second,
}

/// What a text can stand for, where that matters to the format.
#[derive(Clone, Copy, Debug, PartialEq, Eq)]
pub enum TextKind {
    /// The descriptor of a field whose type isn't an array (JVMS 4.3.2).
    Field,
    /// The descriptor of a field of an array type (JVMS 4.3.2).
    Array,
    /// A text that begins with `[` and is no descriptor.
    NoArray,
    /// The descriptor of a method (JVMS 4.3.3).
    Method,
    /// `Code`, the name of the attribute (JVMS 4.7.3).
    Code,
    /// `java/lang/Object`, the name of the class without a superclass (JVMS 4.1).
    Object,
    /// Any other.
    Plain,
}

/// What is asked of a pool entry where an index of it stands: its tag, and for some the index behind it.
#[derive(Clone, Copy, Debug, PartialEq, Eq)]
pub enum EntryKind {
    Utf8(TextKind),
    Integer,
    Float,
    Long,
    Double,
    /// With the index of the name.
    Class(u16),
    Str,
    MethodType,
    Fieldref,
    Methodref,
    InterfaceMethodref,
    /// With the index of the descriptor.
    NameAndType(u16),
    InvokeDynamic,
    MethodHandle,
    Second,
}
