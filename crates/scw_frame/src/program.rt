//! A program whose names are resolved: classes, methods, fields, types and texts by number (JVMS 5.4).

use crate::operation::{BuiltIn, Instruction, Primitive};
use crate::value::ValueKind;
use scw_text::Units;
use sqlite_items::Items;

/// The place of a class in its program.
#[derive(Clone, Copy)]
pub struct ClassNumber(pub u32);

/// The place of a method in its program.
#[derive(Clone, Copy)]
pub struct MethodNumber(pub u32);

/// The place of a name and descriptor that virtual calls select by.
#[derive(Clone, Copy)]
pub struct SelectorNumber(pub u32);

/// The place of a reference type.
#[derive(Clone, Copy)]
pub struct TypeNumber(pub u32);

/// The place of a static field.
#[derive(Clone, Copy)]
pub struct StaticNumber(pub u32);

/// The place of a text.
#[derive(Clone, Copy)]
pub struct TextNumber(pub u32);

/// The place of a switch.
#[derive(Clone, Copy)]
pub struct SwitchNumber(pub u32);

/// What a call runs.
#[derive(Clone, Copy)]
pub enum Target {
    /// A method with code.
    Code(MethodNumber),
    /// A method of the machine's own.
    BuiltIn(BuiltIn),
}

/// A class or an interface.
#[derive(Drop)]
pub struct Class {
    /// The binary name, with `/` (JVMS 4.2.1).
    pub name: Units,
    /// How many fields an instance has, those of its superclasses first.
    pub fields: u32,
    /// For each class of the program, whether this one is it, extends it or implements it (JVMS 4.10.1.2).
    pub ancestors: Items<bool>,
    /// For each selector, the method that a virtual call runs on an instance (JVMS 6.5, `invokevirtual`).
    pub targets: Items<Option<Target>>,
}

/// What an array has in the end, below all its dimensions.
#[derive(Clone, Copy)]
pub enum Base {
    Class(ClassNumber),
    /// A primitive type that arrays are made of.
    Primitive(Primitive),
    /// `byte`, `short`, `float` or `double`, by its character in descriptors. No array of it is ever made.
    Other(u8),
}

/// A reference type: a class, which has no dimensions, or an array type (JVMS 2.4).
#[derive(Clone, Copy)]
pub struct ReferenceType {
    pub dimensions: u32,
    pub base: Base,
}

/// A key and where a switch goes on at it.
#[derive(Clone, Copy)]
pub struct Case {
    /// The number's bits.
    pub key: u32,
    pub target: u16,
}

/// A switch (JVMS 6.5, `tableswitch` and `lookupswitch`).
#[derive(Drop)]
pub enum Switch {
    /// Where it goes on for the numbers from `low`, by its bits, and else at `default`.
    Table {
        default: u16,
        low: u32,
        targets: Items<u16>,
    },
    /// Where it goes on for each key, and else at `default`. The keys rise.
    Lookup {
        default: u16,
        cases: Items<Case>,
    },
}

/// What a handler catches.
#[derive(Clone, Copy)]
pub enum Catch {
    /// Every exception.
    All,
    /// Those of a class and of its subclasses.
    Class(ClassNumber),
    /// None: its class isn't of the program.
    Nothing,
}

/// An exception handler (JVMS 2.10).
#[derive(Clone, Copy)]
pub struct Guard {
    /// The first place that it guards.
    pub from: u16,
    /// The place after the last that it guards.
    pub to: u16,
    /// Where its code begins.
    pub at: u16,
    pub catch: Catch,
}

/// Where a method with code stands in the files.
#[derive(Clone, Copy)]
pub struct Origin {
    /// The number of the file.
    pub file: u32,
    /// The number of the method in the file.
    pub method: u32,
    /// The byte of the file at which the code begins.
    pub start: u32,
}

/// A method with code (JVMS 4.6 and 4.7.3).
#[derive(Drop)]
pub struct Method {
    pub origin: Origin,
    /// The kinds of its arguments, the object's first in an instance method.
    pub arguments: Items<ValueKind>,
    /// How many places the operand stack has.
    pub stack: u16,
    /// How many local variables there are.
    pub locals: u16,
    /// For each byte of the code, the instruction that begins there.
    pub code: Items<Instruction>,
    /// The handlers, in the order in which they are searched.
    pub guards: Items<Guard>,
}

/// A program whose names are resolved. The classes of the machine's own come first, in the order of `built_in_class`.
#[derive(Drop)]
pub struct Program {
    pub classes: Items<Class>,
    pub methods: Items<Method>,
    /// For each selector, the kinds of the arguments, the object's first.
    pub selectors: Items<Items<ValueKind>>,
    pub types: Items<ReferenceType>,
    pub texts: Items<Units>,
    pub switches: Items<Switch>,
    /// The kinds of the static fields.
    pub statics: Items<ValueKind>,
}
