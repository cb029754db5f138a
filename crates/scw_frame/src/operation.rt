//! Instructions with their names resolved: JVMS 6.5.

use crate::program::{
    ClassNumber, MethodNumber, SelectorNumber, StaticNumber, SwitchNumber, Target, TextNumber,
    TypeNumber,
};
use crate::value::{Value, ValueKind};
use scw_value::{Arithmetic, Comparison, Conversion, Division, Shift};

/// A primitive type that has boxes and arrays.
#[derive(Clone, Copy)]
pub enum Primitive {
    Boolean,
    Char,
    Int,
    Long,
}

/// What an instruction does to the top of the operand stack alone.
#[derive(Clone, Copy)]
pub enum StackOperation {
    Pop,
    PopTwo,
    Duplicate,
    DuplicateBelowOne,
    DuplicateBelowTwo,
    DuplicateTwo,
    DuplicateTwoBelowOne,
    DuplicateTwoBelowTwo,
    Swap,
}

/// The elements of an array.
#[derive(Clone, Copy)]
pub enum Elements {
    Primitive(Primitive),
    References,
}

/// A method of the machine's own.
#[derive(Clone, Copy)]
pub enum BuiltIn {
    /// `java/lang/Object.<init>()V`
    ObjectInit,
    /// `java/lang/Object.equals(Ljava/lang/Object;)Z`
    Equals,
    /// `java/lang/Object.toString()Ljava/lang/String;`
    ToString,
    /// `java/lang/String.length()I`
    StringLength,
    /// `java/lang/String.charAt(I)C`
    StringCharAt,
    /// `java/lang/String.substring(II)Ljava/lang/String;`
    Substring,
    /// `java/lang/String.isEmpty()Z`
    StringIsEmpty,
    /// `java/lang/String.compareTo(Ljava/lang/String;)I`
    CompareTo,
    /// `<init>()V` of `java/lang/Throwable` and of each exception class
    ThrowableInit,
    /// `<init>(Ljava/lang/String;)V` of the same
    ThrowableInitMessage,
    /// `java/lang/Throwable.getMessage()Ljava/lang/String;`
    GetMessage,
    /// `java/lang/Throwable.toString()Ljava/lang/String;`
    ThrowableToString,
    /// `scalaw/rt/Run.print(Ljava/lang/String;)V`
    Print,
    /// `scalaw/rt/Run.concat(Ljava/lang/String;Ljava/lang/String;)Ljava/lang/String;`
    Concat,
    /// `scalaw/rt/Run.unit()Lscalaw/rt/Unit;`
    Unit,
    /// `scalaw/rt/Run.box`
    Box(Primitive),
    /// `scalaw/rt/Run.unbox`
    Unbox(Primitive),
    /// `scalaw/rt/Run.same(Ljava/lang/Object;Ljava/lang/Object;)I`
    Same,
}

/// What an instruction does.
#[derive(Clone, Copy)]
pub enum Operation {
    /// Nothing is defined: no instruction begins here, or it is one that the machine doesn't have.
    Undefined,
    /// `nop`
    Nothing,
    /// A constant.
    Push(Value),
    /// A string constant, which is made anew.
    PushText(TextNumber),
    /// A local variable.
    Load(ValueKind, u16),
    Store(ValueKind, u16),
    /// `iinc`, with the bits of its constant.
    Increment(u16, u32),
    LoadElement(Elements),
    StoreElement(Elements),
    Stack(StackOperation),
    IntArithmetic(Arithmetic),
    LongArithmetic(Arithmetic),
    IntDivision(Division),
    LongDivision(Division),
    IntShift(Shift),
    LongShift(Shift),
    IntNegate,
    LongNegate,
    /// `i2b`, `i2c` and `i2s`.
    Convert(Conversion),
    /// `i2l`
    Widen,
    /// `l2i`
    Narrow,
    /// `lcmp`
    CompareLongs,
    /// `goto` and `goto_w`
    Jump(u16),
    /// A jump where a number compares so with 0.
    JumpIfZero(Comparison, u16),
    /// A jump where two numbers compare so.
    JumpIfInts(Comparison, u16),
    /// A jump where two references are the same, or where they aren't.
    JumpIfSame(bool, u16),
    /// A jump where a reference is null, or where it isn't.
    JumpIfNull(bool, u16),
    Switch(SwitchNumber),
    Return,
    ReturnValue(ValueKind),
    GetStatic(StaticNumber),
    PutStatic(StaticNumber),
    /// The field at this place of an instance of the class.
    GetField {
        class: ClassNumber,
        field: u32,
        kind: ValueKind,
    },
    PutField {
        class: ClassNumber,
        field: u32,
        kind: ValueKind,
    },
    CallStatic(Target),
    /// `invokespecial`, on an object.
    CallSpecial(Target),
    /// `invokevirtual` and `invokeinterface`.
    CallVirtual(SelectorNumber),
    New(ClassNumber),
    /// `newarray`
    NewNumbers(Primitive),
    /// `anewarray`, with the type of the elements.
    NewReferences(TypeNumber),
    ArrayLength,
    Throw,
    CheckCast(TypeNumber),
    InstanceOf(TypeNumber),
}

/// An instruction, and the place behind it.
#[derive(Clone, Copy)]
pub struct Instruction {
    pub operation: Operation,
    pub next: u16,
}
