//! Instructions before they have their place in a pool (JVMS 6.5).
//!
//! A way of a jump counts bytes from its opcode. Ways that don't fit 16 bits stand as the largest number that does: no code
//! that is short enough for a class has one.

ghost use Rattle.std.specs.Prelude.{◌≡◌, ◌+◌, ◌-◌, ◌^◌, min};
ghost use Rattle.scw_gen.specs.Instr as spec;

use crate::kind::Word;
use scw_core::{TextId, Width};
use scw_text::SymId;
use scw_value::{Arithmetic, Comparison, Division};

/// A constant that `ldc` loads.
#[derive(Clone, Copy, Debug, PartialEq, Eq)]
pub enum Constant {
    /// A number by its bits.
    Int(u32),
    /// A text of the program.
    Text(TextId),
}

/// A method of the machine's own classes.
#[derive(Clone, Copy, Debug, PartialEq, Eq)]
pub enum BuiltIn {
    /// Puts a text: static, of `scalaw/rt/Run`.
    Print,
    /// Joins two texts: static, of `scalaw/rt/Run`.
    Concat,
    /// The value of `Unit`: static, of `scalaw/rt/Run`.
    Unit,
    /// The box of a `Boolean`: static, of `scalaw/rt/Run`.
    BoxBoolean,
    /// The box of an `Int`: static, of `scalaw/rt/Run`.
    BoxInt,
    /// The box of a `Long`: static, of `scalaw/rt/Run`.
    BoxLong,
    /// The text of an object: of `java/lang/Object`.
    ToString,
}

/// What a branch compares.
#[derive(Clone, Copy, Debug, PartialEq, Eq)]
pub enum Compared {
    /// A number with 0.
    Zero,
    /// Two numbers.
    Two,
}

/// An instruction.
#[derive(Clone, Copy, Debug, PartialEq, Eq)]
pub enum Instr {
    /// `iconst_<i>`, `bipush` or `sipush`: a number of 16 bits.
    Number(i32),
    /// `ldc`
    Constant(Constant),
    /// `ldc_w`
    WideConstant(Constant),
    /// `lconst_0` or `lconst_1`
    LongBit(bool),
    /// `ldc2_w`: a number by its bits.
    LongConstant(u64),
    /// `iload`, `lload` or `aload`
    Load(Word, u16),
    /// `istore`, `lstore` or `astore`
    Store(Word, u16),
    /// `iadd` and the like
    Arithmetic(Width, Arithmetic),
    /// `idiv` and the like
    Division(Width, Division),
    /// `lcmp`
    CompareLongs,
    /// `pop`
    Pop,
    /// `pop2`
    PopTwo,
    /// `dup`
    Dup,
    /// `ifeq` or `if_icmpeq`, and the like, with a way forward
    Branch(Compared, Comparison, u16),
    /// `goto` with a way forward
    Goto(u16),
    /// `goto_w` with a way forward
    FarGoto(u16),
    /// `goto` with a way back
    Back(u16),
    /// `goto_w` with a way back
    FarBack(u16),
    /// `ireturn`, `lreturn` or `areturn`
    Return(Word),
    /// `return`
    ReturnNothing,
    /// `invokevirtual` of a method of the class itself
    Call(SymId),
    /// `invokestatic` or `invokevirtual` of a method of the machine's own
    CallBuiltIn(BuiltIn),
    /// `invokespecial` of the constructor of `java/lang/Object`
    InitObject,
    /// `invokespecial` of the constructor of the class itself
    InitThis,
    /// `new` of the class itself
    New,
}

/// The sum, or the largest number of 16 bits.
pub(crate) fn plus(a: u16, b: u16) -> u16
    ensures { result ≡ spec.plus a b }
{
    a.saturating_add(b)
}

fn number_size(n: i32) -> u64
    ensures { result ≡ spec.number_size n }
{
    if -1 <= n && n <= 5 {
        return 1;
    }
    if -128 <= n && n <= 127 { 2 } else { 3 }
}

/// How many bytes a load or a store takes, by the local variable.
fn slot_size(n: u16) -> u64
    ensures { result ≡ spec.slot_size n }
{
    if n <= 3 {
        return 1;
    }
    if n <= 255 { 2 } else { 4 }
}

impl Instr {
    /// How many bytes it takes.
    pub(crate) fn size(self) -> u64
        ensures { result ≡ spec.size_of self }
    {
        match self {
            Instr::Number(n) => number_size(n),
            Instr::Load(_, n) | Instr::Store(_, n) => slot_size(n),
            Instr::LongBit(_)
            | Instr::Arithmetic(..)
            | Instr::Division(..)
            | Instr::CompareLongs
            | Instr::Pop
            | Instr::PopTwo
            | Instr::Dup
            | Instr::Return(_)
            | Instr::ReturnNothing => 1,
            Instr::Constant(_) => 2,
            Instr::WideConstant(_)
            | Instr::LongConstant(_)
            | Instr::Branch(..)
            | Instr::Goto(_)
            | Instr::Back(_)
            | Instr::Call(_)
            | Instr::CallBuiltIn(_)
            | Instr::InitObject
            | Instr::InitThis
            | Instr::New => 3,
            Instr::FarGoto(_) | Instr::FarBack(_) => 5,
        }
    }
}

/// How many bytes the instructions take, or the largest number of 64 bits.
#[tactic(auto, unfolding(crate::specs::Instr::bytes_of))]
pub(crate) fn bytes_of(instrs: &[Instr]) -> u64
    ensures { result ≡ min (spec.bytes_of instrs.now) (2 ^ 64 - 1) }
{
    let mut bytes: u64 = 0;
    for instr in instrs {
        bytes = bytes.saturating_add(instr.size());
    }
    bytes
}

/// The same, or the largest number of 16 bits.
#[tactic(auto, unfolding(crate::specs::Instr::room_of))]
pub(crate) fn room_of(instrs: &[Instr]) -> u16
    ensures { result ≡ spec.room_of instrs.now }
{
    let bytes = bytes_of(instrs);
    if bytes < 65_535 { bytes as u16 } else { 65_535 }
}
