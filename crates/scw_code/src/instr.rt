//! Instructions: JVMS 6.5.

ghost use Rattle.std.specs.Prelude.{◌≡◌};
ghost use Rattle.scw_code.specs.Layout.{count, first, second, third};

use sqlite_items::{Boxed, Items};

/// Instructions, in order.
pub type Instrs = Items<Instr>;

/// Up to three numbers, in the order of the standard's "Format". The constants of `bipush`, `sipush` and
/// `iinc` and the distances of jumps have a sign; every other number is from 0.
#[derive(Clone, Copy, Debug, PartialEq, Eq)]
pub enum Numbers {
    Zero,
    One(i32),
    Two(i32, i32),
    Three(i32, i32, i32),
}

impl Numbers {
    /// How many numbers there are.
    pub fn len(self) -> usize
        ensures { result ≡ count self }
    {
        match self {
            Numbers::Zero => 0,
            Numbers::One(_) => 1,
            Numbers::Two(_, _) => 2,
            Numbers::Three(_, _, _) => 3,
        }
    }

    /// The first number, or 0 if there is none.
    pub fn first(self) -> i32
        ensures { result ≡ first self }
    {
        match self {
            Numbers::Zero => 0,
            Numbers::One(a) | Numbers::Two(a, _) | Numbers::Three(a, _, _) => a,
        }
    }

    /// The second number, or 0 if there is none.
    pub fn second(self) -> i32
        ensures { result ≡ second self }
    {
        match self {
            Numbers::Zero | Numbers::One(_) => 0,
            Numbers::Two(_, b) | Numbers::Three(_, b, _) => b,
        }
    }

    /// The third number, or 0 if there is none.
    pub fn third(self) -> i32
        ensures { result ≡ third self }
    {
        match self {
            Numbers::Zero | Numbers::One(_) | Numbers::Two(_, _) => 0,
            Numbers::Three(_, _, c) => c,
        }
    }
}

/// The operands of `tableswitch`; a distance counts bytes from the opcode.
#[derive(Debug, Drop)]
pub struct TableSwitch {
    pub default: i32,
    pub low: i32,
    pub high: i32,
    /// The distances of the numbers from `low` to `high`, in order.
    pub jumps: Items<i32>,
}

/// The operands of `lookupswitch`; a distance counts bytes from the opcode.
#[derive(Debug, Drop)]
pub struct LookupSwitch {
    pub default: i32,
    /// Pairs of a key and a distance; the keys rise.
    pub pairs: Items<(i32, i32)>,
}

/// What stands behind an opcode.
#[derive(Debug, Drop)]
pub enum InstrArgs {
    /// The operands of most instructions, the count of `invokeinterface` and the zeros behind it and
    /// behind `invokedynamic` among them.
    Plain(Numbers),
    /// Those of `tableswitch`.
    Table(Boxed<TableSwitch>),
    /// Those of `lookupswitch`.
    Lookup(Boxed<LookupSwitch>),
    /// Those of `wide`: a load, a store or `ret` with its local variable, or `iinc` with its local
    /// variable and its constant.
    Wide { op: u8, args: Numbers },
}

/// An instruction.
#[derive(Debug, Drop)]
pub struct Instr {
    /// The opcode, which is a place in `FORMS`.
    pub op: u8,
    /// The operands, which are those of the opcode's form.
    pub args: InstrArgs,
}
