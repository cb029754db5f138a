//! Where an instruction stands, and the faults that are told by it.

ghost use Rattle.std.specs.Prelude.{◌≡◌};
ghost use Rattle.scw_code.specs.Codec.{bad_opcode, bad_switch, bad_widened, cut, place};
ghost use Rattle.scw_code.specs.declared.fault.ReadFault.TheVariants as read_fault;

use crate::fault::{CodeFault, ReadFault};

/// Where an instruction stands in its code.
#[derive(Clone, Copy, Debug, PartialEq, Eq)]
pub struct Site {
    /// The place of the opcode.
    pub at: usize,
    /// The length of the code.
    pub end: usize,
}

/// The number of bytes, as a fault names it.
fn place(bytes: usize) -> u32
    ensures { result ≡ place bytes }
{
    bytes.min(u32::MAX as usize) as u32
}

impl Site {
    /// The code ends inside the instruction.
    pub fn cut(self) -> ReadFault
        ensures { result ≡ read_fault.Broken (cut self) }
    {
        ReadFault::Broken(CodeFault::Cut {
            place: place(self.end),
        })
    }

    /// The instruction is a switch that breaks a rule.
    pub fn bad_switch(self) -> ReadFault
        ensures { result ≡ read_fault.Broken (bad_switch self) }
    {
        ReadFault::Broken(CodeFault::BadSwitch {
            place: place(self.at),
        })
    }

    /// No instruction begins with the byte.
    pub fn bad_opcode(self, byte: u8) -> ReadFault
        ensures { result ≡ read_fault.Broken (bad_opcode byte self) }
    {
        ReadFault::Broken(CodeFault::BadOpcode {
            place: place(self.at),
            byte,
        })
    }

    /// `wide` doesn't go on with the byte.
    pub fn bad_widened(self, byte: u8) -> ReadFault
        ensures { result ≡ read_fault.Broken (bad_widened byte self) }
    {
        ReadFault::Broken(CodeFault::BadOpcode {
            place: place(self.at.saturating_add(1)),
            byte,
        })
    }
}
