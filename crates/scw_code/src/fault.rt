//! Why bytes are no code.

use std::alloc::AllocError;

/// Why bytes are no list of instructions; places count bytes from the start of the code, and one above
/// the greatest `u32` is given as that.
#[derive(Clone, Copy, Debug, PartialEq, Eq)]
pub enum CodeFault {
    /// No instruction begins with this byte, or none goes on with it after `wide` (JVMS 6.5).
    BadOpcode { place: u32, byte: u8 },
    /// The switch at this place has padding that isn't zero, a high bound below its low one, a
    /// negative count, or keys that don't rise (JVMS 6.5, `tableswitch` and `lookupswitch`).
    BadSwitch { place: u32 },
    /// The bytes end at this place, inside an instruction.
    Cut { place: u32 },
    /// Memory ran out.
    NoMemory,
}

impl From<AllocError> for CodeFault {
    ghost use Rattle.std.specs.Prelude.{◌≡◌};
    ghost use Rattle.scw_code.specs.declared.fault.CodeFault.TheVariants as code_fault;

    ghost from_gives = { λ _ e. e ≡ code_fault.NoMemory };

    fn from(_: AllocError) -> CodeFault {
        CodeFault::NoMemory
    }
}

/// Why a reader of a part gives no value.
#[derive(Clone, Copy, Debug, PartialEq, Eq)]
pub enum ReadFault {
    /// The bytes are no value.
    Broken(CodeFault),
    /// Memory ran out.
    NoMemory,
}

impl From<AllocError> for ReadFault {
    ghost use Rattle.std.specs.Prelude.{◌≡◌};
    ghost use Rattle.scw_code.specs.declared.fault.ReadFault.TheVariants as read_fault;

    ghost from_gives = { λ _ e. e ≡ read_fault.NoMemory };

    fn from(_: AllocError) -> ReadFault {
        ReadFault::NoMemory
    }
}
