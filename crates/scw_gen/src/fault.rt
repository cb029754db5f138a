//! Why a class has no file.

use crate::failure::Failure;
use scw_text::Text;
use std::alloc::AllocError;

/// What of a class doesn't fit a class file (JVMS 4.11).
#[derive(Clone, Copy, Debug, PartialEq, Eq)]
pub enum LargeKind {
    /// The bytes of a method's code, at most 65,535.
    Code,
    /// The entries of the pool, at most 65,534.
    Pool,
    /// The fields, at most 65,535. No class has any yet.
    Fields,
    /// The methods, at most 65,535.
    Methods,
    /// The slots of a method's parameters, at most 255; those of its locals, at most 65,535; the words of its stack, as many.
    Slots,
    /// The interfaces, at most 65,535. No class has any yet.
    Interfaces,
    /// The exception handlers of a method, at most 65,535. No method has any yet.
    Handlers,
    /// The stack map frames of a method, at most 65,535. No method has any yet.
    Frames,
    /// The bytes of a text in the pool, as a descriptor, a name or a literal, at most 65,535.
    Descriptor,
}

/// What of a class doesn't fit.
#[derive(Debug, Drop)]
pub struct Large {
    /// The binary name of the class.
    pub class: Text,
    pub kind: LargeKind,
    /// How many there are.
    pub number: u64,
}

/// Why a class has no file.
#[derive(Debug, Drop)]
pub enum GenFault {
    /// A part doesn't fit.
    TooLarge(Large),
    /// The class, or a tree of it, is of a form that has no code yet.
    NotBuilt,
    /// Memory ran out.
    NoMemory,
}

impl From<AllocError> for GenFault {
    ghost use Rattle.std.specs.Prelude.{◌≡◌};
    ghost use Rattle.scw_gen.specs.declared.fault.GenFault.TheVariants as fault;

    ghost from_gives = { λ _ e. e ≡ fault.NoMemory };

    fn from(_: AllocError) -> GenFault {
        GenFault::NoMemory
    }
}

impl From<Failure> for GenFault {
    ghost use Rattle.std.specs.Prelude.{◌≡◌};
    ghost use Rattle.scw_gen.specs.Fault.{fault_of};

    ghost from_gives = { λ f e. e ≡ fault_of f };

    fn from(failure: Failure) -> GenFault {
        match failure {
            Failure::Other => GenFault::NotBuilt,
            Failure::NoMemory => GenFault::NoMemory,
        }
    }
}
