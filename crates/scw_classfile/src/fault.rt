//! Why bytes are no class file, and where.

ghost use Rattle.std.specs.Prelude.{◌≡◌};
ghost use Rattle.scw_classfile.specs.Codec.{fault_in, or_flaw};
ghost use Rattle.scw_classfile.specs.Gives.{Gives};

use crate::class_rule::ClassRule;
use scw_text::NoMemory;
use std::alloc::AllocError;

/// Which rule a class file breaks, and where.
#[derive(Clone, Copy, Debug, PartialEq, Eq)]
pub struct ClassRefusal {
    /// The number of the rule, by `ClassRule::number`.
    pub rule: u8,
    /// How many bytes stand before the fault.
    pub place: u32,
}

/// Why a class file isn't read.
#[derive(Clone, Copy, Debug, PartialEq, Eq)]
pub enum ClassFault {
    /// The bytes break a rule.
    Bad(ClassRefusal),
    /// Memory ran out.
    NoMemory,
}

impl From<AllocError> for ClassFault {
    ghost use Rattle.scw_classfile.specs.declared.fault.ClassFault.TheVariants as class_fault;

    ghost from_gives = { λ _ e. e ≡ class_fault.NoMemory };

    fn from(_: AllocError) -> ClassFault {
        ClassFault::NoMemory
    }
}

/// Which rule is broken, and how many bytes are left from there on.
#[derive(Clone, Copy, Debug, PartialEq, Eq)]
pub struct Fault {
    pub rule: ClassRule,
    pub left: usize,
}

/// Which rule the content of a part breaks, and how many bytes of the part stand before the fault.
#[derive(Clone, Copy, Debug, PartialEq, Eq)]
pub struct Flaw {
    pub rule: ClassRule,
    pub after: usize,
}

/// Why a reader of a part gives no value.
#[derive(Clone, Copy, Debug, PartialEq, Eq)]
pub enum ReadFault {
    Broken(Fault),
    NoMemory,
}

impl From<AllocError> for ReadFault {
    ghost use Rattle.scw_classfile.specs.declared.fault.ReadFault.TheVariants as read_fault;

    ghost from_gives = { λ _ e. e ≡ read_fault.NoMemory };

    fn from(_: AllocError) -> ReadFault {
        ReadFault::NoMemory
    }
}

impl Flaw {
    /// The fault of a part that begins where so many bytes are left.
    pub fn in_part(self, left: usize) -> Fault
        ensures { result ≡ fault_in left self }
    {
        Fault {
            rule: self.rule,
            left: left.saturating_sub(self.after),
        }
    }
}

/// A part that was read, and the bytes after it, unless it has a flaw.
pub fn judged<T: Drop>(
    part: T,
    rest: &[u8],
    left: usize,
    flaw: Option<Flaw>,
) -> Result<(T, &[u8]), ReadFault>
    ensures { Gives (λ x. (x.0, x.1.now)) result (or_flaw (part, rest.now) left flaw) }
{
    match flaw {
        None => Ok((part, rest)),
        Some(flaw) => Err(ReadFault::Broken(flaw.in_part(left))),
    }
}

impl From<NoMemory> for ReadFault {
    ghost use Rattle.scw_classfile.specs.declared.fault.ReadFault.TheVariants as read_fault;

    ghost from_gives = { λ _ e. e ≡ read_fault.NoMemory };

    fn from(_: NoMemory) -> ReadFault {
        ReadFault::NoMemory
    }
}
