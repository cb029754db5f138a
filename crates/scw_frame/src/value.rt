//! Values of operand stacks, local variables and static fields: JVMS 2.6.1 and 2.6.2.

ghost use Rattle.std.specs.Prelude.{◌≡◌};
ghost use Rattle.scw_frame.specs.Frame.{is_of};

/// A value with its kind. A `Long` is one value, which takes two places on the stack and two local variables.
#[derive(Clone, Copy, Debug, PartialEq, Eq)]
pub enum Value {
    /// A local variable that holds nothing, or the second half of a `Long`.
    Unset,
    /// A number of 32 bits, by its bits.
    Int(u32),
    /// A number of 64 bits, by its bits.
    Long(u64),
    /// An object by its number, or null, which is 0.
    Reference(u64),
}

impl Value {
    /// Whether the value is of the kind.
    pub fn is_of(self, kind: ValueKind) -> bool
        ensures { result ≡ is_of kind self }
    {
        match kind {
            ValueKind::Int => matches!(self, Value::Int(_)),
            ValueKind::Long => matches!(self, Value::Long(_)),
            ValueKind::Reference => matches!(self, Value::Reference(_)),
        }
    }
}

/// What a value can be asked to be.
#[derive(Clone, Copy)]
pub enum ValueKind {
    Int,
    Long,
    Reference,
}
