//! The rules that a class file can break.

ghost use Rattle.std.specs.Prelude.{◌≡◌};
ghost use Rattle.scw_classfile.specs.ClassRule.{number_of};

/// Why bytes are no class file, or a class file is refused.
#[derive(Clone, Copy, Debug, PartialEq, Eq)]
pub enum ClassRule {
    /// The bytes end before a part that must follow is whole.
    Cut,
    /// The first four bytes aren't `cafebabe` (JVMS 4.1).
    Magic,
    /// The major version isn't accepted (JVMS 4.1).
    Version,
    /// The pool's count is 0, or an entry's tag isn't in the list (JVMS 4.1, 4.4).
    Tag,
    /// A pool index isn't of an entry of the kind that stands there (JVMS 4.4).
    Index,
    /// The bytes of a text aren't modified UTF-8 (JVMS 4.4.7).
    Utf8,
    /// A descriptor isn't of its form (JVMS 4.3).
    Descriptor,
    /// An attribute of known form doesn't end at its stated length (JVMS 4.7).
    AttributeLength,
    /// Code is empty, too long, or isn't a list of instructions (JVMS 4.7.3, 4.9.1).
    Code,
    /// Bytes follow the class (JVMS 4.8).
    Trailing,
    /// A form that the machine leaves out.
    Unsupported,
    /// The file is too long.
    TooLong,
    /// A class or member that is named isn't there.
    Missing,
    /// A class or member is there twice.
    Twice,
    /// No instruction can go on.
    Stuck,
}

impl ClassRule {
    /// The rule's number, as a message shows it.
    pub fn number(self) -> u8
        ensures { result ≡ number_of self }
    {
        match self {
            ClassRule::Cut => 1,
            ClassRule::Magic => 2,
            ClassRule::Version => 3,
            ClassRule::Tag => 4,
            ClassRule::Index => 5,
            ClassRule::Utf8 => 6,
            ClassRule::Descriptor => 7,
            ClassRule::AttributeLength => 8,
            ClassRule::Code => 9,
            ClassRule::Trailing => 10,
            ClassRule::Unsupported => 11,
            ClassRule::TooLong => 12,
            ClassRule::Missing => 13,
            ClassRule::Twice => 14,
            ClassRule::Stuck => 15,
        }
    }
}
