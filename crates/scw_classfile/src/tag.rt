//! The tags of pool entries: JVMS table 4.4-A.

ghost use Rattle.std.specs.Prelude.{◌≡◌};
ghost use Rattle.scw_classfile.specs.Pool.{is_wide_tag, tag_named, tag_number};

/// The tag of a pool entry, which has the number of the standard's table.
#[derive(Clone, Copy, Debug, PartialEq, Eq)]
pub enum Tag {
    Utf8 = 1,
    Integer = 3,
    Float = 4,
    Long = 5,
    Double = 6,
    Class = 7,
    Str = 8,
    Fieldref = 9,
    Methodref = 10,
    InterfaceMethodref = 11,
    NameAndType = 12,
    MethodHandle = 15,
    MethodType = 16,
    InvokeDynamic = 18,
}

impl Tag {
    /// The number of the tag.
    pub fn number(self) -> u8
        ensures { result ≡ tag_number self }
    {
        self as u8
    }

    /// The tag with the number.
    pub fn named(number: u8) -> Option<Tag>
        ensures { result ≡ tag_named number }
    {
        match number {
            1 => Some(Tag::Utf8),
            3 => Some(Tag::Integer),
            4 => Some(Tag::Float),
            5 => Some(Tag::Long),
            6 => Some(Tag::Double),
            7 => Some(Tag::Class),
            8 => Some(Tag::Str),
            9 => Some(Tag::Fieldref),
            10 => Some(Tag::Methodref),
            11 => Some(Tag::InterfaceMethodref),
            12 => Some(Tag::NameAndType),
            15 => Some(Tag::MethodHandle),
            16 => Some(Tag::MethodType),
            18 => Some(Tag::InvokeDynamic),
            _ => None,
        }
    }

    /// Whether an entry with the tag takes two places (JVMS 4.4.5).
    pub fn is_wide(self) -> bool
        ensures { result ≡ is_wide_tag self }
    {
        matches!(self, Tag::Long | Tag::Double)
    }
}
