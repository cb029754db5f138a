//! What an object is, and the room that it takes.

ghost use Rattle.std.specs.Prelude.{◌≡◌, ◌≤◌};
ghost use Rattle.scw_heap.specs.Heap.{bytes_of, units_of};

/// The number of an object, one more than the units before it. It is never 0, which stands for null.
#[derive(Clone, Copy, Debug, PartialEq, Eq)]
pub struct Ref(pub u64);

/// The bits of a number, or the number of a reference, 0 being null.
pub type Word = u64;

/// What an object is.
#[derive(Clone, Copy, Debug, PartialEq, Eq)]
pub enum Kind {
    /// An instance of the class with the number; its words are its fields.
    Object(u32),
    /// A string; its words are code units of UTF-16.
    Text,
    /// `boolean[]`
    Booleans,
    /// `char[]`
    Chars,
    /// `int[]`
    Ints,
    /// `long[]`
    Longs,
    /// An array of references, with the number of its element type.
    Refs(u32),
}

impl Kind {
    /// The bytes that one word of such an object takes.
    pub fn bytes(self) -> u64
        ensures value { result ≡ bytes_of self }
        ensures within { result ≤ 8 }
    {
        match self {
            Kind::Booleans => 1,
            Kind::Text | Kind::Chars => 2,
            Kind::Ints => 4,
            Kind::Object(_) | Kind::Longs | Kind::Refs(_) => 8,
        }
    }
}

/// The units of 16 bytes that an object of the kind takes, which has so many fields, elements or code units.
pub fn units_of(kind: Kind, fields: u32) -> u64
    ensures { result ≡ units_of kind fields }
{
    1 + (kind.bytes() * fields as u64 + 15) / 16
}
