//! The header of an object: two words, its kind and the number of its words.

ghost use Rattle.std.specs.Prelude.{◌≡◌, ◌+◌, ◌-◌, ◌*◌, ◌<◌, ◌^◌, slice_index};
ghost use Rattle.scw_heap.specs.Heap.{Entity};
ghost use Rattle.scw_heap.specs.Layout.{LiesAt, code_of, kind_of};

use crate::kind::{Kind, Ref};

/// What an object was made as.
#[derive(Clone, Copy)]
pub struct Header {
    pub kind: Kind,
    pub length: u32,
}

impl Header {
    /// The header of the object with the number.
    pub fn read(words: &[u64], r: Ref) -> Header
        requires { (object : Entity) × LiesAt object words.now r.0 }
        ensures kind { result.kind ≡ kind_of (slice_index words.now (2 * (r.0 - 1))) }
        ensures length { result.length ≡ slice_index words.now (2 * (r.0 - 1) + 1) }
    {
        let at = 2 * (r.0 - 1) as usize;
        Header {
            kind: kind_of(words[at]),
            length: words[at + 1] as u32,
        }
    }
}

/// The first word of an object of the kind.
pub fn code_of(kind: Kind) -> u64
    ensures value { result ≡ code_of kind }
    ensures within { result < 2 ^ 35 }
{
    match kind {
        Kind::Object(class) => class as u64 * 8,
        Kind::Text => 1,
        Kind::Booleans => 2,
        Kind::Chars => 3,
        Kind::Ints => 4,
        Kind::Longs => 5,
        Kind::Refs(element) => element as u64 * 8 + 6,
    }
}

/// The kind of an object with the first word.
fn kind_of(code: u64) -> Kind
    requires { code < 2 ^ 35 }
    ensures { result ≡ kind_of code }
{
    let number = (code / 8) as u32;
    match code % 8 {
        0 => Kind::Object(number),
        1 => Kind::Text,
        2 => Kind::Booleans,
        3 => Kind::Chars,
        4 => Kind::Ints,
        5 => Kind::Longs,
        _ => Kind::Refs(number),
    }
}
