//! Where a word of an object lies.

ghost use Rattle.std.specs.Prelude.{◌≡◌, ◌+◌, ◌-◌, ◌*◌, ◌<◌, length, slice_index};
ghost use Rattle.scw_heap.specs.Heap.{Entity};
ghost use Rattle.scw_heap.specs.Layout.{LiesAt, cell_of, kind_of, shift_of, width_of};

use crate::header::Header;
use crate::kind::{Kind, Ref};

/// Some bits of a word of the arena.
#[derive(Clone, Copy)]
pub struct Cell {
    pub word: usize,
    pub shift: u32,
    pub width: u32,
}

impl Cell {
    /// The bits of the element at `i`, in the words behind the header.
    fn new(kind: Kind, i: u32) -> Cell
        ensures word { result.word ≡ cell_of kind i }
        ensures shift { result.shift ≡ shift_of kind i }
        ensures width { result.width ≡ width_of kind }
    {
        let at = kind.bytes() * i as u64;
        Cell {
            word: (at / 8) as usize,
            shift: 8 * (at % 8) as u32,
            width: 8 * kind.bytes() as u32,
        }
    }

    /// The bits of the element at `i` of the object with the number.
    pub fn locate(words: &[u64], r: Ref, i: u32) -> Cell
        requires { (object : Entity) × LiesAt object words.now r.0 × (i < length object.words) }
        ensures word { result.word ≡ 2 * (r.0 - 1) + 2 + cell_of (kind_of (slice_index words.now (2 * (r.0 - 1)))) i }
        ensures shift { result.shift ≡ shift_of (kind_of (slice_index words.now (2 * (r.0 - 1)))) i }
        ensures width { result.width ≡ width_of (kind_of (slice_index words.now (2 * (r.0 - 1)))) }
        ensures within { result.word < length words.now }
    {
        let cell = Cell::new(Header::read(words, r).kind, i);
        Cell {
            word: 2 * (r.0 - 1) as usize + 2 + cell.word,
            ..cell
        }
    }
}
