//! The heap itself.

ghost use Rattle.std.specs.Prelude.{◌≡◌, ◌+◌, ◌-◌, ◌*◌, ◌^◌, ◌<◌, ◌≤◌, [], ◌∷◌, ◌++◌, ◌↔◌, true, false, length, slice_index, replicate, is_some, IfOk, OnOk, OnErr, IsErr, IfSome, IsSome, IsTrue, IsFalse};
ghost use Rattle.std.specs.Vec.{vec_capacity, vec_len};
ghost use Rattle.scw_heap.specs.Heap.{can_have, limit_of, object_at, units_of, used, with_word, within, words_at, zeroed};
ghost use Rattle.scw_heap.specs.Layout.{code_of};

use crate::cell::Cell;
use crate::field::{field, with_field};
use crate::header::{Header, code_of};
use crate::kind::{Kind, Ref, Word, units_of};
use scw_text::NoMemory;
use std::alloc::Global;
use std::marker::Model;

/// There is no room for the object.
#[derive(Clone, Copy, Debug, PartialEq, Eq)]
pub struct Full;

/// Objects in an arena of units of 16 bytes.
#[derive(Drop)]
pub struct Heap {
    words: Vec<u64>,
    /// A flag for each unit in use: whether an object begins there.
    starts: Vec<bool>,
    units: u32,
}

impl Model for Heap {
    ghost use Rattle.std.specs.Prelude.{Some};
    ghost use Rattle.std.specs.Vec.{vec_capacity};
    ghost use Rattle.scw_heap.specs.Heap.{Content};
    ghost use Rattle.scw_heap.specs.Layout.{IsMarked, IsSound, objects_of};

    ghost Value = { Content };

    ghost view = { λ h. record { objects = objects_of h.words.items; units = Some h.units } };

    ghost invariant = { λ h. IsSound h.words.items h.units (vec_capacity h.words) × IsMarked (objects_of h.words.items) h.starts.items h.units (vec_capacity h.starts) };
}

impl Heap {
    /// A heap without objects. Only this call takes memory.
    ///
    /// # Errors
    ///
    /// `NoMemory` where memory runs out.
    pub fn new(alloc: Global, units: u32) -> Result<Heap, NoMemory>
        ensures { IfOk result (λ heap. heap ≡ record { objects = []; units = Some units }) }
    {
        let words = Vec::with_capacity(alloc, 2 * units as usize)?;
        let starts = Vec::with_capacity(alloc, units as usize)?;
        Ok(Heap {
            words,
            starts,
            units,
        })
    }

    /// The units in use.
    pub fn used(&self) -> u32
        ensures value { result ≡ used self.now.objects }
        ensures within { IfSome self.now.units (λ most. result ≤ most) }
    {
        (self.words.len() / 2) as u32
    }

    /// Whether the heap has an object with the number.
    pub fn has(&self, number: u64) -> bool
        ensures value { result ≡ is_some (object_at self.now.objects number) }
        ensures there { IsTrue result ↔ IsSome (object_at self.now.objects number) }
    {
        0 < number && number <= self.starts.len() as u64 && self.starts[number as usize - 1]
    }

    /// The units that are reserved.
    pub fn units(&self) -> u32
        ensures { self.now.units ≡ Some result }
    {
        self.units
    }

    /// Whether an object can have so many words.
    pub fn can_have(&self, words: u64) -> bool
        ensures value { result ≡ can_have self.now.units words }
        ensures within { IsTrue result → words < 2 ^ 32 }
    {
        // It is read for the proof, to which it shows that there is a limit.
        let _limit = self.units;
        words < 0x1_0000_0000
    }

    /// Makes an object of the kind that has so many fields, elements or code units, all of them zero.
    ///
    /// # Errors
    ///
    /// `Full` exactly where the units in use and those that it takes are more than are reserved; the heap is as before then.
    pub fn make(&mut self, kind: Kind, fields: u32) -> Result<Ref, Full>
        ensures ok { OnOk result (self.new ≡ record self.old { objects = self.old.objects ++ zeroed kind fields ∷ [] }) }
        ensures number { IfOk result (λ made. made.0 ≡ 1 + used self.old.objects) }
        ensures made { IfOk result (λ made. object_at self.new.objects made.0 ≡ Some (zeroed kind fields)) }
        ensures full { IsErr result ↔ IsFalse (within self.old.units (used self.old.objects + units_of kind fields)) }
        ensures unchanged { OnErr result (self.new ≡ self.old) }
    {
        let used = self.words.len() as u64 / 2;
        if (self.units as u64) < used + units_of(kind, fields) {
            return Err(Full);
        }
        append(&mut self.words, kind, fields);
        mark(&mut self.starts, units_of(kind, fields));
        Ok(Ref(1 + used))
    }

    /// The word at `i`: a field, an element or a code unit.
    pub fn get(&self, r: Ref, i: u32) -> Word
        requires { i < length (words_at self.now.objects r.0) }
        ensures value { result ≡ slice_index (words_at self.now.objects r.0) i }
        ensures within { IfSome (object_at self.now.objects r.0) (λ object. result < limit_of object.kind) }
    {
        let words = self.words.as_slice();
        let cell = Cell::locate(words, r, i);
        field(words[cell.word], cell.shift, cell.width)
    }

    /// Puts the word at `i`.
    pub fn set(&mut self, r: Ref, i: u32, v: Word)
        requires within { i < length (words_at self.old.objects r.0) }
        requires narrow { IfSome (object_at self.old.objects r.0) (λ object. v < limit_of object.kind) }
        ensures { self.new ≡ record self.old { objects = with_word self.old.objects r.0 i v } }
    {
        let cell = Cell::locate(self.words.as_slice(), r, i);
        let word = with_field(self.words[cell.word], cell.shift, cell.width, v);
        self.words[cell.word] = word;
    }

    /// What the object was made as.
    pub fn kind(&self, r: Ref) -> Kind
        requires { IsSome (object_at self.now.objects r.0) }
        ensures { IfSome (object_at self.now.objects r.0) (λ object. result ≡ object.kind) }
    {
        Header::read(self.words.as_slice(), r).kind
    }

    /// The number of the object's fields, elements or code units.
    pub fn length(&self, r: Ref) -> u32
        requires { IsSome (object_at self.now.objects r.0) }
        ensures { IfSome (object_at self.now.objects r.0) (λ object. result ≡ length object.words) }
    {
        Header::read(self.words.as_slice(), r).length
    }
}

/// Puts the words of a fresh object behind the others. The room is reserved, so that no memory is taken.
fn append(words: &mut Vec<u64>, kind: Kind, fields: u32)
    requires { vec_len words.old + 2 * units_of kind fields ≤ vec_capacity words.old }
    ensures items { words.new.items ≡ words.old.items ++ (code_of kind ∷ fields ∷ replicate (2 * units_of kind fields - 2) 0) }
    ensures capacity { vec_capacity words.old ≤ vec_capacity words.new }
    ensures narrow { code_of kind < 2 ^ 35 }
{
    let end = words.len() + 2 * units_of(kind, fields) as usize;
    words.push(code_of(kind)).unwrap();
    words.push(fields as u64).unwrap();
    words.resize(end, 0).unwrap();
}

/// Puts the flags of a fresh object of so many units behind the others. The room is reserved, so that no memory is taken.
fn mark(starts: &mut Vec<bool>, units: u64)
    requires some { 0 < units }
    requires within { vec_len starts.old + units ≤ vec_capacity starts.old }
    ensures items { starts.new.items ≡ starts.old.items ++ (true ∷ replicate (units - 1) false) }
    ensures capacity { vec_capacity starts.old ≤ vec_capacity starts.new }
{
    let end = starts.len() + units as usize;
    starts.push(true).unwrap();
    starts.resize(end, false).unwrap();
}
