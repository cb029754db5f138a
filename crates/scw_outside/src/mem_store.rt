//! A store in memory.

ghost use Rattle.std.specs.Prelude.{◌≡◌, ◌≢◌, IsTrue, IsSome, Err, ◌<◌, List, [], ◌∷◌, ◌++◌, OnOk, OnErr, IfOk, ℕ, IfSome, IfNone, take, length, slice_set};
ghost use Rattle.std.specs.Option.{option_map};
ghost use Rattle.scw_outside.specs.Calls.{after, fresh, is_over, next_fails};
ghost use Rattle.scw_outside.specs.Causes.{HasCause};
ghost use Rattle.scw_outside.specs.Content.{IsFront, with_file};
ghost use Rattle.scw_outside.specs.declared.store.StoreFault.TheVariants.{Failed};
ghost use Rattle.scw_outside.specs.Entries.{held, with_entry};

use crate::calls::{Calls, Counts};
use crate::store::{Store, StoreFault};
use scw_text::{Bytes, Text};
use sqlite_items::Items;
use std::alloc::{AllocError, Global};

/// Names and what they hold: of two entries of one name the first counts.
pub type Entries = Items<(Text, Bytes)>;

/// A store in memory, which tells what it holds. It is calm once no listed call is still to come.
#[derive(Drop)]
pub struct MemStore {
    entries: Entries,
    calls: Calls,
}

impl MemStore {
    ghost use Rattle.scw_outside.specs.StoreView.{entries_of, store_calls};

    /// A store of these entries, whose calls of these numbers fail. Reads and writes are counted
    /// together, from 1.
    pub fn new(entries: Entries, fail: Counts) -> MemStore
        ensures entries { entries_of result ≡ entries }
        ensures calls { store_calls result ≡ fresh fail }
    {
        MemStore {
            entries,
            calls: Calls::new(fail),
        }
    }

    /// The names and what they hold.
    pub fn entries(&self) -> &Entries
        ensures { result.now ≡ entries_of self.now }
    {
        &self.entries
    }
}

impl Store for MemStore {
    ghost use Rattle.std.specs.Prelude.{Some};
    ghost use Rattle.scw_outside.specs.Calls.{is_over};
    ghost use Rattle.scw_outside.specs.Entries.{held};
    ghost use Rattle.scw_outside.specs.StoreView.{entries_of, has_failed, store_calls};

    ghost told = { λ s. Some (held (entries_of s)) };

    ghost is_calm = { λ s. is_over (store_calls s) };

    ghost fault_count = { λ s. (store_calls s).faults };

    fn read(&mut self, alloc: Global, name: &Text, limit: u32) -> Result<Bytes, StoreFault>
        ensures content { IfOk result (λ bytes. IsFront limit (held (entries_of self.old) name.now) bytes) }
        ensures kept { entries_of self.new ≡ entries_of self.old }
        ensures calm { IsTrue (is_over (store_calls self.old)) → IsTrue (is_over (store_calls self.new)) }
        ensures sure { IsTrue (is_over (store_calls self.old)) → IsSome (held (entries_of self.old) name.now) → result ≢ Err Failed }
        ensures cause { HasCause (store_calls self.old).faults (store_calls self.new).faults result Failed }
        ensures listed { IsTrue (next_fails (store_calls self.old)) → result ≡ Err Failed }
        ensures counted { store_calls self.new ≡ after (has_failed result) (store_calls self.old) }
    {
        if self.calls.begin() {
            self.calls.fail();
            return Err(StoreFault::Failed);
        }
        match find(self.entries.as_slice(), name.as_slice()) {
            Some(bytes) => Ok(front(alloc, bytes, limit)?),
            None => {
                self.calls.fail();
                Err(StoreFault::Failed)
            }
        }
    }

    fn write(&mut self, alloc: Global, name: &Text, bytes: &Bytes) -> Result<(), StoreFault>
        ensures written { OnOk result (held (entries_of self.new) ≡ with_file name.now bytes.now (held (entries_of self.old))) }
        ensures kept { OnErr result (entries_of self.new ≡ entries_of self.old) }
        ensures calm { IsTrue (is_over (store_calls self.old)) → IsTrue (is_over (store_calls self.new)) }
        ensures sure { IsTrue (is_over (store_calls self.old)) → result ≢ Err Failed }
        ensures cause { HasCause (store_calls self.old).faults (store_calls self.new).faults result Failed }
        ensures listed { IsTrue (next_fails (store_calls self.old)) → result ≡ Err Failed }
        ensures counted { store_calls self.new ≡ after (has_failed result) (store_calls self.old) }
    {
        if self.calls.begin() {
            self.calls.fail();
            return Err(StoreFault::Failed);
        }
        let name = Items::from_slice(alloc, name.as_slice())?;
        let bytes = Items::from_slice(alloc, bytes.as_slice())?;
        Ok(put_entry(&mut self.entries, name, bytes)?)
    }

    fn faults(&self) -> u64 {
        self.calls.faults
    }
}

/// What the name holds.
fn find<'e>(entries: &'e [(Text, Bytes)], name: &[char]) -> Option<&'e Bytes>
    ensures { option_map (λ b. b.now) result ≡ held entries.now name.now }
{
    for entry in entries {
        if entry.0.as_slice() == name {
            return Some(&entry.1);
        }
    }
    None
}

/// The place of the first entry of the name.
fn place_of(entries: &[(Text, Bytes)], name: &Text) -> Option<usize>
    ensures found { IfSome result (λ i. (i < length entries.now) × ((b : List ℕ) → with_entry name.now b entries.now ≡ slice_set entries.now i (name.now, b))) }
    ensures none { IfNone result ((b : List ℕ) → with_entry name.now b entries.now ≡ entries.now ++ (name.now, b) ∷ []) }
{
    for (i, entry) in entries.iter().enumerate() {
        if entry.0.as_slice() == name.as_slice() {
            return Some(i);
        }
    }
    None
}

/// Replaces what the name holds, or adds it at the end.
fn put_entry(entries: &mut Entries, name: Text, bytes: Bytes) -> Result<(), AllocError>
    ensures ok { OnOk result (entries.new ≡ with_entry name bytes entries.old) }
    ensures err { OnErr result (entries.new ≡ entries.old) }
{
    match place_of(entries.as_slice(), &name) {
        Some(i) => {
            entries.set(i, (name, bytes));
            Ok(())
        }
        None => entries.push((name, bytes)),
    }
}

/// A copy of the first `limit` bytes, or of all.
fn front(alloc: Global, bytes: &Bytes, limit: u32) -> Result<Bytes, AllocError>
    ensures { IfOk result (λ b. b ≡ take limit bytes.now) }
{
    let limit = limit as usize;
    if bytes.len() <= limit {
        Items::from_slice(alloc, bytes.as_slice())
    } else {
        Items::from_slice(alloc, &bytes.as_slice()[..limit])
    }
}
