//! A store of files by name.

ghost use Rattle.std.specs.Prelude.{◌≡◌, ◌≢◌, ℕ, Bool, IsTrue, Option, IfOk, OnOk, OnErr, Err};
ghost use Rattle.std.specs.Option.{option_map};
ghost use Rattle.scw_outside.specs.Causes.{HasCause};
ghost use Rattle.scw_outside.specs.Content.{Files, Reads, HasName, with_file};
ghost use Rattle.scw_outside.specs.declared.store.StoreFault.TheVariants.{Failed};

use scw_text::{Bytes, Text};
use std::alloc::{AllocError, Global};

/// Why a call of a store did nothing.
#[derive(Clone, Copy, Debug, PartialEq, Eq)]
pub enum StoreFault {
    /// The store failed, or has no such name. The count of faults rose.
    Failed,
    /// Memory ran out.
    NoMemory,
}

impl From<AllocError> for StoreFault {
    ghost use Rattle.scw_outside.specs.declared.store.StoreFault.TheVariants.{NoMemory};

    ghost from_gives = { λ _ e. e ≡ NoMemory };

    fn from(_: AllocError) -> Self {
        StoreFault::NoMemory
    }
}

/// Files by name, which are read and replaced whole.
pub trait Store {
    /// What the names hold, where the store tells it.
    ghost told: { Self → Option Files };

    /// Whether writes, and reads of names that are there, never fail.
    ghost is_calm: { Self → Bool };

    /// How often a call has failed.
    ghost fault_count: { Self → ℕ };

    /// The first `limit` bytes of what the name holds, or all where it holds no more. `Failed` where
    /// the name isn't there or the store fails, and `NoMemory` where there is none for the bytes.
    fn read(&mut self, alloc: Global, name: &Text, limit: u32) -> Result<Bytes, StoreFault>
        ensures content { IfOk result (λ bytes. Reads (told self.old) name.now limit bytes) }
        ensures kept { told self.new ≡ told self.old }
        ensures calm { IsTrue (is_calm self.old) → IsTrue (is_calm self.new) }
        ensures sure { IsTrue (is_calm self.old) → HasName (told self.old) name.now → result ≢ Err Failed }
        ensures cause { HasCause (fault_count self.old) (fault_count self.new) result Failed };

    /// Replaces what the name holds, or adds the name. `Failed` where the store fails, and `NoMemory`
    /// where there is none for the bytes; then nothing is replaced.
    fn write(&mut self, alloc: Global, name: &Text, bytes: &Bytes) -> Result<(), StoreFault>
        ensures written { OnOk result (told self.new ≡ option_map (with_file name.now bytes.now) (told self.old)) }
        ensures kept { OnErr result (told self.new ≡ told self.old) }
        ensures calm { IsTrue (is_calm self.old) → IsTrue (is_calm self.new) }
        ensures sure { IsTrue (is_calm self.old) → result ≢ Err Failed }
        ensures cause { HasCause (fault_count self.old) (fault_count self.new) result Failed };

    /// How often a call has failed. It stays at its last value.
    fn faults(&self) -> u64
        ensures { result ≡ fault_count self.now };
}
