//! Names, each with what it stands for.

ghost use Rattle.std.specs.Prelude.{◌≡◌, ◌∷◌, ◌++◌, [], length, take, Some, None};
ghost use Rattle.std.specs.Option.{option_copied};
ghost use Rattle.scw_reader.specs.Outcome.{Gives};
ghost use Rattle.scw_small.specs.Step as spec;
ghost use Rattle.scw_small.specs.NameView.{names_of, Adds};

use indexmap::IndexMap;
use scw_reader::Failure;
use std::alloc::Global;

/// Names in the order in which they were added, each with what it stands for.
#[derive(Drop)]
pub(crate) struct Names<V> {
    /// What each stands for, by its bytes.
    pub entries: IndexMap<Vec<u8>, V>,
}

impl<V> Names<V> {
    /// No names.
    pub fn new(alloc: Global) -> Names<V>
        ensures { names_of result ≡ [] }
    {
        Names {
            entries: IndexMap::new(alloc),
        }
    }

    /// How many there are.
    pub fn len(&self) -> usize
        ensures { result ≡ length (names_of self.now) }
    {
        self.entries.len()
    }

    /// What the name stands for.
    #[tactic(auto, using(crate::proofs::NameLemmas::find_seen))]
    pub fn find(&self, name: &[u8]) -> Option<&V>
        ensures { option_copied result ≡ spec.find_name name.now (names_of self.now) }
    {
        self.entries.get(name)
    }
}

impl<V: Drop> Names<V> {
    /// One more name, which isn't there.
    fn insert(&mut self, key: Vec<u8>, value: V) -> Result<(), Failure>
        requires { spec.find_name key.items (names_of self.old) ≡ None }
        ensures { Adds (Some (names_of self.old ++ (key.items, value) ∷ [])) result (names_of self.new) }
    {
        self.entries.insert(key, value)?;
        Ok(())
    }

    /// One more name, if it isn't there.
    ///
    /// # Errors
    ///
    /// `Other` where it is there, `NoMemory` where memory runs out.
    pub fn add(&mut self, alloc: Global, name: &[u8], value: V) -> Result<(), Failure>
        ensures { Adds (spec.add_name name.now value (names_of self.old)) result (names_of self.new) }
    {
        if self.find(name).is_some() {
            return Err(Failure::Other);
        }
        let key = Vec::from_slice(alloc, name)?;
        self.insert(key, value)
    }

    /// Only the first so many names are left.
    pub fn truncate(&mut self, len: usize)
        ensures { names_of self.new ≡ take len (names_of self.old) }
    {
        self.entries.truncate(len);
    }
}
