//! The calls of a store or a sink in memory, counted from 1, of which some are to fail.

ghost use Rattle.std.specs.Prelude.{◌≡◌, ◌≤◌, IsTrue, false};
ghost use Rattle.scw_outside.specs.Causes.{Rose};
ghost use Rattle.scw_outside.specs.Calls.{after, fresh, is_over, next_fails, risen};

use sqlite_items::Items;

/// Numbers of calls that are to fail.
pub type Counts = Items<u64>;

/// Which calls fail, and how many calls and faults there were.
#[derive(Debug, Drop)]
pub struct Calls {
    /// The calls that are to fail.
    pub listed: Counts,
    /// How many calls there were.
    pub made: u64,
    /// How many of them failed.
    pub faults: u64,
}

impl Calls {
    /// No call and no fault.
    pub fn new(listed: Counts) -> Calls
        ensures { result ≡ fresh listed }
    {
        Calls {
            listed,
            made: 0,
            faults: 0,
        }
    }

    /// Counts one more call, and answers whether it is to fail.
    pub fn begin(&mut self) -> bool
        ensures fails { result ≡ next_fails self.old }
        ensures counted { self.new ≡ after false self.old }
        ensures over { IsTrue (is_over self.old) → IsTrue (is_over self.new) }
        ensures sure { IsTrue (is_over self.old) → result ≡ false }
    {
        if self.made == u64::MAX {
            return false;
        }
        self.made += 1;
        self.listed.as_slice().contains(&self.made)
    }

    /// Counts one more fault.
    pub fn fail(&mut self)
        ensures counted { self.new ≡ record self.old { faults = risen self.old.faults } }
        ensures rose { Rose self.old.faults self.new.faults }
        ensures later { self.old.faults ≤ self.new.faults }
    {
        self.faults = self.faults.saturating_add(1);
    }
}
