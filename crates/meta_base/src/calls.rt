ghost use Rattle.std.specs.Prelude.{◌≡◌, ◌≤◌, [], ◌==◌};
ghost use Rattle.std.specs.List.{list_any};
ghost use Rattle.meta_base.specs.Count.{raised, HasRisen};

use crate::{Failed, List};

/// The calls of an object in memory: how many there were, which of them fail, and how many did.
#[derive(Debug, Drop)]
pub struct Calls {
    failing: List<u64>,
    made: u64,
    faults: u64,
}

impl Calls {
    /// No call was made yet. Calls are numbered from 0, and those whose numbers are in `failing` fail.
    pub fn new(failing: List<u64>) -> Calls
        ensures { result ≡ record { failing = failing; made = 0; faults = 0 } }
    {
        Calls {
            failing,
            made: 0,
            faults: 0,
        }
    }

    /// Counts a call, and says whether it is to fail.
    pub fn count(&mut self) -> bool
        ensures fails { result ≡ list_any (λ n. n == self.old.made) self.old.failing }
        ensures made { self.new.made ≡ raised self.old.made 1 }
        ensures failing { self.new.failing ≡ self.old.failing }
        ensures faults { self.new.faults ≡ self.old.faults }
    {
        let call = self.made;
        self.made = call.saturating_add(1);
        self.failing.as_slice().contains(&call)
    }

    /// How many calls failed.
    pub fn faults(&self) -> u64
        ensures { result ≡ self.now.faults }
    {
        self.faults
    }

    /// Counts a fault.
    pub fn fault(&mut self) -> Failed
        ensures made { self.new.made ≡ self.old.made }
        ensures failing { self.new.failing ≡ self.old.failing }
        ensures faults { self.new.faults ≡ raised self.old.faults 1 }
        ensures kept { self.old.faults ≤ self.new.faults }
        ensures risen { HasRisen self.old.faults self.new.faults }
    {
        self.faults = self.faults.saturating_add(1);
        Failed
    }
}
