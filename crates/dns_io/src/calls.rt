//! The calls of an object in memory, of which some are set to fail.
ghost use Rattle.std.specs.Prelude.{◌≡◌, ◌≤◌};
ghost use Rattle.dns_io.specs.Calls.{no_calls, next_fails, with_call};

use std::marker::Model;

#[derive(Drop)]
pub(crate) struct Calls {
    fails: Vec<u64>,
    made: u64,
    faults: u64,
}

impl Model for Calls {
    ghost use Rattle.dns_io.specs.Calls.{CallLog};

    ghost Value = { CallLog };

    ghost view = { λ c. record { fails = c.fails.items; made = c.made; faults = c.faults } };
}

impl Calls {
    // No call was made yet. Those of the given numbers, from 0, will fail.
    pub(crate) fn new(fails: Vec<u64>) -> Calls
        ensures { result ≡ no_calls fails.items }
    {
        Calls {
            fails,
            made: 0,
            faults: 0,
        }
    }

    // Counts a call, and answers whether it fails.
    pub(crate) fn make(&mut self) -> bool
        ensures fails { result ≡ next_fails self.old }
        ensures made { self.new ≡ with_call self.old }
        ensures later { self.old.faults ≤ self.new.faults }
    {
        let fails = self.fails.as_slice().contains(&self.made);
        self.made = self.made.saturating_add(1);
        if fails {
            self.faults = self.faults.saturating_add(1);
        }
        fails
    }
}
