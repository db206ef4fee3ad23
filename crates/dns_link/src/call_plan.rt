//! Which calls of an object in memory fail.
ghost use Rattle.std.specs.Prelude.{◌≡◌};
ghost use Rattle.dns_link.specs.Plans.{next_fails, planned, with_call};

use std::marker::Model;

/// Which calls of an object in memory fail.
#[derive(Drop)]
pub(crate) struct CallPlan {
    fails: Vec<u64>,
    made: u64,
}

impl Model for CallPlan {
    ghost use Rattle.dns_link.specs.Plans.{PlanValue};

    ghost Value = { PlanValue };

    ghost view = { λ p. record { fails = p.fails.items; made = p.made } };
}

impl CallPlan {
    /// The calls with these numbers, from 0, fail.
    pub(crate) fn new(fails: Vec<u64>) -> CallPlan
        ensures { result ≡ planned fails.items }
    {
        CallPlan { fails, made: 0 }
    }

    /// Whether the next call fails, which is now made.
    pub(crate) fn make(&mut self) -> bool
        ensures fails { result ≡ next_fails self.old }
        ensures made { self.new ≡ with_call self.old }
    {
        let fails = self.fails.as_slice().contains(&self.made);
        self.made = self.made.saturating_add(1);
        fails
    }
}
