//! Random numbers by a seed.
ghost use Rattle.std.specs.Prelude.{◌<◌};

/// A row of numbers: each follows from the one before it (a linear congruence).
#[derive(Drop)]
pub(crate) struct Random {
    state: u64,
}

impl Random {
    /// One seed gives one row.
    pub(crate) fn from_seed(seed: u64) -> Random {
        Random { state: seed }
    }

    /// The next number below a bound, and 0 where nothing is below it.
    pub(crate) fn below(&mut self, bound: u64) -> u64
        ensures { 0 < bound → result < bound }
    {
        if bound == 0 {
            return 0;
        }
        self.state = self
            .state
            .wrapping_mul(6_364_136_223_846_793_005)
            .wrapping_add(1_442_695_040_888_963_407);
        (self.state >> 33) % bound
    }

    /// One of some choices; `None` where there is none.
    pub(crate) fn one_of<T: Copy>(&mut self, choices: &[T]) -> Option<T> {
        let number = self.below(choices.len() as u64);
        choices.get(number as usize).copied()
    }
}
