//! Few ids, so that live ones are often drawn.
use dns_multiplexer::{Draws, RandDraws};

/// Draws ids from 0 up to the greatest alone. Where that is 3, live ids are often drawn.
#[derive(Drop)]
pub(crate) struct FewIds {
    random: RandDraws,
    /// One less than a power of 2.
    greatest: u16,
}

impl FewIds {
    /// From one seed the ids are the same.
    pub(crate) fn from_seed(seed: u64, greatest: u16) -> FewIds {
        FewIds {
            random: RandDraws::from_seed(seed),
            greatest,
        }
    }
}

impl Draws for FewIds {
    ghost use Rattle.std.specs.Prelude.{⊤};

    ghost draws_id = { λ _ _ _. ⊤ };

    ghost draws_port = { λ _ _ _. ⊤ };

    fn id(&mut self) -> u16 {
        self.random.id() & self.greatest
    }

    fn port(&mut self) -> u16 {
        self.random.port()
    }
}
