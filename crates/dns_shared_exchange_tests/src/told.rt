//! A word that one thread stores and others load.
ghost use Rattle.std.specs.Prelude.{◌≡◌};

use atomic_table::{Play, Table, TableRule};
use std::alloc::Global;
use std::process::Abort;

/// Any number may stand in the word, and a step tells nothing of it.
pub(crate) struct AnyNumber {}

impl TableRule<(), (), ()> for AnyNumber {
    ghost holds = { λ _ _. Unit {0} };

    ghost first = { λ _. tt };
}

impl Play<(), ()> for AnyNumber {
    ghost then = { λ _ _ _ _. Unit {0} };
}

/// A table of one word.
#[derive(Drop)]
pub(crate) struct Told {
    table: Table<(), (), (), AnyNumber, Global>,
    ghost one: { table.shared.table_id.words ≡ 1 },
}

impl Told {
    /// The word is 0.
    pub(crate) fn new(rt: &impl Abort, alloc: Global) -> Told {
        let made = Table::<(), (), (), AnyNumber, Global>::of_words(alloc, &[0], &());
        let (table, _) = made.expect(rt, "memory");
        Told { table }
    }

    pub(crate) fn store(&self, number: u64) {
        let _ = self.table.shared.swap_new_seat::<AnyNumber>(0, number);
    }

    pub(crate) fn load(&self) -> u64 {
        self.table.shared.peek(0)
    }
}
