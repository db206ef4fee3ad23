//! A generator that keeps the ids which it draws for one request.
ghost use Rattle.std.specs.Prelude.{◌≡◌, ◌≤◌, [], OnOk};
ghost use Rattle.dns_journal.specs.Entries.{drawn_of};
ghost use Rattle.dns_journal.specs.Replays.{IsDrawKept};

use crate::drawn_ids::{DrawnIds, IdList};
use dns_multiplexer::Draws;
use dns_record::NoMemory;
use std::alloc::Global;

/// So many ids are drawn for a request at most.
const MOST_DRAWS: usize = 100;

/// A generator of ids and ports with room for the ids that are drawn for one request, by which a journal keeps them.
#[derive(Drop)]
pub struct RecordedDraws<R: Draws + Drop> {
    draws: R,
    ids: IdList,
}

impl<R: Draws + Drop> RecordedDraws<R> {
    ghost use Rattle.dns_journal.specs.Calls.{draws_of};

    /// The generator, which has drawn nothing yet. It takes no memory.
    pub fn new(alloc: Global, draws: R) -> RecordedDraws<R>
        ensures { draws_of result ≡ draws }
    {
        RecordedDraws {
            draws,
            ids: IdList::new(alloc),
        }
    }

    /// Begins with another request, for which all ids that may be drawn find room.
    pub(crate) fn begin(&mut self) -> Result<(), NoMemory>
        ensures draws { self.new.draws ≡ self.old.draws }
        ensures none { OnOk result (self.new.ids.ids ≡ []) }
        ensures room { OnOk result (100 ≤ self.new.ids.capacity) }
    {
        self.ids.begin(MOST_DRAWS)
    }

    /// The ids that were drawn since.
    pub(crate) fn take(&mut self) -> DrawnIds
        ensures draws { self.new.draws ≡ self.old.draws }
        ensures ids { drawn_of result ≡ self.old.ids.ids }
    {
        self.ids.take()
    }
}

impl<R: Draws + Drop> Draws for RecordedDraws<R> {
    ghost use Rattle.dns_journal.specs.Replays.{IsDrawKept};

    ghost draws_id = { λ old id new. R.draws_id old.draws id new.draws × IsDrawKept old.ids id new.ids };

    ghost draws_port = { λ old port new. R.draws_port old.draws port new.draws × (new.ids ≡ old.ids) };

    fn id(&mut self) -> u16 {
        let id = self.draws.id();
        self.ids.keep(id);
        id
    }

    fn port(&mut self) -> u16 {
        self.draws.port()
    }
}
