//! The ids that are drawn for one request.
ghost use Rattle.std.specs.Prelude.{◌≡◌, ◌≤◌, ◌<◌, ◌∷◌, ◌++◌, [], length, OnOk};
ghost use Rattle.dns_journal.specs.Entries.{drawn_of};

use dns_record::NoMemory;
use std::alloc::Global;
use std::marker::Model;
use std::mem;

/// The ids that were drawn for a request: one, unless it had to be drawn again.
pub(crate) enum DrawnIds {
    Nothing,
    One(u16),
    Many(Vec<u16>),
}

// By hand, so that a function that drops one calls this.
impl Drop for DrawnIds {
    fn drop(self) {
        match self {
            DrawnIds::Nothing => {}
            DrawnIds::One(_) => {}
            DrawnIds::Many(_) => {}
        }
    }
}

/// Ids as they are drawn. Contracts see them with how many there is memory for.
#[derive(Drop)]
pub(crate) struct IdList {
    ids: Vec<u16>,
}

impl Model for IdList {
    ghost use Rattle.std.specs.Prelude.{vec_capacity};
    ghost use Rattle.dns_journal.specs.Replays.{IdListValue};

    ghost Value = { IdListValue };

    ghost view = { λ l. record { ids = l.ids.items; capacity = vec_capacity l.ids } };
}

impl IdList {
    /// No id, which takes no memory.
    pub(crate) fn new(alloc: Global) -> IdList
        ensures { result.ids ≡ [] }
    {
        IdList {
            ids: Vec::new(alloc),
        }
    }

    /// No id again, with memory for so many.
    pub(crate) fn begin(&mut self, most: usize) -> Result<(), NoMemory>
        ensures none { OnOk result (self.new.ids ≡ []) }
        ensures room { OnOk result (most ≤ self.new.capacity) }
    {
        self.ids.clear();
        self.ids.reserve(most)?;
        Ok(())
    }

    /// Keeps an id that was drawn, where there is memory for it.
    pub(crate) fn keep(&mut self, id: u16)
        ensures { length self.old.ids < self.old.capacity
            → self.new ≡ record self.old { ids = self.old.ids ++ id ∷ [] } }
    {
        if self.ids.len() < self.ids.capacity() {
            self.ids.push_reserved(id);
        }
    }

    /// The ids by themselves.
    pub(crate) fn take(&mut self) -> DrawnIds
        ensures { drawn_of result ≡ self.old.ids }
    {
        if self.ids.len() > 1 {
            let none = Vec::new(*self.ids.allocator());
            return DrawnIds::Many(mem::replace(&mut self.ids, none));
        }
        match self.ids.first() {
            None => DrawnIds::Nothing,
            Some(id) => DrawnIds::One(*id),
        }
    }
}
