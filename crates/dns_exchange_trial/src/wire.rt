//! Messages on their way, in no order.

use dns_multiplexer::{Draws, RandDraws};
use dns_record::NoMemory;
use std::alloc::Global;
use std::sync::atomic::{AtomicU64, Ordering};
use std::sync::{Mutex, Wait};
use std::thread;

/// So often one looks at most.
pub(crate) const TRIES: u64 = 100_000_000;

/// The ids of messages on their way, and how many responses were handed over.
#[derive(Drop)]
pub(crate) struct Wire {
    ids: Mutex<Vec<u16>>,
    handed: AtomicU64,
}

impl Wire {
    /// Nothing is on its way.
    pub(crate) fn new(alloc: Global) -> Wire {
        Wire {
            ids: Mutex::new(Vec::new(alloc)),
            handed: AtomicU64::new(0),
        }
    }

    /// A message goes out.
    pub(crate) fn put<W: Wait>(&self, rt: &W, id: u16) -> Result<(), NoMemory> {
        let mut ids = self.ids.lock(rt);
        ids.push(id)?;
        Ok(())
    }

    /// One of the messages on their way, whichever.
    pub(crate) fn take<W: Wait>(&self, rt: &W, random: &mut RandDraws) -> Option<u16> {
        let mut ids = self.ids.lock(rt);
        let ids = &mut *ids;
        let len = ids.len();
        if len == 0 {
            return None;
        }
        Some(ids.swap_remove(usize::from(random.id()) % len))
    }

    /// So many responses were handed over.
    pub(crate) fn tell(&self, count: u64) {
        self.handed.store(count, Ordering::SeqCst);
    }

    /// How many were handed over.
    pub(crate) fn handed(&self) -> u64 {
        self.handed.load(Ordering::SeqCst)
    }

    /// The same, once they are more than so many.
    pub(crate) fn more_than(&self, count: u64) -> u64 {
        for _ in 0..TRIES {
            let found = self.handed();
            if found > count {
                return found;
            }
            thread::yield_now();
        }
        count
    }
}
