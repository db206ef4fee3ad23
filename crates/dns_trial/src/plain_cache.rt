//! A cache as one would write it with a list of numbers alone.
ghost use Rattle.std.specs.Prelude.{◌<◌, length, IfSome};

use dns_record::NoMemory;
use std::alloc::Global;

/// What is kept for the key with a number.
#[derive(Clone, Copy)]
struct PlainEntry {
    number: usize,
    expires: u64,
    value: u32,
}

/// The entries, the most recently used first, and how often one was given.
#[derive(Drop)]
pub(crate) struct Plain {
    entries: Vec<PlainEntry>,
    capacity: usize,
    hits: u64,
}

// Where the entry of a number stands.
fn place_of(entries: &[PlainEntry], number: usize) -> Option<usize>
    ensures { IfSome result (λ place. place < length entries.now) }
{
    for place in 0..entries.len() {
        if entries[place].number == number {
            return Some(place);
        }
    }
    None
}

impl Plain {
    /// A list without entries.
    pub(crate) fn new(alloc: Global, capacity: usize) -> Plain {
        Plain {
            entries: Vec::new(alloc),
            capacity,
            hits: 0,
        }
    }

    /// How often an entry was given.
    pub(crate) fn hits(&self) -> u64 {
        self.hits
    }

    /// The value of the key with a number.
    pub(crate) fn get(&mut self, number: usize, now: u64) -> Result<Option<u32>, NoMemory> {
        match place_of(&self.entries, number) {
            Some(place) if now < self.entries[place].expires => {
                let found = self.entries.remove(place);
                self.entries.insert(0, found)?;
                self.hits = self.hits.saturating_add(1);
                Ok(Some(found.value))
            }
            _ => Ok(None),
        }
    }

    /// Keeps a value for the key with a number.
    pub(crate) fn insert(
        &mut self,
        number: usize,
        expires: u64,
        value: u32,
    ) -> Result<(), NoMemory> {
        if let Some(place) = place_of(&self.entries, number) {
            self.entries.remove(place);
        }
        let next = PlainEntry {
            number,
            expires,
            value,
        };
        self.entries.insert(0, next)?;
        self.entries.truncate(self.capacity);
        Ok(())
    }
}
