//! Both caches, played beside the plain list.

use crate::calls::{Call, Players};
use crate::entries::{plain_entry, value_in};
use crate::plain_cache::Plain;
use dns_cache::{ListCache, LruValidationCache, ValidationCache};
use dns_record::NoMemory;
use std::alloc::Global;

/// Both caches and the plain list.
#[derive(Drop)]
pub(crate) struct Caches {
    list: ListCache,
    hashed: LruValidationCache,
    plain: Plain,
}

// Whether a cache gives the value that is wanted.
fn gives<C: ValidationCache>(
    alloc: Global,
    cache: &mut C,
    call: Call,
    wanted: Option<u32>,
) -> Result<bool, NoMemory> {
    let given = cache.get(alloc, call.key, call.moment)?;
    Ok(value_in(&given) == wanted)
}

impl Players for Caches {
    fn of(alloc: Global, capacity: usize) -> Result<Caches, NoMemory> {
        Ok(Caches {
            list: ListCache::new(alloc, capacity),
            hashed: LruValidationCache::new(alloc, capacity)?,
            plain: Plain::new(alloc, capacity),
        })
    }

    fn insert(&mut self, alloc: Global, call: Call) -> Result<(), NoMemory> {
        let entry = plain_entry(call.key, call.moment, call.value)?;
        self.list.insert(alloc, entry)?;
        let entry = plain_entry(call.key, call.moment, call.value)?;
        self.hashed.insert(alloc, entry)?;
        self.plain.insert(call.number, call.moment, call.value)
    }

    fn get_alike(&mut self, alloc: Global, call: Call) -> Result<bool, NoMemory> {
        let wanted = self.plain.get(call.number, call.moment)?;
        let by_list = gives(alloc, &mut self.list, call, wanted)?;
        let by_hash = gives(alloc, &mut self.hashed, call, wanted)?;
        let hits = self.plain.hits();
        Ok(by_list && by_hash && self.list.hits() == hits && self.hashed.hits() == hits)
    }
}
