//! A shelf, played beside the plain list: some entries have a chain that the shelf's verifier doesn't accept.

use crate::calls::{Call, Players};
use crate::entries::{chain_from_key, plain_entry, proved_entry, value_in};
use crate::plain_cache::Plain;
use dns_cache::{Acceptance, Entry};
use dns_evidence::{Chain, Listed};
use dns_record::NoMemory;
use dns_shared_cache::Shelf;
use std::alloc::Global;

/// A key that can be read, and one that can't.
const KEY: &[u8; 6] = b"\x01\x01\x03\x0d\xaa\xbb";

const NO_KEY: &[u8; 2] = b"\x01\x01";

/// A shelf and the plain list, with a chain that the shelf's verifier accepts and one that it doesn't.
#[derive(Drop)]
pub(crate) struct Shelved {
    shelf: Shelf<Listed>,
    plain: Plain,
    accepted: Chain,
    refused: Chain,
}

impl Shelved {
    // What is given for the call's key, by one way or by the other.
    fn given(&mut self, alloc: Global, call: Call) -> Result<Option<Entry>, NoMemory> {
        if call.choice % 2 == 0 {
            return self.shelf.get(alloc, call.key, call.moment);
        }
        let asker = Listed::new(alloc);
        let given = self.shelf.get_for(alloc, call.key, call.moment, &asker)?;
        match given {
            Some((entry, Acceptance::Kept)) => Ok(Some(entry)),
            _ => Ok(None),
        }
    }
}

impl Players for Shelved {
    fn of(alloc: Global, capacity: usize) -> Result<Shelved, NoMemory> {
        Ok(Shelved {
            shelf: Shelf::new(alloc, capacity, Listed::new(alloc))?,
            plain: Plain::new(alloc, capacity),
            accepted: chain_from_key(alloc, KEY)?,
            refused: chain_from_key(alloc, NO_KEY)?,
        })
    }

    fn insert(&mut self, alloc: Global, call: Call) -> Result<(), NoMemory> {
        let entry = match call.choice % 3 {
            0 => plain_entry(call.key, call.moment, call.value)?,
            1 => proved_entry(call.key, call.moment, call.value, &self.accepted)?,
            _ => proved_entry(call.key, call.moment, call.value, &self.refused)?,
        };
        self.shelf.insert(alloc, entry)?;
        if call.choice % 3 == 2 {
            return Ok(());
        }
        self.plain.insert(call.number, call.moment, call.value)
    }

    fn get_alike(&mut self, alloc: Global, call: Call) -> Result<bool, NoMemory> {
        let wanted = self.plain.get(call.number, call.moment)?;
        let given = self.given(alloc, call)?;
        Ok(value_in(&given) == wanted && self.shelf.hits() == self.plain.hits())
    }
}
