//! What a cache gives is a copy of all that was put in.

use crate::parts::{anchored, check_row, key, name_of};
use dns_cache::{
    Entry, ListCache, LruValidationCache, ProofError, ProofErrorKind, RrsetProof, ValidationCache,
};
use dns_evidence::{Chain, Link};
use dns_model::{Proof, Section};
use std::alloc::Global;
use std::process::Abort;

const KEY: &[u8] = b"\x01\x01\x03\x0d";

/// A chain of one link.
fn chain(rt: &impl Abort, alloc: Global) -> Chain {
    let mut links = Vec::new(alloc);
    links.push(anchored(rt, alloc, KEY)).expect(rt, "memory");
    Chain {
        section: Section::Authority,
        links,
    }
}

fn secure(rt: &impl Abort, alloc: Global) -> Entry {
    let found = RrsetProof {
        proof: Proof::Secure,
        adjusted_ttl: Some(5),
        rrsig_index: Some(1),
    };
    let chain = chain(rt, alloc);
    let key = key(rt, alloc, 1, 0);
    Entry::new(key, 7, Ok(found), Some(chain))
}

fn is_that_proof(found: &RrsetProof) -> bool {
    found.proof == Proof::Secure && found.adjusted_ttl == Some(5) && found.rrsig_index == Some(1)
}

fn is_that_chain(chain: &Chain) -> bool {
    match chain.links.as_slice() {
        [Link::Anchored { key, .. }] => {
            chain.section == Section::Authority && key.as_slice() == KEY
        }
        _ => false,
    }
}

fn is_secure(entry: &Entry) -> bool {
    match (&entry.result, &entry.chain) {
        (Ok(found), Some(chain)) => {
            entry.expires == 7 && is_that_proof(found) && is_that_chain(chain)
        }
        _ => false,
    }
}

fn bogus(rt: &impl Abort, alloc: Global) -> Entry {
    let key = key(rt, alloc, 2, 0);
    let error = ProofError::ds_should_exist(name_of(rt, alloc, "example."));
    Entry::new(key, 7, Err(error), None)
}

fn is_that_error(error: &ProofError) -> bool {
    match error.kind() {
        ProofErrorKind::DsRecordShouldExist { name } => {
            error.proof == Proof::Bogus && name.wire() == b"\x07example\0".as_slice()
        }
        _ => false,
    }
}

fn is_bogus(entry: &Entry) -> bool {
    match (&entry.result, &entry.chain) {
        (Err(error), None) => entry.expires == 7 && is_that_error(error),
        _ => false,
    }
}

/// What a cache gives for the key of an entry that is put in, at the last moment.
fn given<C: ValidationCache>(
    rt: &impl Abort,
    alloc: Global,
    cache: &mut C,
    entry: Entry,
    number: u8,
) -> Entry {
    cache.insert(alloc, entry).expect(rt, "memory");
    let key = key(rt, alloc, number, 0);
    let given = cache.get(alloc, &key, 6);
    given.expect(rt, "memory").expect(rt, "an entry")
}

fn gives_both<C: ValidationCache>(rt: &impl Abort, alloc: Global, cache: &mut C) -> bool {
    let first = given(rt, alloc, cache, secure(rt, alloc), 1);
    let other = given(rt, alloc, cache, bogus(rt, alloc), 2);
    is_secure(&first) && is_bogus(&other)
}

fn list_gives_both(rt: &impl Abort, alloc: Global) -> bool {
    let mut cache = ListCache::new(alloc, 2);
    gives_both(rt, alloc, &mut cache)
}

fn lru_gives_both(rt: &impl Abort, alloc: Global) -> bool {
    let mut cache = LruValidationCache::new(alloc, 2).expect(rt, "memory");
    gives_both(rt, alloc, &mut cache)
}

#[test]
fn what_is_put_in_comes_out(rt: HostRuntime) {
    check_row(&rt, "the list", list_gives_both(&rt, rt.alloc()));
    check_row(&rt, "the hashed cache", lru_gives_both(&rt, rt.alloc()));
}
