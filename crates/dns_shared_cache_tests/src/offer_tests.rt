//! What a shelf keeps of what it is given: an entry that its verifier accepts, and one that isn't Secure.
use crate::given::{Lists, Offer, entry_of, gives, key_of_servers, verifier_of};
use crate::rows::check_held;
use dns_cache::ValidationCache;
use dns_evidence::Listed;
use dns_shared_cache::{SharedCache, Shelf};
use std::alloc::Global;
use std::process::Abort;
use std::sync::Wait;

/// When an older entry of the key expires, and when the one that is put in then.
const OLDER: u64 = 5000;

const OFFERED: u64 = 1600;

/// What is shown, what the shelf's verifier lists, what is put in, whether an older Bogus entry has its key, and when the entry expires
/// that is given then.
struct Row(&'static str, Lists, Offer, bool, Option<u64>);

#[rattlefmt::skip]
const ROWS: &[Row] = &[
    Row("a chain that is accepted", Lists::Servers, Offer::Secure, false, Some(OFFERED)),
    Row("it replaces an older entry", Lists::Servers, Offer::Secure, true, Some(OFFERED)),
    Row("a chain that isn't accepted", Lists::Nothing, Offer::Secure, false, None),
    Row("the older entry stays", Lists::Nothing, Offer::Secure, true, Some(OLDER)),
    Row("a chain whose algorithm alone is listed", Lists::NoSignature, Offer::Secure, true, Some(OLDER)),
    Row("the last link alone", Lists::Servers, Offer::LastLink, false, None),
    Row("the last link alone, beside an older entry", Lists::Servers, Offer::LastLink, true, Some(OLDER)),
    Row("a chain from a key that can't be read", Lists::Servers, Offer::Unreadable, false, None),
    Row("such a chain beside an older entry", Lists::Servers, Offer::Unreadable, true, Some(OLDER)),
    Row("a chain without links", Lists::Servers, Offer::NoLink, true, Some(OLDER)),
    Row("a Bogus entry", Lists::Nothing, Offer::Bogus, false, Some(OFFERED)),
    Row("a Bogus entry replaces an older one", Lists::Servers, Offer::Bogus, true, Some(OFFERED)),
    Row("an Insecure entry, whatever its chain", Lists::Nothing, Offer::Insecure, true, Some(OFFERED)),
];

fn rows() -> &'static [Row] {
    ROWS
}

// On a shelf.
fn a_shelf_gives(rt: &impl Abort, alloc: Global, row: &Row) -> bool {
    let verifier = verifier_of(rt, alloc, row.1);
    let mut shelf = Shelf::new(alloc, 8, verifier).expect(rt, "memory");
    if row.3 {
        let older = entry_of(rt, alloc, Offer::Bogus, OLDER);
        shelf.insert(alloc, older).expect(rt, "memory");
    }
    let offered = entry_of(rt, alloc, row.2, OFFERED);
    shelf.insert(alloc, offered).expect(rt, "memory");
    is_given(rt, alloc, &mut shelf, row.4)
}

// Whether a shelf gives the NS set's entry that expires at this moment, or none.
fn is_given(
    rt: &impl Abort,
    alloc: Global,
    shelf: &mut Shelf<Listed>,
    expires: Option<u64>,
) -> bool {
    let key = key_of_servers(rt, alloc);
    let given = shelf.get(alloc, &key, 1000).expect(rt, "memory");
    match given {
        Some(entry) => expires == Some(entry.expires) && entry.key == key,
        None => expires.is_none(),
    }
}

// On a shared cache, of which one holder puts in and the other gets.
fn a_holder_gives<R: Wait + Abort + Copy>(rt: R, alloc: Global, row: &Row) -> bool {
    let verifier = verifier_of(&rt, alloc, row.1);
    let mut cache = SharedCache::new(rt, alloc, 8, verifier).expect(&rt, "memory");
    let mut other = cache.share().expect(&rt, "memory");
    if row.3 {
        let older = entry_of(&rt, alloc, Offer::Bogus, OLDER);
        cache.insert(alloc, older).expect(&rt, "memory");
    }
    let offered = entry_of(&rt, alloc, row.2, OFFERED);
    cache.insert(alloc, offered).expect(&rt, "memory");
    gives(&rt, alloc, &mut other, 1000, row.4) && cache.hits() == 0
}

#[test]
fn a_shelf_keeps_what_its_verifier_accepts(rt: HostRuntime) {
    for row in rows() {
        check_held(&rt, row.0, a_shelf_gives(&rt, rt.alloc(), row));
    }
}

#[test]
fn a_shared_cache_keeps_what_its_verifier_accepts(rt: HostRuntime) {
    for row in rows() {
        check_held(&rt, row.0, a_holder_gives(rt, rt.alloc(), row));
    }
}
