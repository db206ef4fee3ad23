//! Chains that a verifier accepts by itself, whoever trusts their first keys and whenever; and how often the verifier is asked for
//! what was kept of a set. Chains that are checked with anchors and a moment are rows of `dns_check audit`.

use crate::counting::Counting;
use crate::parts::*;
use dns_cache::{CacheKey, Entry, RrsetProof};
use dns_chain_check::{accepted_chain, still_holds};
use dns_evidence::{Chain, Link, Listed, PlacedSet};
use dns_model::{Proof, Section};
use dns_record::{DNSClass, Query, Rdata, RecordType};
use dns_trust::{Judge, TrustAnchors};
use std::alloc::Global;
use std::process::Abort;

/// What it shows; a chain, a letter a link; and whether a verifier accepts it that accepts the signature of S and
/// nothing else. A is `KEY` as one of the root and B a key that can't be read; W is the root's key set, whose key the
/// first link shows, M the same with a key more, and N with a number more; S is the root's NS set signed by a key of
/// the second link, and O another one.
struct Row(&'static str, &'static str, bool);

#[rattlefmt::skip]
const ROWS: &[Row] = &[
    Row("the whole chain", "AWS", true),
    Row("a key by which nothing is signed", "A", true),
    Row("no link", "", false),
    Row("a first key that can't be read", "B", false),
    Row("a key that can't be read behind others", "AWSB", false),
    Row("the last signature, which isn't accepted over these bytes", "AWO", false),
    Row("a signature by a key that no key set has", "AAS", false),
    Row("a key set whose key starts the chain", "AW", true),
    Row("a key more than numbers", "AM", false),
    Row("a number more than keys", "AN", false),
];

/// A signature over the root's NS set, whose server is `a.`, from second 1000 to second 2000, and the bytes that it is over.
const OVER_ROOT: &[u8] = b"\0\x02\x0d\0\0\0\x0e\x10\0\0\x07\xd0\0\0\x03\xe8\xae\xc9\0\xaa\xbb";

const ROOT_BYTES: &[u8] =
    b"\0\x02\x0d\0\0\0\x0e\x10\0\0\x07\xd0\0\0\x03\xe8\xae\xc9\0\0\0\x02\0\x01\0\0\x0e\x10\0\x03\x01a\0";

fn anchored(rt: &impl Abort, alloc: Global, key: &[u8]) -> Link {
    Link::Anchored {
        owner: name_of(rt, alloc, "."),
        class: DNSClass::IN,
        key: rdata_of(rt, alloc, key),
    }
}

/// So many rdatas of these bytes.
fn rdatas(rt: &impl Abort, alloc: Global, bytes: &[u8], count: usize) -> Vec<Rdata> {
    let mut rdatas = Vec::new(alloc);
    for _ in 0..count {
        rdatas.push(rdata_of(rt, alloc, bytes)).expect(rt, "memory");
    }
    rdatas
}

/// So often the number of the first link.
fn first_links(rt: &impl Abort, alloc: Global, count: usize) -> Vec<u32> {
    let mut links = Vec::new(alloc);
    for _ in 0..count {
        links.push(0).expect(rt, "memory");
    }
    links
}

/// The root's key set, so often its key, with so many numbers of the first link.
fn key_set(rt: &impl Abort, alloc: Global, keys: usize, numbers: usize) -> Link {
    Link::KeySet {
        owner: name_of(rt, alloc, "."),
        class: DNSClass::IN,
        keys: rdatas(rt, alloc, KEY, keys),
        links: first_links(rt, alloc, numbers),
    }
}

/// The root's NS set, signed by a key of the second link.
fn signed(rt: &impl Abort, alloc: Global, server: &[u8]) -> Link {
    Link::Signed {
        owner: name_of(rt, alloc, "."),
        class: DNSClass::IN,
        record_type: RecordType::NS,
        rdatas: rdatas(rt, alloc, server, 1),
        sig: rdata_of(rt, alloc, OVER_ROOT),
        key_link: 1,
        key: rdata_of(rt, alloc, KEY),
    }
}

fn link(rt: &impl Abort, alloc: Global, letter: u8) -> Link {
    match letter {
        b'A' => anchored(rt, alloc, KEY),
        b'B' => anchored(rt, alloc, b"\x01\x01\x03"),
        b'S' => signed(rt, alloc, b"\x01a\0"),
        b'W' => key_set(rt, alloc, 1, 1),
        b'M' => key_set(rt, alloc, 2, 1),
        b'N' => key_set(rt, alloc, 1, 2),
        _ => signed(rt, alloc, b"\x01b\0"),
    }
}

fn links_of(rt: &impl Abort, alloc: Global, letters: &str) -> Vec<Link> {
    let mut links = Vec::new(alloc);
    for letter in letters.as_bytes() {
        links.push(link(rt, alloc, *letter)).expect(rt, "memory");
    }
    links
}

/// So many links more to the root's key.
fn add_starts(rt: &impl Abort, alloc: Global, links: &mut Vec<Link>, count: usize) {
    for _ in 0..count {
        links.push(anchored(rt, alloc, KEY)).expect(rt, "memory");
    }
}

/// The verifier accepts the chain of these links.
fn is_accepted(rt: &impl Abort, alloc: Global, links: Vec<Link>) -> bool {
    let chain = Chain {
        section: Section::Answer,
        links,
    };
    let mut listed = Listed::new(alloc);
    listed.support(13);
    let listing = listed.accept(13, b"\xaa\xbb", ROOT_BYTES, b"\xaa\xbb");
    listing.expect(rt, "memory");
    accepted_chain(alloc, &listed, &chain).expect(rt, "memory")
}

#[test]
fn chains_are_accepted_without_anchors_and_moment(rt: HostRuntime) {
    for row in ROWS {
        let links = links_of(&rt, rt.alloc(), row.1);
        check_row(&rt, row.0, is_accepted(&rt, rt.alloc(), links) == row.2);
    }
}

#[test]
fn a_chain_of_70_000_keys_is_accepted(rt: HostRuntime) {
    let mut links = Vec::new(rt.alloc());
    add_starts(&rt, rt.alloc(), &mut links, MANY);
    check_row(&rt, "70,000 keys", is_accepted(&rt, rt.alloc(), links));
}

/// The root's NS set with its signature, in an answer.
fn placed_set(rt: &impl Abort, alloc: Global) -> PlacedSet {
    PlacedSet {
        section: Section::Answer,
        set: set_of(rt, alloc, ".", RecordType::NS, &[b"\x01a\0"], &[OVER_ROOT]),
    }
}

/// The whole chain, with so many links more to the root's key.
fn whole_chain(rt: &impl Abort, alloc: Global, more: usize) -> Chain {
    let mut links = links_of(rt, alloc, "AW");
    add_starts(rt, alloc, &mut links, more);
    links.push(link(rt, alloc, b'S')).expect(rt, "memory");
    Chain {
        section: Section::Answer,
        links,
    }
}

/// What a cache kept of it: Secure by its first signature, and by that chain.
fn kept(rt: &impl Abort, alloc: Global, placed: &PlacedSet, more: usize) -> Entry {
    let query = Query {
        name: name_of(rt, alloc, "."),
        query_type: RecordType::NS,
        query_class: DNSClass::IN,
    };
    let found = RrsetProof {
        proof: Proof::Secure,
        adjusted_ttl: Some(500),
        rrsig_index: Some(0),
    };
    let chain = whole_chain(rt, alloc, more);
    let key = CacheKey::of(&query, &placed.set).expect(rt, "memory");
    Entry::new(key, 2000, Ok(found), Some(chain))
}

/// What was kept holds at a moment by one question to the verifier, since one link of its chain is a signed one.
fn holds_at(rt: &impl Abort, alloc: Global, moment: u64, more: usize) -> bool {
    let placed = placed_set(rt, alloc);
    let mut anchors = TrustAnchors::empty(alloc);
    trust(rt, alloc, &mut anchors, ".", b"\xaa\xbb");
    let verifier = Counting::new();
    let judge = Judge {
        verifier: &verifier,
        anchors: &anchors,
        moment,
    };
    let entry = kept(rt, alloc, &placed, more);
    let holds = still_holds(alloc, &judge, &placed, &entry).expect(rt, "memory");
    holds && verifier.questions.get() == 1
}

#[test]
fn a_kept_chain_is_put_to_the_verifier_once(rt: HostRuntime) {
    let alloc = rt.alloc();
    check_row(&rt, "one question", holds_at(&rt, alloc, 1500, 0));
    check_row(&rt, "past its signature", !holds_at(&rt, alloc, 2001, 0));
    check_row(&rt, "of 70,003 links", holds_at(&rt, alloc, 1500, MANY));
}
