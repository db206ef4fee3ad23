//! Keys and entries as many as one wants.
ghost use Rattle.std.specs.Prelude.{◌≤◌, length};

use dns_cache::{CacheKey, Entry, RrsetProof};
use dns_evidence::{Chain, Link};
use dns_model::{Proof, Section};
use dns_record::{DNSClass, Name, NoMemory, Query, Rdata, Record, RecordSet, RecordType};
use std::alloc::Global;

// The owner of all sets: `zone.example.`.
fn owner(alloc: Global) -> Result<Name, NoMemory> {
    match Name::from_wire(alloc, b"\x04zone\x07example\x00")? {
        Some(name) => Ok(name),
        None => Name::root(alloc),
    }
}

// As many bytes as a signature or a key has. As an array of a function they would be dear to prove.
const SOME_BYTES: &[u8; 96] = &[7; 96];

// One record of a type.
fn record(alloc: Global, record_type: RecordType, bytes: &[u8]) -> Result<Record, NoMemory>
    requires { length bytes.now ≤ 65535 }
{
    Ok(Record {
        name: owner(alloc)?,
        record_type,
        dns_class: DNSClass::IN,
        ttl: 3600,
        rdata: Rdata::from_slice(alloc, bytes)?,
        proof: Proof::Indeterminate,
    })
}

// Puts a signature behind those of a set.
fn sign(alloc: Global, set: &mut RecordSet) -> Result<(), NoMemory> {
    let signature = record(alloc, RecordType::RRSIG, SOME_BYTES)?;
    set.rrsigs.push(signature)?;
    Ok(())
}

// A set of one address, which is the number, and one signature.
fn set_of(alloc: Global, number: u32) -> Result<RecordSet, NoMemory> {
    let address = record(alloc, RecordType::A, &number.to_be_bytes())?;
    let mut set = RecordSet::of(alloc, address)?;
    sign(alloc, &mut set)?;
    Ok(set)
}

// The key for a number.
fn key_of(alloc: Global, number: u32) -> Result<CacheKey, NoMemory> {
    let query = Query {
        name: owner(alloc)?,
        query_type: RecordType::A,
        query_class: DNSClass::IN,
    };
    let set = set_of(alloc, number)?;
    Ok(CacheKey { query, set })
}

/// So many keys, no two equal.
pub(crate) fn keys_of(alloc: Global, count: u32) -> Result<Vec<CacheKey>, NoMemory> {
    let mut keys = Vec::new(alloc);
    for number in 0..count {
        keys.push(key_of(alloc, number)?)?;
    }
    Ok(keys)
}

// An rdata.
fn some_bytes(alloc: Global) -> Result<Rdata, NoMemory> {
    Rdata::from_slice(alloc, SOME_BYTES)
}

// A signed link of one rdata.
fn link(alloc: Global, number: u32) -> Result<Link, NoMemory> {
    let mut rdatas = Vec::new(alloc);
    rdatas.push(some_bytes(alloc)?)?;
    Ok(Link::Signed {
        owner: owner(alloc)?,
        class: DNSClass::IN,
        record_type: RecordType::DNSKEY,
        rdatas,
        sig: some_bytes(alloc)?,
        key_link: number,
        key: some_bytes(alloc)?,
    })
}

/// A chain of so many signed links.
pub(crate) fn chain_of(alloc: Global, count: u32) -> Result<Chain, NoMemory> {
    let mut links = Vec::new(alloc);
    for number in 0..count {
        links.push(link(alloc, number)?)?;
    }
    Ok(Chain {
        section: Section::Answer,
        links,
    })
}

/// An entry of a key with a chain, in memory of its own, which doesn't expire.
pub(crate) fn secure_entry(key: &CacheKey, chain: &Chain) -> Result<Entry, NoMemory> {
    proved_entry(key, u64::MAX, 3600, chain)
}

/// An entry of a key without a chain; its value tells it from others.
pub(crate) fn plain_entry(key: &CacheKey, expires: u64, value: u32) -> Result<Entry, NoMemory> {
    let found = RrsetProof {
        proof: Proof::Insecure,
        adjusted_ttl: Some(value),
        rrsig_index: None,
    };
    let key = key.try_clone()?;
    Ok(Entry::new(key, expires, Ok(found), None))
}

/// An entry that is Secure by a chain, of which it has a copy; its value tells it from others.
pub(crate) fn proved_entry(
    key: &CacheKey,
    expires: u64,
    value: u32,
    chain: &Chain,
) -> Result<Entry, NoMemory> {
    let found = RrsetProof {
        proof: Proof::Secure,
        adjusted_ttl: Some(value),
        rrsig_index: Some(0),
    };
    let chain = chain.try_clone()?;
    let key = key.try_clone()?;
    Ok(Entry::new(key, expires, Ok(found), Some(chain)))
}

/// A chain of one link, to a key. A verifier accepts it by itself exactly where the key can be read.
pub(crate) fn chain_from_key(alloc: Global, key: &[u8]) -> Result<Chain, NoMemory>
    requires { length key.now ≤ 65535 }
{
    let mut links = Vec::new(alloc);
    links.push(Link::Anchored {
        owner: Name::root(alloc)?,
        class: DNSClass::IN,
        key: Rdata::from_slice(alloc, key)?,
    })?;
    Ok(Chain {
        section: Section::Answer,
        links,
    })
}

/// The rdata of a key of the root, whose tag is 44745, and that of a signature by it over an address of a name with two labels.
const ROOT_KEY: &[u8; 6] = b"\x01\x01\x03\x0d\xaa\xbb";

const ROOT_SIGNATURE: &[u8; 115] = b"\0\x01\x0d\x02\0\0\x0e\x10\0\0\x07\xd0\0\0\x03\x84\xae\xc9\0\
    0123456789abcdef0123456789abcdef0123456789abcdef0123456789abcdef0123456789abcdef0123456789abcdef";

// An address that is signed by the root's key, which the link before the last one shows.
fn signed_link(alloc: Global) -> Result<Link, NoMemory> {
    let mut rdatas = Vec::new(alloc);
    rdatas.push(Rdata::from_slice(alloc, &[192, 0, 2, 1])?)?;
    Ok(Link::Signed {
        owner: owner(alloc)?,
        class: DNSClass::IN,
        record_type: RecordType::A,
        rdatas,
        sig: Rdata::from_slice(alloc, ROOT_SIGNATURE)?,
        key_link: 1,
        key: Rdata::from_slice(alloc, ROOT_KEY)?,
    })
}

// The root's key set, which its anchored key shows.
fn key_set_link(alloc: Global) -> Result<Link, NoMemory> {
    let mut keys = Vec::new(alloc);
    keys.push(Rdata::from_slice(alloc, ROOT_KEY)?)?;
    let mut links = Vec::new(alloc);
    links.push(0)?;
    Ok(Link::KeySet {
        owner: Name::root(alloc)?,
        class: DNSClass::IN,
        keys,
        links,
    })
}

/// A chain from a key over its set to so many signed addresses, which a verifier accepts that accepts each signature.
pub(crate) fn signed_chain(alloc: Global, signatures: u32) -> Result<Chain, NoMemory> {
    let mut chain = chain_from_key(alloc, ROOT_KEY)?;
    chain.links.push(key_set_link(alloc)?)?;
    for _ in 0..signatures {
        chain.links.push(signed_link(alloc)?)?;
    }
    Ok(chain)
}

/// The value of an entry that was given.
pub(crate) fn value_in(given: &Option<Entry>) -> Option<u32> {
    let entry = given.as_ref()?;
    match &entry.result {
        Ok(found) => found.adjusted_ttl,
        Err(_) => None,
    }
}
