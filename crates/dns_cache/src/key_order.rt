//! The comparisons of keys, and what they feed a hasher.

ghost use Rattle.std.specs.Prelude.{◌≡◌, fold, map};
ghost use Rattle.std.specs.Cmp.{partial_equiv_from_equiv, partial_order_from_agreeing_total};
ghost use Rattle.std.specs.Cmp.Lexicographic.{slice_cmp};
ghost use Rattle.std.specs.Hash as fed;
ghost use Rattle.std.specs.Hash.{same_Alike};
ghost use Rattle.std.specs.Ordering.{as_partial_cmp};
ghost use Rattle.std.proofs.Common.{refl};
ghost use Rattle.dns_rules.specs.CacheKeys.{bytes_of, key_eq, key_of};
ghost use Rattle.dns_cache.specs.KeyOrder.{bytes_input, key_cmp, key_input, record_cmp as record_order, record_input};
ghost use Rattle.dns_cache.specs.KeyLaws.{key_eq-Decides, key_equiv, key_ties, key_total};

use crate::CacheKey;
use dns_record::{Query, Record, RecordSet};
use std::cmp::Ordering;
use std::hash::{Hash, Hasher};

impl PartialEq for CacheKey {
    ghost eq = { key_eq };

    ghost laws = { partial_equiv_from_equiv key_equiv };

    fn eq(&self, other: &CacheKey) -> bool {
        cmp_keys(self, other).is_eq()
    }
}

impl Eq for CacheKey {
    ghost laws = { key_equiv };
}

impl PartialOrd for CacheKey {
    ghost partial_cmp = { as_partial_cmp key_cmp };

    ghost laws = { partial_order_from_agreeing_total key_cmp key_total (λ x y. refl) key_ties };

    fn partial_cmp(&self, other: &CacheKey) -> Option<Ordering> {
        Some(self.cmp(other))
    }
}

impl Ord for CacheKey {
    ghost cmp = { key_cmp };

    ghost total = { key_total };

    ghost matches_partial_cmp = { λ x y. refl };

    ghost matches_eq = { key_ties };

    fn cmp(&self, other: &CacheKey) -> Ordering {
        cmp_keys(self, other)
    }
}

impl Hash for CacheKey {
    ghost hash_input = { key_input };

    ghost respects_eq = { λ x y h. (same_Alike key_input key_eq-Decides).fed x y h };

    fn hash<H: Hasher>(&self, state: &mut H) {
        self.query.hash(state);
        hash_records(&self.set.records, state);
        hash_records(&self.set.rrsigs, state);
    }
}

impl CacheKey {
    /// Whether it is the key of the set in the answer to the question.
    pub fn is_of(&self, query: &Query, set: &RecordSet) -> bool
        ensures { result ≡ key_eq (key_of query.now set.now) self.now }
    {
        cmp_sets(query, set, &self.query, &self.set).is_eq()
    }
}

// The order of two keys.
fn cmp_keys(one: &CacheKey, two: &CacheKey) -> Ordering
    ensures { result ≡ key_cmp one.now two.now }
{
    cmp_sets(&one.query, &one.set, &two.query, &two.set)
}

// The order of the keys of two sets in the answers to two questions: by question, by records, by signatures.
fn cmp_sets(query: &Query, set: &RecordSet, other_query: &Query, other_set: &RecordSet) -> Ordering
    ensures { result ≡ key_cmp (key_of query.now set.now) (key_of other_query.now other_set.now) }
{
    let records = cmp_records(&set.records, &other_set.records);
    let signatures = cmp_records(&set.rrsigs, &other_set.rrsigs);
    query.cmp(other_query).then(records.then(signatures))
}

// The order of two lists of records: of the first two that differ, and a shorter list before one that begins with it.
fn cmp_records(one: &[Record], two: &[Record]) -> Ordering
    ensures { result ≡ slice_cmp record_order (map bytes_of one.now) (map bytes_of two.now) }
{
    let mut left = one;
    let mut right = two;
    'records: while let Some((a, more)) = left.split_first() {
        let Some((b, rest)) = right.split_first() else {
            return Ordering::Greater;
        };
        let order = cmp_record(a, b);
        if order != Ordering::Equal {
            return order;
        }
        left = more;
        right = rest;
    }
    if right.is_empty() {
        Ordering::Equal
    } else {
        Ordering::Less
    }
}

// The order of two records by their bytes, whatever their ttls and marks.
fn cmp_record(one: &Record, two: &Record) -> Ordering
    ensures { result ≡ record_order (bytes_of one.now) (bytes_of two.now) }
{
    let owner = one.name.wire().cmp(two.name.wire());
    let record_type = one.record_type.cmp(&two.record_type);
    let class = one.dns_class.cmp(&two.dns_class);
    let rdata = one.rdata.as_slice().cmp(two.rdata.as_slice());
    owner.then(record_type.then(class.then(rdata)))
}

// Feeds how many records there are, and then each.
fn hash_records<H: Hasher>(records: &[Record], state: &mut H)
    ensures { state.new ≡ fold H.write state.old (fed.slice record_input (map bytes_of records.now)) }
{
    state.write_usize(records.len());
    for record in records {
        hash_record(record, state);
    }
}

// Feeds the bytes of a record, but for its ttl.
fn hash_record<H: Hasher>(one: &Record, state: &mut H)
    ensures { state.new ≡ fold H.write state.old (record_input (bytes_of one.now)) }
{
    hash_bytes(one.name.wire(), state);
    state.write_u16(one.record_type.0);
    state.write_u16(one.dns_class.0);
    hash_bytes(one.rdata.as_slice(), state);
}

// Feeds how many bytes there are, and then all in one piece.
fn hash_bytes<H: Hasher>(bytes: &[u8], state: &mut H)
    ensures { state.new ≡ fold H.write state.old (bytes_input bytes.now) }
{
    state.write_usize(bytes.len());
    state.write(bytes);
}
