//! Of the keys of a zone those that count for a signature: the first two of each tag.

ghost use Rattle.std.specs.Prelude.{◌≡◌, ℕ, IfOk, OnOk, nat_lt};
ghost use Rattle.std.specs.List.{find, list_any};
ghost use Rattle.std.specs.Option.{option_copied};
ghost use Rattle.dns_rules.specs.Marks.{counted_keys, is_key_of_zone};
ghost use Rattle.dns_trust.specs.Judge.{judge_of};
ghost use Rattle.dns_trust.specs.Delegating.{shown};
ghost use Rattle.dns_trust.specs.SetSignatures.{IsRead, is_good_of};
ghost use Rattle.dns_trust.specs.Counting.{count_in, tag_count_after, count_after, tag_in, is_tried as is_tried_in};

use crate::good::is_good_read;
use crate::{Judge, SetSignature};
use dns_evidence::Verifier;
use dns_rdata::{Dnskey, Rrsig, key_tag};
use dns_record::{NameRef, NoMemory, Record};
use std::alloc::Global;
use std::collections::BTreeMap;

/// The first counted key of its signer by which a signature of a set is good; the first two keys of a tag count.
pub(crate) fn first_good<'a, V: Verifier>(
    alloc: Global,
    judge: &Judge<'_, V>,
    signature: &SetSignature<'_>,
    keys: &'a [Record],
) -> Result<Option<&'a Record>, NoMemory>
    requires { IsRead signature.now }
    ensures { IfOk result (λ k. option_copied k ≡ find (is_good_of (judge_of V.answers judge.now) signature.now)
        (counted_keys signature.now.read.now.signer keys.now)) }
{
    let mut counts = BTreeMap::new(alloc);
    let mut built = None;
    for key in keys {
        if !is_tried(&mut counts, signature.read, key)? {
            continue;
        }
        if is_good_read(alloc, judge, signature, key, &mut built)? {
            return Ok(Some(key));
        }
    }
    Ok(None)
}

/// The keys of a signature's signer that count, of whatever records: the first two of each tag.
pub fn counted_keys<'a>(
    alloc: Global,
    read: &Rrsig<'_>,
    keys: &'a [Record],
) -> Result<Vec<&'a Record>, NoMemory>
    ensures { IfOk result (λ v. shown v.items ≡ counted_keys read.now.signer keys.now) }
{
    let mut counts = BTreeMap::new(alloc);
    let mut counted = Vec::new(alloc);
    for key in keys {
        if !is_tried(&mut counts, read, key)? {
            continue;
        }
        counted.push(key)?;
    }
    Ok(counted)
}

// Counts the tag of a key of a signature's signer; whether the key is one of the first two of its tag.
fn is_tried(
    counts: &mut BTreeMap<u16, u8>,
    read: &Rrsig<'_>,
    key: &Record,
) -> Result<bool, NoMemory>
    ensures tried { IfOk result (λ b. b ≡ is_tried_in read.now.signer counts.old key.now) }
    ensures counted { OnOk result ((t : ℕ) → count_in counts.new t ≡ count_after read.now.signer counts.old key.now t) }
{
    match tag_of(&read.signer, key) {
        Some(tag) => count(counts, tag),
        None => Ok(false),
    }
}

// The tag of a zone's key.
#[tactic(auto, unfolding(dns_model::specs::Views::dnskey_in))]
fn tag_of(zone: &NameRef<'_>, key: &Record) -> Option<u16>
    ensures { result ≡ tag_in zone.now key.now }
{
    if !is_key_of_zone(zone, key) {
        return None;
    }
    key_tag(key.rdata.as_slice())
}

// The record is a key of the zone: owned by it, of type DNSKEY, and readable.
fn is_key_of_zone(zone: &NameRef<'_>, key: &Record) -> bool
    ensures { result ≡ is_key_of_zone zone.now key.now }
{
    zone.eq_name(&key.name.borrowed()) && Dnskey::of(key).is_some()
}

// Counts a tag, to two at the most; whether it was counted.
#[tactic(auto, unfolding(crate::specs::Counting::count_in))]
fn count(counts: &mut BTreeMap<u16, u8>, tag: u16) -> Result<bool, NoMemory>
    ensures tried { IfOk result (λ b. b ≡ nat_lt (count_in counts.old tag) 2) }
    ensures counted { OnOk result ((t : ℕ) → count_in counts.new t ≡ tag_count_after counts.old tag t) }
{
    let before = match counts.get(&tag) {
        Some(number) => *number,
        None => 0,
    };
    if before >= 2 {
        return Ok(false);
    }
    counts.insert(tag, before + 1)?;
    Ok(true)
}

/// Some record is a key of the zone.
pub(crate) fn has_key_of(zone: &NameRef<'_>, keys: &[Record]) -> bool
    ensures { result ≡ list_any (is_key_of_zone zone.now) keys.now }
{
    for key in keys {
        if is_key_of_zone(zone, key) {
            return true;
        }
    }
    false
}
