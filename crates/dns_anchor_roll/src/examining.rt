//! What is found of a sighting, and whom the verifier is asked for it: first whether it is accepted, by trusted keys of it alone;
//! then which keys it revokes, of trusted ones, or of all where it is accepted. A signature and a key are asked once.
ghost use Rattle.std.specs.Prelude.{◌≡◌, ◌&&◌, ◌||◌, ◌++◌, ℕ, Bool, List, IfOk, OnOk};
ghost use Rattle.std.specs.Option.{option_map};
ghost use Rattle.std.specs.List.{filter, find, flat_map, list_any};
ghost use Rattle.dns_model.specs.Views.{is_revoked};
ghost use Rattle.dns_rules.specs.Validity.{is_good_but_for_revoke};
ghost use Rattle.dns_trust.specs.Judge.{judge_of};
ghost use Rattle.dns_trust.specs.Delegating.{shown};
ghost use Rattle.dns_trust.specs.SetSignatures.{IsRead, IsBuilt};
ghost use Rattle.dns_trust.specs.Signers.{AreOnce};
ghost use Rattle.dns_anchor_roll.specs.FollowedKeys.{is_unrevoked, key_bytes, shows_form};
ghost use Rattle.dns_anchor_roll.specs.Facts.{is_good_by_any, original_ttl, tried as tried_in};
ghost use Rattle.dns_anchor_roll.specs.Sightings.{is_key_set as is_key_set_in};
ghost use Rattle.dns_anchor_roll.specs.Tables.{among, is_trusted as is_trusted_in, standing_in};
ghost use Rattle.dns_anchor_roll.specs.Findings.{FindsFact, form_of, is_asked as is_asked_in, stands_at as stands_at_in};

use crate::Sighting;
use crate::follow::{FollowedKey, followed};
use crate::found::Found;
use crate::key_table::KeyTable;
use dns_evidence::Verifier;
use dns_rdata::{Dnskey, Rrsig};
use dns_record::{DNSClass, Name, NoMemory, Octets, Record, RecordSet, RecordType};
use dns_trust::{
    Judge, SetSignature, TrustAnchors, accepts_signature, each_once, first_signatures, is_good_by,
    is_usable_but_for_revoke, is_valid, signed_data_once,
};
use std::alloc::Global;

/// For what the verifier is asked.
#[derive(Clone, Copy, Debug, Drop)]
pub(crate) enum Asked {
    /// Whether a sighting is accepted.
    ToAccept,
    /// Which keys it revokes; with whether it is accepted.
    ToRevoke(bool),
}

/// What is found of a sighting of a zone's keys, by the keys that are trusted before it.
pub(crate) fn examine<'a, V: Verifier>(
    alloc: Global,
    verifier: &V,
    zone: &Name,
    table: &KeyTable,
    sighting: &'a Sighting,
) -> Result<Found<'a>, NoMemory>
    ensures { IfOk result (λ found. FindsFact (V.answers verifier.now) zone.now
        (λ key. is_trusted_in (standing_in table.now.known key)) sighting.now found) }
{
    let anchors = TrustAnchors::empty(alloc);
    let judge = Judge {
        verifier,
        anchors: &anchors,
        moment: sighting.moment,
    };
    let set = &sighting.set;
    let signatures = signatures_once(alloc, zone, set)?;
    let acceptors = asked_once(alloc, zone, table, Asked::ToAccept, &set.records)?;
    let ttl = accepted_ttl(alloc, &judge, set, &signatures, &acceptors)?;
    let forms = asked_once(
        alloc,
        zone,
        table,
        Asked::ToRevoke(ttl.is_some()),
        &set.records,
    )?;
    let signed = signed_forms(alloc, &judge, set, &signatures, &forms)?;
    let shown = shown_keys(alloc, zone, &set.records)?;
    let revoked = keys_of(alloc, zone, &signed)?;
    Ok(Found {
        ttl,
        shown,
        revoked,
    })
}

// The signatures that count: the first eight of a zone's key set.
fn tried<'a>(zone: &Name, set: &'a RecordSet) -> &'a [Record]
    ensures { result.now ≡ tried_in zone.now set.now }
{
    if !is_key_set(zone, set) {
        return &[];
    }
    first_signatures(set)
}

// The set is the keys of a zone.
fn is_key_set(zone: &Name, set: &RecordSet) -> bool
    ensures { result ≡ is_key_set_in zone.now set.now }
{
    *zone == set.name && set.record_type == RecordType::DNSKEY && set.dns_class == DNSClass::IN
}

// A signature stands at the owner and the class of a set.
fn stands_at(set: &RecordSet, signature: &Record) -> bool
    ensures { result ≡ stands_at_in set.now signature.now }
{
    set.name == signature.name
        && set.dns_class == signature.dns_class
        && signature.record_type == RecordType::RRSIG
}

// The signatures that count and stand at the set's owner and class, of one rdata the first.
fn signatures_once<'a>(
    alloc: Global,
    zone: &Name,
    set: &'a RecordSet,
) -> Result<Vec<&'a Record>, NoMemory>
    ensures { IfOk result (λ v. AreOnce (shown v.items) (filter (stands_at_in set.now) (tried_in zone.now set.now))) }
{
    let signatures = tried(zone, set);
    let mut all = Vec::new(alloc);
    for signature in signatures {
        if stands_at(set, signature) {
            all.push(signature)?;
        }
    }
    each_once(alloc, &all)
}

// A key is trusted.
fn is_trusted(table: &KeyTable, key: &FollowedKey<'_>) -> bool
    ensures { result ≡ is_trusted_in (standing_in table.now.known (key_bytes key.now)) }
{
    table.standing(key.bytes()).is_trusted()
}

// The verifier is asked for a record.
fn is_asked(zone: &Name, table: &KeyTable, asked: Asked, of: &Record) -> bool
    ensures { result ≡ is_asked_in zone.now (λ key. is_trusted_in (standing_in table.now.known key)) asked of.now }
{
    let Some(key) = followed(zone, of) else {
        return false;
    };
    match asked {
        Asked::ToAccept => !key.is_revoked() && is_trusted(table, &key),
        Asked::ToRevoke(accepted) => key.is_revoked() && (accepted || is_trusted(table, &key)),
    }
}

// The records for which the verifier is asked, of one rdata the first.
fn asked_once<'a>(
    alloc: Global,
    zone: &Name,
    table: &KeyTable,
    asked: Asked,
    records: &'a [Record],
) -> Result<Vec<&'a Record>, NoMemory>
    ensures { IfOk result (λ v. AreOnce (shown v.items)
        (filter (is_asked_in zone.now (λ key. is_trusted_in (standing_in table.now.known key)) asked) records.now)) }
{
    let mut all = Vec::new(alloc);
    for next in records {
        if is_asked(zone, table, asked, next) {
            all.push(next)?;
        }
    }
    each_once(alloc, &all)
}

// A signature is good by one of some keys.
fn is_good_by_any<V: Verifier>(
    alloc: Global,
    judge: &Judge<'_, V>,
    set: &RecordSet,
    signature: &Record,
    keys: &[&Record],
) -> Result<bool, NoMemory>
    ensures { IfOk result (λ b. b ≡ is_good_by_any (judge_of V.answers judge.now) set.now (shown keys.now) signature.now) }
{
    for key in keys {
        if is_good_by(alloc, judge, set, signature, *key)? {
            return Ok(true);
        }
    }
    Ok(false)
}

// The original ttl of a signature, in seconds.
fn original_ttl(signature: &Record) -> u32
    ensures { result ≡ original_ttl signature.now }
{
    match Rrsig::of(signature) {
        Some(read) => read.original_ttl,
        None => 0,
    }
}

// The original ttl of the first signature that is good by one of some keys, in seconds.
fn accepted_ttl<V: Verifier>(
    alloc: Global,
    judge: &Judge<'_, V>,
    set: &RecordSet,
    signatures: &[&Record],
    keys: &[&Record],
) -> Result<Option<u32>, NoMemory>
    ensures { IfOk result (λ t. t ≡ option_map original_ttl
        (find (is_good_by_any (judge_of V.answers judge.now) set.now (shown keys.now)) (shown signatures.now))) }
{
    for signature in signatures {
        let signature = *signature;
        if is_good_by_any(alloc, judge, set, signature, keys)? {
            return Ok(Some(original_ttl(signature)));
        }
    }
    Ok(None)
}

// A signature is good by a key but for the flag REVOKE. The bytes that it is over are built for the first key that comes so far.
fn is_good_revoked<V: Verifier>(
    alloc: Global,
    judge: &Judge<'_, V>,
    signature: &SetSignature<'_>,
    key: &Record,
    built: &mut Option<Octets>,
) -> Result<bool, NoMemory>
    requires read { IsRead signature.now }
    requires built { IsBuilt signature.now built.old }
    ensures good { IfOk result (λ b. b
        ≡ is_good_but_for_revoke (judge_of V.answers judge.now) signature.now.set.now signature.now.sig.now key.now) }
    ensures built { OnOk result (IsBuilt signature.now built.new) }
{
    let Some(dnskey) = Dnskey::of(key) else {
        return Ok(false);
    };
    if !is_valid(signature, key, judge.moment) {
        return Ok(false);
    }
    if !is_usable_but_for_revoke(judge.verifier, &dnskey) {
        return Ok(false);
    }
    let bytes = signed_data_once(alloc, signature, built.take())?;
    let accepted = accepts_signature(judge.verifier, signature.read, &dnskey, &bytes);
    *built = Some(bytes);
    Ok(accepted)
}

// Adds those of some keys by which a signature is good but for the flag REVOKE.
fn add_signed<'a, V: Verifier>(
    alloc: Global,
    judge: &Judge<'_, V>,
    set: &RecordSet,
    sig: &Record,
    forms: &[&'a Record],
    signed: &mut Vec<&'a Record>,
) -> Result<(), NoMemory>
    ensures { OnOk result (shown signed.new.items ≡ shown signed.old.items
        ++ filter (is_good_but_for_revoke (judge_of V.answers judge.now) set.now sig.now) (shown forms.now)) }
{
    let Some(read) = Rrsig::of(sig) else {
        return Ok(());
    };
    let signature = SetSignature {
        set,
        sig,
        read: &read,
    };
    let mut built = None;
    for form in forms {
        let form = *form;
        if is_good_revoked(alloc, judge, &signature, form, &mut built)? {
            signed.push(form)?;
        }
    }
    Ok(())
}

// Those of some keys by which one of some signatures is good but for the flag REVOKE, again for each such signature.
fn signed_forms<'a, V: Verifier>(
    alloc: Global,
    judge: &Judge<'_, V>,
    set: &RecordSet,
    signatures: &[&Record],
    forms: &[&'a Record],
) -> Result<Vec<&'a Record>, NoMemory>
    ensures { IfOk result (λ v. shown v.items ≡ flat_map
        (λ sig. filter (is_good_but_for_revoke (judge_of V.answers judge.now) set.now sig) (shown forms.now))
        (shown signatures.now)) }
{
    let mut signed = Vec::new(alloc);
    for signature in signatures {
        add_signed(alloc, judge, set, *signature, forms, &mut signed)?;
    }
    Ok(signed)
}

// Adds the key that a record shows with the flag REVOKE, or without it, by its bytes.
fn push_form<'a>(
    zone: &Name,
    revoked: bool,
    of: &'a Record,
    keys: &mut Vec<&'a [u8]>,
) -> Result<(), NoMemory>
    ensures { OnOk result ((q : List ℕ) → among q keys.new.items
        ≡ (among q keys.old.items || shows_form zone.now (form_of revoked) q of.now)) }
{
    let Some(key) = followed(zone, of) else {
        return Ok(());
    };
    if key.is_revoked() == revoked {
        keys.push(key.bytes())?;
    }
    Ok(())
}

// The keys that records show without the flag REVOKE, by their bytes.
fn shown_keys<'a>(
    alloc: Global,
    zone: &Name,
    records: &'a [Record],
) -> Result<Vec<&'a [u8]>, NoMemory>
    ensures { IfOk result (λ v. (q : List ℕ) → among q v.items
        ≡ list_any (shows_form zone.now is_unrevoked q) records.now) }
{
    let mut keys = Vec::new(alloc);
    for next in records {
        push_form(zone, false, next, &mut keys)?;
    }
    Ok(keys)
}

// The keys that records show with the flag REVOKE, by their bytes.
fn keys_of<'a>(
    alloc: Global,
    zone: &Name,
    records: &[&'a Record],
) -> Result<Vec<&'a [u8]>, NoMemory>
    ensures { IfOk result (λ v. (q : List ℕ) → among q v.items
        ≡ list_any (shows_form zone.now is_revoked q) (shown records.now)) }
{
    let mut keys = Vec::new(alloc);
    for next in records {
        push_form(zone, true, *next, &mut keys)?;
    }
    Ok(keys)
}
