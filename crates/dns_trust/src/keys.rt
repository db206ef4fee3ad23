//! Which row of the marks of DNSKEY sets holds: by anchored keys, or by keys that DS records match (RFC 4035, 5.2).

ghost use Rattle.std.specs.Prelude.{◌≡◌, true, IfOk, None};
ghost use Rattle.std.specs.List.{filter, list_all};
ghost use Rattle.std.specs.Option.{option_map};
ghost use Rattle.dns_model.specs.Keys.{anchored};
ghost use Rattle.dns_rules.specs.KeySets.{is_anchored_key, is_matched_key, is_trusted_key, keys_outcome, needs_ds, outcome_by_ds, signed_by};
ghost use Rattle.dns_trust.specs.Beside.{is_matched_only as is_matched_only_by, outcome_beside_ds};
ghost use Rattle.dns_trust.specs.Judge.{judge_of};
ghost use Rattle.dns_trust.specs.Delegating.{shown};
ghost use Rattle.dns_trust.specs.Signers.{signed_value};
ghost use Rattle.dns_trust.specs.Rows.{anchored_outcome, matched_outcome};

use crate::signers::{each_once, first_signed};
use crate::{DsIndex, Judge, SignedBy, TrustAnchors};
use dns_evidence::Verifier;
use dns_rdata::Dnskey;
use dns_record::{Name, NoMemory, Record, RecordSet, RecordType};
use std::alloc::Global;

/// What trust anchors say of a DNSKEY set (RFC 4035, 5.2).
#[derive(Drop)]
pub enum AnchoredRow<'a> {
    /// An anchored key of it signed it.
    Signed(SignedBy<'a>),
    /// Each key of it is anchored.
    Whole,
    /// Neither, and it is the root's, which has no DS.
    Root,
    /// Neither: the DS verdict of its owner decides.
    NeedsDs,
}

/// What DS records that are Secure say of a DNSKEY set that no anchor shows (RFC 4035, 5.2).
#[derive(Drop)]
pub enum MatchedRow<'a> {
    /// A key of it that they match signed it.
    Signed(SignedBy<'a>),
    /// Each key of it is anchored or matched.
    Whole,
    /// Neither.
    Neither,
}

/// The first row of the marks of DNSKEY sets that holds, as far as anchors decide.
#[tactic(auto, unfolding(dns_rules::specs::KeySets::keys_outcome))]
pub fn anchored_row<'a, V: Verifier>(
    alloc: Global,
    judge: &Judge<'_, V>,
    set: &'a RecordSet,
) -> Result<AnchoredRow<'a>, NoMemory>
    ensures { IfOk result (λ r. anchored_outcome set.now r ≡ keys_outcome (judge_of V.answers judge.now) set.now None) }
{
    if let Some(by) = signed_by_anchored(alloc, judge, set)? {
        return Ok(AnchoredRow::Signed(by));
    }
    if is_wholly_anchored(judge, set) {
        return Ok(AnchoredRow::Whole);
    }
    if set.name.is_root() {
        return Ok(AnchoredRow::Root);
    }
    Ok(AnchoredRow::NeedsDs)
}

/// The first row of the marks of DNSKEY sets that holds, as DS records of its owner decide that are Secure, where anchors don't.
#[tactic(auto, using(crate::proofs::Beside::beside_ds))]
pub fn matched_row<'a, V: Verifier>(
    alloc: Global,
    judge: &Judge<'_, V>,
    set: &'a RecordSet,
    ds: &DsIndex<'_>,
) -> Result<MatchedRow<'a>, NoMemory>
    requires owner { ds.now.owner ≡ set.now.owner }
    requires needed { needs_ds (judge_of V.answers judge.now) set.now ≡ true }
    ensures { IfOk result (λ r. matched_outcome set.now ds.now.records r ≡
        outcome_by_ds (judge_of V.answers judge.now) set.now ds.now.records) }
{
    matched_beside(alloc, judge, set, ds)
}

/// The same, whatever anchors decide: keys that are anchors don't sign.
pub(crate) fn matched_beside<'a, V: Verifier>(
    alloc: Global,
    judge: &Judge<'_, V>,
    set: &'a RecordSet,
    ds: &DsIndex<'_>,
) -> Result<MatchedRow<'a>, NoMemory>
    requires { ds.now.owner ≡ set.now.owner }
    ensures { IfOk result (λ r. matched_outcome set.now ds.now.records r ≡
        outcome_beside_ds (judge_of V.answers judge.now) set.now ds.now.records) }
{
    if let Some(by) = signed_by_matched(alloc, judge, set, ds)? {
        return Ok(MatchedRow::Signed(by));
    }
    if is_wholly_trusted(judge, set, ds) {
        return Ok(MatchedRow::Whole);
    }
    Ok(MatchedRow::Neither)
}

// The first signature of a key set that is good by an anchored key of it, among its first eight signatures.
fn signed_by_anchored<'a, V: Verifier>(
    alloc: Global,
    judge: &Judge<'_, V>,
    set: &'a RecordSet,
) -> Result<Option<SignedBy<'a>>, NoMemory>
    ensures { IfOk result (λ s. option_map signed_value s ≡
        signed_by (is_anchored_key (judge_of V.answers judge.now) set.now) (judge_of V.answers judge.now) set.now) }
{
    let anchored = anchored_keys(alloc, judge, set)?;
    let keys = each_once(alloc, &anchored)?;
    first_signed(alloc, judge, set, &keys)
}

// The same by a key that one of some DS records matches, and that is no anchor.
fn signed_by_matched<'a, V: Verifier>(
    alloc: Global,
    judge: &Judge<'_, V>,
    set: &'a RecordSet,
    ds: &DsIndex<'_>,
) -> Result<Option<SignedBy<'a>>, NoMemory>
    requires { ds.now.owner ≡ set.now.owner }
    ensures { IfOk result (λ s. option_map signed_value s ≡
        signed_by (is_matched_only_by (judge_of V.answers judge.now) set.now ds.now.records)
        (judge_of V.answers judge.now) set.now) }
{
    let matched = matched_keys(alloc, judge, set, ds)?;
    let keys = each_once(alloc, &matched)?;
    first_signed(alloc, judge, set, &keys)
}

// The keys of a set that are anchors of its owner.
fn anchored_keys<'a, V: Verifier>(
    alloc: Global,
    judge: &Judge<'_, V>,
    set: &'a RecordSet,
) -> Result<Vec<&'a Record>, NoMemory>
    ensures { IfOk result (λ v. shown v.items
        ≡ filter (is_anchored_key (judge_of V.answers judge.now) set.now) set.now.records) }
{
    let mut keys = Vec::new(alloc);
    for key in &set.records {
        if is_anchored(judge, set, key) {
            keys.push(key)?;
        }
    }
    Ok(keys)
}

// The keys of a set that DS records of its owner match, but for anchored ones, which were tried before.
fn matched_keys<'a, V: Verifier>(
    alloc: Global,
    judge: &Judge<'_, V>,
    set: &'a RecordSet,
    ds: &DsIndex<'_>,
) -> Result<Vec<&'a Record>, NoMemory>
    requires { ds.now.owner ≡ set.now.owner }
    ensures { IfOk result (λ v. shown v.items ≡
        filter (is_matched_only_by (judge_of V.answers judge.now) set.now ds.now.records) set.now.records) }
{
    let mut keys = Vec::new(alloc);
    for key in &set.records {
        if is_matched_only(judge, set, key, ds) {
            keys.push(key)?;
        }
    }
    Ok(keys)
}

// The key is no anchor of the set's owner, and matched by a DS of it.
fn is_matched_only<V: Verifier>(
    judge: &Judge<'_, V>,
    set: &RecordSet,
    key: &Record,
    ds: &DsIndex<'_>,
) -> bool
    requires { ds.now.owner ≡ set.now.owner }
    ensures { result ≡ is_matched_only_by (judge_of V.answers judge.now) set.now ds.now.records key.now }
{
    !is_anchored(judge, set, key) && is_matched(judge, set, key, ds)
}

// Every key of a key set is an anchor of its owner.
fn is_wholly_anchored<V: Verifier>(judge: &Judge<'_, V>, set: &RecordSet) -> bool
    ensures { result ≡ list_all (is_anchored_key (judge_of V.answers judge.now) set.now) set.now.records }
{
    for key in &set.records {
        if !is_anchored(judge, set, key) {
            return false;
        }
    }
    true
}

// Every key of a key set is an anchor of its owner, or matched by a DS of it.
fn is_wholly_trusted<V: Verifier>(judge: &Judge<'_, V>, set: &RecordSet, ds: &DsIndex<'_>) -> bool
    requires { ds.now.owner ≡ set.now.owner }
    ensures { result ≡ list_all (is_trusted_key (judge_of V.answers judge.now) set.now ds.now.records) set.now.records }
{
    for key in &set.records {
        if !is_trusted(judge, set, key, ds) {
            return false;
        }
    }
    true
}

// The key is an anchor of the set's owner, or matched by a DS of it.
fn is_trusted<V: Verifier>(
    judge: &Judge<'_, V>,
    set: &RecordSet,
    key: &Record,
    ds: &DsIndex<'_>,
) -> bool
    requires { ds.now.owner ≡ set.now.owner }
    ensures { result ≡ is_trusted_key (judge_of V.answers judge.now) set.now ds.now.records key.now }
{
    is_anchored(judge, set, key) || is_matched(judge, set, key, ds)
}

/// The record is a key of the set's owner that can be read, and an anchor of it.
pub(crate) fn is_anchored<V: Verifier>(judge: &Judge<'_, V>, set: &RecordSet, key: &Record) -> bool
    ensures { result ≡ is_anchored_key (judge_of V.answers judge.now) set.now key.now }
{
    key.record_type == RecordType::DNSKEY
        && set.name == key.name
        && anchored(judge.anchors, &set.name, key.rdata.as_slice())
}

/// The rdata is that of a key that can be read, and is an anchor of that owner.
pub fn anchored(anchors: &TrustAnchors, owner: &Name, key: &[u8]) -> bool
    ensures { result ≡ anchored anchors.now owner.now key.now }
{
    match Dnskey::read(key) {
        Some(read) => anchors.contains_with_name(owner, read.algorithm, read.key),
        None => false,
    }
}

// The record is a key of the set's owner, and matched by a DS of it.
fn is_matched<V: Verifier>(
    judge: &Judge<'_, V>,
    set: &RecordSet,
    key: &Record,
    ds: &DsIndex<'_>,
) -> bool
    requires { ds.now.owner ≡ set.now.owner }
    ensures { result ≡ is_matched_key (judge_of V.answers judge.now) set.now ds.now.records key.now }
{
    set.name == key.name && ds.matching(judge.verifier, key).is_some()
}
