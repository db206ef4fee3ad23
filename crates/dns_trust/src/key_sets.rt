//! The mark of a DNSKEY set with its chain: by trust anchors, or else by the DS set of its owner (RFC 4035, 5.2).

ghost use Rattle.std.specs.Prelude.{◌≡◌, true, None, Some, IfOk, [], map};
ghost use Rattle.std.specs.List.{find};
ghost use Rattle.std.specs.Option.{option_copied, option_map};
ghost use Rattle.dns_evidence.specs.Link.{link_value};
ghost use Rattle.dns_rules.specs.Delegations.{ds_question, is_ds_set_of, zone_verdict};
ghost use Rattle.dns_rules.specs.KeySets.{SignedByMatched, needs_ds};
ghost use Rattle.dns_rules.specs.ChainedSets.{bare, chained_by_ds, self_signed_chain as self_signed_chain_of};
ghost use Rattle.dns_trust.specs.Beside.{chained_beside, outcome_beside_ds};
ghost use Rattle.dns_trust.specs.Judge.{judge_of};
ghost use Rattle.dns_trust.specs.Verdicts.{listed};
ghost use Rattle.dns_trust.specs.Signers.{signed_value};
ghost use Rattle.dns_trust.specs.Steps.{IsKeysStep};
ghost use Rattle.dns_trust.specs.ZoneRows.{row_of};
ghost use Rattle.dns_trust.specs.KeysMarks.{marked_value, outcome_marked, by_ds_records, marked_by_found, marked_by_zone, chained_with, IsAnchorsMark};

use crate::chains::{
    anchored_chain, anchored_link, last_number, link_by_found, self_signed_chain, trusted_chain,
};
use crate::keys::matched_beside;
use crate::unsigned::{ds_set_of, mark_by_unsupported, mark_of_row};
use crate::{
    AnchoredRow, DsIndex, Judge, MatchedRow, SignedBy, ZoneRow, anchored_row, ds_query, zone_row,
};
use dns_evidence::{ChainedSet, Link, MarkedSet, PlacedSet, Verifier, clone_links};
use dns_model::Proof;
use dns_record::{NoMemory, Query, Record, RecordSet};
use std::alloc::Global;

/// How far a DNSKEY set is judged by anchors alone.
#[derive(Drop)]
pub enum KeysStep {
    /// It is judged.
    Done(ChainedSet),
    /// The DS verdict of its owner decides.
    NeedsDs(PlacedSet),
}

// The mark of a key set, the place of the signature that decided, and the links to the set where it is Secure.
#[derive(Drop)]
struct KeysMarked {
    mark: Proof,
    sig: Option<u32>,
    chain: Vec<Link>,
}

// DS records of a key set's owner that are Secure, and the chain of their set.
#[derive(Drop)]
struct ShownDs<'a, 'r> {
    index: &'a DsIndex<'r>,
    chain: &'a Vec<Link>,
}

/// A DNSKEY set, judged by its anchored keys, as far as these decide (RFC 4035, 5.2).
pub fn keys_step_of<V: Verifier>(
    alloc: Global,
    judge: &Judge<'_, V>,
    placed: PlacedSet,
) -> Result<KeysStep, NoMemory>
    ensures { IfOk result (λ s. IsKeysStep (judge_of V.answers judge.now) placed s) }
{
    match marked_by_anchors(alloc, judge, &placed.set)? {
        Some(marked) => Ok(KeysStep::Done(with_mark(placed, marked))),
        None => Ok(KeysStep::NeedsDs(placed)),
    }
}

/// A DNSKEY set that no anchor decides, judged with the judged sets of the answer to the ask for its owner's DS set; None
/// where the ask failed or was refused (RFC 4035, 5.2).
#[tactic(auto, using(crate::proofs::Beside::beside_known))]
pub fn judged_by_ds<V: Verifier>(
    alloc: Global,
    judge: &Judge<'_, V>,
    placed: PlacedSet,
    answer: &Option<Vec<ChainedSet>>,
) -> Result<ChainedSet, NoMemory>
    requires { needs_ds (judge_of V.answers judge.now) placed.set ≡ true }
    ensures { IfOk result (λ c. c ≡ chained_by_ds (judge_of V.answers judge.now) placed (listed answer.now)) }
{
    let (set, _row) = judged_beside(alloc, judge, placed, answer)?;
    Ok(set)
}

/// The same without that condition: its anchors were tried before, and aren't tried again. Beside it stands the row of the DS
/// verdict of its owner, which tells why the set isn't Secure.
pub fn judged_beside<V: Verifier>(
    alloc: Global,
    judge: &Judge<'_, V>,
    placed: PlacedSet,
    answer: &Option<Vec<ChainedSet>>,
) -> Result<(ChainedSet, ZoneRow), NoMemory>
    ensures judged { IfOk result (λ p. p.0 ≡ chained_beside (judge_of V.answers judge.now) placed (listed answer.now)) }
    ensures set { IfOk result (λ p. p.0.judged.set ≡ placed.set) }
    ensures row { IfOk result (λ p. p.1 ≡ row_of (zone_verdict (V.answers judge.now.verifier.now) placed.set.class
        placed.set.owner (option_map bare (listed answer.now)))) }
{
    let row = owner_row(alloc, judge.verifier, &placed.set, answer)?;
    let marked = marked_by_answer(alloc, judge, &placed.set, answer, row)?;
    Ok((with_mark(placed, marked), row))
}

// The row of the DS verdict of a key set's owner.
fn owner_row<V: Verifier>(
    alloc: Global,
    verifier: &V,
    set: &RecordSet,
    answer: &Option<Vec<ChainedSet>>,
) -> Result<ZoneRow, NoMemory>
    ensures { IfOk result (λ row. row ≡ row_of (zone_verdict (V.answers verifier.now) set.now.class set.now.owner
        (option_map bare (listed answer.now)))) }
{
    zone_row(alloc, verifier, set.dns_class, &set.name, answer)
}

/// The question for the DS set of a key set's owner.
pub fn ds_ask_of(set: &RecordSet) -> Result<Query, NoMemory>
    ensures { IfOk result (λ q. q ≡ ds_question set.now.class set.now.owner) }
{
    let name = set.name.try_clone()?;
    Ok(ds_query(name, set.dns_class))
}

// A placed set with its mark and its chain.
fn with_mark(placed: PlacedSet, marked: KeysMarked) -> ChainedSet
    ensures { result ≡ chained_with placed (marked_value marked) }
{
    let PlacedSet { section, set } = placed;
    let KeysMarked { mark, sig, chain } = marked;
    let judged = MarkedSet {
        section,
        set,
        mark,
        sig,
    };
    ChainedSet { judged, chain }
}

// Neither signed nor wholly trusted. The mark is Insecure where no more can be expected.
fn refused(alloc: Global, mark: Proof) -> KeysMarked
    ensures { marked_value result ≡ record { mark = mark; sig = None; chain = [] } }
{
    KeysMarked {
        mark,
        sig: None,
        chain: Vec::new(alloc),
    }
}

// Wholly trusted, by these links.
fn wholly_trusted(chain: Vec<Link>) -> KeysMarked
    ensures { marked_value result ≡ record { mark = Proof.Secure; sig = None; chain = map link_value chain.items } }
{
    KeysMarked {
        mark: Proof::Secure,
        sig: None,
        chain,
    }
}

// The mark of a key set by its anchored keys; None where the DS verdict of its owner decides.
fn marked_by_anchors<V: Verifier>(
    alloc: Global,
    judge: &Judge<'_, V>,
    set: &RecordSet,
) -> Result<Option<KeysMarked>, NoMemory>
    ensures { IfOk result (λ m. IsAnchorsMark (judge_of V.answers judge.now) set.now m) }
{
    match anchored_row(alloc, judge, set)? {
        AnchoredRow::Signed(by) => {
            let link = anchored_link(set, by.key)?;
            Ok(Some(signed(alloc, set, Vec::new(alloc), link, &by)?))
        }
        AnchoredRow::Whole => Ok(Some(wholly_trusted(anchored_chain(alloc, set)?))),
        AnchoredRow::Root => Ok(Some(refused(alloc, Proof::Bogus))),
        AnchoredRow::NeedsDs => Ok(None),
    }
}

// Signed by a key of it that a link behind others shows.
fn signed(
    alloc: Global,
    set: &RecordSet,
    front: Vec<Link>,
    link: Link,
    by: &SignedBy<'_>,
) -> Result<KeysMarked, NoMemory>
    ensures { IfOk result (λ m. marked_value m ≡ record {
      mark = Proof.Secure;
      sig = Some by.now.place;
      chain = self_signed_chain_of set.now (map link_value front.items) (link_value link) (signed_value by.now);
    }) }
{
    let chain = self_signed_chain(alloc, set, front, link, by)?;
    Ok(KeysMarked {
        mark: Proof::Secure,
        sig: Some(by.place),
        chain,
    })
}

// The mark of a key set by the answer to the ask for its owner's DS set, by which this row of the DS verdict holds.
fn marked_by_answer<V: Verifier>(
    alloc: Global,
    judge: &Judge<'_, V>,
    set: &RecordSet,
    answer: &Option<Vec<ChainedSet>>,
    row: ZoneRow,
) -> Result<KeysMarked, NoMemory>
    requires { row ≡ row_of (zone_verdict (V.answers judge.now.verifier.now) set.now.class set.now.owner
        (option_map bare (listed answer.now))) }
    ensures { IfOk result (λ m. marked_value m
        ≡ marked_by_zone (judge_of V.answers judge.now) set.now (listed answer.now)) }
{
    let Some(sets) = answer else {
        return Ok(refused(alloc, Proof::Bogus));
    };
    match ds_set_of(set.dns_class, &set.name, sets) {
        Some(found) => marked_by_set(alloc, judge, set, found),
        None => Ok(refused(alloc, mark_of_row(row))),
    }
}

// The mark of a key set by its owner's DS set.
fn marked_by_set<V: Verifier>(
    alloc: Global,
    judge: &Judge<'_, V>,
    set: &RecordSet,
    found: &ChainedSet,
) -> Result<KeysMarked, NoMemory>
    ensures { IfOk result (λ m. marked_value m ≡ marked_by_found (judge_of V.answers judge.now) set.now found.now) }
{
    match found.judged.mark {
        Proof::Secure => {
            let records = found.judged.set.records.as_slice();
            marked_by_records(alloc, judge, set, &found.chain, records)
        }
        Proof::Insecure | Proof::Bogus | Proof::Indeterminate => Ok(refused(alloc, Proof::Bogus)),
    }
}

// The mark of a key set by the records of its owner's DS set, which is Secure by a chain.
fn marked_by_records<V: Verifier>(
    alloc: Global,
    judge: &Judge<'_, V>,
    set: &RecordSet,
    front: &Vec<Link>,
    records: &[Record],
) -> Result<KeysMarked, NoMemory>
    ensures { IfOk result (λ m. marked_value m ≡
        by_ds_records (judge_of V.answers judge.now) set.now (map link_value front.now.items) records.now) }
{
    let ds = DsIndex::of_supported(alloc, judge.verifier, &set.name, records)?;
    if ds.is_empty() {
        return Ok(refused(alloc, mark_by_unsupported(records)));
    }
    let shown = ShownDs {
        index: &ds,
        chain: front,
    };
    marked_by_ds(alloc, judge, set, &shown)
}

// The mark of a key set by the supported ones of these.
fn marked_by_ds<V: Verifier>(
    alloc: Global,
    judge: &Judge<'_, V>,
    set: &RecordSet,
    shown: &ShownDs<'_, '_>,
) -> Result<KeysMarked, NoMemory>
    requires { shown.now.index.now.owner ≡ set.now.owner }
    ensures { IfOk result (λ m. marked_value m ≡
        outcome_marked (judge_of V.answers judge.now) set.now (map link_value shown.now.chain.now.items)
        (outcome_beside_ds (judge_of V.answers judge.now) set.now shown.now.index.now.records)) }
{
    match matched_beside(alloc, judge, set, shown.index)? {
        MatchedRow::Signed(by) => signed_by_ds(alloc, judge, set, shown, &by),
        MatchedRow::Whole => {
            let chain = trusted_chain(alloc, judge, set, shown.chain, shown.index)?;
            Ok(wholly_trusted(chain))
        }
        MatchedRow::Neither => Ok(refused(alloc, Proof::Bogus)),
    }
}

// Signed by a key of it that a DS matches.
fn signed_by_ds<V: Verifier>(
    alloc: Global,
    judge: &Judge<'_, V>,
    set: &RecordSet,
    shown: &ShownDs<'_, '_>,
    by: &SignedBy<'_>,
) -> Result<KeysMarked, NoMemory>
    requires { shown.now.index.now.owner ≡ set.now.owner }
    ensures { IfOk result (λ m. marked_value m ≡
        outcome_marked (judge_of V.answers judge.now) set.now (map link_value shown.now.chain.now.items)
        (SignedByMatched shown.now.index.now.records (signed_value by.now))) }
{
    let ds_link = last_number(shown.chain)?;
    let found = shown.index.matching(judge.verifier, by.key);
    let links = clone_links(shown.chain)?;
    let link = link_by_found(set, ds_link, by.key, found)?;
    signed(alloc, set, links, link, by)
}
