//! The entries of a step: each is that of one of its sets, and its mark follows (RFC 4035, 4.3, 5.2 and 5.3).

ghost use Rattle.std.specs.Prelude.{◌≡◌, ◌&&◌, ◌==◌, true, IfOk};
ghost use Rattle.std.specs.Option.{option_map};
ghost use Rattle.dns_model.specs.Names.{name_eq};
ghost use Rattle.dns_rules.specs.ChainedSets.{bare};
ghost use Rattle.dns_rules.specs.Derivation.{entries_hold, entry_holds, has_mark_of, is_by_rules, keys_hold, search_from, unsigned_holds, with_entries};
ghost use Rattle.dns_rules.specs.DerivationParts.{with_entry};
ghost use Rattle.dns_rules.specs.KeySets.{needs_ds};
ghost use Rattle.dns_rules.specs.Unsigned.{set_start as start_of_set};
ghost use Rattle.dns_trust.specs.Judge.{judge_of};
ghost use Rattle.dns_trail.specs.Trying.{zone_proof};
ghost use Rattle.dns_trail.specs.Ended.{some_if};
ghost use Rattle.dns_trail.specs.Entries.{is_by_signatures, is_entry_of as is_own_entry, judged_if, IsMarkedBy};
ghost use Rattle.dns_trail.specs.StepContexts.{step_context_by};

use crate::repeats::is_repeated;
use crate::search::search_zone;
use crate::served::is_served;
use crate::step_context::{StepContext, answer_of, is_ask};
use crate::verdicts::verdicts_by;
use dns_evidence::{ChainedSet, JudgedSet, MarkedSet, PlacedSet, Verifier};
use dns_model::{AskRef, MarkOrigin, Proof};
use dns_record::{NoMemory, RecordSet};
use dns_trust::{
    KeysStep, chained_by, ds_ask_of, first_signatures, is_key_set, judged_by_ds, keys_step_of,
    needs_zone, set_start, unsigned_set,
};
use std::alloc::Global;

/// The sets of a step with the marks of its entries; None where some entry isn't that of its set or its mark doesn't
/// follow.
pub(crate) fn judged_sets<V: Verifier>(
    context: &StepContext<'_, '_, V>,
    mut placed: Vec<PlacedSet>,
    mut entries: &[JudgedSet],
) -> Result<Option<Vec<ChainedSet>>, NoMemory>
    ensures { IfOk result (λ o. option_map (λ v. bare v.items) o ≡ some_if
        (entries_hold (step_context_by V.answers context.now) placed.items entries.entry.now)
        (with_entries placed.items entries.entry.now)) }
{
    let mut sets = Vec::new(context.alloc);
    placed.reverse();
    'sets: while let Some(next) = placed.pop() {
        let Some((entry, others)) = entries.split_first() else {
            return Ok(None);
        };
        let Some(set) = judged_set(context, next, entry)? else {
            return Ok(None);
        };
        sets.push(set)?;
        entries = others;
    }
    if entries.is_empty() {
        Ok(Some(sets))
    } else {
        Ok(None)
    }
}

// A set with the mark of an entry; None where the entry isn't that of the set or its mark doesn't follow.
fn judged_set<V: Verifier>(
    context: &StepContext<'_, '_, V>,
    placed: PlacedSet,
    entry: &JudgedSet,
) -> Result<Option<ChainedSet>, NoMemory>
    ensures { IfOk result (IsMarkedBy entry_holds (step_context_by V.answers context.now) placed entry.now) }
{
    if !is_entry_of(&placed, entry) {
        return Ok(None);
    }
    match entry.origin {
        MarkOrigin::Table => judged_by_rules(context, placed, entry),
        MarkOrigin::Repeat(number) => {
            let repeated = is_repeated(context, &placed, entry, number)?;
            Ok(marked_if(context.alloc, repeated, placed, entry))
        }
        MarkOrigin::Cache => {
            let served = is_served(context, &placed, entry)?;
            Ok(marked_if(context.alloc, served, placed, entry))
        }
    }
}

// The entry has the section, owner and type of the set.
fn is_entry_of(placed: &PlacedSet, entry: &JudgedSet) -> bool
    ensures { result ≡ is_own_entry placed.now entry.now }
{
    placed.section == entry.section && is_for(&placed.set, entry)
}

// The entry has the owner and type of the set.
fn is_for(set: &RecordSet, entry: &JudgedSet) -> bool
    ensures { result ≡ (name_eq set.now.owner entry.now.owner && (set.now.rtype == entry.now.rtype)) }
{
    set.name == entry.owner && set.record_type == entry.record_type
}

// A set with the mark of an entry, where it follows.
fn marked_if(
    alloc: Global,
    follows: bool,
    placed: PlacedSet,
    entry: &JudgedSet,
) -> Option<ChainedSet>
    ensures { judged_if result ≡ some_if follows (with_entry (placed, entry.now)) }
{
    if follows {
        Some(marked(alloc, placed, entry))
    } else {
        None
    }
}

// A set with the mark of an entry.
fn marked(alloc: Global, placed: PlacedSet, entry: &JudgedSet) -> ChainedSet
    ensures { result.judged ≡ with_entry (placed, entry.now) }
{
    let PlacedSet { section, set } = placed;
    let judged = MarkedSet {
        section,
        set,
        mark: entry.mark,
        sig: entry.sig,
    };
    ChainedSet {
        judged,
        chain: Vec::new(alloc),
    }
}

// A judged set without its chain, where the entry has its mark and names the signature that decided.
fn as_in_entry(alloc: Global, set: ChainedSet, entry: &JudgedSet) -> Option<ChainedSet>
    ensures { judged_if result ≡ some_if (has_mark_of set.judged entry.now) set.judged }
{
    let ChainedSet { judged, chain: _ } = set;
    if has_mark(&judged, entry) {
        Some(ChainedSet {
            judged,
            chain: Vec::new(alloc),
        })
    } else {
        None
    }
}

// The entry has the mark of a judged set, and names the signature that decided.
fn has_mark(judged: &MarkedSet, entry: &JudgedSet) -> bool
    ensures { result ≡ has_mark_of judged.now entry.now }
{
    judged.mark == entry.mark && judged.sig == entry.sig
}

// The asks that an entry names.
fn asks_of(entry: &JudgedSet) -> &[AskRef]
    ensures { result.now ≡ entry.now.asked }
{
    entry.asked.as_slice()
}

// The set itself.
fn set_of(placed: &PlacedSet) -> &RecordSet
    ensures { result.now ≡ placed.now.set }
{
    &placed.set
}

// A set, judged by the rules: a key set by what makes its keys known, an unsigned one by its zone, another by its first
// signatures.
fn judged_by_rules<V: Verifier>(
    context: &StepContext<'_, '_, V>,
    placed: PlacedSet,
    entry: &JudgedSet,
) -> Result<Option<ChainedSet>, NoMemory>
    ensures { IfOk result (IsMarkedBy is_by_rules (step_context_by V.answers context.now) placed entry.now) }
{
    if is_key_set(set_of(&placed)) {
        judged_key_set(context, placed, entry)
    } else if needs_zone(set_of(&placed)) {
        judged_unsigned(context, placed, entry)
    } else {
        judged_signed(context, placed, entry)
    }
}

// A key set, judged by the anchors, and where these don't decide, by the one ask for the DS set of its owner.
fn judged_key_set<V: Verifier>(
    context: &StepContext<'_, '_, V>,
    placed: PlacedSet,
    entry: &JudgedSet,
) -> Result<Option<ChainedSet>, NoMemory>
    ensures { IfOk result (IsMarkedBy keys_hold (step_context_by V.answers context.now) placed entry.now) }
{
    let asks = asks_of(entry);
    match keys_step_of(context.alloc, context.judge, placed)? {
        KeysStep::Done(set) => {
            if asks.is_empty() {
                Ok(as_in_entry(context.alloc, set, entry))
            } else {
                Ok(None)
            }
        }
        KeysStep::NeedsDs(placed) => judged_by_one_ask(context, placed, entry),
    }
}

// A key set that no anchor decides, judged by the one ask for the DS set of its owner.
fn judged_by_one_ask<V: Verifier>(
    context: &StepContext<'_, '_, V>,
    placed: PlacedSet,
    entry: &JudgedSet,
) -> Result<Option<ChainedSet>, NoMemory>
    requires needed { needs_ds (judge_of V.answers context.now.judge.now) placed.set ≡ true }
    ensures { IfOk result (IsMarkedBy keys_hold (step_context_by V.answers context.now) placed entry.now) }
{
    let Some((ask, left)) = asks_of(entry).split_first() else {
        return Ok(None);
    };
    let question = ds_ask_of(set_of(&placed))?;
    if !left.is_empty() || !is_ask(context, &question, *ask) {
        return Ok(None);
    }
    let answer = answer_of(&context.earlier, *ask);
    let set = judged_by_ds(context.alloc, context.judge, placed, answer)?;
    Ok(as_in_entry(context.alloc, set, entry))
}

// An unsigned set, judged by its zone, which is searched.
fn judged_unsigned<V: Verifier>(
    context: &StepContext<'_, '_, V>,
    placed: PlacedSet,
    entry: &JudgedSet,
) -> Result<Option<ChainedSet>, NoMemory>
    ensures { IfOk result (IsMarkedBy unsigned_holds (step_context_by V.answers context.now) placed entry.now) }
{
    match mark_of_zone(context, set_of(&placed), asks_of(entry))? {
        Some(mark) => Ok(as_in_entry(
            context.alloc,
            unsigned_set(context.alloc, placed, mark),
            entry,
        )),
        None => Ok(None),
    }
}

// What the zone of a set leaves to it, by the asks of the search for that zone.
fn mark_of_zone<V: Verifier>(
    context: &StepContext<'_, '_, V>,
    set: &RecordSet,
    asks: &[AskRef],
) -> Result<Option<Proof>, NoMemory>
    ensures { IfOk result (λ m. m ≡ option_map zone_proof
        (search_from (step_context_by V.answers context.now) set.now.class (start_of_set set.now) asks.now)) }
{
    let start = set_start(set)?;
    search_zone(context, set.dns_class, &start, asks)
}

// Another set, judged by its first signatures.
fn judged_signed<V: Verifier>(
    context: &StepContext<'_, '_, V>,
    placed: PlacedSet,
    entry: &JudgedSet,
) -> Result<Option<ChainedSet>, NoMemory>
    ensures { IfOk result (IsMarkedBy is_by_signatures (step_context_by V.answers context.now) placed entry.now) }
{
    let set = set_of(&placed);
    let signatures = first_signatures(set);
    let Some(verdicts) = verdicts_by(context, set, signatures, asks_of(entry))? else {
        return Ok(None);
    };
    let set = chained_by(placed, verdicts)?;
    Ok(as_in_entry(context.alloc, set, entry))
}
