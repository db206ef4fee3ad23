//! The judged sets of a step that answered, as its entries mark them: what an ask came to.

ghost use Rattle.std.specs.Prelude.{◌≡◌, Some, map, IfOk};
ghost use Rattle.std.specs.Option.{option_map};
ghost use Rattle.dns_rules.specs.Derivation.{finished_answer as finished_for, judged_sets, with_entries};
ghost use Rattle.dns_rules.specs.DerivationParts.{answer_of as answer_for, with_entry};
ghost use Rattle.dns_trust.specs.Verdicts.{listed};
ghost use Rattle.dns_flow.specs.Leads.{chainless};

use dns_evidence::{Asked, ChainedSet, Ending, JudgedSet, MarkedSet, PlacedSet, Reply};
use dns_model::AskRef;
use dns_outcome::{judged_part, told_message};
use dns_record::NoMemory;
use std::alloc::Global;

/// The answer that an ask got, without chains: none where it was refused, or where its step ends otherwise.
pub(crate) fn answer_of(
    alloc: Global,
    earlier: &[Asked],
    made: AskRef,
) -> Result<Option<Vec<ChainedSet>>, NoMemory>
    ensures { IfOk result (λ o. listed o ≡ option_map (map chainless) (finished_for earlier.now made)) }
{
    match made {
        AskRef::Step(number) => match earlier.get(number as usize) {
            Some(step) => answer_in(alloc, step),
            None => Ok(None),
        },
        AskRef::TooDeep | AskRef::TooMany => Ok(None),
    }
}

// The answer of a step, if it ends with one.
fn answer_in(alloc: Global, step: &Asked) -> Result<Option<Vec<ChainedSet>>, NoMemory>
    ensures { IfOk result (λ o. listed o ≡ option_map (map chainless) (answer_for (Some step.now))) }
{
    match &step.ending {
        Ending::Answered(_) => {
            let sets = sets_in(alloc, step)?;
            Ok(Some(sets))
        }
        _ => Ok(None),
    }
}

// The judged sets of a step.
fn sets_in(alloc: Global, step: &Asked) -> Result<Vec<ChainedSet>, NoMemory>
    ensures { IfOk result (λ v. v.items ≡ map chainless (judged_sets step.now)) }
{
    let Reply::Told(told) = &step.reply else {
        return Ok(Vec::new(alloc));
    };
    let message = told_message(alloc, told)?;
    let placed = judged_part(alloc, step.depth, &message)?;
    marked_sets(alloc, &placed, &step.sets)
}

// Sets with the marks of their entries, as long as there are both.
fn marked_sets(
    alloc: Global,
    placed: &[PlacedSet],
    entries: &[JudgedSet],
) -> Result<Vec<ChainedSet>, NoMemory>
    ensures { IfOk result (λ v. v.items ≡ map chainless (with_entries placed.now entries.now)) }
{
    let mut sets = Vec::new(alloc);
    let mut left = placed;
    let mut right = entries;
    'sets: while let Some((next, more)) = left.split_first() {
        let Some((entry, others)) = right.split_first() else {
            return Ok(sets);
        };
        let set = marked_set(alloc, next, entry)?;
        sets.push(set)?;
        left = more;
        right = others;
    }
    Ok(sets)
}

// A set with the mark of its entry.
fn marked_set(alloc: Global, placed: &PlacedSet, entry: &JudgedSet) -> Result<ChainedSet, NoMemory>
    ensures { IfOk result (λ c. c ≡ chainless (with_entry (placed.now, entry.now))) }
{
    let judged = MarkedSet {
        section: placed.section,
        set: placed.set.try_clone()?,
        mark: entry.mark,
        sig: entry.sig,
    };
    Ok(ChainedSet {
        judged,
        chain: Vec::new(alloc),
    })
}
