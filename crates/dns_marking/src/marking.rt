//! The marks and ttls that the sets of a step leave to the records of its message (RFC 4035, 4.3 and 5.3.3).
ghost use Rattle.std.specs.Prelude.{◌≡◌, ℕ, ◌<◌, ◌^◌, IfOk, OnOk, Some, length};
ghost use Rattle.dns_model.specs.declared.section.Section.TheVariants.{Answer, Authority, Additional};
ghost use Rattle.dns_rules.specs.Marking.{marked_section};
ghost use Rattle.dns_rules.specs.ChainedSets.{bare, chains_of, finished as finished_value};
ghost use Rattle.dns_rules.specs.MarkParts.{marked_by, is_place as is_same_place};
ghost use Rattle.dns_marking.specs.Counting.{count_at, counted, counted_if, place_for, set_at};
ghost use Rattle.dns_marking.specs.Timing.{AreTimed, marked_with, set_ttl as set_ttl_of, set_ttls as set_ttls_of};

use dns_evidence::{Chain, ChainedSet, MarkedSet, Trail, decider};
use dns_handle::DnsResponse;
use dns_message::Message;
use dns_model::{Denial, Proof, Section};
use dns_outcome::{SetPlaces, clear_one, judged_places, set_rtype};
use dns_rdata::Rrsig;
use dns_record::{NoMemory, Record, RecordType};
use std::alloc::Global;

/// The answer of a judged step: its message with the marks and ttls that its sets leave to each record, the chains of its
/// Secure sets in their order (RFC 4035, 4.3 and 5.3.3), and the trail that led to it. `now` is in seconds.
pub fn finished(
    alloc: Global,
    now: u64,
    sets: Vec<ChainedSet>,
    message: Message,
    denial: Denial,
    trail: Trail,
) -> Result<DnsResponse, NoMemory>
    ensures { IfOk result (λ r. r ≡ finished_value now sets.items message denial trail) }
{
    let mut message = message;
    mark_sections(
        alloc,
        now,
        &sets,
        &mut message.answers,
        &mut message.authorities,
        &mut message.additionals,
    )?;
    let chains = secure_chains(alloc, sets)?;
    Ok(DnsResponse {
        message,
        chains,
        denial,
        trail,
    })
}

// Marks the records of three sections by their sets.
fn mark_sections(
    alloc: Global,
    now: u64,
    sets: &[ChainedSet],
    answers: &mut [Record],
    authorities: &mut [Record],
    additionals: &mut [Record],
) -> Result<(), NoMemory>
    ensures answers { OnOk result
        (answers.new ≡ marked_section now (bare sets.now) Answer answers.old) }
    ensures authorities { OnOk result
        (authorities.new ≡ marked_section now (bare sets.now) Authority authorities.old) }
    ensures additionals { OnOk result
        (additionals.new ≡ marked_section now (bare sets.now) Additional additionals.old) }
{
    let ttls = set_ttls(alloc, now, sets)?;
    let timed = TimedSets {
        moment: now,
        sets,
        ttls: &ttls,
    };
    mark_section(alloc, &timed, Section::Answer, answers)?;
    mark_section(alloc, &timed, Section::Authority, authorities)?;
    mark_section(alloc, &timed, Section::Additional, additionals)
}

// Judged sets, and the ttl that each leaves to its records at a moment, in seconds.
#[derive(Clone, Copy)]
struct TimedSets<'a> {
    moment: u64,
    sets: &'a [ChainedSet],
    // by the numbers of the sets; None where each record keeps its own
    ttls: &'a [Option<u32>],
}

// The ttl that each of these sets leaves to its records.
fn set_ttls(alloc: Global, now: u64, sets: &[ChainedSet]) -> Result<Vec<Option<u32>>, NoMemory>
    ensures { IfOk result (λ v. v.items ≡ set_ttls_of now (bare sets.now)) }
{
    let mut ttls = Vec::new(alloc);
    for set in sets {
        let ttl = set_ttl(now, &set.judged);
        ttls.push(ttl)?;
    }
    Ok(ttls)
}

// The ttl that a set leaves to its records: under the signature that decided a Secure set no more than it leaves. Of another
// set each record keeps its own.
fn set_ttl(now: u64, judged: &MarkedSet) -> Option<u32>
    ensures { result ≡ set_ttl_of now judged.now }
{
    if judged.mark != Proof::Secure {
        return None;
    }
    let signature = decider(judged)?;
    let left = Rrsig::ttl_left_by(signature, now);
    Some(judged.set.first_ttl().min(left))
}

// The chains of the Secure sets, in their order.
fn secure_chains(alloc: Global, sets: Vec<ChainedSet>) -> Result<Vec<Chain>, NoMemory>
    ensures { IfOk result (λ v. v.items ≡ chains_of sets.items) }
{
    let mut chains = Vec::new(alloc);
    for ChainedSet { judged, chain } in sets {
        if judged.mark == Proof::Secure {
            chains.push(Chain {
                section: judged.section,
                links: chain,
            })?;
        }
    }
    Ok(chains)
}

// Marks the records of a section by the sets that stand in it.
fn mark_section(
    alloc: Global,
    timed: &TimedSets<'_>,
    section: Section,
    records: &mut [Record],
) -> Result<(), NoMemory>
    requires { AreTimed timed.now }
    ensures { OnOk result
        (records.new ≡ marked_section timed.now.moment (bare timed.now.sets.now) section records.old) }
{
    let places = judged_places(alloc, timed.sets, section)?;
    // how many signatures of each set were met
    let mut counts = vec![in alloc; 0usize; timed.sets.len()]?;
    for next in records.iter_mut() {
        mark(timed, &places, &mut counts, next);
    }
    Ok(())
}

// Gives a record the mark of its set. Of a set's signatures only the one that decided has it, so they are counted.
fn mark(timed: &TimedSets<'_>, places: &SetPlaces, counts: &mut [usize], next: &mut Record)
    requires timed { AreTimed timed.now }
    requires placed { (n : ℕ) → place_for places.now next.old ≡ Some n → n < length timed.now.sets.now }
    requires each { length counts.old ≡ length timed.now.sets.now }
    requires few { count_at counts.old (place_for places.now next.old) < 2 ^ 63 }
    ensures mark { let place = place_for places.now next.old in
        next.new ≡ marked_by timed.now.moment (count_at counts.old place) next.old
        (set_at (bare timed.now.sets.now) place) }
    ensures counts { counts.new ≡ counted counts.old (place_for places.now next.old) next.old }
{
    let (record_type, readable) = set_rtype(next);
    match places.get(&next.name, record_type) {
        Some(place) => {
            let set = &timed.sets[place];
            mark_by(&set.judged, timed.ttls[place], counts[place], next);
            count(readable, place, counts);
        }
        None => clear_one(next),
    }
}

// Counts one more of the set at a place, where it can be read.
fn count(readable: bool, place: usize, counts: &mut [usize])
    requires within { place < length counts.old }
    requires few { count_at counts.old (Some place) < 2 ^ 63 }
    ensures { counts.new ≡ counted_if counts.old place readable }
{
    if readable {
        counts[place] += 1;
    }
}

// Gives a record the mark of this set, and the ttl that the set leaves to it; a signature, behind so many of the set, only where
// it is the one that decided.
fn mark_by(judged: &MarkedSet, ttl: Option<u32>, before: usize, next: &mut Record)
    ensures { next.new ≡ marked_with ttl before next.old judged.now }
{
    if next.record_type == RecordType::RRSIG && !is_place(judged.sig, before) {
        clear_one(next);
    } else {
        next.ttl = ttl.unwrap_or(next.ttl);
        next.proof = judged.mark;
    }
}

// Whether the signature that decided stands at a place.
fn is_place(decided: Option<u32>, place: usize) -> bool
    ensures { result ≡ is_same_place decided place }
{
    match decided {
        Some(decider) => decider as usize == place,
        None => false,
    }
}
