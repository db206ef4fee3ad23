//! What was kept and serves a set, and what a step that has ended leaves to be kept (RFC 4035, 4.5, 4.7 and 5.3.3).

ghost use Rattle.std.specs.Prelude.{◌≡◌, ◌∷◌, None, Some, IfOk, OnOk, length, map};
ghost use Rattle.std.specs.Option.{option_map};
ghost use Rattle.dns_model.specs.Keys.{VerifierAnswers};
ghost use Rattle.dns_model.specs.SoundAnswers.{is_secure as is_secure_mark};
ghost use Rattle.dns_rules.specs.CacheKeys.{key_of as key_in};
ghost use Rattle.dns_rules.specs.Serving.{links_of as links_in, still_holds as holds_of};
ghost use Rattle.dns_cache.specs.Caches.{HasAccepted};
ghost use Rattle.dns_cache.specs.declared.acceptance.Acceptance.TheVariants.{Kept};
ghost use Rattle.dns_evidence.specs.Link.{link_value};
ghost use Rattle.dns_cache.specs.Kinds.{kind_value};
ghost use Rattle.dns_trust.specs.Judge.{judge_of};
ghost use Rattle.dns_flow.specs.Causes.{found_of as found_in, is_net as is_net_in};
ghost use Rattle.dns_validation.specs.Machine.{chain_of as chain_in, entry_if, entry_if_kept, first_kept, found as found_by, given_out, giving, holds_given as holds_in, is_kept as is_kept_in, keeping, leaving, made_by as made_in, origin_of as origin_in, served_entry, served_set as served_set_of, serving as serving_of, went_on, with_set};
ghost use Rattle.dns_validation.specs.AcceptedChains.{AreAccepted};
ghost use Rattle.dns_validation.specs.Terms.{terms_of};
ghost use Rattle.dns_validation.specs.Validations.{AcceptedWhereKept};

use crate::accepted::AcceptedChains;
use crate::context::Context;
use crate::made::made_by;
use crate::open_step::{Seeking, StepSoFar, go_on_with, set_item};
use crate::state::{State, put};
use crate::steps::{entry_for, next_number};
use dns_cache::{Acceptance, CacheKey, Entry, ProofError, ProofErrorKind, RrsetProof};
use dns_chain_check::{mark_of, sig_of, still_holds, still_trusted};
use dns_evidence::{Chain, ChainedSet, Link, MarkedSet, PlacedSet, Verifier, clone_links};
use dns_flow::found_of;
use dns_model::{MarkOrigin, Proof};
use dns_record::{NoMemory, Query};
use std::alloc::Global;

/// Takes what was kept of the set that waits, if anything was, with whose acceptance its chain has.
pub(crate) fn find<V: Verifier>(
    context: &Context<'_, V>,
    state: &mut State,
    accepted: &mut AcceptedChains,
    given: Option<(Entry, Acceptance)>,
) -> Result<(), NoMemory>
    requires given { AcceptedWhereKept (terms_of V.answers context.now).judge.answers given }
    requires accepted { AreAccepted (terms_of V.answers context.now).judge.answers accepted.old.chains }
    ensures found { OnOk result (state.new ≡ found_by (terms_of V.answers context.now) given state.old) }
    ensures accepted { AreAccepted (terms_of V.answers context.now).judge.answers accepted.new.chains }
{
    let Some(seeking) = state.seeking.take() else {
        return Ok(());
    };
    let Seeking { so_far, placed } = seeking;
    match serving(context, accepted, &so_far, &placed, given)? {
        Some(entry) => serve(context, state, so_far, placed, entry),
        None => {
            let step = set_item(context, so_far, placed)?;
            put(state, step)
        }
    }
}

// The entry, where it serves the set: it was kept of the same set in an answer to the same question, and holds of it.
fn serving<V: Verifier>(
    context: &Context<'_, V>,
    accepted: &mut AcceptedChains,
    so_far: &StepSoFar,
    placed: &PlacedSet,
    given: Option<(Entry, Acceptance)>,
) -> Result<Option<Entry>, NoMemory>
    requires given { AcceptedWhereKept (terms_of V.answers context.now).judge.answers given }
    requires accepted { AreAccepted (terms_of V.answers context.now).judge.answers accepted.old.chains }
    ensures serving { IfOk result (λ o. o ≡ serving_of (judge_of V.answers context.now.judge) so_far.now.query placed.now given) }
    ensures accepted { AreAccepted (terms_of V.answers context.now).judge.answers accepted.new.chains }
{
    let Some((entry, acceptance)) = given else {
        return Ok(None);
    };
    if !entry.key.is_of(&so_far.query, &placed.set) {
        return Ok(None);
    }
    if holds_given(context, accepted, placed, &entry, acceptance)? {
        Ok(Some(entry))
    } else {
        Ok(None)
    }
}

// Whether what was found before holds of the set. Where it says Secure, of a chain that this verifier accepted only anchors and times are
// tested, and another verifier's acceptance counts for nothing.
fn holds_given<V: Verifier>(
    context: &Context<'_, V>,
    accepted: &mut AcceptedChains,
    placed: &PlacedSet,
    entry: &Entry,
    acceptance: Acceptance,
) -> Result<bool, NoMemory>
    requires given { acceptance ≡ Kept → HasAccepted (terms_of V.answers context.now).judge.answers entry.now }
    requires accepted { AreAccepted (terms_of V.answers context.now).judge.answers accepted.old.chains }
    ensures holds { IfOk result (λ b. b ≡ holds_in acceptance (judge_of V.answers context.now.judge) placed.now entry.now) }
    ensures accepted { AreAccepted (terms_of V.answers context.now).judge.answers accepted.new.chains }
{
    match acceptance {
        Acceptance::Kept => Ok(still_trusted(&context.judge, placed, entry)),
        Acceptance::Unknown => holds_by_itself(context, accepted, placed, entry),
        Acceptance::Other => Ok(!is_secure(mark_of(&entry.result))),
    }
}

// Whether what was found before holds of the set, where nobody's acceptance is known of. A chain that this validation has seen accepted
// isn't put to the verifier again.
fn holds_by_itself<V: Verifier>(
    context: &Context<'_, V>,
    accepted: &mut AcceptedChains,
    placed: &PlacedSet,
    entry: &Entry,
) -> Result<bool, NoMemory>
    requires accepted { AreAccepted (terms_of V.answers context.now).judge.answers accepted.old.chains }
    ensures holds { IfOk result (λ b. b ≡ holds_of (judge_of V.answers context.now.judge) placed.now entry.now) }
    ensures accepted { AreAccepted (terms_of V.answers context.now).judge.answers accepted.new.chains }
{
    if accepted.has(entry) {
        return Ok(still_trusted(&context.judge, placed, entry));
    }
    let holds = still_holds(context.alloc, &context.judge, placed, entry)?;
    if holds {
        accepted.add(entry);
    }
    Ok(holds)
}

// The mark is Secure.
fn is_secure(mark: Proof) -> bool
    ensures { result ≡ is_secure_mark mark }
{
    mark == Proof::Secure
}

// The set is served.
fn serve<V: Verifier>(
    context: &Context<'_, V>,
    state: &mut State,
    so_far: Box<StepSoFar>,
    placed: PlacedSet,
    entry: Entry,
) -> Result<(), NoMemory>
    ensures { OnOk result (state.new ≡ went_on (terms_of V.answers context.now)
        (with_set so_far.value (served_set_of placed entry)
        (served_entry (origin_in state.old.made entry) (served_set_of placed entry)) None) state.old) }
{
    let origin = state.made.origin_of(&entry);
    let set = served_set(context.alloc, placed, entry);
    let served = entry_for(&set.judged, origin, Vec::new(context.alloc))?;
    go_on_with(context, state, so_far, set, served, None)
}

// The set with the mark that was kept, and its chain where it is Secure.
fn served_set(alloc: Global, placed: PlacedSet, entry: Entry) -> ChainedSet
    ensures { result ≡ served_set_of placed entry }
{
    let PlacedSet { section, set } = placed;
    let mark = mark_of(&entry.result);
    let judged = MarkedSet {
        section,
        set,
        mark,
        sig: sig_of(&entry.result),
    };
    let chain = if is_secure(mark) {
        links_of(alloc, entry)
    } else {
        Vec::new(alloc)
    };
    ChainedSet { judged, chain }
}

// The links of its chain.
fn links_of(alloc: Global, entry: Entry) -> Vec<Link>
    ensures { map link_value result.items ≡ links_in entry.chain }
{
    match entry.into_chain() {
        Some(chain) => chain.links,
        None => Vec::new(alloc),
    }
}

/// A step ends, the next by its number, and leaves what the rules found of its sets to be kept.
pub(crate) fn keep<V: Verifier>(
    context: &Context<'_, V>,
    state: &mut State,
    so_far: &StepSoFar,
) -> Result<(), NoMemory>
    ensures { OnOk result (state.new ≡ keeping (terms_of V.answers context.now) (length state.old.closed) so_far.now state.old) }
{
    let number = next_number(&state.closed)?;
    keep_sets(
        context,
        state,
        number,
        &so_far.query,
        &so_far.sets,
        &so_far.causes,
    )
}

// Leaves what was found of some sets.
fn keep_sets<V: Verifier>(
    context: &Context<'_, V>,
    state: &mut State,
    number: u32,
    query: &Query,
    mut sets: &[ChainedSet],
    mut causes: &[Option<ProofErrorKind>],
) -> Result<(), NoMemory>
    ensures { OnOk result (state.new ≡ leaving (terms_of V.answers context.now) number query.now sets.entry.now
        (map (option_map kind_value) causes.entry.now) state.old) }
{
    'sets: while let Some((set, sets_left)) = sets.split_first() {
        let Some((cause, causes_left)) = causes.split_first() else {
            return Ok(());
        };
        keep_set(context, state, number, query, set, cause)?;
        sets = sets_left;
        causes = causes_left;
    }
    Ok(())
}

// Leaves what was found of one set.
fn keep_set<V: Verifier>(
    context: &Context<'_, V>,
    state: &mut State,
    number: u32,
    query: &Query,
    set: &ChainedSet,
    cause: &Option<ProofErrorKind>,
) -> Result<(), NoMemory>
    ensures { OnOk result (state.new ≡ giving number (entry_if (terms_of V.answers context.now) query.now
        (set.now, option_map kind_value cause.now)) state.old) }
{
    let Some(cause) = cause else {
        return Ok(());
    };
    let cause = cause.try_clone()?;
    match entry_of(context, query, set, cause)? {
        Some(entry) => give_out(state, number, entry),
        None => Ok(()),
    }
}

// What is kept of a set that isn't Secure for this cause, if it isn't; nothing where an ask failed.
#[tactic(auto, using(crate::proofs::KeepLemmas::entry_backed))]
fn entry_of<V: Verifier>(
    context: &Context<'_, V>,
    query: &Query,
    set: &ChainedSet,
    cause: ProofErrorKind,
) -> Result<Option<Entry>, NoMemory>
    ensures { IfOk result (λ o. o ≡ entry_if_kept (terms_of V.answers context.now) query.now set.now
        (found_in context.now.judge.moment set.now.judged (kind_value cause))) }
{
    let found = found_of(context.judge.moment, &set.judged, cause);
    if !is_kept(&found) {
        return Ok(None);
    }
    let (key, chain) = key_and_chain(query, set)?;
    let ranges = &context.ranges;
    let expires = ranges.expires(context.judge.moment, &set.judged.set, &found, &chain);
    Ok(Some(Entry::new(key, expires, found, chain)))
}

// The key of a set in the answer to a query, and its chain.
fn key_and_chain(query: &Query, set: &ChainedSet) -> Result<(CacheKey, Option<Chain>), NoMemory>
    ensures key { IfOk result (λ r. r.0 ≡ key_in query.now set.now.judged.set) }
    ensures chain { IfOk result (λ r. r.1 ≡ chain_in set.now) }
{
    let key = CacheKey::of(query, &set.judged.set)?;
    let chain = chain_of(set)?;
    Ok((key, chain))
}

// What is found is kept, but for an ask that failed.
fn is_kept(found: &Result<RrsetProof, ProofError>) -> bool
    ensures { result ≡ is_kept_in found.now }
{
    match found {
        Ok(_) => true,
        Err(error) => !is_net(&error.kind),
    }
}

// An ask failed.
fn is_net(kind: &ProofErrorKind) -> bool
    ensures { result ≡ is_net_in (kind_value kind.now) }
{
    matches!(kind, ProofErrorKind::Net { .. })
}

// The chain of a Secure set.
fn chain_of(set: &ChainedSet) -> Result<Option<Chain>, NoMemory>
    ensures { IfOk result (λ c. c ≡ chain_in set.now) }
{
    if !is_secure(set.judged.mark) {
        return Ok(None);
    }
    let links = clone_links(&set.chain)?;
    Ok(Some(Chain {
        section: set.judged.section,
        links,
    }))
}

// An entry is to be given out, and is known as made by the step with a number.
fn give_out(state: &mut State, number: u32, entry: Entry) -> Result<(), NoMemory>
    ensures { OnOk result (state.new ≡ giving number (Some entry) state.old) }
{
    let made = made_by(number, &entry)?;
    state.made.push(made)?;
    state.kept.push_back(entry)?;
    Ok(())
}

/// The next of what is to be given out.
pub(crate) fn next_kept(state: &mut State) -> Option<Entry>
    ensures gives { result ≡ first_kept state.old.kept }
    ensures leaves { state.new ≡ given_out state.old }
{
    state.kept.pop_front()
}

/// Remembers the chain of an entry that is given out, unless the validation has come to its end: then no set asks for keys any more,
/// and the copy would serve nothing.
pub(crate) fn remember(state: &State, accepted: &mut AcceptedChains, entry: &Entry)
    ensures { (answers : VerifierAnswers) → AreAccepted answers accepted.old.chains → HasAccepted answers entry.now
        → AreAccepted answers accepted.new.chains }
{
    if state.ended.is_none() {
        accepted.add(entry);
    }
}
