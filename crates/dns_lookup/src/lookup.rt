//! A lookup: one loop over a validation and a handle, which serves from a cache what that has, and keeps in it what is found.

ghost use Rattle.std.specs.Prelude.{◌≡◌, ◌≤◌, None, Some, IfOk, OnOk};
ghost use Rattle.dns_handle.specs.Handles.{OrUnsent};
ghost use Rattle.dns_handle.specs.Replies.{reply_of};
ghost use Rattle.dns_handle.specs.Requests.{first_question};
ghost use Rattle.dns_trust.specs.Judge.{judge_of};
ghost use Rattle.dns_validation.specs.Machine.{begin};
ghost use Rattle.dns_validation.specs.Validations.{terms_in, state_of};
ghost use Rattle.dns_lookup.specs.Answering.{AnswersLookup, call_by, terms_by_request, terms_for};
ghost use Rattle.dns_lookup.specs.Caching.{UsesCache};
ghost use Rattle.dns_lookup.specs.Calls.{use_of};
ghost use Rattle.dns_lookup.specs.Driving.{HandsOn, LeftByKeeping, ServesOn, cache_state, kept_all};
ghost use Rattle.dns_lookup.specs.Fronts.{IsFront, SendsOfTerms};
ghost use Rattle.dns_lookup.specs.LookupAnswers.{OfAnswer, UnlessNoMemory};

use dns_cache::{AcceptedBy, CacheKey, TtlRanges, ValidationCache};
use dns_evidence::{IterationLimits, Verifier};
use dns_handle::{DnsHandle, DnsRequest, DnsRequestOptions, DnsResponse, NetError};
use dns_record::{NoMemory, Query};
use dns_trust::Judge;
use dns_validation::{Asking, Validation, Wanted};
use std::alloc::Global;

/// How many iterations of a hash a lookup counts, and for how long what it finds is kept.
#[derive(Clone, Copy)]
pub(crate) struct Bounds {
    pub(crate) iterations: IterationLimits,
    pub(crate) ranges: TtlRanges,
}

/// One lookup by its query's own request, at the moment of the judge. Where memory runs out before the send, nothing is sent and
/// the handle doesn't change.
pub(crate) fn look_up<H: DnsHandle, V: Verifier, C: AcceptedBy<V>>(
    alloc: Global,
    judge: Judge<'_, V>,
    handle: &mut H,
    cache: &mut C,
    query: Query,
    options: DnsRequestOptions,
    bounds: Bounds,
) -> Result<DnsResponse, NetError>
    ensures later { H.faults handle.old ≤ H.faults handle.new }
    ensures front { IsFront H.DnsHandle
        (terms_for (judge_of V.answers judge.entry) query options bounds.iterations bounds.ranges judge.entry.moment)
        (use_of C.ValidationCache cache.old cache.new) handle.old handle.new (reply_of result) }
    ensures sends { OrUnsent handle.old handle.new result (SendsOfTerms H.DnsHandle
        (terms_for (judge_of V.answers judge.entry) query options bounds.iterations bounds.ranges judge.entry.moment)
        handle.old handle.new) }
    ensures lookup { UnlessNoMemory result (AnswersLookup H.DnsHandle (call_by
        (terms_for (judge_of V.answers judge.entry) query options bounds.iterations bounds.ranges judge.entry.moment)
        (use_of C.ValidationCache cache.old cache.new) handle.old handle.new) (reply_of result)) }
    ensures cached { OfAnswer (reply_of result) (λ a ending. UsesCache (call_by
        (terms_for (judge_of V.answers judge.entry) query options bounds.iterations bounds.ranges judge.entry.moment)
        (use_of C.ValidationCache cache.old cache.new) handle.old handle.new) a.trail) }
{
    let now = judge.moment;
    let verifier = judge.verifier;
    let Bounds { iterations, ranges } = bounds;
    let validation = Validation::new(alloc, judge, query, options, iterations, ranges)?;
    drive(alloc, handle, cache, verifier, validation, now)
}

/// One lookup by a request with its query. What is sent for it is this request, with EDNS and DO, AD set and CD clear.
pub(crate) fn look_up_by_request<H: DnsHandle, V: Verifier, C: AcceptedBy<V>>(
    alloc: Global,
    judge: Judge<'_, V>,
    handle: &mut H,
    cache: &mut C,
    query: Query,
    request: DnsRequest,
    bounds: Bounds,
) -> Result<DnsResponse, NetError>
    requires asked { first_question request ≡ Some query }
    ensures later { H.faults handle.old ≤ H.faults handle.new }
    ensures front { IsFront H.DnsHandle
        (terms_by_request (judge_of V.answers judge.entry) query request bounds.iterations bounds.ranges judge.entry.moment)
        (use_of C.ValidationCache cache.old cache.new) handle.old handle.new (reply_of result) }
    ensures sends { OrUnsent handle.old handle.new result (SendsOfTerms H.DnsHandle
        (terms_by_request (judge_of V.answers judge.entry) query request bounds.iterations bounds.ranges judge.entry.moment)
        handle.old handle.new) }
    ensures lookup { UnlessNoMemory result (AnswersLookup H.DnsHandle (call_by
        (terms_by_request (judge_of V.answers judge.entry) query request bounds.iterations bounds.ranges judge.entry.moment)
        (use_of C.ValidationCache cache.old cache.new) handle.old handle.new) (reply_of result)) }
    ensures cached { OfAnswer (reply_of result) (λ a ending. UsesCache (call_by
        (terms_by_request (judge_of V.answers judge.entry) query request bounds.iterations bounds.ranges judge.entry.moment)
        (use_of C.ValidationCache cache.old cache.new) handle.old handle.new) a.trail) }
{
    let now = judge.moment;
    let verifier = judge.verifier;
    let Bounds { iterations, ranges } = bounds;
    let validation = Validation::by_request(alloc, judge, query, request, iterations, ranges)?;
    drive(alloc, handle, cache, verifier, validation, now)
}

// Asks a handle what a validation asks, one send after another, up to its answer, and serves from a cache what that has. `now` is in
// seconds.
fn drive<H: DnsHandle, V: Verifier, C: AcceptedBy<V>>(
    alloc: Global,
    handle: &mut H,
    cache: &mut C,
    verifier: &V,
    begun: Validation<'_, V>,
    now: u64,
) -> Result<DnsResponse, NetError>
    requires begins { state_of begun ≡ begin ((terms_in V.answers begun).query) }
    requires asked { first_question (terms_in V.answers begun).request ≡ Some ((terms_in V.answers begun).query) }
    requires moment { (terms_in V.answers begun).now ≡ now }
    requires verifier { (terms_in V.answers begun).judge.answers ≡ V.answers verifier.now }
    ensures later { H.faults handle.old ≤ H.faults handle.new }
    ensures front { IsFront H.DnsHandle (terms_in V.answers begun.entry) (use_of C.ValidationCache cache.old cache.new)
        handle.old handle.new (reply_of result) }
    ensures sends { OrUnsent handle.old handle.new result
        (SendsOfTerms H.DnsHandle (terms_in V.answers begun.entry) handle.old handle.new) }
    ensures lookup { UnlessNoMemory result (AnswersLookup H.DnsHandle
        (call_by (terms_in V.answers begun.entry) (use_of C.ValidationCache cache.old cache.new) handle.old handle.new)
        (reply_of result)) }
    ensures cached { OfAnswer (reply_of result) (λ a ending. UsesCache
        (call_by (terms_in V.answers begun.entry) (use_of C.ValidationCache cache.old cache.new) handle.old handle.new) a.trail) }
{
    let mut validation = begun;
    'asks: while let Some(asking) = serve(alloc, cache, verifier, &mut validation, now)? {
        let reply = handle.send(alloc, asking.request, now);
        validation.answer(reply);
    }
    match validation.into_answer() {
        Some(answer) => answer,
        None => unreachable!(),
    }
}

// Serves from a cache what a validation wants of it, and keeps what that gives out, until it asks for a reply or wants nothing more.
fn serve<V: Verifier, C: AcceptedBy<V>>(
    alloc: Global,
    cache: &mut C,
    verifier: &V,
    validation: &mut Validation<'_, V>,
    now: u64,
) -> Result<Option<Asking>, NoMemory>
    requires moment { (terms_in V.answers validation.old).now ≡ now }
    requires verifier { (terms_in V.answers validation.old).judge.answers ≡ V.answers verifier.now }
    ensures terms { terms_in V.answers validation.new ≡ terms_in V.answers validation.old }
    ensures serves { ServesOn (terms_in V.answers validation.old) (state_of validation.old) (cache_state C.ValidationCache cache.old)
        result (state_of validation.new) (cache_state C.ValidationCache cache.new) }
    ensures idle { (state_of validation.old).pending ≡ None → (state_of validation.old).seeking ≡ None → IfOk result (λ a. a ≡ None) }
{
    'sets: loop {
        keep(alloc, cache, validation)?;
        match validation.next() {
            None => return Ok(None),
            Some(Wanted::Reply(asking)) => return Ok(Some(asking)),
            Some(Wanted::Entry(key)) => hand_on(alloc, cache, verifier, validation, &key, now)?,
        }
    }
}

// Hands on to a validation what a cache gives for the key that it wants, and with whose acceptance.
fn hand_on<V: Verifier, C: AcceptedBy<V>>(
    alloc: Global,
    cache: &mut C,
    verifier: &V,
    validation: &mut Validation<'_, V>,
    key: &CacheKey,
    now: u64,
) -> Result<(), NoMemory>
    requires verifier { (terms_in V.answers validation.old).judge.answers ≡ V.answers verifier.now }
    ensures terms { terms_in V.answers validation.new ≡ terms_in V.answers validation.old }
    ensures handed { HandsOn (C.may_give cache.old key.now now) (terms_in V.answers validation.old) key.now now
        (cache_state C.ValidationCache cache.old) (cache_state C.ValidationCache cache.new)
        (state_of validation.old) (state_of validation.new) result }
{
    let given = cache.get_for(alloc, key, now, verifier)?;
    validation.found(given);
    Ok(())
}

// Keeps what a validation gives out.
fn keep<V: Verifier, C: ValidationCache>(
    alloc: Global,
    cache: &mut C,
    validation: &mut Validation<'_, V>,
) -> Result<(), NoMemory>
    ensures terms { terms_in V.answers validation.new ≡ terms_in V.answers validation.old }
    ensures left { LeftByKeeping (state_of validation.old).kept (C.told cache.old) (C.told cache.new) result }
    ensures hits { C.hits cache.new ≡ C.hits cache.old }
    ensures state { OnOk result (state_of validation.new ≡ kept_all (state_of validation.old)) }
{
    'entries: while let Some(entry) = validation.kept() {
        cache.insert(alloc, entry)?;
    }
    Ok(())
}
