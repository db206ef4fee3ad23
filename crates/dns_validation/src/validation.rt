//! A validation: what it wants, what it is told, what it gives out to be kept, and its answer.

ghost use Rattle.std.specs.Prelude.{◌≡◌, ◌⊎◌, false, [], List, None, IfOk, OnOk, IfSome, IsSome};
ghost use Rattle.dns_handle.specs.Replies.{reply_of};
ghost use Rattle.dns_rules.specs.CacheEntries.{EntryValue};
ghost use Rattle.dns_handle.specs.Requests.{first_question};
ghost use Rattle.dns_trust.specs.Judge.{judge_of};
ghost use Rattle.dns_validation.specs.Machine.{begin as begin_of, none_open as none_open_in};
ghost use Rattle.dns_validation.specs.Requests.{asking_request, checked_request};
ghost use Rattle.dns_validation.specs.Comes.{Comes};
ghost use Rattle.dns_validation.specs.Runs.{Sent, Run, IsOut, HasHeard, HasTaken, GoesOn, TakesOn, moves as moves_on, request_at};
ghost use Rattle.std.specs.Option.{option_map};
ghost use Rattle.dns_validation.specs.AcceptedChains.{AreAccepted};
ghost use Rattle.dns_validation.specs.Terms.{terms_of};
ghost use Rattle.dns_validation.specs.Validations.{AcceptedWhereKept, asking_at, wanted_in as wanted_of};

use crate::accepted::AcceptedChains;
use crate::context::Context;
use crate::hearing::hear;
use crate::keeping::{find, next_kept, remember};
use crate::made::MadeList;
use crate::requests::{checked, request_for};
use crate::state::{State, none_open, settle};
use dns_cache::{Acceptance, CacheKey, Entry, TtlRanges};
use dns_evidence::{IterationLimits, Verifier};
use dns_flow::Ask;
use dns_handle::{DnsRequest, DnsRequestOptions, DnsResponse, NetError};
use dns_record::{NoMemory, Query};
use dns_trust::Judge;
use std::alloc::Global;
use std::collections::VecDeque;
use std::marker::Model;

/// The validation of a query (RFC 4035, 5): it says what it asks, is told the reply to that, and goes on, until it has its answer.
/// It holds no handle.
#[derive(Drop)]
pub struct Validation<'a, V: Verifier> {
    context: Context<'a, V>,
    state: State,
    accepted: AcceptedChains,
}

// A run has come to where it stands, or memory ran out; and the verifier accepts the chains that it remembers.
impl<'a, V: Verifier> Model for Validation<'a, V> {
    ghost use Rattle.dns_validation.specs.ValidationValues.{ValidationValue};

    ghost Value = { ValidationValue V };

    ghost use Rattle.dns_validation.specs.Reached.{IsSound};

    ghost view = { λ v. record { context = v.context; state = v.state } };

    ghost invariant = { λ v. IsSound V.answers v.context v.state v.accepted.chains };
}

/// What a validation wants.
#[derive(Drop)]
pub enum Wanted {
    /// The reply to an ask.
    Reply(Asking),
    /// What was kept of the set with this key.
    Entry(CacheKey),
}

/// What a validation asks.
#[derive(Drop)]
pub struct Asking {
    /// The request to send.
    pub request: DnsRequest,
    /// The reply is judged; else it is only seen.
    pub judged: bool,
}

impl<'a, V: Verifier> Validation<'a, V> {
    ghost use Rattle.dns_validation.specs.Left.{IsLeft};
    ghost use Rattle.dns_validation.specs.Machine.{first_kept, given_out};
    ghost use Rattle.dns_validation.specs.Validations.{AcceptedWhereKept, terms_in, state_of, terms_by, wanted_in};

    /// Begins with a query. Its own request is sent for it, as that of each judged ask: with EDNS and DO, AD set and CD clear. The
    /// only error is running out of memory. NSEC3 records prove something up to so many iterations of their hash.
    pub fn new(
        alloc: Global,
        judge: Judge<'a, V>,
        query: Query,
        options: DnsRequestOptions,
        iterations: IterationLimits,
        ranges: TtlRanges,
    ) -> Result<Validation<'a, V>, NoMemory>
        ensures terms { IfOk result (λ v. terms_in V.answers v
            ≡ terms_by (judge_of V.answers judge.entry) query (asking_request query options) options iterations ranges
            judge.entry.moment) }
        ensures begins { IfOk result (λ v. state_of v ≡ begin_of query) }
        ensures run { IfOk result (λ v. (cached : List EntryValue) → Run (terms_in V.answers v) cached [] (state_of v)) }
    {
        let request = request_for(alloc, &query, &options, true)?;
        begin(alloc, judge, query, request, options, iterations, ranges)
    }

    /// Begins with a query and the request that is sent for it, with EDNS and DO, AD set and CD clear: else as it is given. The
    /// other asks are by the options of the request. The only error is running out of memory.
    pub fn by_request(
        alloc: Global,
        judge: Judge<'a, V>,
        query: Query,
        request: DnsRequest,
        iterations: IterationLimits,
        ranges: TtlRanges,
    ) -> Result<Validation<'a, V>, NoMemory>
        requires asked { first_question request ≡ Some query }
        ensures terms { IfOk result (λ v. terms_in V.answers v
            ≡ terms_by (judge_of V.answers judge.entry) query (checked_request request) request.options iterations ranges
            judge.entry.moment) }
        ensures begins { IfOk result (λ v. state_of v ≡ begin_of query) }
        ensures run { IfOk result (λ v. (cached : List EntryValue) → Run (terms_in V.answers v) cached [] (state_of v)) }
    {
        let options = request.options;
        let request = checked(alloc, request);
        begin(alloc, judge, query, request, options, iterations, ranges)
    }

    /// What it wants; None where it has come to its end, also where memory runs out for the request. Before the answer, it wants the
    /// same again. Whatever it gives out to be kept before is to be kept before it is told what was kept of a set.
    pub fn next(&mut self) -> Option<Wanted>
        ensures terms { terms_in V.answers self.new ≡ terms_in V.answers self.old }
        ensures asks { IsOut (state_of self.new) ⊎ (result ≡ wanted_in (terms_in V.answers self.old) (state_of self.old)) }
        ensures same { IsOut (state_of self.new) ⊎ (state_of self.new ≡ state_of self.old) }
        ensures out { IsOut (state_of self.new) → result ≡ None }
    {
        match next_wanted(&self.context, &self.state) {
            Ok(wanted) => wanted,
            Err(_) => {
                run_out(&self.context, &mut self.state);
                None
            }
        }
    }

    /// Takes the reply to what it asked, and goes on. Running out of memory, also as the reply, ends it. Where nothing waits for a reply, it
    /// lets it go.
    pub fn answer(&mut self, reply: Result<DnsResponse, NetError>)
        ensures terms { terms_in V.answers self.new ≡ terms_in V.answers self.old }
        ensures idle { (state_of self.old).pending ≡ None → state_of self.new ≡ state_of self.old }
        ensures heard { IsSome (state_of self.old).pending → IsOut (state_of self.new)
            ⊎ HasHeard (terms_in V.answers self.old) (state_of self.old) (reply_of reply) (state_of self.new) }
        ensures run { IsOut (state_of self.new)
            ⊎ GoesOn (terms_in V.answers self.old) (state_of self.old) (reply_of reply) (state_of self.new) }
    {
        take(&self.context, &mut self.state, reply);
    }

    /// Takes what was kept of the set that it asked for, if anything was, with whose acceptance its chain has, and goes on. An entry of
    /// another key than was asked for serves nothing. `Kept` is true, as it is of what `AcceptedBy::get_for` gives for the validation's
    /// verifier: of such a chain only anchors and times are tested, as of that of a key set which this validation has judged or tested
    /// itself. The chains that it remembers for this are those of asked key sets, at most one for each send. Where memory runs out, it
    /// ends. Where no set waits, the entry is freed.
    pub fn found(&mut self, given: Option<(Entry, Acceptance)>)
        requires accepted { AcceptedWhereKept (terms_in V.answers self.old).judge.answers given }
        ensures terms { terms_in V.answers self.new ≡ terms_in V.answers self.old }
        ensures idle { (state_of self.old).seeking ≡ None → state_of self.new ≡ state_of self.old }
        ensures taken { IsSome (state_of self.old).seeking → IsOut (state_of self.new)
            ⊎ HasTaken (terms_in V.answers self.old) (state_of self.old) given (state_of self.new) }
        ensures run { IsOut (state_of self.new)
            ⊎ TakesOn (terms_in V.answers self.old) (state_of self.old) given (state_of self.new) }
    {
        take_entry(&self.context, &mut self.state, &mut self.accepted, given);
    }

    /// The next of what it gives out to be kept, in the order in which its steps ended; None where nothing is left.
    pub fn kept(&mut self) -> Option<Entry>
        ensures terms { terms_in V.answers self.new ≡ terms_in V.answers self.old }
        ensures gives { result ≡ first_kept (state_of self.old).kept }
        ensures leaves { state_of self.new ≡ given_out (state_of self.old) }
        ensures left { IfSome result (λ e. (cached : List EntryValue) (sends : List Sent)
            → Run (terms_in V.answers self.old) cached sends (state_of self.old) → IsLeft (terms_in V.answers self.old) sends e) }
    {
        let entry = next_kept(&mut self.state)?;
        remember(&self.state, &mut self.accepted, &entry);
        Some(entry)
    }

    /// The answer of a validation that has come to its end, as a lookup gives it: by a trail of exactly the sends of its run. None
    /// where it still waits for a reply.
    pub fn into_answer(self) -> Option<Result<DnsResponse, NetError>>
        ensures answer { option_map reply_of result ≡ (state_of self.entry).ended }
        ensures comes { IfSome result (λ r. (cached : List EntryValue) (sends : List Sent)
            → Run (terms_in V.answers self.entry) cached sends (state_of self.entry)
            → Comes (terms_in V.answers self.entry) cached sends (reply_of r)) }
        ensures ends { (cached : List EntryValue) (sends : List Sent) → Run (terms_in V.answers self.entry) cached sends (state_of self.entry)
            → (state_of self.entry).pending ≡ None → (state_of self.entry).seeking ≡ None → moves_on (state_of self.entry) ≡ false → IsSome result }
    {
        let Validation { state, .. } = self;
        answer_in(state)
    }
}

// A validation begins.
fn begin<'a, V: Verifier>(
    alloc: Global,
    judge: Judge<'a, V>,
    query: Query,
    request: DnsRequest,
    options: DnsRequestOptions,
    iterations: IterationLimits,
    ranges: TtlRanges,
) -> Result<Validation<'a, V>, NoMemory>
    ensures context { IfOk result (λ v. v.context
        ≡ record {
          alloc = alloc;
          judge = judge.entry;
          query = query;
          request = request;
          options = options;
          iterations = iterations;
          ranges = ranges;
        }) }
    ensures begins { IfOk result (λ v. v.state ≡ begin_of query) }
    ensures run { IfOk result (λ v. (cached : List EntryValue) → Run (terms_of V.answers v.context) cached [] v.state) }
{
    let asked = query.try_clone()?;
    let state = first_state(alloc, asked);
    let context = Context {
        alloc,
        judge,
        query,
        request,
        options,
        iterations,
        ranges,
    };
    Ok(Validation {
        context,
        state,
        accepted: AcceptedChains::new(alloc),
    })
}

// It asks for its query.
fn first_state(alloc: Global, query: Query) -> State
    ensures { result ≡ begin_of query }
{
    let ask = Ask {
        query,
        judged: true,
    };
    State {
        closed: Vec::new(alloc),
        steps: Vec::new(alloc),
        seeking: None,
        pending: Some(ask),
        sends: 0,
        made: MadeList::new(alloc),
        kept: VecDeque::new(alloc),
        ended: None,
    }
}

// What a validation wants.
fn next_wanted<V: Verifier>(
    context: &Context<'_, V>,
    state: &State,
) -> Result<Option<Wanted>, NoMemory>
    ensures { IfOk result (λ w. w ≡ wanted_of (terms_of V.answers context.now) state.now) }
{
    match &state.seeking {
        Some(seeking) => {
            let key = CacheKey::of(&seeking.so_far.query, &seeking.placed.set)?;
            Ok(Some(Wanted::Entry(key)))
        }
        None => Ok(next_ask(context, state)?.map(Wanted::Reply)),
    }
}

// Takes what was kept, unless no set waits for it.
fn take_entry<V: Verifier>(
    context: &Context<'_, V>,
    state: &mut State,
    accepted: &mut AcceptedChains,
    given: Option<(Entry, Acceptance)>,
)
    requires given { AcceptedWhereKept (terms_of V.answers context.now).judge.answers given }
    requires accepted { AreAccepted (terms_of V.answers context.now).judge.answers accepted.old.chains }
    ensures idle { state.old.seeking ≡ None → state.new ≡ state.old }
    ensures taken { IsSome state.old.seeking → IsOut state.new
        ⊎ HasTaken (terms_of V.answers context.now) state.old given state.new }
    ensures accepted { AreAccepted (terms_of V.answers context.now).judge.answers accepted.new.chains }
{
    if state.seeking.is_none() {
        return;
    }
    if find_on(context, state, accepted, given).is_err() {
        run_out(context, state);
    }
}

// Takes what was kept, and turns as far as it goes.
fn find_on<V: Verifier>(
    context: &Context<'_, V>,
    state: &mut State,
    accepted: &mut AcceptedChains,
    given: Option<(Entry, Acceptance)>,
) -> Result<(), NoMemory>
    requires given { AcceptedWhereKept (terms_of V.answers context.now).judge.answers given }
    requires accepted { AreAccepted (terms_of V.answers context.now).judge.answers accepted.old.chains }
    ensures taken { OnOk result (HasTaken (terms_of V.answers context.now) state.old given state.new) }
    ensures accepted { AreAccepted (terms_of V.answers context.now).judge.answers accepted.new.chains }
{
    find(context, state, accepted, given)?;
    settle(context, state)
}

// What a validation asks.
fn next_ask<V>(context: &Context<'_, V>, state: &State) -> Result<Option<Asking>, NoMemory>
    ensures { IfOk result (λ a. a ≡ option_map (asking_at context.now.request context.now.options
        (none_open_in state.now.steps)) state.now.pending) }
{
    let first = none_open(state);
    let Some(ask) = &state.pending else {
        return Ok(None);
    };
    let request = request_of(context, first, ask)?;
    Ok(Some(Asking {
        request,
        judged: ask.judged,
    }))
}

// The request of an ask, the first or another.
fn request_of<V>(context: &Context<'_, V>, first: bool, ask: &Ask) -> Result<DnsRequest, NoMemory>
    ensures { IfOk result (λ r. r ≡ request_at context.now.request context.now.options first ask.now) }
{
    if first {
        context.request.try_clone()
    } else {
        request_for(context.alloc, &ask.query, &context.options, ask.judged)
    }
}

// Takes a reply, unless no ask waits for one.
fn take<V: Verifier>(
    context: &Context<'_, V>,
    state: &mut State,
    reply: Result<DnsResponse, NetError>,
)
    ensures idle { state.old.pending ≡ None → state.new ≡ state.old }
    ensures heard { IsSome state.old.pending → IsOut state.new
        ⊎ HasHeard (terms_of V.answers context.now) state.old (reply_of reply) state.new }
{
    if state.pending.is_none() {
        return;
    }
    if go_on(context, state, reply).is_err() {
        run_out(context, state);
    }
}

// Hears a reply, and turns as far as it goes.
fn go_on<V: Verifier>(
    context: &Context<'_, V>,
    state: &mut State,
    reply: Result<DnsResponse, NetError>,
) -> Result<(), NoMemory>
    ensures { OnOk result (HasHeard (terms_of V.answers context.now) state.old (reply_of reply) state.new) }
{
    hear(context, state, reply)?;
    settle(context, state)
}

// Memory ran out.
fn run_out<V>(context: &Context<'_, V>, state: &mut State)
    ensures { IsOut state.new }
{
    let alloc = context.alloc;
    *state = State {
        closed: Vec::new(alloc),
        steps: Vec::new(alloc),
        seeking: None,
        pending: None,
        sends: state.sends,
        made: MadeList::new(alloc),
        kept: VecDeque::new(alloc),
        ended: Some(Err(NetError::NoMemory)),
    };
}

// The answer with which a validation has come to its end.
fn answer_in(state: State) -> Option<Result<DnsResponse, NetError>>
    ensures { option_map reply_of result ≡ state.ended }
{
    state.ended
}
