//! The lookup that a session asks for, and what it is made of: an upstream, a verifier and trusted keys.
ghost use Rattle.std.specs.Prelude.{◌≡◌, [], unwrap_or, IfOk};
ghost use Rattle.dns_model.specs.Keys.{anchored};
ghost use Rattle.dns_handle.specs.Replies.{reply_of};
ghost use Rattle.dns_handle.specs.Requests.{plain_options};
ghost use Rattle.dns_lookup.specs.Calls.{inner_of, anchors_of, verifier_of, iterations_of, cache_of, ranges_of};
ghost use Rattle.dns_lookup.specs.Limiting.{default_iterations, default_entries, default_ranges};
ghost use Rattle.dns_lookup.specs.LookupAnswers.{UnlessNoMemory};
ghost use Rattle.dns_session_lookup.specs.Answering.{recorded_by, session_depth};
ghost use Rattle.dns_session_lookup.specs.Causes.{AnswersSession};
ghost use Rattle.dns_session_lookup.specs.Verifying.{session_answers, verifier_answers};

use crate::replies::reply_from;
use crate::verification::{SessionVerifier, Verification, session_verifier};
use dns_handle::{DnsRequestOptions, DnsResponse, NetError};
use dns_lookup::DnssecDnsHandle;
use dns_record::{NoMemory, Query};
use dns_recorded::Recorded;
use dns_session::{Anchor, Session, SessionReply};
use dns_trust::TrustAnchors;
use std::alloc::Global;

/// The lookup that a session asks for: a validator, and what it is asked.
#[derive(Drop)]
pub struct SessionLookup {
    /// Over the session's upstream, with its verifier and the keys that it trusts.
    pub validator: DnssecDnsHandle<Recorded, SessionVerifier>,
    /// What is looked up.
    pub query: Query,
    /// They ask for nothing but the session's depth.
    pub options: DnsRequestOptions,
    /// Seconds.
    pub moment: u64,
}

/// What a session's query is answered, with options that ask for nothing but the session's depth, and at its moment; `how` says how
/// its signatures are verified.
pub fn session_answer(
    alloc: Global,
    how: Verification,
    session: Session,
) -> Result<DnsResponse, NetError>
    ensures { UnlessNoMemory result (AnswersSession how session (reply_of result)) }
{
    let made = session_lookup(alloc, how, session)?;
    let SessionLookup {
        mut validator,
        query,
        options,
        moment,
    } = made;
    validator.lookup(alloc, query, options, moment)
}

/// The lookup that a session asks for, before it is made; `how` says how its signatures are verified.
pub fn session_lookup(
    alloc: Global,
    how: Verification,
    session: Session,
) -> Result<SessionLookup, NoMemory>
    ensures upstream { IfOk result (λ l. inner_of l.validator ≡ recorded_by session.by_turn session.replies) }
    ensures anchors { IfOk result (λ l. anchored (anchors_of l.validator) ≡ anchored session.anchors) }
    ensures verifier { IfOk result (λ l. verifier_answers (verifier_of l.validator) ≡ session_answers how session) }
    ensures iterations { IfOk result (λ l. iterations_of l.validator ≡ default_iterations) }
    ensures cache { IfOk result (λ l. cache_of l.validator ≡ record { list = default_entries; hits = 0 }) }
    ensures ranges { IfOk result (λ l. ranges_of l.validator ≡ default_ranges) }
    ensures query { IfOk result (λ l. l.query ≡ session.query) }
    ensures options { IfOk result (λ l. l.options
        ≡ record plain_options { max_request_depth = session_depth session }) }
    ensures moment { IfOk result (λ l. l.moment ≡ session.moment) }
{
    let Session {
        by_turn,
        moment,
        depth,
        algorithms,
        anchors,
        accepts,
        query,
        replies,
    } = session;
    let verifier = session_verifier(alloc, how, &algorithms, accepts)?;
    let anchors = session_anchors(alloc, anchors)?;
    let upstream = session_upstream(alloc, by_turn, replies)?;
    let validator = DnssecDnsHandle::new(alloc, upstream, anchors, verifier)?;
    let options = session_options(depth);
    Ok(SessionLookup {
        validator,
        query,
        options,
        moment,
    })
}

/// Options that ask for nothing but the depth that a session says, or the default one where it says none.
pub fn session_options(depth: Option<u16>) -> DnsRequestOptions
    ensures { result ≡ record plain_options { max_request_depth = unwrap_or depth plain_options.max_request_depth } }
{
    let mut options = DnsRequestOptions::default();
    if let Some(depth) = depth {
        options.max_request_depth = depth;
    }
    options
}

// A handle without replies, which serves by turn or not.
fn empty_upstream(alloc: Global, by_turn: bool) -> Recorded
    ensures { result ≡ recorded_by by_turn [] }
{
    if by_turn {
        return Recorded::in_turn(alloc);
    }
    Recorded::new(alloc)
}

/// The upstream that answers as a session says: with the first reply to a question or, by turn, with each in its turn. Bytes that
/// are no message are answered as the fault that they have; a message that comes as what it tells, by `DnsError::from_response`
/// (RFC 2308, 2); and where no message comes, by the error that says why.
pub fn session_upstream(
    alloc: Global,
    by_turn: bool,
    replies: Vec<SessionReply>,
) -> Result<Recorded, NoMemory>
    ensures { IfOk result (λ r. r ≡ recorded_by by_turn replies.items) }
{
    let mut handle = empty_upstream(alloc, by_turn);
    for next in replies {
        let SessionReply { query, kind } = next;
        let reply = reply_from(alloc, kind)?;
        handle.push(query, reply)?;
    }
    Ok(handle)
}

/// The keys that a session trusts.
#[tactic(auto, using(crate::proofs::JudgeLemmas::anchors_more), unfolding(crate::specs::Adding::with_anchors))]
pub fn session_anchors(alloc: Global, anchors: Vec<Anchor>) -> Result<TrustAnchors, NoMemory>
    ensures { IfOk result (λ a. anchored a ≡ anchored anchors.items) }
{
    let mut trusted = TrustAnchors::empty(alloc);
    for next in anchors {
        let Anchor {
            owner,
            algorithm,
            key,
        } = next;
        trusted.insert_with_name(owner, algorithm, key)?;
    }
    Ok(trusted)
}
