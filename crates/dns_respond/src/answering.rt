//! A request is answered by a validator.
ghost use Rattle.std.specs.Prelude.{◌≡◌, ◌↔◌, None, IfOk, IfSome, option_map};
ghost use Rattle.dns_forwarded.specs.Requests.{query_of, received_of};
ghost use Rattle.dns_forwarded.specs.Replies.{forwarded};
ghost use Rattle.dns_forwarded.specs.declared.outcome.Outcome.TheVariants as outcomes;
ghost use Rattle.dns_forwarded.specs.Laws.{IsSmall};
ghost use Rattle.dns_respond.specs.Authentic.{ProvesAd};
ghost use Rattle.dns_respond.specs.Responding.{Looks, LooksUp, forwarding_options, outcome_in};

use crate::exchanged::Exchanged;
use dns_cache::{AcceptedBy, ValidationCache};
use dns_evidence::Verifier;
use dns_forwarded::{Outcome, Received};
use dns_handle::{DnsHandle, DnsRequestOptions, DnsResponse, NetError, Protocol};
use dns_lookup::DnssecDnsHandle;
use dns_record::{NoMemory, Octets, Query};
use dns_shared_cache::SharedCache;
use std::alloc::Global;
use std::hash::BuildHasher;
use std::sync::Wait;

// How a forwarder looks a question up: with DO, and with asks at most so deep.
fn forwarding_options(depth: u16) -> DnsRequestOptions
    ensures { result ≡ forwarding_options depth }
{
    let mut options = DnsRequestOptions::default();
    options.edns_set_dnssec_ok = true;
    options.max_request_depth = depth;
    options
}

// The one lookup of a question, with all that it promises.
fn look_up_query<H: DnsHandle + Drop, V: Verifier + Drop, C: AcceptedBy<V> + Drop>(
    alloc: Global,
    validator: &mut DnssecDnsHandle<H, V, C>,
    query: Query,
    depth: u16,
    now: u64,
) -> Result<DnsResponse, NetError>
    ensures { LooksUp H.DnsHandle V.Verifier C.ValidationCache validator.old validator.new query depth now result }
{
    validator.lookup(alloc, query, forwarding_options(depth), now)
}

// What the lookup of a question comes to, where there is one.
fn look_up<H: DnsHandle + Drop, V: Verifier + Drop, C: AcceptedBy<V> + Drop>(
    alloc: Global,
    validator: &mut DnssecDnsHandle<H, V, C>,
    query: Option<&Query>,
    depth: u16,
    now: u64,
) -> Result<Outcome, NoMemory>
    ensures { Looks H.DnsHandle V.Verifier C.ValidationCache (option_map (λ q. q.now) query.entry)
        validator.old validator.new depth now result }
{
    let Some(query) = query else {
        return Ok(Outcome::None);
    };
    let query = query.try_clone()?;
    Outcome::of(look_up_query(alloc, validator, query, depth, now))
}

/// Answers a request: its question is looked up by the validator at a moment, in seconds, with DO and with asks at most so deep, and the
/// reply is the one of `forwarded` (RFC 1035, 4.1.1; RFC 4035, 3.2). The validator is called once at the most, and not at all for
/// what no question is looked up for: the exchange's outcome is `None` then.
///
/// The only error is that memory ran out; the validator may have looked the question up.
pub fn respond_over<H: DnsHandle + Drop, V: Verifier + Drop, C: AcceptedBy<V> + Drop>(
    alloc: Global,
    validator: &mut DnssecDnsHandle<H, V, C>,
    request: &[u8],
    protocol: Protocol,
    depth: u16,
    now: u64,
) -> Result<Exchanged, NoMemory>
    // The exchange is of this request at this moment.
    ensures request { IfOk result (λ e. e.request ≡ request.now) }
    ensures moment { IfOk result (λ e. e.moment ≡ now) }

    // Its reply is the one that belongs to the request and the outcome.
    ensures reply { IfOk result (λ e. e.reply ≡ forwarded request.now protocol e.outcome) }

    // The outcome is that of one lookup of the question, with all that a lookup promises. Where there is no question to look up, it is
    // `None`, and the validator is as before. Want of memory leaves the validator as before, or as one lookup left it.
    ensures lookup { Looks H.DnsHandle V.Verifier C.ValidationCache (query_of (received_of request.now))
        validator.old validator.new depth now (outcome_in result) }

    // Nothing is looked up exactly for what has no question to look up.
    ensures none { IfOk result (λ e. (e.outcome ≡ outcomes.None) ↔ (query_of (received_of request.now) ≡ None)) }

    // Over UDP the reply has at most 1,232 bytes, and at most 512 where the client doesn't say that it takes more.
    ensures small { IfOk result (λ e. IfSome e.reply (IsSmall protocol (received_of request.now))) }

    // AD is set in it only where what was asked for is there and each set of the answer section has a justified chain, or that section is
    // empty and no zone in which the Secure records of the denial are true has an answer.
    ensures authentic { IfOk result (ProvesAd V.Verifier validator.old) }
{
    let received = Received::of(alloc, request)?;
    let kept = Octets::from_slice(alloc, request)?;
    let outcome = look_up(alloc, validator, received.query(), depth, now)?;
    let reply = received.reply(alloc, protocol, &outcome)?;
    Ok(Exchanged {
        request: kept,
        moment: now,
        outcome,
        reply,
    })
}

/// The same by a validator over a shared cache. It may wait for other holders of the cache.
pub fn respond<H: DnsHandle + Drop, V: Verifier + Drop, S: BuildHasher + Drop, T: Wait + Copy>(
    alloc: Global,
    validator: &mut DnssecDnsHandle<H, V, SharedCache<V, S, T>>,
    request: &[u8],
    protocol: Protocol,
    depth: u16,
    now: u64,
) -> Result<Exchanged, NoMemory>
    ensures request { IfOk result (λ e. e.request ≡ request.now) }
    ensures moment { IfOk result (λ e. e.moment ≡ now) }
    ensures reply { IfOk result (λ e. e.reply ≡ forwarded request.now protocol e.outcome) }
    ensures lookup { Looks H.DnsHandle V.Verifier ⟦<SharedCache<V, S, T> as ValidationCache>⟧ (query_of (received_of request.now))
        validator.old validator.new depth now (outcome_in result) }
    ensures none { IfOk result (λ e. (e.outcome ≡ outcomes.None) ↔ (query_of (received_of request.now) ≡ None)) }
    ensures small { IfOk result (λ e. IfSome e.reply (IsSmall protocol (received_of request.now))) }
    ensures authentic { IfOk result (ProvesAd V.Verifier validator.old) }
{
    respond_over(alloc, validator, request, protocol, depth, now)
}
