//! A store that is asked before a handle and fed after it. docs/LIBRARY.md shows this file up to the tests.
use crate::given::*;
use dns_aggressive::{NegativeStore, Synthesized};
use dns_handle::{
    DnsError, DnsHandle, DnsRequest, DnsRequestOptions, DnsResponse, NetError, faults_after,
};
use dns_model::Proof;
use dns_record::{Query, ResponseCode};
use std::alloc::Global;
use std::process::Abort;
use std::rt::HostRuntime;

/// What is told of a query.
#[derive(Drop)]
enum Told {
    /// Kept records deny it, and nobody was asked.
    Denied(Synthesized),
    /// The handle answered it.
    Answered(DnsResponse),
}

/// Gives a store what a handle answered. A refused answer may have Secure records too.
fn keep(
    store: &mut NegativeStore,
    reply: &Result<DnsResponse, NetError>,
    now: u64,
) -> Result<(), NetError> {
    match reply {
        Ok(response) => {
            store.learn(response, now)?;
        }
        Err(
            NetError::Dns(
                DnsError::Nsec {
                    query: _,
                    response,
                    proof: _,
                },
            ),
        ) => {
            store.learn(response, now)?;
        }
        Err(_) => {}
    }
    Ok(())
}

/// Asks a store, and where that doesn't deny the query a handle that validates.
fn ask<H: DnsHandle>(
    alloc: Global,
    store: &mut NegativeStore,
    handle: &mut H,
    query: Query,
    now: u64,
) -> Result<Told, NetError> {
    if let Some(denial) = store.synthesize(&query, now)? {
        return Ok(Told::Denied(denial));
    }
    let reply = handle.lookup(alloc, query, DnsRequestOptions::default(), now);
    keep(store, &reply, now)?;
    Ok(Told::Answered(reply?))
}

/// A handle with its replies, the last one first. After them it answers that none came in time.
#[derive(Drop)]
struct Prepared {
    replies: Vec<Result<DnsResponse, NetError>>,
    sends: u64,
    faults: u64,
}

impl DnsHandle for Prepared {
    ghost use Rattle.std.specs.Prelude.{⊤, None};

    ghost sends = { λ p. p.sends };

    ghost faults = { λ p. p.faults };

    ghost sent = { λ from asked to reply. ⊤ };

    ghost told = { λ p. None };

    fn send(
        &mut self,
        _alloc: Global,
        _request: DnsRequest,
        _now: u64,
    ) -> Result<DnsResponse, NetError> {
        let reply = self.replies.pop().unwrap_or(Err(NetError::Timeout));
        self.sends = self.sends.saturating_add(1);
        self.faults = faults_after(self.faults, &reply);
        reply
    }

    fn is_using_edns(&self) -> bool {
        true
    }
}

/// A response with the NSEC records of a zone `z.` with one further name, `b.z.`.
fn denial(rt: &impl Abort, alloc: Global) -> DnsResponse {
    let mut response = empty(alloc);
    for (owner, next, types) in [("z.", "b.z.", [NS, SOA]), ("b.z.", "z.", [A, MX])] {
        let data = nsec(rt, alloc, next, &types);
        let met = secure(name(rt, alloc, owner), 47, 100, data);
        add(rt, alloc, &mut response, met, "z.");
    }
    response
}

/// The same, refused.
fn refusal(rt: &impl Abort, alloc: Global) -> NetError {
    let response = Box::new(alloc, denial(rt, alloc)).ok().expect(rt, "memory");
    NetError::Dns(DnsError::Nsec {
        query: query(rt, alloc, "m.z.", A),
        response,
        proof: Proof::Bogus,
    })
}

fn handle_with(rt: &impl Abort, alloc: Global, reply: Result<DnsResponse, NetError>) -> Prepared {
    let mut replies = Vec::new(alloc);
    replies.push(reply).ok().expect(rt, "memory");
    Prepared {
        replies,
        sends: 0,
        faults: 0,
    }
}

/// Whether a query for an address is denied at a moment, with this code.
fn is_denied(
    rt: &impl Abort,
    alloc: Global,
    store: &mut NegativeStore,
    handle: &mut Prepared,
    owner: &str,
    now: u64,
) -> bool {
    let asked = query(rt, alloc, owner, A);
    match ask(alloc, store, handle, asked, now) {
        Ok(Told::Denied(denial)) => denial.code == ResponseCode::NX_DOMAIN,
        Ok(Told::Answered(_)) => false,
        Err(_) => false,
    }
}

/// Whether after a reply to the first query the second isn't asked for, until the records expire; nor is one elsewhere denied.
fn is_spared(rt: &impl Abort, alloc: Global, reply: Result<DnsResponse, NetError>) -> bool {
    let mut store = NegativeStore::new(alloc, 65_536);
    let mut handle = handle_with(rt, alloc, reply);
    !is_denied(rt, alloc, &mut store, &mut handle, "m.z.", 0)
        && handle.sends == 1
        && is_denied(rt, alloc, &mut store, &mut handle, "n.z.", 99)
        && handle.sends == 1
        && !is_denied(rt, alloc, &mut store, &mut handle, "n.z.", 100)
        && !is_denied(rt, alloc, &mut store, &mut handle, "n.", 0)
        && handle.sends == 3
}

#[test]
fn what_a_handle_answered_spares_it_the_next_query(rt: HostRuntime) {
    let response = denial(&rt, rt.alloc());
    check(&rt, "answered", is_spared(&rt, rt.alloc(), Ok(response)));
    let refused = refusal(&rt, rt.alloc());
    check(&rt, "refused", is_spared(&rt, rt.alloc(), Err(refused)));
}
