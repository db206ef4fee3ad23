//! Lookups of a session's query, or requests for it that are answered, one after another.

use dns_forwarded::Outcome;
use dns_handle::{DnsRequest, DnsRequestOptions, DnsResponse, NetError, Protocol};
use dns_lookup::DnssecDnsHandle;
use dns_message::EncodeError;
use dns_record::{NoMemory, Octets, Query};
use dns_recorded::Recorded;
use dns_respond::{Exchanged, respond_over};
use dns_session::Session;
use dns_session_lookup::{SessionLookup, SessionVerifier, Verification, session_lookup};
use std::alloc::Global;

/// How many lookups gave an answer, and how many a fault. A count stops at the greatest `u64`.
#[derive(Clone, Copy)]
pub struct Lookups {
    /// The lookups that gave an answer.
    pub answers: u64,
    /// The lookups that gave a fault.
    pub faults: u64,
}

/// What is done again and again.
#[derive(Clone, Copy)]
pub struct Repeating {
    /// A request for the query is answered, and the query isn't looked up alone.
    responds: bool,
    /// Each time with an empty cache.
    anew: bool,
}

impl Repeating {
    /// The query is looked up.
    pub const LOOK_UP: Repeating = Repeating {
        responds: false,
        anew: false,
    };

    /// A request for the query is answered.
    pub const RESPOND: Repeating = Repeating {
        responds: true,
        anew: false,
    };

    /// The same, each time with an empty cache.
    pub(crate) fn anew(mut self) -> Repeating {
        self.anew = true;
        self
    }
}

/// What is looked up again and again.
#[derive(Clone, Copy)]
struct Repeated<'a> {
    query: &'a Query,
    /// A request for it in wire form.
    request: &'a [u8],
    options: DnsRequestOptions,
    /// Seconds.
    moment: u64,
    how: Repeating,
}

/// As many as a validator makes room for by itself.
const CACHE_ENTRIES: usize = 65_536;

// Looks it up.
fn look_up(
    alloc: Global,
    what: Repeated,
    handle: &mut DnssecDnsHandle<Recorded, SessionVerifier>,
) -> Result<DnsResponse, NetError> {
    let query = what.query.try_clone()?;
    handle.lookup(alloc, query, what.options, what.moment)
}

// The counts, with what came of a lookup.
fn with_reply(counts: Lookups, reply: &Result<DnsResponse, NetError>) -> Result<Lookups, NoMemory> {
    match reply {
        Ok(_) => Ok(Lookups {
            answers: counts.answers.saturating_add(1),
            faults: counts.faults,
        }),
        Err(NetError::NoMemory) => Err(NoMemory),
        Err(_) => Ok(Lookups {
            answers: counts.answers,
            faults: counts.faults.saturating_add(1),
        }),
    }
}

// A request for it, with DO, in wire form; no bytes where there is none.
fn request_for(alloc: Global, query: &Query) -> Result<Octets, NoMemory> {
    let mut options = DnsRequestOptions::default();
    options.edns_set_dnssec_ok = true;
    let request = DnsRequest::from_query(alloc, query.try_clone()?, options)?;
    match request.message.to_vec() {
        Ok(bytes) => Ok(bytes),
        Err(EncodeError::NoMemory) => Err(NoMemory),
        Err(EncodeError::TooLong) => Octets::from_slice(alloc, b""),
    }
}

// Answers the request for it.
fn respond(
    alloc: Global,
    what: Repeated,
    handle: &mut DnssecDnsHandle<Recorded, SessionVerifier>,
) -> Result<Exchanged, NoMemory> {
    let depth = what.options.max_request_depth;
    respond_over(
        alloc,
        handle,
        what.request,
        Protocol::Udp,
        depth,
        what.moment,
    )
}

// The counts, with what came of an exchange.
fn with_exchange(counts: Lookups, exchange: &Exchanged) -> Lookups {
    let is_answered = matches!(exchange.outcome, Outcome::Answered(_));
    Lookups {
        answers: counts.answers.saturating_add(u64::from(is_answered)),
        faults: counts.faults.saturating_add(u64::from(!is_answered)),
    }
}

// Looks it up or answers the request for it, and counts what came of that.
fn count_one(
    alloc: Global,
    what: Repeated,
    handle: &mut DnssecDnsHandle<Recorded, SessionVerifier>,
    counts: Lookups,
) -> Result<Lookups, NoMemory> {
    if what.how.responds {
        Ok(with_exchange(counts, &respond(alloc, what, handle)?))
    } else {
        with_reply(counts, &look_up(alloc, what, handle))
    }
}

// The validator, with an empty cache where that is wanted.
fn made_ready(
    alloc: Global,
    what: Repeated,
    handle: DnssecDnsHandle<Recorded, SessionVerifier>,
) -> Result<DnssecDnsHandle<Recorded, SessionVerifier>, NoMemory> {
    if what.how.anew {
        handle.validation_cache_size(alloc, CACHE_ENTRIES)
    } else {
        Ok(handle)
    }
}

// Does it so many times.
fn count_all(
    alloc: Global,
    what: Repeated,
    mut handle: DnssecDnsHandle<Recorded, SessionVerifier>,
    times: u32,
) -> Result<Lookups, NoMemory> {
    let mut counts = Lookups {
        answers: 0,
        faults: 0,
    };
    for _ in 0..times {
        handle = made_ready(alloc, what, handle)?;
        counts = count_one(alloc, what, &mut handle, counts)?;
    }
    Ok(counts)
}

/// Looks a session's query up so many times, over one validator, by itself or for a request, and counts what came of it.
pub(crate) fn count_lookups(
    alloc: Global,
    session: Session,
    times: u32,
    how: Repeating,
) -> Result<Lookups, NoMemory> {
    let SessionLookup {
        validator,
        query,
        options,
        moment,
    } = session_lookup(alloc, Verification::ByList, session)?;
    let request = request_for(alloc, &query)?;
    let what = Repeated {
        query: &query,
        request: request.as_slice(),
        options,
        moment,
        how,
    };
    count_all(alloc, what, validator, times)
}
