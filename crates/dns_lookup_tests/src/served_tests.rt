//! What was kept serves a later validation: by its anchors and times alone where the asker's own verifier accepted it, and not where
//! another one did.
ghost use Rattle.std.specs.Prelude.{IsTrue};
ghost use Rattle.dns_cache.specs.Caches.{HasAccepted};
ghost use Rattle.dns_validation.specs.Validations.{AcceptedWhereKept};

use crate::driven_tests::keep_all;
use crate::given::{MOMENT, anchors_of, upstream_of};
use crate::rows::check_held;
use crate::scenes::name_error;
use crate::validating::begun;
use dns_cache::{Acceptance, AcceptedBy, CacheKey, Entry, ListCache};
use dns_chain_check::accepted_chain;
use dns_evidence::Verifier;
use dns_handle::DnsHandle;
use dns_recorded::Recorded;
use dns_trust::{Judge, TrustAnchors};
use dns_validation::{Validation, Wanted};
use std::alloc::Global;
use std::cell::Cell;
use std::process::Abort;

/// A verifier that accepts each signature, and counts how often it is asked.
#[derive(Drop)]
struct AcceptsAll {
    questions: Cell<u32>,
}

impl AcceptsAll {
    /// It wasn't asked yet.
    fn new() -> AcceptsAll {
        AcceptsAll {
            questions: Cell::new(0),
        }
    }
}

impl Verifier for AcceptsAll {
    ghost use Rattle.std.specs.Prelude.{true};

    ghost answers = { λ _. record {
      supports = λ algorithm. true;
      accepts = λ algorithm key bytes signature. true;
    } };

    fn supports(&self, _algorithm: u8) -> bool {
        true
    }

    fn accepts(&self, _algorithm: u8, _key: &[u8], _bytes: &[u8], _signature: &[u8]) -> bool {
        self.questions.set(self.questions.get().wrapping_add(1));
        true
    }

    fn same(&self, _other: &AcceptsAll) -> bool {
        true
    }
}

// How a validation is driven: by whose acceptance chains are told to have been kept, by which trust, and at which moment it judges.
struct Way {
    acceptance: Acceptance,
    is_anchored: bool,
    moment: u64,
}

const FIRST: Way = Way {
    acceptance: Acceptance::Unknown,
    is_anchored: true,
    moment: MOMENT,
};

// What was seen of a validation: how often it asked its upstream, whether its verifier, and whether it had an answer.
#[derive(Clone, Copy, PartialEq)]
struct Seen {
    sends: u32,
    asks_verifier: bool,
    is_answered: bool,
}

// By the anchors of the scene, or by none.
fn trust_of(rt: &impl Abort, alloc: Global, is_anchored: bool) -> TrustAnchors {
    if is_anchored {
        return anchors_of(rt, alloc, name_error());
    }
    TrustAnchors::empty(alloc)
}

// What is seen of a validation of a name error, which comes to its end.
fn seen_over(rt: &impl Abort, alloc: Global, cache: &mut ListCache, way: &Way) -> Seen {
    let anchors = trust_of(rt, alloc, way.is_anchored);
    let verifier = AcceptsAll::new();
    let judge = Judge {
        verifier: &verifier,
        anchors: &anchors,
        moment: way.moment,
    };
    let (name, query_type) = (name_error().name, name_error().query_type);
    let mut validation = begun(rt, alloc, judge, name, query_type);
    let sends = sends_of(rt, alloc, cache, &mut validation, way);
    let is_answered = is_answered(rt, validation);
    Seen {
        sends,
        asks_verifier: verifier.questions.get() > 0,
        is_answered,
    }
}

// It came to an answer, and not to an error.
fn is_answered(rt: &impl Abort, validation: Validation<'_, AcceptsAll>) -> bool {
    let answer = validation.into_answer().expect(rt, "an end");
    answer.is_ok()
}

// Gives a validation what it wants, until it wants nothing: how often it asked its upstream.
fn sends_of(
    rt: &impl Abort,
    alloc: Global,
    cache: &mut ListCache,
    validation: &mut Validation<'_, AcceptsAll>,
    way: &Way,
) -> u32 {
    let mut upstream = upstream_of(rt, alloc, name_error());
    let mut sends = 0_u32;
    for _ in 0..1_000_u32 {
        match served(rt, alloc, &mut upstream, cache, validation, way) {
            Some(true) => sends = sends.saturating_add(1),
            Some(false) => {}
            None => break,
        }
    }
    sends
}

// Gives a validation what it wants, and keeps what it gives out. Whether its upstream was asked; None where it wants nothing.
fn served(
    rt: &impl Abort,
    alloc: Global,
    upstream: &mut Recorded,
    cache: &mut ListCache,
    validation: &mut Validation<'_, AcceptsAll>,
    way: &Way,
) -> Option<bool> {
    let asked = match validation.next() {
        None => return None,
        Some(Wanted::Reply(ask)) => {
            validation.answer(upstream.send(alloc, ask.request, way.moment));
            true
        }
        Some(Wanted::Entry(key)) => {
            entry_told(rt, alloc, cache, validation, &key, way.acceptance);
            false
        }
    };
    keep_all(rt, alloc, cache, validation);
    Some(asked)
}

fn entry_told(
    rt: &impl Abort,
    alloc: Global,
    cache: &mut ListCache,
    validation: &mut Validation<'_, AcceptsAll>,
    key: &CacheKey,
    acceptance: Acceptance,
) {
    let verifier = AcceptsAll::new();
    let given = cache
        .get_for(alloc, key, MOMENT, &verifier)
        .expect(rt, "memory");
    validation.found(accepted_by(rt, alloc, &verifier, given, acceptance));
}

// The entry, with another acceptance: with `Kept` where the verifier accepts its chain.
fn accepted_by<V: Verifier>(
    rt: &impl Abort,
    alloc: Global,
    verifier: &V,
    given: Option<(Entry, Acceptance)>,
    acceptance: Acceptance,
) -> Option<(Entry, Acceptance)>
    ensures { AcceptedWhereKept (V.answers verifier.now) result }
{
    let Some((entry, _)) = given else {
        return None;
    };
    match acceptance {
        Acceptance::Kept => kept_by(rt, alloc, verifier, entry),
        Acceptance::Unknown => Some((entry, Acceptance::Unknown)),
        Acceptance::Other => Some((entry, Acceptance::Other)),
    }
}

fn kept_by<V: Verifier>(
    rt: &impl Abort,
    alloc: Global,
    verifier: &V,
    entry: Entry,
) -> Option<(Entry, Acceptance)>
    ensures { AcceptedWhereKept (V.answers verifier.now) result }
{
    if has_accepted(rt, alloc, verifier, &entry) {
        return Some((entry, Acceptance::Kept));
    }
    None
}

fn has_accepted<V: Verifier>(rt: &impl Abort, alloc: Global, verifier: &V, entry: &Entry) -> bool
    ensures { IsTrue result → HasAccepted (V.answers verifier.now) entry.now }
{
    let Some(chain) = &entry.chain else {
        return false;
    };
    accepted_chain(alloc, verifier, chain).expect(rt, "memory")
}

/// What is seen of a second validation, over what a first one left.
struct Row(&'static str, Way, Seen);

const SERVED: Seen = Seen {
    sends: 1,
    asks_verifier: true,
    is_answered: true,
};

const KEPT: Way = Way {
    acceptance: Acceptance::Kept,
    ..FIRST
};

const OTHER: Way = Way {
    acceptance: Acceptance::Other,
    ..FIRST
};

#[rattlefmt::skip]
const ROWS: &[Row] = &[
    Row("what was kept of each set serves it", FIRST, SERVED),
    Row("and so it does where the asker's own verifier accepted it, which isn't asked again", KEPT, Seen { asks_verifier: false, ..SERVED }),
    Row("what another verifier accepted is judged anew", OTHER, Seen { sends: 3, ..SERVED }),
];

fn rows() -> &'static [Row] {
    ROWS
}

/// A later validation isn't answered by what the asker's own verifier accepted: its signatures have ended, or nobody trusts its keys.
#[rattlefmt::skip]
const REFUSED: &[Way] = &[
    Way { moment: 3_000, ..KEPT },
    Way { is_anchored: false, ..KEPT },
];

// What is seen of a validation over what a first one left, which asked for the name, and for the keys of two signatures.
fn seen_later(rt: &impl Abort, alloc: Global, way: &Way) -> Seen {
    let mut cache = ListCache::new(alloc, 100);
    let first = seen_over(rt, alloc, &mut cache, &FIRST);
    let later = seen_over(rt, alloc, &mut cache, way);
    check_held(rt, "the first one", first == Seen { sends: 3, ..SERVED });
    later
}

#[test]
fn a_kept_set_serves_the_next_validation(rt: HostRuntime) {
    for row in rows() {
        let seen = seen_later(&rt, rt.alloc(), &row.1);
        check_held(&rt, row.0, seen == row.2);
    }
}

#[test]
fn an_accepted_chain_serves_while_anchors_and_times_hold(rt: HostRuntime) {
    for way in REFUSED {
        let seen = seen_later(&rt, rt.alloc(), way);
        check_held(&rt, "what was kept doesn't serve", !seen.is_answered);
    }
}
