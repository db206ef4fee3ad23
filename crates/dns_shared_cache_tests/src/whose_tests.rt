//! Whose acceptance a shelf says that an entry's chain has, and how often it asks its verifier.
use crate::given::{
    Lists, Lookup, Offer, anchors_of, entry_of, is_looked_up, key_of_servers, validator_over,
    verifier_of,
};
use crate::rows::check_held;
use dns_cache::{Acceptance, DefaultHasher, Entry};
use dns_evidence::Verifier;
use dns_model::{MarkOrigin, Proof};
use dns_shared_cache::{SharedCache, Shelf};
use std::alloc::Global;
use std::cell::Cell;
use std::process::Abort;
use std::sync::Wait;

/// What is shown, what the shelf's verifier lists, what it keeps, what the asker's verifier lists, and whose acceptance it is.
struct Row(&'static str, Lists, Offer, Lists, Acceptance);

#[rattlefmt::skip]
const ROWS: &[Row] = &[
    Row("an equal verifier", Lists::Servers, Offer::Secure, Lists::Servers, Acceptance::Kept),
    Row("listed in another order", Lists::ServersAndMore, Offer::Secure, Lists::MoreAndServers, Acceptance::Kept),
    Row("one that accepts more", Lists::Servers, Offer::Secure, Lists::ServersAndMore, Acceptance::Other),
    Row("one that accepts less", Lists::Servers, Offer::Secure, Lists::NoSignature, Acceptance::Other),
    Row("a Bogus entry for an equal verifier", Lists::Servers, Offer::Bogus, Lists::Servers, Acceptance::Kept),
    Row("a Bogus entry for another one", Lists::Servers, Offer::Bogus, Lists::Nothing, Acceptance::Other),
    Row("an Insecure entry of verifiers of nothing", Lists::Nothing, Offer::Insecure, Lists::Nothing, Acceptance::Kept),
];

fn rows() -> &'static [Row] {
    ROWS
}

// A shelf of one entry says so of it, and counts the hit.
fn says(rt: &impl Abort, alloc: Global, row: &Row) -> bool {
    let verifier = verifier_of(rt, alloc, row.1);
    let mut shelf = Shelf::new(alloc, 8, verifier).expect(rt, "memory");
    let kept = entry_of(rt, alloc, row.2, 1600);
    shelf.insert(alloc, kept).expect(rt, "memory");
    let key = key_of_servers(rt, alloc);
    let asker = verifier_of(rt, alloc, row.3);
    let given = shelf
        .get_for(alloc, &key, 1000, &asker)
        .expect(rt, "memory");
    let whose = given.map(|pair| pair.1);
    let late = shelf
        .get_for(alloc, &key, 1600, &asker)
        .expect(rt, "memory");
    whose == Some(row.4) && late.is_none() && shelf.hits() == 1
}

#[test]
fn an_acceptance_is_kept_for_a_verifier_that_is_the_same(rt: HostRuntime) {
    for row in rows() {
        check_held(&rt, row.0, says(&rt, rt.alloc(), row));
    }
}

/// A verifier that accepts each signature, and counts how often it is asked.
#[derive(Drop)]
struct Counting<'a> {
    questions: &'a Cell<u32>,
}

impl<'a> Verifier for Counting<'a> {
    ghost use Rattle.std.specs.Prelude.{true};

    ghost answers = { λ _. record {
      supports = λ algorithm. true;
      accepts = λ algorithm key bytes signature. true;
    } };

    fn supports(&self, _algorithm: u8) -> bool {
        true
    }

    fn accepts(&self, _algorithm: u8, _key: &[u8], _bytes: &[u8], _signature: &[u8]) -> bool {
        self.questions.set(self.questions.get().wrapping_add(1));
        true
    }

    fn same(&self, _other: &Counting<'a>) -> bool {
        true
    }
}

/// What is shown, the capacity, what is put in, and how often the verifier is asked for a signature. The chain has one.
struct AskRow(&'static str, usize, Offer, u32);

#[rattlefmt::skip]
const ASKS: &[AskRow] = &[
    AskRow("each signature of a Secure entry's chain once", 8, Offer::Secure, 1),
    AskRow("none of a Bogus entry's", 8, Offer::Bogus, 0),
    AskRow("none of an Insecure entry's", 8, Offer::Insecure, 0),
    AskRow("none where nothing is kept", 0, Offer::Secure, 0),
];

fn asks() -> &'static [AskRow] {
    ASKS
}

// So often the verifier is asked by an insert, and not once more by what comes then.
fn is_asked(rt: &impl Abort, alloc: Global, row: &AskRow) -> bool {
    let questions = Cell::new(0);
    let verifier = Counting {
        questions: &questions,
    };
    let mut shelf = Shelf::new(alloc, row.1, verifier).expect(rt, "memory");
    let entry = entry_of(rt, alloc, row.2, 1600);
    shelf.insert(alloc, entry).expect(rt, "memory");
    let by_insert = questions.get();
    let by_gets = is_got(rt, alloc, &mut shelf, &questions, row.1 != 0);
    by_insert == row.3 && by_gets && questions.get() == row.3
}

// Whether the entry is given both ways, or not at all.
fn is_got<'a>(
    rt: &impl Abort,
    alloc: Global,
    shelf: &mut Shelf<Counting<'a>>,
    questions: &'a Cell<u32>,
    wanted: bool,
) -> bool {
    let key = key_of_servers(rt, alloc);
    let given: Option<Entry> = shelf.get(alloc, &key, 1000).expect(rt, "memory");
    let asker = Counting { questions };
    let with = shelf
        .get_for(alloc, &key, 1000, &asker)
        .expect(rt, "memory");
    given.is_some() == wanted && with.is_some() == wanted
}

#[test]
fn a_verifier_is_asked_once_by_an_insert(rt: HostRuntime) {
    for row in asks() {
        check_held(&rt, row.0, is_asked(&rt, rt.alloc(), row));
    }
}

/// A lookup that is judged, and one that is served what the other found.
const JUDGED: Lookup = Lookup(1000, 2, Proof::Secure, 1000, MarkOrigin::Table);

const SERVED: Lookup = Lookup(1000, 1, Proof::Secure, 1000, MarkOrigin::Cache);

// Whether a validator whose verifier counts answers as a lookup says.
fn is_answered<'a, R: Wait + Abort + Copy>(
    rt: R,
    alloc: Global,
    holder: SharedCache<Counting<'a>, DefaultHasher, R>,
    questions: &'a Cell<u32>,
    lookup: &Lookup,
) -> bool {
    let anchors = anchors_of(&rt, alloc, true);
    let verifier = Counting { questions };
    let mut validator = validator_over(&rt, alloc, anchors, verifier, holder);
    is_looked_up(&rt, alloc, &mut validator, lookup)
}

// The first validator and the cache ask for the one signature once each, and the second asks nothing.
fn is_served_unasked<R: Wait + Abort + Copy>(rt: R, alloc: Global) -> bool {
    let questions = Cell::new(0);
    let verifier = Counting {
        questions: &questions,
    };
    let first = SharedCache::new(rt, alloc, 8, verifier).expect(&rt, "memory");
    let other = first.share().expect(&rt, "memory");
    let is_judged = is_answered(rt, alloc, first, &questions, &JUDGED) && questions.get() == 2;
    is_judged && is_answered(rt, alloc, other, &questions, &SERVED) && questions.get() == 2
}

#[test]
fn what_is_kept_by_the_same_verifier_is_served_unasked(rt: HostRuntime) {
    check_held(
        &rt,
        "one lookup after another",
        is_served_unasked(rt, rt.alloc()),
    );
}
