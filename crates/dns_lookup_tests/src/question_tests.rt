//! How often a lookup asks its verifier, and how often whoever checks the answer does (RFC 4035, 5.3). Contracts don't see the
//! verifier's count.
use crate::given::{Answer, MOMENT, anchors_of, ask, ask_scene, upstream_of, verifier_of};
use crate::rows::check_held;
use crate::scenes::{
    Scene, anchored_beside, nine_below, nine_of_a_key_set, one_zone, thirty_sets, three_keys,
    three_sections, two_keys, walk,
};
use dns_chain_check::check_chain;
use dns_evidence::{Chain, IterationLimits, Limits, Listed, Trail, Verifier};
use dns_handle::DnsResponse;
use dns_lookup::DnssecDnsHandle;
use dns_record::RecordType;
use dns_recorded::Recorded;
use dns_trail::check_trail;
use dns_trust::TrustAnchors;
use std::alloc::Global;
use std::cell::Cell;
use std::process::Abort;

/// A verifier that answers as another one, and counts how often it is asked.
#[derive(Drop)]
struct Counting<'a> {
    listed: &'a Listed,
    questions: &'a Cell<u32>,
}

impl<'a> Verifier for Counting<'a> {
    ghost use Rattle.dns_evidence.specs.Listing.{answers_of};

    ghost answers = { λ counting. answers_of counting.listed.now };

    fn supports(&self, algorithm: u8) -> bool {
        self.listed.supports(algorithm)
    }

    fn accepts(&self, algorithm: u8, key: &[u8], bytes: &[u8], signature: &[u8]) -> bool {
        self.questions.set(self.questions.get().wrapping_add(1));
        self.listed.accepts(algorithm, key, bytes, signature)
    }

    fn same(&self, _other: &Counting<'a>) -> bool {
        false
    }
}

/// What is looked up.
enum Given {
    OneZone,
    Walk,
    AnchoredBeside,
    ThirtySets,
    TwoKeys,
    ThreeKeys,
    KeySet,
    Below,
    Sections,
}

fn scene_of(given: &Given) -> &'static Scene {
    match given {
        Given::OneZone => one_zone(),
        Given::Walk => walk(),
        Given::AnchoredBeside => anchored_beside(),
        Given::ThirtySets => thirty_sets(),
        Given::TwoKeys => two_keys(),
        Given::ThreeKeys => three_keys(),
        Given::KeySet => nine_of_a_key_set(),
        Given::Below => nine_below(),
        Given::Sections => three_sections(),
    }
}

/// What is looked up; how many sends that takes; how often the verifier is asked in the lookup, and as often in a check of its trail; and how
/// many signed links its chains have.
struct Row(&'static str, Given, usize, u32, u32);

const ROWS: &[Row] = &[
    // the first of 9 asks for the keys takes 4 questions, and no other one any, since their chain was accepted then; the signatures of the
    // set take 2, 2 and 1
    Row("questions of one zone", Given::OneZone, 10, 9, 2),
    // the first of 2 asks for the keys takes 1 for their DS set and 3 for theirs, and the other one none; the signatures of the address
    // take 2 and 1
    Row("questions of a walk", Given::Walk, 5, 7, 3),
    // 1 for an anchored key that didn't sign the key set, 1 for the DS set and 1 for the key that it matches
    Row("of an anchored key beside", Given::AnchoredBeside, 3, 3, 2),
    // the first of 30 asks for the keys takes 1 for the root's key set and 1 for each of 12 DS sets, and no other one any; each set takes 1
    Row(
        "thirty sets below twelve zones",
        Given::ThirtySets,
        55,
        43,
        420,
    ),
    // attacks (docs/ATTACKS.md): no signature is accepted. Two keys of a tag for each of eight signatures
    Row("eight signatures and two keys", Given::TwoKeys, 9, 16, 0),
    Row(
        "a ninth signature and a third key",
        Given::ThreeKeys,
        9,
        16,
        0,
    ),
    // 1 anchored key
    Row("nine signatures of a key set", Given::KeySet, 1, 8, 0),
    // 1 for the DS set, and two keys
    Row("nine signatures below DS records", Given::Below, 3, 17, 0),
    // 1 anchored key in each of 3 sections
    Row("a key set in three sections", Given::Sections, 2, 24, 0),
];

/// The answer to a scene's query by a verifier that counts.
fn look_up(
    rt: &impl Abort,
    alloc: Global,
    scene: &Scene,
    anchors: TrustAnchors,
    verifier: Counting<'_>,
) -> DnsResponse {
    let upstream = upstream_of(rt, alloc, scene);
    let made = DnssecDnsHandle::new(alloc, upstream, anchors, verifier);
    let mut validator = made.expect(rt, "memory");
    let answer = ask_scene(rt, alloc, &mut validator, scene, MOMENT);
    answer.expect(rt, "an answer")
}

/// Every chain is justified.
fn are_justified(
    rt: &impl Abort,
    alloc: Global,
    anchors: &TrustAnchors,
    verifier: &Counting<'_>,
    chains: &[Chain],
) -> bool {
    for chain in chains {
        if !check_chain(alloc, anchors, verifier, MOMENT, chain).expect(rt, "memory") {
            return false;
        }
    }
    true
}

/// The trail is a derivation.
fn is_derived(
    rt: &impl Abort,
    alloc: Global,
    anchors: &TrustAnchors,
    verifier: &Counting<'_>,
    trail: &Trail,
) -> bool {
    let limits = Limits {
        depth: 26,
        soft: IterationLimits::DEFAULT.soft,
        hard: IterationLimits::DEFAULT.hard,
    };
    check_trail(alloc, anchors, verifier, MOMENT, &limits, &[], trail).expect(rt, "memory")
}

/// The lookup sends and asks as often as the row says, a check of the chains once for each signed link, and one of the trail as often as
/// the lookup.
fn asks_so(rt: &impl Abort, alloc: Global, listed: &Listed, row: &Row) -> bool {
    let asked = Cell::new(0);
    let (questions, scene) = (&asked, scene_of(&row.1));
    let anchors = anchors_of(rt, alloc, scene);
    let response = look_up(rt, alloc, scene, anchors, Counting { listed, questions });
    let by_lookup = response.trail.steps.len() == row.2 && questions.get() == row.3;
    let anchors = anchors_of(rt, alloc, scene);
    let verifier = &Counting { listed, questions };
    questions.set(0);
    let justified = are_justified(rt, alloc, &anchors, verifier, &response.chains);
    let by_chains = justified && questions.get() == row.4;
    questions.set(0);
    let derived = is_derived(rt, alloc, &anchors, verifier, &response.trail);
    let by_trail = derived && questions.get() == row.3;
    by_lookup && by_chains && by_trail
}

#[test]
fn the_verifier_is_asked_no_more_often_than_the_rules_ask_it(rt: HostRuntime) {
    for row in ROWS {
        let listed = verifier_of(&rt, rt.alloc(), scene_of(&row.1));
        let held = asks_so(&rt, rt.alloc(), &listed, row);
        check_held(&rt, row.0, held);
    }
}

/// The name of the zone of the thirty sets.
const LAST_ZONE: &str = "z.z.z.z.z.z.z.z.z.z.z.z.";

/// A validator that counts, over the upstream and the cache of one that has looked up a zone's keys.
fn warm<'a>(
    rt: &impl Abort,
    alloc: Global,
    scene: &Scene,
    listed: &'a Listed,
    questions: &'a Cell<u32>,
) -> DnssecDnsHandle<Recorded, Counting<'a>> {
    let upstream = upstream_of(rt, alloc, scene);
    let made = DnssecDnsHandle::new(
        alloc,
        upstream,
        anchors_of(rt, alloc, scene),
        Counting { listed, questions },
    );
    let mut first = made.expect(rt, "memory");
    let keys = ask(
        rt,
        alloc,
        &mut first,
        LAST_ZONE,
        RecordType::DNSKEY,
        26,
        MOMENT,
    );
    keys.expect(rt, "the keys");
    let (upstream, cache) = first.into_parts();
    let anchors = anchors_of(rt, alloc, scene);
    DnssecDnsHandle::with_cache(upstream, anchors, Counting { listed, questions }, cache).expect(
        rt, "memory",
    )
}

/// How many steps the trail of an answer has.
fn sends_of(rt: &impl Abort, answer: Answer) -> usize {
    answer.expect(rt, "an answer").trail.steps.len()
}

#[test]
fn a_kept_chain_is_put_to_the_verifier_once_however_often_it_serves(rt: HostRuntime) {
    let (alloc, scene) = (rt.alloc(), thirty_sets());
    let listed = verifier_of(&rt, alloc, scene);
    let questions = Cell::new(0);
    let mut validator = warm(&rt, alloc, scene, &listed, &questions);
    check_held(&rt, "the walk", questions.get() == 13);
    questions.set(0);
    let answer = ask_scene(&rt, alloc, &mut validator, scene, MOMENT);
    // the query, and 30 asks for the keys: each is a hit, and the first one takes the 13 questions of the chain that was kept
    let held = sends_of(&rt, answer) == 31
        && questions.get() == 43
        && validator.cache().hits() == 30;
    check_held(&rt, "a warm cache", held);
}
