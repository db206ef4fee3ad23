use crate::scene::{anchors, query_of, upstream, verifier};
use dns_cache::DefaultCache;
use dns_client::ClientHandle;
use dns_evidence::{Listed, Verifier};
use dns_handle::{DnsHandle, DnsRequestOptions, DnsResponse, NetError};
use dns_lookup::DnssecDnsHandle;
use dns_model::Proof;
use dns_record::{DNSClass, Name, Octets, Rdata, Record, RecordSet, RecordType, ResponseCode};
use dns_recorded::Recorded;
use dns_secure_client::DnssecClient;
use dns_trust::TrustAnchors;
use std::alloc::Global;
use std::process::Abort;
use std::rt::HostRuntime;

// The example of the crate, word for word.

fn secure_client<H: DnsHandle + Drop, V: Verifier + Drop>(
    alloc: Global,
    client: H,
    anchors: TrustAnchors,
    verifier: V,
) -> Result<DnssecClient<H, V>, NetError> {
    DnssecClient::<H, V>::builder(client)
        .trust_anchor(anchors)
        .build(alloc, verifier)
}

/// A client over the recorded root zone.
type RootClient = DnssecClient<Recorded, Listed, DefaultCache>;

/// A time at which the signature counts, and one at which it doesn't any more.
const NOW: u64 = 1000;

const LATER: u64 = 3000;

/// What was tried held; the message names it.
fn check(rt: &impl Abort, what: &str, held: bool) {
    assert!(rt; held, "{what}");
}

/// How a client is made.
#[derive(Clone, Copy)]
enum Way {
    Built,
    Connected,
    FromClient,
    FromValidator,
    WithoutKeys,
}

// Each in a function of its own, since a client is large to the prover.

fn built(alloc: Global) -> Result<RootClient, NetError> {
    secure_client(alloc, upstream(alloc)?, anchors(alloc)?, verifier(alloc)?)
}

fn connected(alloc: Global) -> Result<RootClient, NetError> {
    DnssecClient::connect(alloc, upstream(alloc)?, anchors(alloc)?, verifier(alloc)?)
}

fn from_client(alloc: Global) -> Result<RootClient, NetError> {
    DnssecClient::from_client(alloc, upstream(alloc)?, anchors(alloc)?, verifier(alloc)?)
}

fn from_validator(alloc: Global) -> Result<RootClient, NetError> {
    Ok(DnssecClient::from_validator(root_validator(alloc)?))
}

fn without_keys(alloc: Global) -> Result<RootClient, NetError> {
    DnssecClient::<Recorded, Listed>::builder(upstream(alloc)?).build(alloc, verifier(alloc)?)
}

/// A validator over the recorded root zone.
fn root_validator(
    alloc: Global,
) -> Result<DnssecDnsHandle<Recorded, Listed, DefaultCache>, NetError> {
    let validator = DnssecDnsHandle::new(
        alloc,
        upstream(alloc)?,
        anchors(alloc)?,
        verifier(alloc)?,
    )?;
    Ok(validator)
}

fn client_by(alloc: Global, way: Way) -> Result<RootClient, NetError> {
    match way {
        Way::Built => built(alloc),
        Way::Connected => connected(alloc),
        Way::FromClient => from_client(alloc),
        Way::FromValidator => from_validator(alloc),
        Way::WithoutKeys => without_keys(alloc),
    }
}

/// The root's name servers at a time, by a client's lookup.
fn looked_up(alloc: Global, way: Way, now: u64) -> Result<DnsResponse, NetError> {
    let query = query_of(alloc, RecordType::NS)?;
    let mut client = client_by(alloc, way)?;
    client.lookup(alloc, query, DnsRequestOptions::default(), now)
}

/// The same by a query of `ClientHandle`.
fn asked(alloc: Global, way: Way, now: u64) -> Result<DnsResponse, NetError> {
    let root = Name::root(alloc)?;
    let mut client = client_by(alloc, way)?;
    client.query(alloc, root, DNSClass::IN, RecordType::NS, now)
}

/// The same by a validator's lookup.
fn validated(alloc: Global, now: u64) -> Result<DnsResponse, NetError> {
    let query = query_of(alloc, RecordType::NS)?;
    let mut validator = root_validator(alloc)?;
    validator.lookup(alloc, query, DnsRequestOptions::default(), now)
}

/// The mark of the first record of an answer.
fn mark_of(response: &DnsResponse) -> Option<Proof> {
    let record = response.message.answers.first()?;
    Some(record.proof)
}

/// Whether two answers have the same bytes, the same mark and as many chains, and deny the same.
fn are_same(one: &DnsResponse, other: &DnsResponse) -> bool {
    let (Ok(bytes), Ok(others)) = (one.message.to_vec(), other.message.to_vec()) else {
        return false;
    };
    bytes == others
        && mark_of(one) == mark_of(other)
        && one.chains.len() == other.chains.len()
        && one.denial == other.denial
}

/// Whether an answer has a mark.
fn has_mark(answer: &Result<DnsResponse, NetError>, mark: Proof) -> bool {
    match answer {
        Ok(response) => mark_of(response) == Some(mark),
        Err(_) => false,
    }
}

/// How a client is made, a time, and the mark that the root's name servers have then.
struct Row(Way, u64, Proof);

const ROWS: &[Row] = &[
    Row(Way::Built, NOW, Proof::Secure),
    Row(Way::Connected, NOW, Proof::Secure),
    Row(Way::FromClient, NOW, Proof::Secure),
    Row(Way::FromValidator, NOW, Proof::Secure),
    Row(Way::WithoutKeys, NOW, Proof::Bogus),
    Row(Way::Built, LATER, Proof::Bogus),
    Row(Way::FromValidator, LATER, Proof::Bogus),
];

fn rows() -> &'static [Row] {
    ROWS
}

#[test]
fn a_client_validates_however_it_is_made(rt: HostRuntime) {
    let alloc = rt.alloc();
    for row in rows() {
        let by_lookup = looked_up(alloc, row.0, row.1);
        check(&rt, "by a lookup", has_mark(&by_lookup, row.2));
        let by_query = asked(alloc, row.0, row.1);
        check(&rt, "by a query", has_mark(&by_query, row.2));
    }
}

#[test]
fn a_client_says_that_it_validates(rt: HostRuntime) {
    let client = built(rt.alloc()).ok().expect(&rt, "a client");
    check(&rt, "validates", client.is_verifying_dnssec());
}

/// Whether a client answers at a time as a validator does, by a lookup and by a query.
fn answers_as_validator(rt: &impl Abort, alloc: Global, now: u64) -> bool {
    let by_validator = validated(alloc, now).ok().expect(rt, "an answer");
    let by_lookup = looked_up(alloc, Way::Built, now);
    let by_query = asked(alloc, Way::Built, now);
    are_same(&by_validator, &by_lookup.ok().expect(rt, "an answer"))
        && are_same(&by_validator, &by_query.ok().expect(rt, "an answer"))
}

#[test]
fn a_client_answers_as_a_validator(rt: HostRuntime) {
    for now in [NOW, LATER] {
        let same = answers_as_validator(&rt, rt.alloc(), now);
        check(&rt, "the same answer", same);
    }
}

/// The code of the response to an update.
fn updated(alloc: Global) -> Result<ResponseCode, NetError> {
    let mut client = connected(alloc)?;
    let Ok(name) = Name::from_ascii(alloc, "a.") else {
        return Err(NetError::Truncated);
    };
    let address = Record {
        name,
        record_type: RecordType::A,
        dns_class: DNSClass::IN,
        ttl: 60,
        rdata: Rdata::from_octets(Octets::from_slice(alloc, b"\xc0\0\x02\x01")?),
        proof: Proof::Indeterminate,
    };
    let set = RecordSet::of(alloc, address)?;
    let zone = Name::root(alloc)?;
    if !zone.zone_of(&set.name) {
        return Err(NetError::Truncated);
    }
    let response = client.create(alloc, set, zone, NOW)?;
    Ok(response.message.response_code)
}

#[test]
fn an_update_passes(rt: HostRuntime) {
    let code = updated(rt.alloc()).ok();
    check(&rt, "its code", code == Some(ResponseCode::NO_ERROR));
}
