//! One lookup of the host of nested zones, and what is counted of it.
ghost use Rattle.std.specs.Prelude.{ℕ, ◌≡◌, ◌||◌, ◌≤◌, not, length, Ok, IfOk, IfErr};
ghost use Rattle.std.specs.List.{list_all, list_any};
ghost use Rattle.dns_rules.specs.Asking.{most_sends};
ghost use Rattle.dns_model.specs.SoundAnswers.{is_secure};
ghost use Rattle.dns_laws.specs.Straight.{is_queried};
ghost use Rattle.dns_laws.specs.Complete.{shows_secure};
ghost use Rattle.dns_handle.specs.declared.error.NetError.TheVariants.{NoMemory as no_memory};
ghost use Rattle.dns_lookup.specs.Calls.{inner_of};
ghost use Rattle.dns_bench_zones.specs.NestedZones.{host_question, deep_options};
ghost use Rattle.dns_bench_zones.specs.Parts.{ArePartsOf, LooksUpBelow, IsCounted};
ghost use Rattle.dns_bench_zones.specs.Benches.{EndsBench, IsCountOf, IsOwnCount, counted, first_links};

use crate::ZoneCount;
use crate::judging::{root_anchor, zones_verifier};
use crate::records::host_record;
use crate::upstream::{bench_replies, question_of};
use crate::zone::Zone;
use dns_evidence::{Chain, Listed};
use dns_handle::{DnsHandle, DnsRequestOptions, DnsResponse, NetError};
use dns_lookup::{DnssecDnsHandle, default_cache};
use dns_model::Proof;
use dns_record::{NoMemory, Query, Record};
use dns_trust::TrustAnchors;
use std::alloc::Global;

/// The moment of the lookup, in seconds.
const MOMENT: u64 = 1000;

/// What is counted of one lookup of the host of nested zones. A number stops at the greatest `u32`.
#[derive(Clone, Copy, Debug, PartialEq, Eq)]
pub struct BenchCount {
    /// The host's address is in the answer, and all of it is Secure.
    pub secure: bool,
    /// How many links the first chain has, 0 without one.
    pub links: u32,
    /// How many steps the trail has, which are the sends of the lookup.
    pub asks: u32,
}

/// How one lookup of the host of nested zones ended.
#[derive(Drop)]
pub struct BenchEnd<H: Drop> {
    /// The handle that was given, after the lookup; None only where memory ran out.
    pub handle: Option<H>,
    /// What was counted, or the error of the lookup.
    pub result: Result<BenchCount, NetError>,
}

/// What a lookup of the host takes.
#[derive(Drop)]
struct Parts {
    anchors: TrustAnchors,
    verifier: Listed,
    /// The question that is looked up.
    query: Query,
    /// The same, for which records are counted.
    counted: Query,
}

// The question for the host's address.
fn host_question(alloc: Global, zones: ZoneCount) -> Result<Query, NoMemory>
    ensures { IfOk result (λ q. q ≡ host_question zones) }
{
    let zone = Zone::last(alloc, zones)?;
    let host = host_record(alloc, &zone)?;
    question_of(&host)
}

// What a lookup of the host of so many zones takes.
fn parts_of(alloc: Global, zones: ZoneCount) -> Result<Parts, NoMemory>
    ensures { IfOk result (λ p. ArePartsOf zones p) }
{
    let query = host_question(alloc, zones)?;
    let counted = query.try_clone()?;
    let anchors = root_anchor(alloc)?;
    let verifier = zones_verifier(alloc, zones)?;
    Ok(Parts {
        anchors,
        verifier,
        query,
        counted,
    })
}

// Options that ask for nothing but the greatest depth.
fn deep_options() -> DnsRequestOptions
    ensures { result ≡ deep_options }
{
    let mut options = DnsRequestOptions::default();
    options.max_request_depth = 255;
    options
}

// A record of the name, the type and the class that are queried.
fn is_queried(query: &Query, answer: &Record) -> bool
    ensures { result ≡ is_queried query.now answer.now }
{
    query.name == answer.name
        && answer.record_type == query.query_type
        && answer.dns_class == query.query_class
}

// A record that was queried is Secure.
fn is_secure_where_queried(query: &Query, answer: &Record) -> bool
    ensures { result ≡ (not (is_queried query.now answer.now) || is_secure answer.now.proof) }
{
    !is_queried(query, answer) || answer.proof == Proof::Secure
}

// A record was queried.
fn has_queried(query: &Query, answers: &[Record]) -> bool
    ensures { result ≡ list_any (is_queried query.now) answers.now }
{
    answers.iter().any(|answer| is_queried(query, answer))
}

// Each record that was queried is Secure.
fn all_secure(query: &Query, answers: &[Record]) -> bool
    ensures { result ≡ list_all (λ r. not (is_queried query.now r) || is_secure r.proof) answers.now }
{
    answers
        .iter()
        .all(|answer| is_secure_where_queried(query, answer))
}

// The records that were queried are there, and each is Secure.
fn shows_secure(query: &Query, answers: &[Record]) -> bool
    ensures { result ≡ shows_secure query.now answers.now }
{
    has_queried(query, answers) && all_secure(query, answers)
}

// A number, or the greatest `u32` above that.
fn counted(number: usize) -> u32
    ensures { result ≡ counted number }
{
    number.min(u32::MAX as usize) as u32
}

// How many links the first chain has, 0 without one.
fn first_links(chains: &[Chain]) -> u32
    ensures { result ≡ counted (first_links chains.now) }
{
    match chains.first() {
        Some(chain) => counted(chain.links.len()),
        None => 0,
    }
}

// What is counted of an answer.
fn count_of(query: &Query, answer: &DnsResponse) -> BenchCount
    requires { length answer.now.trail ≤ most_sends }
    ensures { IsCountOf query.now answer.now result }
{
    BenchCount {
        secure: shows_secure(query, &answer.message.answers),
        links: first_links(&answer.chains),
        asks: answer.trail.steps.len() as u32,
    }
}

// What is counted of what a lookup answered: of an answer, or the error.
fn counted_of(query: &Query, answer: Result<DnsResponse, NetError>) -> Result<BenchCount, NetError>
    requires { IfOk answer (λ a. length a.trail ≤ most_sends) }
    ensures { IsCounted query.now answer result }
{
    let answer = answer?;
    Ok(count_of(query, &answer))
}

// Looks the host up, and counts what came of it.
fn count_lookup<H: DnsHandle + Drop>(
    alloc: Global,
    mut validator: DnssecDnsHandle<H, Listed>,
    query: Query,
    counted: &Query,
) -> BenchEnd<H>
    ensures { (n : ℕ) → LooksUpBelow n validator query → counted.now ≡ host_question n
        → EndsBench H.DnsHandle n (inner_of validator) result.handle result.result }
{
    let answer = validator.lookup(alloc, query, deep_options(), MOMENT);
    let result = counted_of(counted, answer);
    BenchEnd {
        handle: Some(validator.into_inner()),
        result,
    }
}

// Looks the host up over a handle, by the parts of a validator.
fn look_up<H: DnsHandle + Drop>(alloc: Global, handle: H, parts: Parts) -> BenchEnd<H>
    ensures { (n : ℕ) → ArePartsOf n parts → EndsBench H.DnsHandle n handle result.handle result.result }
{
    let Parts {
        anchors,
        verifier,
        query,
        counted,
    } = parts;
    let Ok(cache) = default_cache(alloc) else {
        return BenchEnd {
            handle: Some(handle),
            result: Err(NetError::NoMemory),
        };
    };
    match DnssecDnsHandle::with_cache(handle, anchors, verifier, cache) {
        Ok(validator) => count_lookup(alloc, validator, query, &counted),
        Err(NoMemory) => BenchEnd {
            handle: None,
            result: Err(NetError::NoMemory),
        },
    }
}

/// Looks the address of the host of so many nested zones up, once, over a handle, and counts what came of it. The root's key is trusted, each
/// signature of `bench_replies` is accepted and no other, the moment is 1000 seconds, and asks go 255 deep.
///
/// Errors: those of the lookup.
pub fn bench_over<H: DnsHandle + Drop>(alloc: Global, handle: H, zones: ZoneCount) -> BenchEnd<H>
    ensures { EndsBench H.DnsHandle zones handle result.handle result.result }
{
    match parts_of(alloc, zones) {
        Ok(parts) => look_up(alloc, handle, parts),
        Err(NoMemory) => BenchEnd {
            handle: Some(handle),
            result: Err(NetError::NoMemory),
        },
    }
}

// The same, where the only error is that memory ran out.
fn memory_alone(ended: Result<BenchCount, NetError>) -> Result<BenchCount, NoMemory>
    requires { IfErr ended (λ e. e ≡ no_memory) }
    ensures { IfOk result (λ count. ended ≡ Ok count) }
{
    match ended {
        Ok(count) => Ok(count),
        Err(_) => Err(NoMemory),
    }
}

/// What one lookup of the host of so many nested zones counts over `bench_replies`: the host's address is Secure, by three links and two
/// asks for each zone, the root among them. It fails only where memory runs out.
pub fn bench_count(alloc: Global, zones: ZoneCount) -> Result<BenchCount, NoMemory>
    ensures { IfOk result (λ count. IsOwnCount zones count) }
{
    let few = zones.number() <= ZoneCount::MOST;
    prove!(few);
    let handle = bench_replies(alloc, zones)?;
    let end = bench_over(alloc, handle, zones);
    memory_alone(end.result)
}
