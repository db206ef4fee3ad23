//! Denials that are made from kept records (RFC 8198, 5.1 to 5.4).
ghost use Rattle.std.specs.Prelude.{◌≡◌, ◌∷◌, ℕ, None, Some, IfOk, map, option_map};
ghost use Rattle.std.specs.List.{filter};
ghost use Rattle.dns_model.specs.declared.answered.Answered.TheVariants.{No};
ghost use Rattle.dns_model.specs.SoundAnswers.{is_secure};
ghost use Rattle.dns_rules.specs.NsecVerdict.{nsec_verdict as nsec_verdict_in};
ghost use Rattle.dns_rules.specs.Nsec3Verdict.{nsec3_verdict, parameters_in};
ghost use Rattle.dns_aggressive.specs.Answers.{hashed_answer, named_answer};
ghost use Rattle.dns_aggressive.specs.Denials.{at_most, code_by, decided_among, hashed_ways, is_live_in, nsec3s_in, synthesized, ways_tried};
ghost use Rattle.dns_aggressive.specs.Groups.{IsGrouped, lent};

use crate::kept_list::KeptList;
use crate::nsec_group::NsecGroup;
use crate::nsec3_groups::Nsec3Groups;
use dns_denial::{Nsec3Parameters, nsec_verdict, verify_nsec3};
use dns_model::{Answered, Proof};
use dns_rdata::Nsec3Record;
use dns_record::{Name, NoMemory, Query, ResponseCode};
use std::alloc::Global;
use std::marker::Model;

/// Up to so many iterations names are hashed (RFC 9276, 3.2).
const SOFT_ITERATIONS: u16 = 100;

/// With more than so many iterations records are bogus (RFC 9276, 3.2).
const HARD_ITERATIONS: u16 = 500;

/// A denial that is made from kept records.
pub struct Synthesized {
    /// `NXDomain` where the name doesn't exist, `NoError` where it has no data of the type.
    pub code: ResponseCode,
    /// The zone whose records deny, spelled as in the query.
    pub zone: Name,
    /// Seconds for which the denial may be kept.
    pub ttl: u32,
}

impl Model for Synthesized {
    ghost use Rattle.dns_aggressive.specs.Denials.{SynthesizedValue};

    ghost Value = { SynthesizedValue };

    ghost view = { λ s. record { code = s.code.0; zone = s.zone; ttl = s.ttl } };
}

// By hand, so that a function that lets one go calls this.
impl Drop for Synthesized {
    fn drop(self) {
        let Synthesized {
            code: _,
            zone: _,
            ttl: _,
        } = self;
    }
}

/// What the first group of a zone that denies a query comes to.
pub(crate) fn made_in(
    alloc: Global,
    kept: &KeptList,
    most: Option<u32>,
    zone: Name,
    query: &Query,
    now: u64,
) -> Result<Option<Synthesized>, NoMemory>
    ensures { IfOk result (λ made. made ≡ option_map (synthesized kept.now now)
        (decided_among kept.now query.now now zone (ways_tried most kept.now now zone))) }
{
    if let Some((code, ttl)) = by_names(kept, &zone, query, now) {
        return Ok(Some(Synthesized { code, zone, ttl }));
    }
    if !kept.of_zone(&zone.borrowed()).has_nsec3() {
        return Ok(None);
    }
    match by_hashes(alloc, kept, most, &zone, query, now)? {
        Some((code, ttl)) => Ok(Some(Synthesized { code, zone, ttl })),
        None => Ok(None),
    }
}

// The code that the NSEC records of a zone show, and their ttl.
fn by_names(kept: &KeptList, zone: &Name, query: &Query, now: u64) -> Option<(ResponseCode, u32)>
    ensures { option_map (λ f. (f.0.0, f.1)) result ≡ named_answer kept.now query.now now zone.now }
{
    let nsecs = kept.nsecs(&zone.borrowed(), now);
    match code_by_nsecs(query, zone, &nsecs) {
        Some(code) => Some((code, kept.seconds_left(zone, None, now))),
        None => None,
    }
}

// The code and the ttl of the first group of NSEC3 records that denies a query.
fn by_hashes(
    alloc: Global,
    kept: &KeptList,
    most: Option<u32>,
    zone: &Name,
    query: &Query,
    now: u64,
) -> Result<Option<(ResponseCode, u32)>, NoMemory>
    ensures { IfOk result (λ found. option_map (λ f. (f.0.0, f.1)) found
        ≡ hashed_answer kept.now query.now now zone.now (at_most most (hashed_ways now zone.now kept.now))) }
{
    let run = kept.of_zone(&zone.borrowed());
    let nsec3s = run.live_nsec3s(alloc, now)?;
    let groups = Nsec3Groups::new(alloc, &nsec3s)?;
    let firsts = tried(&groups.firsts, most);
    first_answer(alloc, kept, &groups, firsts, zone, query, now)
}

// The same of the groups of these first records.
fn first_answer<'a>(
    alloc: Global,
    kept: &KeptList,
    groups: &Nsec3Groups<'a>,
    firsts: &[&'a Nsec3Record],
    zone: &Name,
    query: &Query,
    now: u64,
) -> Result<Option<(ResponseCode, u32)>, NoMemory>
    requires { IsGrouped (nsec3s_in (filter (is_live_in now zone.now) kept.now)) groups.now }
    ensures { IfOk result (λ found. option_map (λ f. (f.0.0, f.1)) found
        ≡ hashed_answer kept.now query.now now zone.now (map parameters_in (lent firsts.now))) }
{
    for first in firsts {
        let way = Nsec3Parameters::of(*first);
        let nsec3s = groups.copies(alloc, &way)?;
        if let Some(code) = code_by_nsec3s(query, zone, &nsec3s) {
            let ttl = kept.seconds_left(zone, Some(&way), now);
            return Ok(Some((code, ttl)));
        }
    }
    Ok(None)
}

// The first ones, so many at the most.
fn tried<'a, 'b>(firsts: &'b [&'a Nsec3Record], most: Option<u32>) -> &'b [&'a Nsec3Record]
    ensures { result.now ≡ at_most most firsts.now }
{
    match most {
        Some(most) => &firsts[..firsts.len().min(most as usize)],
        None => firsts,
    }
}

// The code of a response without an answer that NSEC records show: a name error, or else no data.
fn code_by_nsecs(query: &Query, zone: &Name, nsecs: &NsecGroup<'_>) -> Option<ResponseCode>
    ensures { option_map (λ code. code.0) result ≡ code_by (λ code. nsec_verdict_in query.now zone.now code No nsecs.now) }
{
    if is_shown_by(query, zone, ResponseCode::NX_DOMAIN, nsecs) {
        return Some(ResponseCode::NX_DOMAIN);
    }
    if is_shown_by(query, zone, ResponseCode::NO_ERROR, nsecs) {
        return Some(ResponseCode::NO_ERROR);
    }
    None
}

// Whether NSEC records show what a response with this code and no answer says.
fn is_shown_by(query: &Query, zone: &Name, code: ResponseCode, nsecs: &NsecGroup<'_>) -> bool
    ensures { result ≡ is_secure (nsec_verdict_in query.now zone.now code.0 No nsecs.now) }
{
    nsec_verdict(query, zone, code, Answered::No, nsecs, &mut ()) == Proof::Secure
}

// The same of NSEC3 records.
fn code_by_nsec3s(query: &Query, zone: &Name, nsec3s: &[Nsec3Record]) -> Option<ResponseCode>
    ensures { option_map (λ code. code.0) result ≡ code_by (λ code. nsec3_verdict query.now zone.now code No nsec3s.now 100 500) }
{
    if is_shown(query, zone, ResponseCode::NX_DOMAIN, nsec3s) {
        return Some(ResponseCode::NX_DOMAIN);
    }
    if is_shown(query, zone, ResponseCode::NO_ERROR, nsec3s) {
        return Some(ResponseCode::NO_ERROR);
    }
    None
}

// Whether NSEC3 records show what a response with this code and no answer says.
fn is_shown(query: &Query, zone: &Name, code: ResponseCode, nsec3s: &[Nsec3Record]) -> bool
    ensures { result ≡ is_secure (nsec3_verdict query.now zone.now code.0 No nsec3s.now 100 500) }
{
    let proved = verify_nsec3(
        query,
        zone,
        code,
        Answered::No,
        nsec3s,
        SOFT_ITERATIONS,
        HARD_ITERATIONS,
    );
    proved == Proof::Secure
}
