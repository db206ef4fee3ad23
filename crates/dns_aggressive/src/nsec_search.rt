//! NSEC records of a zone that a search finds: the one that a name owns, and the one that covers it.
ghost use Rattle.std.specs.Prelude.{◌≡◌, ◌-◌, ◌<◌, ◌≤◌, None, length};
ghost use Rattle.std.specs.List.{find};
ghost use Rattle.std.specs.Option.{option_copied};
ghost use Rattle.dns_rules.specs.Covering.{counts_for, nsec_covering as covering_in, nsec_spans as spans_in};
ghost use Rattle.dns_rules.specs.NsecVerdict.{is_owned_by as is_owned_by_in};
ghost use Rattle.dns_aggressive.specs.Orders.{nth, AreInside, IsParted};
ghost use Rattle.dns_aggressive.specs.Reaching.{is_before, keep_if, nsec_at as nsec_at_in, nsecs_of, nearer as nearer_in, spanning_at as spanning_at_in, IsBest, IsSearchable};

use crate::kept::Kept;
use crate::order::{Probe, passed};
use crate::reaching::{comes_before, leads_back};
use crate::zone_run::ZoneRun;
use dns_denial::{is_owned_by, is_silent_on};
use dns_rdata::NsecRecord;
use dns_record::NameRef;

// NSEC records whose owner comes before this name.
#[derive(Drop)]
struct BeforeName<'a, 'b>(&'a NameRef<'b>);

impl<'a, 'b> Probe for BeforeName<'a, 'b> {
    ghost use Rattle.dns_aggressive.specs.Reaching.{is_before};

    ghost passes = { λ p k. is_before p.0.now k };

    fn is_passed(&self, kept: &Kept) -> bool {
        match kept.item.nsec() {
            Some(nsec) => comes_before(&nsec.owner.borrowed(), self.0),
            None => false,
        }
    }
}

// Whether the name comes after the record's owner and before its next one (RFC 4034, 4.1.1; RFC 4035, 5.4).
fn spans(name: &NameRef<'_>, nsec: &NsecRecord) -> bool
    ensures { result ≡ spans_in name.now nsec.now }
{
    let owner = nsec.owner.borrowed();
    let next = nsec.next.borrowed();
    comes_before(&owner, name)
        && (comes_before(name, &next) || (leads_back(&owner, &next) && next.zone_of(name)))
}

/// How many of the run's records are NSEC records whose owner comes before a name: they stand in front.
pub(crate) fn owners_before(run: &ZoneRun<'_>, reaching: &[usize], name: &NameRef<'_>) -> usize
    requires { IsSearchable run.now reaching.now }
    ensures { IsParted (is_before name.now) run.now.kept.now run.now.positions.now result result }
{
    passed(run.kept, run.positions, &BeforeName(name))
}

// The NSEC record at a position, where it isn't gone and still used.
fn nsec_at<'a>(run: &ZoneRun<'a>, position: usize, now: u64) -> Option<&'a NsecRecord>
    requires { position < length run.now.kept.now }
    ensures { option_copied result ≡ nsec_at_in run.now now position }
{
    run.standing(position, now)?.item.nsec()
}

// The same, where it spans a name.
fn spanning_at<'a>(
    run: &ZoneRun<'a>,
    position: usize,
    name: &NameRef<'_>,
    now: u64,
) -> Option<&'a NsecRecord>
    requires { position < length run.now.kept.now }
    ensures { option_copied result ≡ spanning_at_in run.now now name.now position }
{
    let nsec = nsec_at(run, position, now)?;
    if spans(name, nsec) { Some(nsec) } else { None }
}

// The same, where a name owns it.
fn owned_at<'a>(
    run: &ZoneRun<'a>,
    position: usize,
    name: &NameRef<'_>,
    now: u64,
) -> Option<&'a NsecRecord>
    requires { position < length run.now.kept.now }
    ensures { option_copied result ≡ keep_if (is_owned_by_in name.now) (nsec_at_in run.now now position) }
{
    let nsec = nsec_at(run, position, now)?;
    if is_owned_by(name, nsec) {
        Some(nsec)
    } else {
        None
    }
}

/// The record that a name owns, where this many owners come before the name.
pub(crate) fn owned<'a>(
    run: &ZoneRun<'a>,
    reaching: &[usize],
    number: usize,
    name: &NameRef<'_>,
    now: u64,
) -> Option<&'a NsecRecord>
    requires searchable { IsSearchable run.now reaching.now }
    requires parted { IsParted (is_before name.now) run.now.kept.now run.now.positions.now number number }
    ensures { option_copied result ≡ find (is_owned_by_in name.now) (nsecs_of run.now now) }
{
    if number == run.positions.len() {
        return None;
    }
    let position = run.positions[number];
    owned_at(run, position, name, now)
}

/// The record that covers a name, where this many owners come before the name.
#[tactic(auto, unfolding(dns_rules::specs::Covering::nsec_covering))]
pub(crate) fn covering<'a>(
    run: &ZoneRun<'a>,
    reaching: &[usize],
    number: usize,
    name: &NameRef<'_>,
    now: u64,
) -> Option<&'a NsecRecord>
    requires searchable { IsSearchable run.now reaching.now }
    requires parted { IsParted (is_before name.now) run.now.kept.now run.now.positions.now number number }
    ensures { option_copied result ≡ covering_in name.now (nsecs_of run.now now) }
{
    let nsec = nearest(run, reaching, number, name, now)?;
    if is_silent_on(name, nsec) {
        return None;
    }
    Some(nsec)
}

// The last record before a name, where this many owners come before it, and the record spans it.
fn last_before<'a>(
    run: &ZoneRun<'a>,
    number: usize,
    name: &NameRef<'_>,
    now: u64,
) -> Option<&'a NsecRecord>
    requires inside { AreInside (length run.now.kept.now) run.now.positions.now }
    requires number { number ≤ length run.now.positions.now }
    ensures some { 0 < number → option_copied result ≡ spanning_at_in run.now now name.now (nth run.now.positions.now (number - 1)) }
    ensures none { number ≡ 0 → option_copied result ≡ None }
{
    if number == 0 {
        return None;
    }
    let position = run.positions[number - 1];
    spanning_at(run, position, name, now)
}

// Of the records that span a name the one with the greatest owner: the last one before the name, or else one that reaches.
fn nearest<'a>(
    run: &ZoneRun<'a>,
    reaching: &[usize],
    number: usize,
    name: &NameRef<'_>,
    now: u64,
) -> Option<&'a NsecRecord>
    requires searchable { IsSearchable run.now reaching.now }
    requires parted { IsParted (is_before name.now) run.now.kept.now run.now.positions.now number number }
    ensures { option_copied result ≡ find (counts_for name.now (nsecs_of run.now now)) (nsecs_of run.now now) }
{
    match last_before(run, number, name, now) {
        Some(nsec) => Some(nsec),
        None => best_of(run, reaching, name, now),
    }
}

// Of the records at some positions that span a name one with the greatest owner.
fn best_of<'a>(
    run: &ZoneRun<'a>,
    positions: &[usize],
    name: &NameRef<'_>,
    now: u64,
) -> Option<&'a NsecRecord>
    requires { AreInside (length run.now.kept.now) positions.now }
    ensures { IsBest run.now now name.now positions.now (option_copied result) }
{
    let mut best = None;
    for position in positions {
        best = nearer(best, spanning_at(run, *position, name, now));
    }
    best
}

// The one of two records that has the greater owner.
fn nearer<'a>(best: Option<&'a NsecRecord>, next: Option<&'a NsecRecord>) -> Option<&'a NsecRecord>
    ensures { option_copied result ≡ nearer_in (option_copied best.entry) (option_copied next.entry) }
{
    let Some(one) = best else {
        return next;
    };
    match next {
        Some(two) if comes_before(&one.owner.borrowed(), &two.owner.borrowed()) => Some(two),
        _ => Some(one),
    }
}
