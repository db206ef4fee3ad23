//! Reading a text of sightings, line after line.
ghost use Rattle.std.specs.Prelude.{◌≡◌, ◌+◌, ◌<◌, ◌^◌, None, length, IfOk, IfSome};
ghost use Rattle.dns_session.specs.LinePlaces.{Place, one};
ghost use Rattle.dns_session.specs.Lines.{fixed};
ghost use Rattle.dns_session.specs.Stops.{ReadsAs};
ghost use Rattle.dns_roll.specs.RollGrammar.{fall_of as fall_in, roll_at, roll_of, sights_at};
ghost use Rattle.dns_session.specs.declared.stop.SessionStop.TheVariants.{BadLine as bad_line};

use crate::forms::{AlgorithmsLine, ZoneLine};
use crate::roll_text::{RollText, Sight};
use dns_session::{LineForm, Lines, SessionStop, many};
use std::alloc::Global;

// What the next line says, which is of this form, and the lines after it.
#[tactic(auto, unfolding(dns_session::specs::LinePlaces::one))]
fn one<'a, F: LineForm>(alloc: Global, lines: Lines<'a>) -> Result<(F, Lines<'a>), SessionStop>
    ensures { ReadsAs (λ x. x) result (one F.form lines.entry) }
{
    let bad = SessionStop::BadLine(lines.number());
    let (line, after) = lines.next().ok_or(bad)?;
    let said = F::read(alloc, line)?.ok_or(bad)?;
    Ok((said, after))
}

// The lines after the next, which is this one.
#[tactic(auto, unfolding(dns_session::specs::LinePlaces::one))]
fn after_fixed<'a>(lines: Lines<'a>, text: &[u8]) -> Result<Lines<'a>, SessionStop>
    ensures { ReadsAs (λ (after : Place). (tt, after)) result (one (fixed text.now) lines.entry) }
{
    let bad = SessionStop::BadLine(lines.number());
    let (line, after) = lines.next().ok_or(bad)?;
    if line != text {
        return Err(bad);
    }
    Ok(after)
}

// How many sights come before the first whose moment is below that of the one before it.
fn fall_of(sights: &[Sight]) -> Option<u64>
    ensures value { result ≡ fall_in sights.now }
    ensures within { IfSome result (λ n. n < length sights.now) }
{
    let mut last = 0;
    for (place, sight) in sights.iter().enumerate() {
        if sight.moment < last {
            return Some(place as u64);
        }
        last = sight.moment;
    }
    None
}

// The line that comes so many lines after another one is bad.
fn bad_after(number: u64, count: u64) -> SessionStop
    requires { number + count < 2 ^ 64 }
    ensures { result ≡ bad_line (number + count) }
{
    SessionStop::BadLine(number + count)
}

// As many sights as there are, and the lines after them.
fn rising_sights<'a>(
    alloc: Global,
    lines: Lines<'a>,
) -> Result<(Vec<Sight>, Lines<'a>), SessionStop>
    ensures reads { ReadsAs (λ x. (x.0.items, x.1)) result (sights_at lines.entry) }
    ensures rises { IfOk result (λ x. fall_in x.0.items ≡ None) }
{
    let first = lines.number();
    let (sights, left): (Vec<Sight>, Lines<'a>) = many(alloc, lines)?;
    match fall_of(&sights) {
        Some(count) => Err(bad_after(first, count)),
        None => Ok((sights, left)),
    }
}

/// What bytes say, all of them, as sightings of a zone's keys. Lines end with LF, words are separated by one space.
///
/// `BadLine` has the number, from 1, of the first line that can't stand at its place, is missing or has no LF; a `sight` line with a moment
/// below that of the one before can't stand at its place; the line after the last is bad where anything follows.
#[tactic(auto, unfolding(crate::specs::RollGrammar::roll_at))]
pub fn read_roll(alloc: Global, bytes: &[u8]) -> Result<RollText, SessionStop>
    requires { length bytes.now < 2 ^ 32 }
    ensures reads { ReadsAs (λ t. t) result (roll_of bytes.now) }
    ensures rises { IfOk result (λ t. fall_in t.sights ≡ None) }
{
    let lines = after_fixed(Lines::of(bytes), b"dns-roll 1")?;
    let (zone, lines): (ZoneLine, Lines<'_>) = one(alloc, lines)?;
    let (algorithms, lines): (AlgorithmsLine, Lines<'_>) = one(alloc, lines)?;
    let (keys, lines) = many(alloc, lines)?;
    let (accepts, lines) = many(alloc, lines)?;
    let (sights, lines) = rising_sights(alloc, lines)?;
    let lines = after_fixed(lines, b"end")?;
    if !lines.is_ended() {
        return Err(SessionStop::BadLine(lines.number()));
    }
    Ok(RollText {
        zone: zone.zone,
        algorithms: algorithms.algorithms,
        keys,
        accepts,
        sights,
    })
}
