//! Reading a session, line after line.
ghost use Rattle.std.specs.Prelude.{◌≡◌, ◌<◌, ◌^◌, length};
ghost use Rattle.dns_session.specs.LinePlaces.{one, optional, Place};
ghost use Rattle.dns_session.specs.Lines.{header_line, moment_line, depth_line, algorithms_line, query_line, end_line};
ghost use Rattle.dns_session.specs.Grammar.{session_front, session_of};
ghost use Rattle.dns_session.specs.Stops.{ReadsAs};

use crate::form::many;
use crate::forms::{algorithms_of, by_turn_of, depth_of, moment_of};
use crate::lines::Lines;
use crate::named_forms::query_of;
use crate::session::Session;
use crate::stop::SessionStop;
use dns_record::Query;
use std::alloc::Global;

// Whether replies are served by turn, and the lines after the first.
#[tactic(auto, unfolding(crate::specs::LinePlaces::one))]
fn one_header<'a>(lines: Lines<'a>) -> Result<(bool, Lines<'a>), SessionStop>
    ensures { ReadsAs (λ x. x) result (one header_line lines.entry) }
{
    let bad = SessionStop::BadLine(lines.number());
    let (line, after) = lines.next().ok_or(bad)?;
    let by_turn = by_turn_of(line).ok_or(bad)?;
    Ok((by_turn, after))
}

// The moment, and the lines after it.
#[tactic(auto, unfolding(crate::specs::LinePlaces::one))]
fn one_moment<'a>(lines: Lines<'a>) -> Result<(u64, Lines<'a>), SessionStop>
    ensures { ReadsAs (λ x. x) result (one moment_line lines.entry) }
{
    let bad = SessionStop::BadLine(lines.number());
    let (line, after) = lines.next().ok_or(bad)?;
    let moment = moment_of(line).ok_or(bad)?;
    Ok((moment, after))
}

// The depth, where the next line says one, and the lines after it.
#[tactic(auto, unfolding(crate::specs::LinePlaces::optional))]
fn optional_depth<'a>(lines: Lines<'a>) -> (Option<u16>, Lines<'a>)
    ensures { result ≡ optional depth_line lines.entry }
{
    if let Some((line, after)) = lines.next()
        && let Some(depth) = depth_of(line)
    {
        return (Some(depth), after);
    }
    (None, lines)
}

// The supported algorithms, and the lines after them.
#[tactic(auto, unfolding(crate::specs::LinePlaces::one))]
fn one_algorithms<'a>(alloc: Global, lines: Lines<'a>) -> Result<(Vec<u8>, Lines<'a>), SessionStop>
    ensures { ReadsAs (λ x. (x.0.items, x.1)) result (one algorithms_line lines.entry) }
{
    let bad = SessionStop::BadLine(lines.number());
    let (line, after) = lines.next().ok_or(bad)?;
    let algorithms = algorithms_of(alloc, line)?.ok_or(bad)?;
    Ok((algorithms, after))
}

// The query, and the lines after it.
#[tactic(auto, unfolding(crate::specs::LinePlaces::one))]
fn one_query<'a>(alloc: Global, lines: Lines<'a>) -> Result<(Query, Lines<'a>), SessionStop>
    ensures { ReadsAs (λ x. x) result (one query_line lines.entry) }
{
    let bad = SessionStop::BadLine(lines.number());
    let (line, after) = lines.next().ok_or(bad)?;
    let query = query_of(alloc, line)?.ok_or(bad)?;
    Ok((query, after))
}

// The lines after the last of the form.
#[tactic(auto, unfolding(crate::specs::LinePlaces::one))]
fn after_end<'a>(lines: Lines<'a>) -> Result<Lines<'a>, SessionStop>
    ensures { ReadsAs (λ (after : Place). (tt, after)) result (one end_line lines.entry) }
{
    let bad = SessionStop::BadLine(lines.number());
    let (line, after) = lines.next().ok_or(bad)?;
    if line != b"end".as_slice() {
        return Err(bad);
    }
    Ok(after)
}

/// The session that the next lines are, and the lines after its last. Lines end with LF, words are separated by one space.
///
/// `BadLine` has the number of the first line that can't stand at its place, is missing or has no LF.
#[tactic(auto, unfolding(crate::specs::Grammar::session_front))]
pub fn read_front<'a>(alloc: Global, lines: Lines<'a>) -> Result<(Session, Lines<'a>), SessionStop>
    ensures { ReadsAs (λ x. (x.0, x.1)) result (session_front lines.entry) }
{
    let (by_turn, lines) = one_header(lines)?;
    let (moment, lines) = one_moment(lines)?;
    let (depth, lines) = optional_depth(lines);
    let (algorithms, lines) = one_algorithms(alloc, lines)?;
    let (anchors, lines) = many(alloc, lines)?;
    let (accepts, lines) = many(alloc, lines)?;
    let (query, lines) = one_query(alloc, lines)?;
    let (replies, lines) = many(alloc, lines)?;
    let lines = after_end(lines)?;
    let session = Session {
        by_turn,
        moment,
        depth,
        algorithms,
        anchors,
        accepts,
        query,
        replies,
    };
    Ok((session, lines))
}

/// The session that bytes are, all of them.
///
/// `BadLine` has the number, from 1, of the first line that can't stand at its place, is missing or has no LF; the line
/// after the last is bad where anything follows.
#[tactic(auto, unfolding(crate::specs::Grammar::session_at))]
pub fn read_session(alloc: Global, bytes: &[u8]) -> Result<Session, SessionStop>
    requires { length bytes.now < 2 ^ 32 }
    ensures { ReadsAs (λ s. s) result (session_of bytes.now) }
{
    let (session, lines) = read_front(alloc, Lines::of(bytes))?;
    if !lines.is_ended() {
        return Err(SessionStop::BadLine(lines.number()));
    }
    Ok(session)
}
