//! Reading a session and the questions behind it, line after line.
ghost use Rattle.std.specs.Prelude.{◌≡◌, ◌<◌, ◌^◌, length};
ghost use Rattle.dns_session.specs.LinePlaces.{Place, one};
ghost use Rattle.dns_session.specs.Lines.{end_line};
ghost use Rattle.dns_session.specs.Stops.{ReadsAs};
ghost use Rattle.dns_deny.specs.DenyGrammar.{deny_of};

use crate::deny_text::DenyText;
use dns_session::{Lines, SessionStop, many, read_front};
use std::alloc::Global;

// The lines after the last of the form.
#[tactic(auto, unfolding(dns_session::specs::LinePlaces::one))]
fn after_end<'a>(lines: Lines<'a>) -> Result<Lines<'a>, SessionStop>
    ensures { ReadsAs (λ (after : Place). (tt, after)) result (one end_line lines.entry) }
{
    let bad = SessionStop::BadLine(lines.number());
    let (line, after) = lines.next().ok_or(bad)?;
    if line != b"end".as_slice() {
        return Err(bad);
    }
    Ok(after)
}

/// The session and the questions that bytes are, all of them: a session, a line `then NAME TYPE` for each question, and `end`.
///
/// `BadLine` has the number, from the session's first line on, of the first line that can't stand at its place, is missing or has no LF;
/// the line after the last is bad where anything follows.
#[tactic(auto, unfolding(crate::specs::DenyGrammar::deny_at))]
pub fn read_denials(alloc: Global, bytes: &[u8]) -> Result<DenyText, SessionStop>
    requires { length bytes.now < 2 ^ 32 }
    ensures { ReadsAs (λ t. t) result (deny_of bytes.now) }
{
    let (session, lines) = read_front(alloc, Lines::of(bytes))?;
    let (questions, lines) = many(alloc, lines)?;
    let lines = after_end(lines)?;
    if !lines.is_ended() {
        return Err(SessionStop::BadLine(lines.number()));
    }
    Ok(DenyText {
        session,
        lines: questions,
    })
}
