//! What the NSEC or NSEC3 records of replies prove, again and again: by their list or by an index of them.
ghost use Rattle.std.specs.Prelude.{◌≡◌, ◌<◌, ◌^◌, length};

use crate::verdicts::{MANY, asked_of, indexed_proof, listed_proof, nsec3s_in, nsecs_in};
use dns_denial::nsec_covering;
use dns_denial_index::NsecIndex;
use dns_evidence::Steps;
use dns_message::Message;
use dns_model::Proof;
use dns_rdata::NsecRecord;
use dns_record::{Name, NoMemory, Query};
use dns_session::{ReplyKind, Session, SessionReply};
use std::alloc::Global;
use std::marker::Brand;
use std::sync::ledger::{Blank, Ledger};

/// What is asked of a reply's records.
#[derive(Clone, Copy)]
pub enum Judging {
    /// They are gathered, and nothing is asked.
    Gathered,
    /// They are gathered, and their list gives the verdict.
    Listed,
    /// They are gathered, and an index of them is made and gives the verdict.
    Indexed,
    /// They are gathered once. Their list gives the NSEC record that covers the question's name.
    InList,
    /// They are gathered once, and an index of them is made once, which gives that record.
    InIndex,
}

/// How often something was asked of a reply's records, and how often they proved what is denied, or one of them covered the name.
/// A count stops at the greatest `u64`.
#[derive(Clone, Copy)]
pub struct Denials {
    /// The times that were asked.
    pub asked: u64,
    /// Those that found a proof or a record.
    pub found: u64,
}

impl Denials {
    // One more.
    fn with(self, found: bool) -> Denials {
        Denials {
            asked: self.asked.saturating_add(1),
            found: if found {
                self.found.saturating_add(1)
            } else {
                self.found
            },
        }
    }
}

// Whether a verdict on the records of a message is Secure.
fn is_proved(
    alloc: Global,
    judging: Judging,
    zone: &Name,
    question: &Query,
    message: &Message,
) -> Result<bool, NoMemory> {
    let nsecs = nsecs_in(alloc, &message.authorities)?;
    let nsec3s = nsec3s_in(alloc, &message.authorities)?;
    if MANY < nsecs.len() || MANY < nsec3s.len() {
        return Ok(false);
    }
    let asked = asked_of(zone, question, message);
    match judging {
        Judging::Listed => Ok(listed_proof(asked, &nsecs, &nsec3s) == Proof::Secure),
        Judging::Indexed => Ok(indexed_proof(asked, nsecs, nsec3s)? == Proof::Secure),
        Judging::Gathered | Judging::InList | Judging::InIndex => Ok(false),
    }
}

// Asks so many times which record of a list covers a name.
fn ask_list(name: &Name, nsecs: &[NsecRecord], times: u32, before: Denials) -> Denials
    requires { length nsecs.now < 2 ^ 32 }
{
    let mut counts = before;
    for _ in 0..times {
        counts = counts.with(nsec_covering(name, nsecs).is_some());
    }
    counts
}

// Asks an index once. Nobody reads its steps.
fn is_covered<L: Ledger>(name: &Name, index: &NsecIndex, blank: Blank) -> bool
    requires name { blank.name ≡ L.name }
    requires parts { blank.parts ≡ L.parts }
    requires some { 0 < blank.parts }
{
    let mut steps = Steps::<L>::new(blank);
    index.covering(name, &mut steps).is_some()
}

// Asks an index so many times.
fn ask_index(name: &Name, index: &NsecIndex, times: u32, before: Denials) -> Denials {
    let mut counts = before;
    for _ in 0..times {
        counts = counts.with(is_covered::<Brand>(name, index, Blank::new(1)));
    }
    counts
}

// Asks so many times which NSEC record of a message covers the question's name.
fn ask_covering(
    alloc: Global,
    by_index: bool,
    question: &Query,
    message: &Message,
    times: u32,
    before: Denials,
) -> Result<Denials, NoMemory> {
    let nsecs = nsecs_in(alloc, &message.authorities)?;
    if MANY < nsecs.len() {
        return Ok(before);
    }
    if by_index {
        let index = NsecIndex::new(nsecs)?;
        Ok(ask_index(&question.name, &index, times, before))
    } else {
        Ok(ask_list(&question.name, &nsecs, times, before))
    }
}

// Asks so many times for a verdict on a message.
fn ask_verdict(
    alloc: Global,
    judging: Judging,
    zone: &Name,
    question: &Query,
    message: &Message,
    times: u32,
    before: Denials,
) -> Result<Denials, NoMemory> {
    let mut counts = before;
    for _ in 0..times {
        counts = counts.with(is_proved(alloc, judging, zone, question, message)?);
    }
    Ok(counts)
}

// Asks so many times of the message of a reply.
fn ask_message(
    alloc: Global,
    judging: Judging,
    zone: &Name,
    question: &Query,
    message: &Message,
    times: u32,
    before: Denials,
) -> Result<Denials, NoMemory> {
    match judging {
        Judging::InList => ask_covering(alloc, false, question, message, times, before),
        Judging::InIndex => ask_covering(alloc, true, question, message, times, before),
        Judging::Gathered | Judging::Listed | Judging::Indexed => {
            ask_verdict(alloc, judging, zone, question, message, times, before)
        }
    }
}

// The same of a reply, if it is a message.
fn ask_reply(
    alloc: Global,
    judging: Judging,
    zone: &Name,
    reply: &SessionReply,
    times: u32,
    before: Denials,
) -> Result<Denials, NoMemory> {
    match &reply.kind {
        ReplyKind::Message(Ok(message)) => {
            ask_message(alloc, judging, zone, &reply.query, message, times, before)
        }
        _ => Ok(before),
    }
}

/// Asks so many times of each message of a session, in the zone that its query names.
pub(crate) fn count_denials(
    alloc: Global,
    judging: Judging,
    session: Session,
    times: u32,
) -> Result<Denials, NoMemory> {
    let mut counts = Denials { asked: 0, found: 0 };
    for reply in &session.replies {
        counts = ask_reply(alloc, judging, &session.query.name, reply, times, counts)?;
    }
    Ok(counts)
}
