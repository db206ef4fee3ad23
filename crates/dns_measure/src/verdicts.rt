//! What a response proves of its question by the NSEC or NSEC3 records in its authority section (RFC 4035, 5.3.4 and 5.4;
//! RFC 5155, 8). An index of the records has to prove what their list does.
ghost use Rattle.std.specs.Prelude.{◌≡◌, ◌<◌, ◌^◌, length};

use dns_denial::{verify_nsec, verify_nsec3};
use dns_denial_index::{Nsec3Index, NsecIndex};
use dns_evidence::Steps;
use dns_message::{DecodeError, Message};
use dns_model::{Answered, Proof};
use dns_rdata::{Nsec3Record, NsecRecord, Rrsig};
use dns_record::{Name, NoMemory, Query, Record, ResponseCode};
use dns_session::{ReplyKind, Session, SessionReply};
use std::alloc::Global;
use std::marker::Brand;
use std::sync::ledger::{Blank, Ledger};

// How a record of the answer section answers for a name: a signature with fewer labels shows a wildcard (RFC 4035, 5.3.4).
fn signed_for(name: &Name, from: &Record) -> Answered {
    match Rrsig::of(from) {
        Some(sig) => {
            if sig.labels < name.num_labels() {
                Answered::Expanded(sig.labels)
            } else {
                Answered::Plain
            }
        }
        None => Answered::Plain,
    }
}

// How an answer section answers for a name, by its first record.
fn answered_by_first(name: &Name, answers: &[Record]) -> Answered {
    match answers {
        [first, ..] => signed_for(name, first),
        [] => Answered::No,
    }
}

// Puts what a record says behind NSEC records, if it is one.
fn push_nsec(alloc: Global, nsecs: &mut Vec<NsecRecord>, from: &Record) -> Result<(), NoMemory> {
    if let Some(nsec) = NsecRecord::of(alloc, from)? {
        nsecs.push(nsec)?;
    }
    Ok(())
}

/// The NSEC records of a section.
pub(crate) fn nsecs_in(alloc: Global, section: &[Record]) -> Result<Vec<NsecRecord>, NoMemory> {
    let mut nsecs = Vec::new(alloc);
    for record in section {
        push_nsec(alloc, &mut nsecs, record)?;
    }
    Ok(nsecs)
}

// Puts what a record says behind NSEC3 records, if it is one.
fn push_nsec3(alloc: Global, nsec3s: &mut Vec<Nsec3Record>, from: &Record) -> Result<(), NoMemory> {
    if let Some(nsec3) = Nsec3Record::of(alloc, from)? {
        nsec3s.push(nsec3)?;
    }
    Ok(())
}

/// The NSEC3 records of a section.
pub(crate) fn nsec3s_in(alloc: Global, section: &[Record]) -> Result<Vec<Nsec3Record>, NoMemory> {
    let mut nsec3s = Vec::new(alloc);
    for record in section {
        push_nsec3(alloc, &mut nsec3s, record)?;
    }
    Ok(nsec3s)
}

/// The limit of iterations, hard and soft.
const MOST_ITERATIONS: u16 = 500;

/// More records than a message has.
pub(crate) const MANY: usize = 1_000_000;

/// What is asked of the records: of which question in which zone, and how the message answers it.
#[derive(Clone, Copy)]
pub(crate) struct Asked<'a> {
    pub(crate) zone: &'a Name,
    pub(crate) question: &'a Query,
    pub(crate) code: ResponseCode,
    pub(crate) answered: Answered,
}

// What an index of NSEC records proves.
fn indexed_nsec<L: Ledger>(asked: Asked<'_>, index: &NsecIndex, blank: Blank) -> Proof
    requires name { blank.name ≡ L.name }
    requires parts { blank.parts ≡ L.parts }
    requires some { 0 < blank.parts }
{
    let mut steps = Steps::<L>::new(blank);
    index.verify(
        asked.question,
        asked.zone,
        asked.code,
        asked.answered,
        &mut steps,
    )
}

// What an index of NSEC3 records proves.
fn indexed_nsec3<L: Ledger>(asked: Asked<'_>, index: &Nsec3Index, blank: Blank) -> Proof
    requires name { blank.name ≡ L.name }
    requires parts { blank.parts ≡ L.parts }
    requires some { 0 < blank.parts }
{
    let mut steps = Steps::<L>::new(blank);
    let most = MOST_ITERATIONS;
    index.verify(
        asked.question,
        asked.zone,
        asked.code,
        asked.answered,
        most,
        most,
        &mut steps,
    )
}

/// What the list of the records proves: those of NSEC3, if there are any, else those of NSEC.
pub(crate) fn listed_proof(
    asked: Asked<'_>,
    nsecs: &[NsecRecord],
    nsec3s: &[Nsec3Record],
) -> Proof {
    let Asked {
        zone,
        question,
        code,
        answered,
    } = asked;
    if nsec3s.is_empty() {
        verify_nsec(question, zone, code, answered, nsecs)
    } else {
        let most = MOST_ITERATIONS;
        verify_nsec3(question, zone, code, answered, nsec3s, most, most)
    }
}

/// What an index of them proves.
pub(crate) fn indexed_proof(
    asked: Asked<'_>,
    nsecs: Vec<NsecRecord>,
    nsec3s: Vec<Nsec3Record>,
) -> Result<Proof, NoMemory>
    requires nsecs { length nsecs.items < 2 ^ 32 }
    requires nsec3s { length nsec3s.items < 2 ^ 32 }
{
    let blank = Blank::new(1);
    if nsec3s.is_empty() {
        let index = NsecIndex::new(nsecs)?;
        Ok(indexed_nsec::<Brand>(asked, &index, blank))
    } else {
        let index = Nsec3Index::new(nsec3s)?;
        Ok(indexed_nsec3::<Brand>(asked, &index, blank))
    }
}

// What records prove; `None` where their list and an index of them don't agree.
fn proof_by_records(
    asked: Asked<'_>,
    nsecs: Vec<NsecRecord>,
    nsec3s: Vec<Nsec3Record>,
) -> Result<Option<Proof>, NoMemory> {
    if MANY < nsecs.len() || MANY < nsec3s.len() {
        return Ok(None);
    }
    let listed = listed_proof(asked, &nsecs, &nsec3s);
    let indexed = indexed_proof(asked, nsecs, nsec3s)?;
    Ok((indexed == listed).then_some(listed))
}

/// What is asked of a message's records: whether they prove what it says of a question in a zone.
pub(crate) fn asked_of<'a>(zone: &'a Name, question: &'a Query, message: &Message) -> Asked<'a> {
    Asked {
        zone,
        question,
        code: message.response_code,
        answered: answered_by_first(&question.name, &message.answers),
    }
}

// What a message proves of a question in a zone. Bytes that are no message prove nothing.
fn message_proof(
    alloc: Global,
    zone: &Name,
    question: &Query,
    message: &Result<Message, DecodeError>,
) -> Result<Option<Proof>, NoMemory> {
    match message {
        Ok(message) => {
            let nsecs = nsecs_in(alloc, &message.authorities)?;
            let nsec3s = nsec3s_in(alloc, &message.authorities)?;
            proof_by_records(asked_of(zone, question, message), nsecs, nsec3s)
        }
        Err(_) => Ok(Some(Proof::Bogus)),
    }
}

// What a reply proves of its question in a zone: by its message, whatever becomes of it; a fault proves nothing.
fn reply_proof(
    alloc: Global,
    zone: &Name,
    reply: &SessionReply,
) -> Result<Option<Proof>, NoMemory> {
    match &reply.kind {
        ReplyKind::Message(message) => message_proof(alloc, zone, &reply.query, message),
        ReplyKind::Empty(message) => message_proof(alloc, zone, &reply.query, message),
        ReplyKind::Fault(_) => Ok(Some(Proof::Bogus)),
    }
}

// The line of a verdict, or of two that differ.
fn proof_line(proof: Option<Proof>) -> &'static [u8] {
    match proof {
        Some(Proof::Secure) => b"Secure\n",
        Some(Proof::Insecure) => b"Insecure\n",
        Some(_) => b"Bogus\n",
        None => b"Differs\n",
    }
}

// Puts a line for each reply behind a text, in a zone.
fn push_verdicts(
    alloc: Global,
    zone: &Name,
    replies: &[SessionReply],
    text: &mut Vec<u8>,
) -> Result<(), NoMemory> {
    for reply in replies {
        let proof = reply_proof(alloc, zone, reply)?;
        text.extend_from_slice(proof_line(proof))?;
    }
    Ok(())
}

/// Puts a line for each reply of a session behind a text, in the zone that its query names.
pub(crate) fn push_lines(
    alloc: Global,
    session: Session,
    text: &mut Vec<u8>,
) -> Result<(), NoMemory> {
    push_verdicts(alloc, &session.query.name, &session.replies, text)
}
