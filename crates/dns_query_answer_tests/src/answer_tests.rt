//! What is written of the answers to sessions, and their statuses.
use crate::worked_answers::{Row, rows};
use dns_evidence::{IterationLimits, Limits};
use dns_query_answer::{answer_causes, answer_status, write_answer};
use dns_record::NoMemory;
use dns_session::{Session, SessionStop, read_session};
use dns_session_lookup::{
    Verification, session_anchors, session_answer, session_options, session_verifier,
};
use dns_trust::Judge;
use std::alloc::Global;

/// No session of a row has more bytes.
const LONGEST: usize = 65_536;

// The session of a row.
fn session_of(alloc: Global, row: &Row) -> Option<Session> {
    if row.session.len() > LONGEST {
        return None;
    }
    match read_session(alloc, row.session) {
        Ok(session) => Some(session),
        Err(SessionStop::BadLine(_) | SessionStop::NoMemory) => None,
    }
}

// The status and the text of the answer to a session, of which a second reading says by what it is judged.
fn written(alloc: Global, session: Session, again: Session) -> Result<(u8, Vec<u8>), NoMemory> {
    let query = session.query.try_clone()?;
    let moment = session.moment;
    let limits = Limits {
        depth: session_options(session.depth).max_request_depth,
        soft: IterationLimits::DEFAULT.soft,
        hard: IterationLimits::DEFAULT.hard,
    };
    let Session {
        by_turn: _,
        moment: _,
        depth: _,
        algorithms,
        anchors,
        accepts,
        query: _,
        replies: _,
    } = again;
    let verifier = session_verifier(alloc, Verification::ByList, &algorithms, accepts)?;
    let anchors = session_anchors(alloc, anchors)?;
    let judge = Judge {
        verifier: &verifier,
        anchors: &anchors,
        moment,
    };
    let reply = session_answer(alloc, Verification::ByList, session);
    let causes = answer_causes(alloc, &judge, &limits, &reply)?;
    let text = write_answer(alloc, &query, moment, &causes, &reply)?;
    Ok((answer_status(&query, &reply), text))
}

// Whether the answer of a row is written so, with its status.
fn is_written(alloc: Global, row: &Row) -> bool {
    let Some(session) = session_of(alloc, row) else {
        return false;
    };
    let Some(again) = session_of(alloc, row) else {
        return false;
    };
    match written(alloc, session, again) {
        Ok((status, text)) => status == row.status && *text.as_slice() == *row.text,
        Err(NoMemory) => false,
    }
}

#[test]
fn answers_are_written_with_their_marks(rt: HostRuntime) {
    let alloc = rt.alloc();
    for row in rows() {
        assert!(rt; is_written(alloc, row), "{}", row.name);
    }
}
