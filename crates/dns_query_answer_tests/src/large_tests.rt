//! An answer with much in it is written whole, and memory doesn't run out.
use crate::given::{answer_of, query_of, record_of};
use dns_evidence::{Asked, Ending, IterationLimits, Limits, Listed, Reply};
use dns_handle::DnsResponse;
use dns_model::{Denial, Proof};
use dns_query_answer::{answer_causes, write_answer};
use dns_record::NoMemory;
use dns_trust::{Judge, TrustAnchors};
use std::alloc::Global;

/// How many records the answer has, and how many steps its trail.
const MANY: usize = 2_000;

/// The line of each record.
const LINE: &[u8] = b"secure         . 60 IN A \\# 0\n";

// A step that heard nothing.
fn step_of(alloc: Global) -> Result<Asked, NoMemory> {
    Ok(Asked {
        depth: 0,
        judged: true,
        query: query_of(alloc, 1)?,
        reply: Reply::Fault,
        sets: Vec::new(alloc),
        ending: Ending::Failed,
        excuse: Vec::new(alloc),
    })
}

// An answer with many records and a long trail.
fn large_answer(alloc: Global) -> Result<DnsResponse, NoMemory> {
    let mut answer = answer_of(alloc, &[], Denial::None)?;
    for _ in 0..MANY {
        let record = record_of(alloc, 1, Proof::Secure)?;
        answer.message.answers.push(record)?;
        let step = step_of(alloc)?;
        answer.trail.steps.push(step)?;
    }
    Ok(answer)
}

// How many lists of causes a large answer has, and how many bytes its text.
fn sizes(alloc: Global) -> Result<(usize, usize), NoMemory> {
    let verifier = Listed::new(alloc);
    let anchors = TrustAnchors::empty(alloc);
    let judge = Judge {
        verifier: &verifier,
        anchors: &anchors,
        moment: 0,
    };
    let limits = Limits {
        depth: 26,
        soft: IterationLimits::DEFAULT.soft,
        hard: IterationLimits::DEFAULT.hard,
    };
    let query = query_of(alloc, 1)?;
    let reply = Ok(large_answer(alloc)?);
    let causes = answer_causes(alloc, &judge, &limits, &reply)?;
    let text = write_answer(alloc, &query, 0, &causes, &reply)?;
    Ok((causes.len(), text.len()))
}

#[test]
fn a_large_answer_is_written(rt: HostRuntime) {
    let held = matches!(
        sizes(rt.alloc()),
        Ok((causes, bytes)) if causes == MANY && bytes == MANY * LINE.len()
    );
    assert!(rt; held, "two thousand records");
}
