//! What is written of signatures that were asked for themselves.
use crate::given::{answer_of, query_of};
use dns_model::{Denial, Proof};
use dns_query_answer::write_answer;
use dns_record::NoMemory;
use std::alloc::Global;

/// The number of the type RRSIG.
const RRSIG: u16 = 46;

/// A signature that is Secure, and one that nobody judged.
const TEXT: &[u8] =
    b"secure         . 60 IN RRSIG \\# 0\nindeterminate  . 60 IN RRSIG \\# 0\nIndeterminate: . RRSIG: a signature is judged with the records that it signs, and these weren't asked for\n";

// What is written of such an answer.
fn written(alloc: Global) -> Result<Vec<u8>, NoMemory> {
    let query = query_of(alloc, RRSIG)?;
    let records = [(RRSIG, Proof::Secure), (RRSIG, Proof::Indeterminate)];
    let reply = Ok(answer_of(alloc, &records, Denial::None)?);
    write_answer(alloc, &query, 0, &[], &reply)
}

#[test]
fn a_signature_that_nobody_judged_has_a_sentence(rt: HostRuntime) {
    let held = matches!(written(rt.alloc()), Ok(text) if *text.as_slice() == *TEXT);
    assert!(rt; held, "a question for signatures");
}
