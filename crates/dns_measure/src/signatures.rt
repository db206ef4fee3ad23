//! Signatures, a line each, and what the verifier that computes says of them.
ghost use Rattle.std.specs.Prelude.{◌<◌, ◌^◌, length};

use dns_evidence::Verifier;
use dns_record::{NoMemory, Octets};
use dns_session::{Lines, SessionStop, quadruple};
use dns_signatures::Arithmetic;
use dns_text::{octets_in, u8_in};
use std::alloc::Global;

// The bytes that a word of a line writes.
fn octets_at(alloc: Global, word: &[u8], bad: SessionStop) -> Result<Octets, SessionStop> {
    octets_in(alloc, word)?.ok_or(bad)
}

// Whether the signature of a line is accepted.
fn is_accepted(alloc: Global, line: &[u8], bad: SessionStop) -> Result<bool, SessionStop> {
    let (algorithm, key, bytes, signature) = quadruple(Some(line)).ok_or(bad)?;
    let algorithm = u8_in(algorithm).ok_or(bad)?;
    let key = octets_at(alloc, key, bad)?;
    let bytes = octets_at(alloc, bytes, bad)?;
    let signature = octets_at(alloc, signature, bad)?;
    let verifier = Arithmetic::new();
    Ok(verifier.accepts(
        algorithm,
        key.as_slice(),
        bytes.as_slice(),
        signature.as_slice(),
    ))
}

// Puts the line of a verdict behind a text.
fn push_verdict(text: &mut Vec<u8>, accepted: bool) -> Result<(), NoMemory> {
    let line: &[u8] = if accepted {
        b"accepted\n"
    } else {
        b"refused\n"
    };
    text.extend_from_slice(line)?;
    Ok(())
}

/// Puts `accepted` or `refused` behind a text for each line `ALGORITHM KEY BYTES SIGNATURE`, a number and three words of hexadecimal
/// digits, of which `-` is no byte.
pub(crate) fn push_accepted(
    alloc: Global,
    bytes: &[u8],
    text: &mut Vec<u8>,
) -> Result<(), SessionStop>
    requires { length bytes.now < 2 ^ 32 }
{
    let mut lines = Lines::of(bytes);
    while let Some((line, after)) = lines.next() {
        let bad = SessionStop::BadLine(lines.number());
        push_verdict(text, is_accepted(alloc, line, bad)?)?;
        lines = after;
    }
    if lines.is_ended() {
        Ok(())
    } else {
        Err(SessionStop::BadLine(lines.number()))
    }
}
