//! The forms of lines without names.
ghost use Rattle.std.specs.Prelude.{◌≡◌, IfOk};
ghost use Rattle.std.specs.Option.{option_map, option_copied};
ghost use Rattle.dns_session.specs.Lines.{header_line, moment_line, depth_line, algorithms_line, accept_line, words_left, bytes_in};
ghost use Rattle.dns_session.specs.LineFields.{accept_in};

use crate::form::LineForm;
use crate::session::AcceptedSignature;
use crate::words::{after, next_word, quadruple, single};
use dns_record::NoMemory;
use dns_text::{decimal_in, octets_in, u8_in, u16_in};
use std::alloc::Global;

/// Whether replies are served by turn, as the version in the first line says.
pub(crate) fn by_turn_of(line: &[u8]) -> Option<bool>
    ensures { result ≡ header_line line.now }
{
    if line == b"dns-session 1".as_slice() {
        Some(false)
    } else if line == b"dns-session 2".as_slice() {
        Some(true)
    } else {
        None
    }
}

/// The moment of a `moment` line.
pub(crate) fn moment_of(line: &[u8]) -> Option<u64>
    ensures { result ≡ moment_line line.now }
{
    let number = single(after(line, b"moment")?)?;
    decimal_in(number, u64::MAX)
}

/// The depth of a `depth` line.
pub(crate) fn depth_of(line: &[u8]) -> Option<u16>
    ensures { result ≡ depth_line line.now }
{
    let number = single(after(line, b"depth")?)?;
    u16_in(number)
}

// Numbers of eight bits, as words.
fn bytes_of(alloc: Global, rest: Option<&[u8]>) -> Result<Option<Vec<u8>>, NoMemory>
    ensures { IfOk result (λ all. option_map (λ v. v.items) all ≡ bytes_in (words_left (option_copied rest.entry))) }
{
    let mut all = Vec::new(alloc);
    let mut left = rest;
    while let Some(text) = left {
        let (word, more) = next_word(text);
        match u8_in(word) {
            Some(number) => all.push(number)?,
            None => return Ok(None),
        }
        left = more;
    }
    Ok(Some(all))
}

/// The numbers of an `algorithms` line.
pub fn algorithms_of(alloc: Global, line: &[u8]) -> Result<Option<Vec<u8>>, NoMemory>
    ensures { IfOk result (λ all. option_map (λ v. v.items) all ≡ algorithms_line line.now) }
{
    match after(line, b"algorithms") {
        Some(rest) => bytes_of(alloc, rest),
        None => Ok(None),
    }
}

// An accepted signature of its words.
fn accept_of(
    alloc: Global,
    algorithm: &[u8],
    key: &[u8],
    bytes: &[u8],
    signature: &[u8],
) -> Result<Option<AcceptedSignature>, NoMemory>
    ensures { IfOk result (λ x. x ≡ accept_in algorithm.now key.now bytes.now signature.now) }
{
    let Some(algorithm) = u8_in(algorithm) else {
        return Ok(None);
    };
    let Some(key) = octets_in(alloc, key)? else {
        return Ok(None);
    };
    let Some(bytes) = octets_in(alloc, bytes)? else {
        return Ok(None);
    };
    let Some(signature) = octets_in(alloc, signature)? else {
        return Ok(None);
    };
    Ok(Some(AcceptedSignature {
        algorithm,
        key,
        bytes,
        signature,
    }))
}

impl LineForm for AcceptedSignature {
    ghost form = { accept_line };

    fn read(alloc: Global, line: &[u8]) -> Result<Option<AcceptedSignature>, NoMemory> {
        let Some((algorithm, key, bytes, signature)) = after(line, b"accept").and_then(quadruple)
        else {
            return Ok(None);
        };
        accept_of(alloc, algorithm, key, bytes, signature)
    }
}
