//! The forms of lines with a name: questions and trusted keys.
ghost use Rattle.std.specs.Prelude.{◌≡◌, IfOk};
ghost use Rattle.dns_session.specs.Lines.{question_in, anchor_line, query_line};
ghost use Rattle.dns_session.specs.LineFields.{anchor_in};

use crate::form::LineForm;
use crate::session::Anchor;
use crate::words::{after, double, triple};
use dns_record::{DNSClass, NoMemory, Query};
use dns_text::{name_word_in, octets_in, type_word_in, u8_in};
use std::alloc::Global;

/// A question of class IN by its words.
pub fn question_of(
    alloc: Global,
    name: &[u8],
    record_type: &[u8],
) -> Result<Option<Query>, NoMemory>
    ensures { IfOk result (λ q. q ≡ question_in name.now record_type.now) }
{
    let Some(query_type) = type_word_in(record_type) else {
        return Ok(None);
    };
    let Some(name) = name_word_in(alloc, name)? else {
        return Ok(None);
    };
    Ok(Some(Query {
        name,
        query_type,
        query_class: DNSClass::IN,
    }))
}

// A trusted key by its words.
fn anchor_of(
    alloc: Global,
    name: &[u8],
    algorithm: &[u8],
    key: &[u8],
) -> Result<Option<Anchor>, NoMemory>
    ensures { IfOk result (λ a. a ≡ anchor_in name.now algorithm.now key.now) }
{
    let Some(algorithm) = u8_in(algorithm) else {
        return Ok(None);
    };
    let Some(owner) = name_word_in(alloc, name)? else {
        return Ok(None);
    };
    let Some(key) = octets_in(alloc, key)? else {
        return Ok(None);
    };
    Ok(Some(Anchor {
        owner,
        algorithm,
        key,
    }))
}

impl LineForm for Anchor {
    ghost form = { anchor_line };

    fn read(alloc: Global, line: &[u8]) -> Result<Option<Anchor>, NoMemory> {
        match after(line, b"anchor") {
            Some(rest) => match triple(rest) {
                Some((name, algorithm, key)) => anchor_of(alloc, name, algorithm, key),
                None => Ok(None),
            },
            None => Ok(None),
        }
    }
}

/// The question of a `query` line.
pub(crate) fn query_of(alloc: Global, line: &[u8]) -> Result<Option<Query>, NoMemory>
    ensures { IfOk result (λ q. q ≡ query_line line.now) }
{
    match after(line, b"query") {
        Some(rest) => match double(rest) {
            Some((name, record_type)) => question_of(alloc, name, record_type),
            None => Ok(None),
        },
        None => Ok(None),
    }
}
