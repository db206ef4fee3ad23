//! The lines of links.
ghost use Rattle.std.specs.Prelude.{◌≡◌, IfOk};
ghost use Rattle.std.specs.Option.{option_map, option_copied};
ghost use Rattle.dns_evidence.specs.Link.{link_value};
ghost use Rattle.dns_session.specs.Lines.{words_left};
ghost use Rattle.dns_audit.specs.ReportLines.{anchored_in, matched_in, key_set_in, signed_in, link_by, link_line, numbered_key, numbered_in};

use crate::each::rdatas_of;
use crate::report_words::{rdata_in, u32_in};
use crate::word_cuts::{first_of, quintuple, six_of, two_of};
use dns_evidence::Link;
use dns_record::{NoMemory, Rdata};
use dns_session::{next_word, triple};
use dns_text::{class_word_in, name_word_in, type_word_in};
use std::alloc::Global;

// A link to an anchored key, by the words that are left.
fn anchored_in(alloc: Global, rest: Option<&[u8]>) -> Result<Option<Link>, NoMemory>
    ensures { IfOk result (λ l. option_map link_value l ≡ anchored_in (words_left (option_copied rest.entry))) }
{
    let Some((owner, class, key)) = triple(rest) else {
        return Ok(None);
    };
    let Some(class) = class_word_in(class) else {
        return Ok(None);
    };
    let Some(owner) = name_word_in(alloc, owner)? else {
        return Ok(None);
    };
    let Some(key) = rdata_in(alloc, key)? else {
        return Ok(None);
    };
    Ok(Some(Link::Anchored { owner, class, key }))
}

// A link to a key that matches a DS record, by the words that are left.
fn matched_in(alloc: Global, rest: Option<&[u8]>) -> Result<Option<Link>, NoMemory>
    ensures { IfOk result (λ l. option_map link_value l ≡ matched_in (words_left (option_copied rest.entry))) }
{
    let Some((owner, class, key, ds_link, ds)) = quintuple(rest) else {
        return Ok(None);
    };
    let Some(class) = class_word_in(class) else {
        return Ok(None);
    };
    let Some(ds_link) = u32_in(ds_link) else {
        return Ok(None);
    };
    let Some(owner) = name_word_in(alloc, owner)? else {
        return Ok(None);
    };
    let Some(key) = rdata_in(alloc, key)? else {
        return Ok(None);
    };
    let Some(ds) = rdata_in(alloc, ds)? else {
        return Ok(None);
    };
    Ok(Some(Link::Matched {
        owner,
        class,
        key,
        ds_link,
        ds,
    }))
}

// A key and the number before it, by the word of the number and what is left after that.
#[tactic(auto, unfolding(crate::specs::ReportLines::numbered_key))]
fn numbered_key<'a>(
    alloc: Global,
    number: &[u8],
    rest: Option<&'a [u8]>,
) -> Result<Option<(u32, Rdata, Option<&'a [u8]>)>, NoMemory>
    ensures { IfOk result (λ x. option_map (λ k. (k.0, k.1, words_left (option_copied k.2))) x
        ≡ numbered_key number.now (words_left (option_copied rest.entry))) }
{
    let Some(link) = u32_in(number) else {
        return Ok(None);
    };
    let Some((word, left)) = first_of(rest) else {
        return Ok(None);
    };
    let Some(key) = rdata_in(alloc, word)? else {
        return Ok(None);
    };
    Ok(Some((link, key, left)))
}

// The numbers of links and the keys that are left.
fn numbered_in(
    alloc: Global,
    rest: Option<&[u8]>,
) -> Result<Option<(Vec<u32>, Vec<Rdata>)>, NoMemory>
    ensures { IfOk result (λ all. option_map (λ v. (v.0.items, v.1.items)) all
        ≡ numbered_in (words_left (option_copied rest.entry))) }
{
    let mut links = Vec::new(alloc);
    let mut keys = Vec::new(alloc);
    let mut left = rest;
    while let Some(text) = left {
        let (number, more) = next_word(text);
        match numbered_key(alloc, number, more)? {
            Some((link, key, after)) => {
                links.push(link)?;
                keys.push(key)?;
                left = after;
            }
            None => return Ok(None),
        }
    }
    Ok(Some((links, keys)))
}

// A link to a key set, by the words that are left.
fn key_set_in(alloc: Global, rest: Option<&[u8]>) -> Result<Option<Link>, NoMemory>
    ensures { IfOk result (λ l. option_map link_value l ≡ key_set_in (words_left (option_copied rest.entry))) }
{
    let Some((owner, class, numbered)) = two_of(rest) else {
        return Ok(None);
    };
    let Some(class) = class_word_in(class) else {
        return Ok(None);
    };
    let Some(owner) = name_word_in(alloc, owner)? else {
        return Ok(None);
    };
    let Some((links, keys)) = numbered_in(alloc, numbered)? else {
        return Ok(None);
    };
    Ok(Some(Link::KeySet {
        owner,
        class,
        keys,
        links,
    }))
}

// A link to a signed set, by the words that are left.
fn signed_in(alloc: Global, rest: Option<&[u8]>) -> Result<Option<Link>, NoMemory>
    ensures { IfOk result (λ l. option_map link_value l ≡ signed_in (words_left (option_copied rest.entry))) }
{
    let Some((owner, class, record_type, key_link, key, sig, rdatas)) = six_of(rest) else {
        return Ok(None);
    };
    let Some(class) = class_word_in(class) else {
        return Ok(None);
    };
    let Some(record_type) = type_word_in(record_type) else {
        return Ok(None);
    };
    let Some(key_link) = u32_in(key_link) else {
        return Ok(None);
    };
    let Some(owner) = name_word_in(alloc, owner)? else {
        return Ok(None);
    };
    let Some(key) = rdata_in(alloc, key)? else {
        return Ok(None);
    };
    let Some(sig) = rdata_in(alloc, sig)? else {
        return Ok(None);
    };
    let Some(rdatas) = rdatas_of(alloc, rdatas)? else {
        return Ok(None);
    };
    Ok(Some(Link::Signed {
        owner,
        class,
        record_type,
        rdatas,
        sig,
        key_link,
        key,
    }))
}

/// A link, by its line.
#[tactic(auto, unfolding(crate::specs::ReportLines::link_by))]
pub(crate) fn link_of(alloc: Global, line: &[u8]) -> Result<Option<Link>, NoMemory>
    ensures { IfOk result (λ l. option_map link_value l ≡ link_line line.now) }
{
    let (kind, rest) = next_word(line);
    if kind == b"anchored".as_slice() {
        anchored_in(alloc, rest)
    } else if kind == b"matched".as_slice() {
        matched_in(alloc, rest)
    } else if kind == b"keyset".as_slice() {
        key_set_in(alloc, rest)
    } else if kind == b"signed".as_slice() {
        signed_in(alloc, rest)
    } else {
        Ok(None)
    }
}
