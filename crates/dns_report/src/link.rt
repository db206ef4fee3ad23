//! The lines of chains.
ghost use Rattle.std.specs.Prelude.{◌≡◌, ◌++◌, ◌∷◌, ◌&&◌, ◌^◌, [], map, length, nat_lt, OnOk, IsTrue};
ghost use Rattle.std.specs.List.{flat_map, list_all};
ghost use Rattle.std.specs.Fmt.{decimal};
ghost use Rattle.dns_model.specs.Bytes.{is_bytes};
ghost use Rattle.dns_record.specs.Words.{type_word};
ghost use Rattle.dns_text.specs.Words.{octets_word};
ghost use Rattle.dns_evidence.specs.Link.{link_value};
ghost use Rattle.dns_text.specs.Lines.{line, line_rest};
ghost use Rattle.dns_report.specs.Fields.{is_u16, is_u32};
ghost use Rattle.dns_report.specs.View.{KeySet, numbered, shown_link, chain_view, fitting_key, fitting_link, fitting_chain};
ghost use Rattle.dns_report.specs.Report.{key_words, link_line, chain_text};
ghost use Rattle.dns_report.specs.WrittenLines.{chain_line};

use crate::marks::section_word;
use crate::words::push_front;
use dns_evidence::{Chain, Link, LinkSignature};
use dns_record::{DNSClass, Name, NoMemory, Rdata, RecordType};
use dns_text::{end_line, push_number, push_octets_word, push_text, push_type_word, push_word};

// Appends the words of numbered keys, and ends the line.
#[tactic(auto, unfolding(crate::specs::Report::key_words, crate::specs::View::numbered))]
fn push_keys(into: &mut Vec<u8>, keys: &[Rdata], numbers: &[u32]) -> Result<(), NoMemory>
    ensures ok { OnOk result (into.new.items ≡ into.old.items
        ++ line_rest (key_words (numbered keys.now numbers.now))) }
    ensures fits { OnOk result (IsTrue (list_all fitting_key (numbered keys.now numbers.now))) }
{
    let mut left = keys;
    let mut right = numbers;
    'keys: while let Some((key, more)) = left.split_first() {
        let Some((number, others)) = right.split_first() else {
            return end_line(into);
        };
        push_number(into, u64::from(*number))?;
        push_octets_word(into, key.as_slice())?;
        left = more;
        right = others;
    }
    end_line(into)
}

// Appends the words of rdatas, and ends the line.
fn push_rdatas(into: &mut Vec<u8>, rdatas: &[Rdata]) -> Result<(), NoMemory>
    ensures ok { OnOk result (into.new.items ≡ into.old.items ++ line_rest (map octets_word rdatas.now)) }
    ensures fits { OnOk result (IsTrue (list_all is_bytes rdatas.now)) }
{
    let mut left = rdatas;
    'rdatas: while let Some((rdata, more)) = left.split_first() {
        push_octets_word(into, rdata.as_slice())?;
        left = more;
    }
    end_line(into)
}

// Appends the words of a signed set behind its owner and class, and ends the line.
fn push_signed(
    into: &mut Vec<u8>,
    record_type: RecordType,
    rdatas: &[Rdata],
    by: &LinkSignature<'_>,
) -> Result<(), NoMemory>
    ensures ok { OnOk result (into.new.items ≡ into.old.items ++ line_rest (type_word record_type.0
        ∷ decimal by.now.key_link ∷ octets_word by.now.key.now ∷ octets_word by.now.sig.now
        ∷ map octets_word rdatas.now)) }
    ensures numbers { IsTrue (is_u16 record_type.0 && is_u32 by.now.key_link) }
    ensures bytes { OnOk result (IsTrue
        (is_bytes by.now.key.now && (is_bytes by.now.sig.now && list_all is_bytes rdatas.now))) }
{
    let key_link = u64::from(by.key_link);
    push_type_word(into, record_type)?;
    push_number(into, key_link)?;
    push_octets_word(into, by.key.as_slice())?;
    push_octets_word(into, by.sig.as_slice())?;
    push_rdatas(into, rdatas)
}

// Appends the words of a key that matches a DS record behind its owner and class, and ends the line.
fn push_matched(into: &mut Vec<u8>, key: &Rdata, ds_link: u32, ds: &Rdata) -> Result<(), NoMemory>
    ensures ok { OnOk result (into.new.items ≡ into.old.items
        ++ line_rest (octets_word key.now ∷ decimal ds_link ∷ octets_word ds.now ∷ [])) }
    ensures number { IsTrue (is_u32 ds_link) }
    ensures bytes { OnOk result (IsTrue (is_bytes key.now && is_bytes ds.now)) }
{
    push_octets_word(into, key.as_slice())?;
    push_number(into, u64::from(ds_link))?;
    push_octets_word(into, ds.as_slice())?;
    end_line(into)
}

// Appends the line of a key set.
fn push_key_set(
    into: &mut Vec<u8>,
    owner: &Name,
    class: DNSClass,
    keys: &[Rdata],
    links: &[u32],
) -> Result<(), NoMemory>
    ensures ok { OnOk result (into.new.items ≡ into.old.items
        ++ link_line (KeySet owner.now class.0 (numbered keys.now links.now))) }
    ensures fits { OnOk result (IsTrue (fitting_link (KeySet owner.now class.0 (numbered keys.now links.now)))) }
{
    push_front(into, b"keyset", owner, class)?;
    push_keys(into, keys, links)
}

// Appends the line of a link.
fn push_link(into: &mut Vec<u8>, link: &Link) -> Result<(), NoMemory>
    ensures ok { OnOk result (into.new.items ≡ into.old.items ++ link_line (shown_link (link_value link.now))) }
    ensures fits { OnOk result (IsTrue (fitting_link (shown_link (link_value link.now)))) }
{
    match link {
        Link::Anchored { owner, class, key } => {
            push_front(into, b"anchored", owner, *class)?;
            push_octets_word(into, key.as_slice())?;
            end_line(into)
        }
        Link::Matched {
            owner,
            class,
            key,
            ds_link,
            ds,
        } => {
            push_front(into, b"matched", owner, *class)?;
            push_matched(into, key, *ds_link, ds)
        }
        Link::KeySet {
            owner,
            class,
            keys,
            links,
        } => push_key_set(into, owner, *class, keys, links),
        Link::Signed {
            owner,
            class,
            record_type,
            rdatas,
            sig,
            key_link,
            key,
        } => {
            let by = LinkSignature {
                sig,
                key_link: *key_link,
                key,
            };
            push_front(into, b"signed", owner, *class)?;
            push_signed(into, *record_type, rdatas, &by)
        }
    }
}

// Appends the line that begins a chain.
fn push_chain_line(into: &mut Vec<u8>, chain: &Chain) -> Result<(), NoMemory>
    ensures ok { OnOk result (into.new.items ≡ into.old.items ++ chain_line (chain_view chain.now)) }
    ensures count { OnOk result (IsTrue (nat_lt (length (chain_view chain.now).links) (2 ^ 64))) }
{
    push_text(into, b"chain")?;
    push_word(into, section_word(chain.section))?;
    push_number(into, chain.links.len() as u64)?;
    end_line(into)
}

// Appends the lines of links, in order.
fn push_links(into: &mut Vec<u8>, links: &[Link]) -> Result<(), NoMemory>
    ensures ok { OnOk result (into.new.items ≡ into.old.items
        ++ flat_map link_line (map shown_link (map link_value links.now))) }
    ensures fits { OnOk result (IsTrue (list_all fitting_link (map shown_link (map link_value links.now)))) }
{
    let mut left = links;
    'links: while let Some((link, more)) = left.split_first() {
        push_link(into, link)?;
        left = more;
    }
    Ok(())
}

// Appends the lines of a chain.
fn push_chain(into: &mut Vec<u8>, chain: &Chain) -> Result<(), NoMemory>
    ensures ok { OnOk result (into.new.items ≡ into.old.items ++ chain_text (chain_view chain.now)) }
    ensures fits { OnOk result (IsTrue (fitting_chain (chain_view chain.now))) }
{
    push_chain_line(into, chain)?;
    push_links(into, &chain.links)
}

/// Appends the lines of chains, in order.
pub(crate) fn push_chains(into: &mut Vec<u8>, chains: &[Chain]) -> Result<(), NoMemory>
    ensures ok { OnOk result (into.new.items ≡ into.old.items ++ flat_map chain_text (map chain_view chains.now)) }
    ensures fits { OnOk result (IsTrue (list_all fitting_chain (map chain_view chains.now))) }
{
    for chain in chains {
        push_chain(into, chain)?;
    }
    Ok(())
}
