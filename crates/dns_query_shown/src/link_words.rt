//! What a link of a chain says.
ghost use Rattle.std.specs.Prelude.{◌≡◌, ◌++◌, ◌∷◌, OnOk};
ghost use Rattle.std.specs.List.{flat_map};
ghost use Rattle.dns_evidence.specs.Link.{link_value};
ghost use Rattle.dns_model.specs.NameText.{printed};
ghost use Rattle.dns_query_shown.specs.ChainTrees.{key_words, link_line, link_words, listed_key, set_words, signed_by};

use crate::words::{push_key, push_name, push_set};
use dns_evidence::Link;
use dns_record::{Name, NoMemory, Rdata, RecordType};
use dns_text::push_text;

// Appends the words of keys, each behind a comma.
fn push_keys(into: &mut Vec<u8>, keys: &[Rdata]) -> Result<(), NoMemory>
    ensures { OnOk result (into.new.items ≡ into.old.items ++ flat_map listed_key keys.now) }
{
    for key in keys {
        push_text(into, b", ")?;
        push_key(into, key.as_slice())?;
    }
    Ok(())
}

// Appends an owner and a key of it, with what is said of the key.
fn push_owned_key(into: &mut Vec<u8>, owner: &Name, key: &[u8], why: &[u8]) -> Result<(), NoMemory>
    ensures { OnOk result (into.new.items
        ≡ into.old.items ++ (printed owner.now ++ (32 ∷ (key_words key.now ++ why.now)))) }
{
    push_name(into, owner)?;
    into.push(b' ')?;
    push_key(into, key)?;
    push_text(into, why)
}

// Appends a key behind what is said of it.
fn push_key_behind(into: &mut Vec<u8>, what: &[u8], key: &[u8]) -> Result<(), NoMemory>
    ensures { OnOk result (into.new.items ≡ into.old.items ++ (what.now ++ key_words key.now)) }
{
    push_text(into, what)?;
    push_key(into, key)
}

// Appends the key that signed a set.
#[tactic(auto, unfolding(crate::specs::ChainTrees::signed_by))]
fn push_signed_by(into: &mut Vec<u8>, key: &[u8]) -> Result<(), NoMemory>
    ensures { OnOk result (into.new.items ≡ into.old.items ++ signed_by key.now) }
{
    push_key_behind(into, b", signed by ", key)
}

// Appends an owner and a type, and the key that signed them.
fn push_signed(
    into: &mut Vec<u8>,
    owner: &Name,
    record_type: RecordType,
    key: &[u8],
) -> Result<(), NoMemory>
    ensures { OnOk result (into.new.items
        ≡ into.old.items ++ (set_words owner.now record_type.0 ++ signed_by key.now)) }
{
    push_set(into, owner, record_type)?;
    push_signed_by(into, key)
}

// Appends what a link says.
fn push_link_words(into: &mut Vec<u8>, link: &Link) -> Result<(), NoMemory>
    ensures { OnOk result (into.new.items ≡ into.old.items ++ link_words (link_value link.now)) }
{
    match link {
        Link::Anchored {
            owner,
            class: _,
            key,
        } => push_owned_key(into, owner, key.as_slice(), b", trusted"),
        Link::Matched {
            owner,
            class: _,
            key,
            ds_link: _,
            ds: _,
        } => push_owned_key(into, owner, key.as_slice(), b", of its DS record"),
        Link::KeySet {
            owner,
            class: _,
            keys,
            links: _,
        } => {
            push_name(into, owner)?;
            push_text(into, b" DNSKEY")?;
            push_keys(into, keys)
        }
        Link::Signed {
            owner,
            class: _,
            record_type,
            rdatas: _,
            sig: _,
            key_link: _,
            key,
        } => push_signed(into, owner, *record_type, key.as_slice()),
    }
}

/// Appends the line of a link.
pub(crate) fn push_link(into: &mut Vec<u8>, indent: &[u8], link: &Link) -> Result<(), NoMemory>
    ensures { OnOk result (into.new.items ≡ into.old.items ++ link_line indent.now (link_value link.now)) }
{
    push_text(into, indent)?;
    push_link_words(into, link)?;
    into.push(b'\n')?;
    Ok(())
}
