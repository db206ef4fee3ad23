//! Links of chains, with the tags of keys (RFC 4034, appendix B).
ghost use Rattle.std.specs.Prelude.{◌≡◌, ◌++◌, ◌∷◌, [], codes, OnOk};
ghost use Rattle.dns_evidence.specs.Link.{link_value};
ghost use Rattle.dns_query_json.specs.AnswerJson.{key_links_field, link_fields, link_object, tag_field, tags_field, type_field};
ghost use Rattle.dns_query_json.specs.Json.{number_field};

use crate::lists::{JsonValue, push_list};
use crate::strings::{
    push_name_field, push_named, push_number_field, push_number_or_null, push_sign,
    push_string_field, push_type_field,
};
use dns_evidence::Link;
use dns_rdata::key_tag;
use dns_record::{Name, NoMemory, Rdata, RecordType};

/// A key, which stands as its tag.
impl JsonValue for Rdata {
    ghost use Rattle.dns_query_json.specs.AnswerJson.{tag_value};

    ghost text = { tag_value };

    fn push_value(&self, into: &mut Vec<u8>) -> Result<(), NoMemory> {
        push_number_or_null(into, key_tag(self.as_slice()))
    }
}

// Appends the field of a key's tag.
#[tactic(auto, unfolding(crate::specs::AnswerJson::tag_field))]
fn push_tag(into: &mut Vec<u8>, key: &Rdata) -> Result<(), NoMemory>
    ensures { OnOk result (into.new.items ≡ into.old.items ++ tag_field key.now) }
{
    push_named(into, b"tag")?;
    key.push_value(into)
}

// Appends the field of a set's tags.
#[tactic(auto, unfolding(crate::specs::AnswerJson::tags_field))]
fn push_tags(into: &mut Vec<u8>, keys: &[Rdata]) -> Result<(), NoMemory>
    ensures { OnOk result (into.new.items ≡ into.old.items ++ tags_field keys.now) }
{
    push_named(into, b"tags")?;
    push_list(into, keys)
}

// Appends the field of the links that show the keys of a set.
#[tactic(auto, unfolding(crate::specs::AnswerJson::key_links_field))]
fn push_key_links(into: &mut Vec<u8>, links: &[u32]) -> Result<(), NoMemory>
    ensures { OnOk result (into.new.items ≡ into.old.items ++ key_links_field links.now) }
{
    push_named(into, b"key_links")?;
    push_list(into, links)
}

// Appends the first fields of a link.
#[tactic(auto, unfolding(crate::specs::AnswerJson::link_fields))]
fn push_link_fields(into: &mut Vec<u8>, kind: &[u8], owner: &Name) -> Result<(), NoMemory>
    ensures { OnOk result (into.new.items ≡ into.old.items ++ link_fields kind.now owner.now) }
{
    push_string_field(into, b"link", kind)?;
    push_sign(into, b',')?;
    push_name_field(into, b"owner", owner)
}

// Begins a link.
fn push_front(into: &mut Vec<u8>, kind: &[u8], owner: &Name) -> Result<(), NoMemory>
    ensures { OnOk result (into.new.items ≡ into.old.items ++ (123 ∷ (link_fields kind.now owner.now ++ 44 ∷ []))) }
{
    push_sign(into, b'{')?;
    push_link_fields(into, kind, owner)?;
    push_sign(into, b',')
}

// Ends a link that rests on another.
fn push_end(into: &mut Vec<u8>, name: &[u8], number: u32) -> Result<(), NoMemory>
    ensures { OnOk result (into.new.items ≡ into.old.items ++ (44 ∷ (number_field name.now number ++ 125 ∷ []))) }
{
    push_sign(into, b',')?;
    push_number_field(into, name, u64::from(number))?;
    push_sign(into, b'}')
}

// Appends a key that a trust anchor names.
fn push_anchored(into: &mut Vec<u8>, owner: &Name, key: &Rdata) -> Result<(), NoMemory>
    ensures { OnOk result (into.new.items ≡ into.old.items
        ++ (123 ∷ (link_fields (codes "anchored") owner.now ++ (44 ∷ (tag_field key.now ++ 125 ∷ []))))) }
{
    push_front(into, b"anchored", owner)?;
    push_tag(into, key)?;
    push_sign(into, b'}')
}

// Appends a key that matches a DS record.
fn push_matched(into: &mut Vec<u8>, owner: &Name, key: &Rdata, ds_link: u32) -> Result<(), NoMemory>
    ensures { OnOk result (into.new.items ≡ into.old.items
        ++ (123 ∷ (link_fields (codes "matched") owner.now
        ++ (44 ∷ (tag_field key.now ++ (44 ∷ (number_field (codes "ds_link") ds_link ++ 125 ∷ []))))))) }
{
    push_front(into, b"matched", owner)?;
    push_tag(into, key)?;
    push_end(into, b"ds_link", ds_link)
}

// Appends a key set.
fn push_key_set(
    into: &mut Vec<u8>,
    owner: &Name,
    keys: &[Rdata],
    links: &[u32],
) -> Result<(), NoMemory>
    ensures { OnOk result (into.new.items ≡ into.old.items
        ++ (123 ∷ (link_fields (codes "keyset") owner.now
        ++ (44 ∷ (tags_field keys.now ++ (44 ∷ (key_links_field links.now ++ 125 ∷ []))))))) }
{
    push_front(into, b"keyset", owner)?;
    push_tags(into, keys)?;
    push_sign(into, b',')?;
    push_key_links(into, links)?;
    push_sign(into, b'}')
}

// Appends a signed set.
fn push_signed(
    into: &mut Vec<u8>,
    owner: &Name,
    record_type: RecordType,
    key_link: u32,
    key: &Rdata,
) -> Result<(), NoMemory>
    ensures { OnOk result (into.new.items ≡ into.old.items
        ++ (123 ∷ (link_fields (codes "signed") owner.now ++ (44 ∷ (type_field record_type.0
        ++ (44 ∷ (tag_field key.now ++ (44 ∷ (number_field (codes "key_link") key_link ++ 125 ∷ []))))))))) }
{
    push_front(into, b"signed", owner)?;
    push_type_field(into, record_type)?;
    push_sign(into, b',')?;
    push_tag(into, key)?;
    push_end(into, b"key_link", key_link)
}

impl JsonValue for Link {
    ghost use Rattle.dns_evidence.specs.Link.{link_value};
    ghost use Rattle.dns_query_json.specs.AnswerJson.{link_object};

    ghost text = { λ link. link_object (link_value link) };

    fn push_value(&self, into: &mut Vec<u8>) -> Result<(), NoMemory> {
        match self {
            Link::Anchored {
                owner,
                class: _,
                key,
            } => push_anchored(into, owner, key),
            Link::Matched {
                owner,
                class: _,
                key,
                ds_link,
                ds: _,
            } => push_matched(into, owner, key, *ds_link),
            Link::KeySet {
                owner,
                class: _,
                keys,
                links,
            } => push_key_set(into, owner, keys, links),
            Link::Signed {
                owner,
                class: _,
                record_type,
                rdatas: _,
                sig: _,
                key_link,
                key,
            } => push_signed(into, owner, *record_type, *key_link, key),
        }
    }
}
