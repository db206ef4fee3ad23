//! Chains of trust (RFC 4035, 5).
ghost use Rattle.std.specs.Prelude.{◌≡◌, ◌++◌, map, OnOk};
ghost use Rattle.dns_evidence.specs.Link.{link_value};
ghost use Rattle.dns_query_json.specs.AnswerJson.{chains_field, link_object, links_field};
ghost use Rattle.dns_query_json.specs.Json.{listed};
ghost use Rattle.dns_report.specs.LineWords.{section_word as word_of_section};

use crate::lists::{JsonValue, push_list};
use crate::strings::{push_named, push_sign, push_string_field};
use dns_evidence::{Chain, Link};
use dns_model::Section;
use dns_record::NoMemory;

// The word of a section.
fn section_word(section: Section) -> &'static [u8]
    ensures { result.now ≡ word_of_section section }
{
    match section {
        Section::Answer => b"answer",
        Section::Authority => b"authority",
        Section::Additional => b"additional",
    }
}

// Appends links.
fn push_links(into: &mut Vec<u8>, links: &[Link]) -> Result<(), NoMemory>
    ensures { OnOk result (into.new.items ≡ into.old.items ++ listed link_object (map link_value links.now)) }
{
    push_list(into, links)
}

// Appends the field of a chain's links.
#[tactic(auto, unfolding(crate::specs::AnswerJson::links_field))]
fn push_links_field(into: &mut Vec<u8>, links: &[Link]) -> Result<(), NoMemory>
    ensures { OnOk result (into.new.items ≡ into.old.items ++ links_field (map link_value links.now)) }
{
    push_named(into, b"links")?;
    push_links(into, links)
}

impl JsonValue for Chain {
    ghost use Rattle.dns_query_json.specs.AnswerJson.{chain_value};

    ghost text = { chain_value };

    #[tactic(auto, unfolding(crate::specs::AnswerJson::chain_value))]
    fn push_value(&self, into: &mut Vec<u8>) -> Result<(), NoMemory> {
        push_sign(into, b'{')?;
        push_string_field(into, b"section", section_word(self.section))?;
        push_sign(into, b',')?;
        push_links_field(into, &self.links)?;
        push_sign(into, b'}')
    }
}

/// Appends the field of an answer's chains.
#[tactic(auto, unfolding(crate::specs::AnswerJson::chains_field))]
pub(crate) fn push_chains(into: &mut Vec<u8>, chains: &[Chain]) -> Result<(), NoMemory>
    ensures { OnOk result (into.new.items ≡ into.old.items ++ chains_field chains.now) }
{
    push_named(into, b"chains")?;
    push_list(into, chains)
}
