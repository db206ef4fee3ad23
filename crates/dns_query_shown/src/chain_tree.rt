//! Chains as trees.
ghost use Rattle.std.specs.Prelude.{◌≡◌, ◌++◌, [], map, IfOk, OnOk};
ghost use Rattle.dns_evidence.specs.Link.{link_value};
ghost use Rattle.dns_query_shown.specs.ChainTrees.{below, chain_text, chains_text, first_indent, indent_of, tree_lines};

use crate::link_words::push_link;
use dns_evidence::{Chain, Link};
use dns_record::{NoMemory, Octets};
use dns_report::section_word;
use dns_text::push_text;
use std::alloc::Global;

/// How far a line is moved to the right that stands below nothing.
const INDENT: &[u8] = b"  ";

// The indent of what rests on the link of a number.
fn below(alloc: Global, above: &[Octets], number: u32) -> Result<Octets, NoMemory>
    ensures { IfOk result (λ o. o ≡ below above.now number) }
{
    let mut text = Vec::new(alloc);
    if let Some(indent) = above.get(number as usize) {
        text.extend_from_slice(indent.as_slice())?;
    }
    text.extend_from_slice(INDENT)?;
    Ok(Octets::from_vec(text))
}

// The indent of a line that stands below nothing.
fn first_indent(alloc: Global) -> Result<Octets, NoMemory>
    ensures { IfOk result (λ o. o ≡ first_indent) }
{
    Octets::from_slice(alloc, INDENT)
}

// The indent of a link, by those of the links before.
fn indent_of(alloc: Global, above: &[Octets], link: &Link) -> Result<Octets, NoMemory>
    ensures { IfOk result (λ o. o ≡ indent_of above.now (link_value link.now)) }
{
    match link {
        Link::Anchored {
            owner: _,
            class: _,
            key: _,
        } => first_indent(alloc),
        Link::Matched {
            owner: _,
            class: _,
            key: _,
            ds_link,
            ds: _,
        } => below(alloc, above, *ds_link),
        Link::KeySet {
            owner: _,
            class: _,
            keys: _,
            links,
        } => match links.first() {
            Some(number) => below(alloc, above, *number),
            None => first_indent(alloc),
        },
        Link::Signed {
            owner: _,
            class: _,
            record_type: _,
            rdatas: _,
            sig: _,
            key_link,
            key: _,
        } => below(alloc, above, *key_link),
    }
}

// Appends a line for each link.
#[tactic(auto, unfolding(crate::specs::ChainTrees::tree_lines))]
fn push_tree(into: &mut Vec<u8>, links: &[Link]) -> Result<(), NoMemory>
    ensures { OnOk result (into.new.items ≡ into.old.items ++ tree_lines [] (map link_value links.now)) }
{
    let alloc = *into.allocator();
    let mut above = Vec::new(alloc);
    let mut left = links;
    'links: while let Some((link, more)) = left.split_first() {
        let indent = indent_of(alloc, &above, link)?;
        push_link(into, indent.as_slice(), link)?;
        above.push(indent)?;
        left = more;
    }
    Ok(())
}

// Appends the lines of a chain.
fn push_chain(into: &mut Vec<u8>, chain: &Chain) -> Result<(), NoMemory>
    ensures { OnOk result (into.new.items ≡ into.old.items ++ chain_text chain.now) }
{
    push_text(into, section_word(chain.section))?;
    push_text(into, b":\n")?;
    push_tree(into, &chain.links)
}

/// Appends each chain of an answer's Secure sets as a tree, in order: the section of the set, and behind it a line for each link, from
/// the trusted keys down to the set itself, below the link that it rests on. Keys are named by their tags. It fails only where memory
/// runs out.
pub fn push_chains(into: &mut Vec<u8>, chains: &[Chain]) -> Result<(), NoMemory>
    ensures { OnOk result (into.new.items ≡ into.old.items ++ chains_text chains.now) }
{
    for chain in chains {
        push_chain(into, chain)?;
    }
    Ok(())
}
