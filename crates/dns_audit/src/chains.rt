//! The chains of a report.
ghost use Rattle.std.specs.Prelude.{◌≡◌, is_some, map};
ghost use Rattle.dns_evidence.specs.Link.{link_value};
ghost use Rattle.dns_session.specs.LinePlaces.{one, read_next};
ghost use Rattle.dns_session.specs.Stops.{ReadsAs};
ghost use Rattle.dns_audit.specs.ReportLines.{chain_line, link_line};
ghost use Rattle.dns_audit.specs.ReportGrammar.{times, chain_after, chains_at};
ghost use Rattle.dns_audit.specs.RecordForms.{one_chain};

use crate::link_lines::link_of;
use crate::report_words::{section_in, u32_in};
use dns_evidence::{Chain, Link};
use dns_model::Section;
use dns_session::{Lines, SessionStop, after, double};
use std::alloc::Global;
use std::marker::Model;

/// What the line before a chain's links says.
#[derive(Clone, Copy)]
struct ChainHead {
    /// Where the set stands.
    section: Section,
    /// How many links follow.
    count: u32,
}

impl Model for ChainHead {
    ghost use Rattle.dns_audit.specs.ReportValue as values;

    ghost Value = { values.ChainHead };

    ghost inverse = { λ h. record { section = h.section; count = h.count } };

    ghost view = { λ h. record { section = h.section; count = h.count } };
}

// What the line before a chain's links says.
fn head_of(line: &[u8]) -> Option<ChainHead>
    ensures { result ≡ chain_line line.now }
{
    let (section, count) = double(after(line, b"chain")?)?;
    let section = section_in(section)?;
    let count = u32_in(count)?;
    Some(ChainHead { section, count })
}

// The next link, and the lines after it.
#[tactic(auto, unfolding(dns_session::specs::LinePlaces::one))]
fn one_link<'a>(alloc: Global, lines: Lines<'a>) -> Result<(Link, Lines<'a>), SessionStop>
    ensures { ReadsAs (λ x. (link_value x.0, x.1)) result (one link_line lines.entry) }
{
    let bad = SessionStop::BadLine(lines.number());
    let (line, after) = lines.next().ok_or(bad)?;
    let link = link_of(alloc, line)?.ok_or(bad)?;
    Ok((link, after))
}

// So many links, and the lines after them.
fn links_of<'a>(
    alloc: Global,
    count: u32,
    lines: Lines<'a>,
) -> Result<(Vec<Link>, Lines<'a>), SessionStop>
    ensures { ReadsAs (λ x. (map link_value x.0.items, x.1)) result (times (one link_line) count lines.entry) }
{
    let mut all = Vec::new(alloc);
    let mut here = lines;
    let mut left = count;
    'links: while left > 0 {
        let (link, after) = one_link(alloc, here)?;
        all.push(link)?;
        here = after;
        left -= 1;
    }
    Ok((all, here))
}

// A chain after the line before its links, and the lines after it.
#[tactic(auto, unfolding(crate::specs::ReportGrammar::chain_after))]
fn chain_after<'a>(
    alloc: Global,
    head: ChainHead,
    lines: Lines<'a>,
) -> Result<(Chain, Lines<'a>), SessionStop>
    ensures { ReadsAs (λ x. (x.0, x.1)) result (chain_after head lines.entry) }
{
    let (links, lines) = links_of(alloc, head.count, lines)?;
    let chain = Chain {
        section: head.section,
        links,
    };
    Ok((chain, lines))
}

// The line before a chain's links, and the lines after it.
#[tactic(auto, unfolding(dns_session::specs::LinePlaces::one))]
fn one_head<'a>(lines: Lines<'a>) -> Result<(ChainHead, Lines<'a>), SessionStop>
    ensures { ReadsAs (λ x. (x.0, x.1)) result (one chain_line lines.entry) }
{
    let bad = SessionStop::BadLine(lines.number());
    let (line, after) = lines.next().ok_or(bad)?;
    let head = head_of(line).ok_or(bad)?;
    Ok((head, after))
}

// The next chain, and the lines after it.
fn one_chain<'a>(alloc: Global, lines: Lines<'a>) -> Result<(Chain, Lines<'a>), SessionStop>
    ensures { ReadsAs (λ x. (x.0, x.1)) result (one_chain lines.entry) }
{
    let (head, lines) = one_head(lines)?;
    chain_after(alloc, head, lines)
}

// Whether the next line begins a chain.
fn begins_chain(lines: &Lines<'_>) -> bool
    ensures { result ≡ is_some (read_next chain_line lines.now) }
{
    matches!(lines.next(), Some((line, _)) if head_of(line).is_some())
}

/// As many chains as there are, and the lines after them.
pub(crate) fn chains_at<'a>(
    alloc: Global,
    lines: Lines<'a>,
) -> Result<(Vec<Chain>, Lines<'a>), SessionStop>
    ensures { ReadsAs (λ x. (x.0.items, x.1)) result (chains_at lines.entry) }
{
    let mut all = Vec::new(alloc);
    let mut here = lines;
    'chains: while begins_chain(&here) {
        let (chain, rest) = one_chain(alloc, here)?;
        all.push(chain)?;
        here = rest;
    }
    Ok((all, here))
}
