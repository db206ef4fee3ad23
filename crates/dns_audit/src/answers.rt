//! The lines of an audit's answers.
ghost use Rattle.std.specs.Prelude.{◌≡◌, ◌++◌, OnOk, IfOk};
ghost use Rattle.dns_trust.specs.Judge.{judge_of};
ghost use Rattle.dns_audit.specs.AuditText.{answer_word, chain_answer, chain_answers, trail_answer, audit_text};

use crate::Report;
use dns_chain_check::check_chain;
use dns_evidence::{Chain, Limits, Trail, Verifier};
use dns_record::NoMemory;
use dns_text::push_decimal;
use dns_trail::check_trail;
use dns_trust::Judge;
use std::alloc::Global;

// The word of an answer.
fn answer_word(holds: bool) -> &'static [u8]
    ensures { result.now ≡ answer_word holds }
{
    if holds { b"yes" } else { b"no" }
}

// Appends the line of a chain.
fn push_chain(into: &mut Vec<u8>, number: u64, holds: bool) -> Result<(), NoMemory>
    ensures { OnOk result (into.new.items ≡ into.old.items ++ chain_answer number holds) }
{
    into.extend_from_slice(b"chain ")?;
    push_decimal(into, number)?;
    into.push(b' ')?;
    into.extend_from_slice(answer_word(holds))?;
    into.push(b'\n')?;
    Ok(())
}

// Appends a line for each chain, by its number from 0.
#[tactic(auto, using(crate::proofs::AnswerLemmas::more_answers))]
fn push_chains<V: Verifier>(
    alloc: Global,
    into: &mut Vec<u8>,
    judge: &Judge<'_, V>,
    chains: &[Chain],
) -> Result<(), NoMemory>
    ensures { OnOk result (into.new.items
        ≡ into.old.items ++ chain_answers (judge_of V.answers judge.now) 0 chains.now) }
{
    let mut left = chains;
    let mut number: u64 = 0;
    'chains: while let Some((chain, more)) = left.split_first() {
        let holds = check_chain(alloc, judge.anchors, judge.verifier, judge.moment, chain)?;
        push_chain(into, number, holds)?;
        number += 1;
        left = more;
    }
    Ok(())
}

// Appends the line of a trail.
fn push_trail<V: Verifier>(
    alloc: Global,
    into: &mut Vec<u8>,
    judge: &Judge<'_, V>,
    limits: &Limits,
    trail: &Option<Trail>,
) -> Result<(), NoMemory>
    ensures { OnOk result (into.new.items
        ≡ into.old.items ++ trail_answer (judge_of V.answers judge.now) limits.now trail.now) }
{
    let Some(trail) = trail else {
        return Ok(());
    };
    let holds = check_trail(
        alloc,
        judge.anchors,
        judge.verifier,
        judge.moment,
        limits,
        &[],
        trail,
    )?;
    into.extend_from_slice(b"trail ")?;
    into.extend_from_slice(answer_word(holds))?;
    into.push(b'\n')?;
    Ok(())
}

/// What an audit answers of a report: for each chain, by its number from 0, whether it is justified, and for the trail, where the report
/// has one, whether it is a derivation, with no entry of a cache. The text is empty where there is neither. The moment of `judge` is
/// in seconds since 1970. It fails only where memory runs out.
#[tactic(auto, unfolding(crate::specs::AuditText::audit_text))]
pub fn write_audit<V: Verifier>(
    alloc: Global,
    judge: &Judge<'_, V>,
    limits: &Limits,
    report: &Report,
) -> Result<Vec<u8>, NoMemory>
    ensures { IfOk result (λ v. v.items ≡ audit_text (judge_of V.answers judge.now) limits.now report.now) }
{
    let mut text = Vec::new(alloc);
    push_chains(alloc, &mut text, judge, &report.chains)?;
    push_trail(alloc, &mut text, judge, limits, &report.trail)?;
    Ok(text)
}
