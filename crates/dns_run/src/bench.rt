//! The line of one lookup below nested zones.
ghost use Rattle.std.specs.Prelude.{◌≡◌, ◌≢◌, ◌≤◌, IfOk};
ghost use Rattle.dns_io.specs.Runs.{KeepsSink};
ghost use Rattle.dns_run.specs.Benches.{secure_word, bench_text, IsBenchLine, WritesBench};

use dns_bench_zones::{BenchCount, ZoneCount, bench_count};
use dns_io::Sink;
use dns_io::status::{self, write_text};
use dns_record::NoMemory;
use dns_text::push_decimal;
use std::alloc::Global;

// The word that says whether the host's address is there and all of it Secure.
fn secure_word(secure: bool) -> &'static [u8]
    ensures { result.now ≡ secure_word secure }
{
    if secure { b"secure" } else { b"unproved" }
}

// So many zones.
fn zones_of(number: u8) -> ZoneCount
    requires least { 1 ≤ number }
    requires most { number ≤ 100 }
    ensures { result ≡ number }
{
    match ZoneCount::new(number) {
        Some(zones) => zones,
        None => unreachable!(),
    }
}

// The line of what was counted.
fn bench_text(alloc: Global, number: u8, count: BenchCount) -> Result<Vec<u8>, NoMemory>
    ensures { IfOk result (λ v. v.items ≡ bench_text number count) }
{
    let mut text = Vec::new(alloc);
    text.extend_from_slice(b"bench ")?;
    push_decimal(&mut text, u64::from(number))?;
    text.push(b' ')?;
    text.extend_from_slice(secure_word(count.secure))?;
    text.extend_from_slice(b" links ")?;
    push_decimal(&mut text, u64::from(count.links))?;
    text.extend_from_slice(b" asks ")?;
    push_decimal(&mut text, u64::from(count.asks))?;
    text.push(b'\n')?;
    Ok(text)
}

// The line of one lookup below so many zones.
fn bench_line(alloc: Global, number: u8) -> Result<Vec<u8>, NoMemory>
    requires least { 1 ≤ number }
    requires most { number ≤ 100 }
    ensures { IfOk result (λ v. IsBenchLine number v.items) }
{
    let count = bench_count(alloc, zones_of(number))?;
    bench_text(alloc, number, count)
}

/// Looks the host below so many zones up, and writes what that took.
#[tactic(auto, using(crate::proofs::BenchLemmas::writes_line, crate::proofs::BenchLemmas::writes_none))]
pub(crate) fn write_bench<W: Sink>(alloc: Global, number: u8, output: &mut W) -> u8
    requires least { 1 ≤ number }
    requires most { number ≤ 100 }
    ensures ends { WritesBench number result (W.taken output.old) (W.taken output.new) }

    // What follows of that for single statuses.
    ensures fault { result ≢ 1 }
    ensures input { result ≢ 3 }

    ensures keeps { KeepsSink W.faults result output.old output.new }
{
    match bench_line(alloc, number) {
        Ok(text) => write_text(status::DONE, &text, output),
        Err(NoMemory) => status::NO_MEMORY,
    }
}
