//! Random lists of records in random messages: a transfer goes as by a plain machine that takes record by record.
use crate::parts::check;
use crate::transfers::{Came, Part, message_of};
use dns_handle::Notice;
use dns_transfer::TransferState;
use std::alloc::Global;
use std::process::Abort;
use std::rt::HostRuntime;

/// How far a transfer has come.
#[derive(Clone, Copy, PartialEq)]
enum Plain {
    Start,
    /// Behind an SOA with this serial number.
    Second(u8),
    Whole,
    /// Changes up to this serial number, and whether an even number of SOAs stand behind the second one.
    Changes(u8, bool),
    Ended,
}

/// What a message comes to.
#[derive(Clone, Copy, PartialEq)]
struct Step(Plain, Option<Came>);

/// The record behind the first SOA.
fn after_second(first: u8, incremental: bool, part: Part, is_last: bool) -> Step {
    match part {
        Part::Soa(serial) => {
            if serial != first {
                return if incremental {
                    Step(Plain::Changes(first, true), None)
                } else {
                    Step(Plain::Ended, Some(Came::Incremental))
                };
            }
            Step(
                Plain::Ended,
                if is_last { None } else { Some(Came::Trailing) },
            )
        }
        Part::NoSoa | Part::Address => Step(Plain::Whole, None),
    }
}

/// A record of a zone behind its first two.
fn after_whole(part: Part, is_last: bool) -> Step {
    match part {
        Part::Address => Step(Plain::Whole, None),
        Part::Soa(_) | Part::NoSoa => {
            Step(
                Plain::Ended,
                if is_last { None } else { Some(Came::Trailing) },
            )
        }
    }
}

/// A record of changes behind the first two.
fn after_changes(first: u8, is_even: bool, part: Part, is_last: bool) -> Step {
    match part {
        Part::Address => Step(Plain::Changes(first, is_even), None),
        Part::NoSoa => Step(Plain::Changes(first, !is_even), None),
        Part::Soa(serial) => {
            if !is_even && is_last && serial == first {
                Step(Plain::Ended, None)
            } else {
                Step(Plain::Changes(first, !is_even), None)
            }
        }
    }
}

/// The table of transfers, for one record, which is its message's last or not.
fn after_record(state: Plain, incremental: bool, part: Part, is_last: bool) -> Step {
    match state {
        Plain::Start => {
            match part {
                Part::Soa(serial) => Step(Plain::Second(serial), None),
                Part::NoSoa | Part::Address => Step(Plain::Ended, None),
            }
        }
        Plain::Second(first) => after_second(first, incremental, part, is_last),
        Plain::Whole => after_whole(part, is_last),
        Plain::Changes(first, is_even) => after_changes(first, is_even, part, is_last),
        Plain::Ended => Step(Plain::Ended, None),
    }
}

/// What the records of a message come to, one after another.
fn after_message(state: Plain, incremental: bool, parts: &[Part]) -> Step {
    let mut step = Step(state, None);
    for place in 0..parts.len() {
        let is_last = place.saturating_add(1) == parts.len();
        let next = after_record(step.0, incremental, parts[place], is_last);
        step = Step(next.0, step.1.or(next.1));
    }
    step
}

/// The next of some numbers that a seed gives (Knuth, MMIX).
fn drawn(seed: &mut u64) -> u64 {
    *seed = seed
        .wrapping_mul(6_364_136_223_846_793_005)
        .wrapping_add(1_442_695_040_888_963_407);
    *seed >> 33
}

/// A record: an SOA in half of the cases.
fn drawn_part(seed: &mut u64) -> Part {
    match drawn(seed) % 8 {
        0 | 1 | 2 => Part::Soa(3),
        3 => Part::Soa(1),
        4 => Part::NoSoa,
        _ => Part::Address,
    }
}

/// A message of up to six records.
fn drawn_parts(rt: &impl Abort, alloc: Global, seed: &mut u64) -> Vec<Part> {
    let mut parts = Vec::new(alloc);
    for _record in 0..drawn(seed) % 7 {
        parts.push(drawn_part(seed)).expect(rt, "memory");
    }
    parts
}

/// What a transfer answers to the records of a message.
fn processed(
    rt: &impl Abort,
    alloc: Global,
    transfer: &mut TransferState,
    parts: &[Part],
) -> Option<Came> {
    let message = message_of(rt, alloc, parts);
    match transfer.process(&message.answers) {
        Ok(()) => None,
        Err(Notice::TransferHasTrailingRecords) => Some(Came::Trailing),
        Err(Notice::TransferIsIncremental) => Some(Came::Incremental),
        Err(_) => Some(Came::Other),
    }
}

/// What a list of up to four messages comes to, up to the transfer's end, if both agree on each of them.
fn agreed(rt: &impl Abort, alloc: Global, seed: &mut u64, incremental: bool) -> Option<Step> {
    let mut transfer = TransferState::new(incremental);
    let mut step = Step(Plain::Start, None);
    for _message in 0..4u32 {
        let parts = drawn_parts(rt, alloc, seed);
        step = after_message(step.0, incremental, &parts);
        if processed(rt, alloc, &mut transfer, &parts) != step.1
            || transfer.is_ended() != (step.0 == Plain::Ended)
        {
            return None;
        }
        if step.0 == Plain::Ended {
            return Some(step);
        }
    }
    Some(step)
}

/// How often lists ended, went on and went wrong in each of two ways.
#[derive(Clone, Copy)]
struct Tally {
    ended: u32,
    open: u32,
    trailing: u32,
    incremental: u32,
}

impl Tally {
    fn count(&mut self, step: Step) {
        match step {
            Step(_, Some(Came::Trailing)) => self.trailing = self.trailing.saturating_add(1),
            Step(_, Some(_)) => self.incremental = self.incremental.saturating_add(1),
            Step(Plain::Ended, None) => self.ended = self.ended.saturating_add(1),
            Step(_, None) => self.open = self.open.saturating_add(1),
        }
    }
}

#[test]
fn a_transfer_goes_as_by_a_plain_machine(rt: HostRuntime) {
    let mut tally = Tally {
        ended: 0,
        open: 0,
        trailing: 0,
        incremental: 0,
    };
    let mut seed: u64 = 1;
    for list in 0u32..100_000 {
        let step = agreed(&rt, rt.alloc(), &mut seed, list % 2 == 0);
        tally.count(step.expect(&rt, "the same answer"));
    }
    check(&rt, "ended", tally.ended > 1000);
    check(&rt, "not ended", tally.open > 1000);
    check(&rt, "trailing records", tally.trailing > 1000);
    check(
        &rt,
        "changes that weren't asked for",
        tally.incremental > 1000,
    );
}
