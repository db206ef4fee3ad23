//! The order of a trail's steps, short and long ones, and copies of steps.

use crate::parts::{check_row, name_of};
use dns_evidence::{Asked, Ending, JudgedSet, Reply};
use dns_model::{AskRef, MarkOrigin, Proof, Section};
use dns_record::{DNSClass, Query, RecordType};
use dns_trail::is_in_order;
use std::alloc::Global;
use std::process::Abort;
use std::slice;

/// A trail, by what each of its steps asks: a point begins a step, and what follows asks for the step with that digit, for the
/// one before it (`P`), for all before it (`A`), for all but the last of them (`B`), for one too deep (`D`) or one too many
/// (`M`), and else (`X`) for the step with the greatest number. Of three texts the second comes so many times. Whether the
/// steps are in order.
struct Steps(&'static [u8], &'static [u8], u32, &'static [u8], bool);

#[rattlefmt::skip]
const ROWS: &[(&str, Steps)] = &[
    ("one step", Steps(b".", b"", 0, b"", true)),
    ("no step", Steps(b"", b"", 0, b"", false)),
    ("a chain of steps", Steps(b"..0.1", b"", 0, b"", true)),
    ("asks in turn, in sets and in the excuse", Steps(b"...01..2D3", b"", 0, b"", true)),
    ("the first step dropped", Steps(b".0.1", b"", 0, b"", false)),
    ("a step in the middle dropped", Steps(b"..1", b"", 0, b"", false)),
    ("the last step dropped", Steps(b"..", b"", 0, b"", false)),
    ("a step doubled", Steps(b"...0.2", b"", 0, b"", false)),
    ("a step doubled at the end", Steps(b"..0.0", b"", 0, b"", false)),
    ("a step before what it names", Steps(b".1..0", b"", 0, b"", false)),
    ("a step that names itself", Steps(b"..1.1", b"", 0, b"", false)),
    ("the last step named", Steps(b".1.0", b"", 0, b"", false)),
    ("a number past the end", Steps(b"..02", b"", 0, b"", false)),
    ("the greatest number", Steps(b".X", b"", 0, b"", false)),
    ("a step named twice by one", Steps(b"..00", b"", 0, b"", false)),
    ("a step named by two", Steps(b"..0.01", b"", 0, b"", false)),
    ("a step and what it asked named by one", Steps(b"..0.10", b"", 0, b"", false)),
    ("steps that ended in another order", Steps(b"...10", b"", 0, b"", false)),
    ("asks that are too deep", Steps(b".D.D0D", b"", 0, b"", true)),
    ("one too many, where few were sent", Steps(b".M", b"", 0, b"", false)),
    ("one too many behind a step", Steps(b"..0M", b"", 0, b"", false)),
    // at most 1,024 steps one below the other
    ("a chain of 1,024", Steps(b".", b".P", 1023, b"", true)),
    ("a chain of 1,024 and one too many", Steps(b".M", b".P", 1023, b"", true)),
    ("a chain of 1,023 and one too many", Steps(b".M", b".P", 1022, b"", false)),
    ("a chain of 1,025", Steps(b".", b".P", 1024, b"", false)),
    // at most 1,024 steps one beside the other
    ("a fan of 1,024", Steps(b"", b".", 1023, b".A", true)),
    ("a fan of 1,024 and one too many", Steps(b"", b".", 1023, b".AM", true)),
    ("one too many before the last of 1,024", Steps(b"", b".", 1023, b".BMP", false)),
    ("a fan of 1,023 and one too many", Steps(b"", b".", 1022, b".AM", false)),
    ("a fan of 1,025", Steps(b"", b".", 1024, b".A", false)),
];

fn rows() -> &'static [(&'static str, Steps)] {
    ROWS
}

/// A step that asked so in vain and came upon another class, and told of no set and no further ask.
fn bare_step(rt: &impl Abort, alloc: Global) -> Asked {
    Asked {
        depth: 0,
        judged: true,
        query: Query {
            name: name_of(rt, alloc, "a."),
            query_type: RecordType::A,
            query_class: DNSClass::IN,
        },
        reply: Reply::Fault,
        sets: Vec::new(alloc),
        ending: Ending::Foreign {
            owner: name_of(rt, alloc, "b."),
            class: DNSClass::CH,
            record_type: RecordType::TXT,
        },
        excuse: Vec::new(alloc),
    }
}

/// A set of `a. A` that was looked up before, and asks so.
fn set(rt: &impl Abort, alloc: Global, ask: AskRef) -> JudgedSet {
    let mut asked = Vec::new(alloc);
    asked.push(ask).expect(rt, "memory");
    JudgedSet {
        section: Section::Answer,
        owner: name_of(rt, alloc, "a."),
        record_type: RecordType::A,
        mark: Proof::Bogus,
        origin: MarkOrigin::Repeat(2),
        sig: Some(7),
        asked,
    }
}

/// The step asks so too: for its first set, for its second one, and from then on for its excuse.
fn ask(rt: &impl Abort, alloc: Global, step: &mut Asked, ask: AskRef) {
    if step.sets.len() < 2 {
        step.sets.push(set(rt, alloc, ask)).expect(rt, "memory");
    } else {
        step.excuse.push(ask).expect(rt, "memory");
    }
}

fn ask_of(byte: u8, before: u32) -> AskRef {
    match byte {
        b'D' => AskRef::TooDeep,
        b'M' => AskRef::TooMany,
        b'P' => AskRef::Step(before.saturating_sub(1)),
        b'0'..=b'9' => AskRef::Step(u32::from(byte - b'0')),
        _ => AskRef::Step(u32::MAX),
    }
}

/// The step asks for so many in turn.
fn ask_all(rt: &impl Abort, alloc: Global, step: &mut Asked, count: u32) {
    for number in 0..count {
        ask(rt, alloc, step, AskRef::Step(number));
    }
}

/// The step, which has so many before it, asks as the byte says.
fn ask_so(rt: &impl Abort, alloc: Global, step: &mut Asked, byte: u8, before: u32) {
    match byte {
        b'A' => ask_all(rt, alloc, step, before),
        b'B' => ask_all(rt, alloc, step, before.saturating_sub(1)),
        _ => ask(rt, alloc, step, ask_of(byte, before)),
    }
}

/// A step begins, or the last one asks.
fn add_byte(rt: &impl Abort, alloc: Global, steps: &mut Vec<Asked>, byte: u8) {
    let before = u32::try_from(steps.len())
        .unwrap_or(u32::MAX)
        .saturating_sub(1);
    if byte == b'.' {
        steps.push(bare_step(rt, alloc)).expect(rt, "memory");
    } else if let Some(step) = steps.last_mut() {
        ask_so(rt, alloc, step, byte, before);
    }
}

/// Steps begin, and the last one asks.
fn add(rt: &impl Abort, alloc: Global, steps: &mut Vec<Asked>, text: &[u8]) {
    for byte in text {
        add_byte(rt, alloc, steps, *byte);
    }
}

fn add_all(rt: &impl Abort, alloc: Global, steps: &mut Vec<Asked>, row: &Steps) {
    add(rt, alloc, steps, row.0);
    for _ in 0..row.2 {
        add(rt, alloc, steps, row.1);
    }
    add(rt, alloc, steps, row.3);
}

/// The steps came upon another class, and their sets were looked up before.
fn are_bare(steps: &[Asked]) -> bool {
    for step in steps {
        if !ends_so(&step.ending) || !are_repeated(&step.sets) {
            return false;
        }
    }
    true
}

fn ends_so(ending: &Ending) -> bool {
    matches!(ending, Ending::Foreign { owner, class, record_type }
        if owner.wire() == b"\x01b\0".as_slice() && *class == DNSClass::CH && *record_type == RecordType::TXT)
}

fn are_repeated(sets: &[JudgedSet]) -> bool {
    for set in sets {
        if set.origin != MarkOrigin::Repeat(2) || set.sig != Some(7) {
            return false;
        }
    }
    true
}

/// Copies of the steps are as they are, and in order where they are.
fn copies_are(rt: &impl Abort, alloc: Global, steps: &[Asked], want: bool) -> bool {
    let mut copies = Vec::new(alloc);
    for step in steps {
        let copy = step.try_clone().expect(rt, "memory");
        copies.push(copy).expect(rt, "memory");
    }
    copies.len() == steps.len() && are_bare(&copies) && is_in_order(&copies) == want
}

/// The steps of a row are in order where it says so, and so are their copies.
fn are_ordered(rt: &impl Abort, alloc: Global, row: &Steps) -> bool {
    let mut steps = Vec::new(alloc);
    add_all(rt, alloc, &mut steps, row);
    is_in_order(&steps) == row.4 && copies_are(rt, alloc, &steps, row.4)
}

#[test]
fn a_trail_is_in_order_where_each_step_is_asked_once_and_ends_in_turn(rt: HostRuntime) {
    for row in rows() {
        check_row(&rt, row.0, are_ordered(&rt, rt.alloc(), &row.1));
    }
}

/// One step, by its depth and whether it is to be judged or only to be seen; whether it is in order.
struct Top(u16, bool, bool);

const TOPS: &[(&str, Top)] = &[
    ("judged at depth 0", Top(0, true, true)),
    ("seen at depth 0", Top(0, false, false)),
    ("judged at depth 1", Top(1, true, false)),
    ("seen at the greatest depth", Top(65535, false, false)),
];

fn is_top(rt: &impl Abort, alloc: Global, row: &Top) -> bool {
    let mut step = bare_step(rt, alloc);
    step.depth = row.0;
    step.judged = row.1;
    is_in_order(slice::from_ref(&step)) == row.2
}

#[test]
fn the_last_step_is_judged_at_depth_0(rt: HostRuntime) {
    for row in TOPS {
        check_row(&rt, row.0, is_top(&rt, rt.alloc(), &row.1));
    }
}
