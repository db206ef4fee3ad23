//! `run` over sources and sinks in memory, for a row.
use crate::replying::Replying;
use crate::rows::check_row;
use crate::runs::{bytes_of, status_over, sure_ends, words_of};
use crate::worked_rows::{Row, rows};
use dns_io::{Sink, SinkFault, SureSource, TextSink, TextSource};
use std::alloc::Global;
use std::process::Abort;

// A sink that takes one byte a write, and fails at its second.
#[derive(Drop)]
struct Slow {
    taken: Vec<u8>,
    faults: u64,
}

impl Sink for Slow {
    ghost use Rattle.std.specs.Prelude.{Some, true};

    ghost taken = { λ s. Some s.taken.items };

    ghost faults = { λ s. s.faults };

    ghost takes_memory = { true };

    fn write(&mut self, bytes: &[u8]) -> Result<usize, SinkFault> {
        match bytes {
            [first, ..] if self.taken.is_empty() => {
                self.taken.push(*first)?;
                Ok(1)
            }
            _ => {
                self.faults = self.faults.saturating_add(1);
                Err(SinkFault::Failed)
            }
        }
    }
}

// With no server to ask, over a source whose numbered reads fail, and a sink that may fail, the words end with this status and this text.
fn failing_ends(
    rt: &impl Abort,
    alloc: Global,
    words: &[Vec<u8>],
    session: &[u8],
    failing: &[u64],
    status: u8,
    text: &[u8],
) -> bool {
    let failing = failing.to_vec(alloc).expect(rt, "memory");
    let mut source = TextSource::new(bytes_of(rt, alloc, session), failing);
    let mut sink = TextSink::new(alloc, Vec::new(alloc));
    let dial = Replying::new(alloc, 0);
    let ended = status_over(alloc, words, &mut source, &mut sink, dial);
    ended == status && *sink.taken() == *text
}

// Over a sink whose second write fails a row ends for that, with what was written before.
fn slow_ends(rt: &impl Abort, alloc: Global, words: &[Vec<u8>], row: &Row) -> bool {
    let mut source = SureSource::new(bytes_of(rt, alloc, row.session));
    let mut sink = Slow {
        taken: Vec::new(alloc),
        faults: 0,
    };
    let dial = Replying::new(alloc, 0);
    let ended = status_over(alloc, words, &mut source, &mut sink, dial);
    ended == 5 && *sink.taken.as_slice() == *row.text.get(..1).unwrap_or_default()
}

// Both kinds of source and sink end as the row says, which asks no server.
fn ends_so(rt: &impl Abort, alloc: Global, words: &[Vec<u8>], row: &Row) -> bool {
    let session = bytes_of(rt, alloc, row.session);
    let dial = Replying::new(alloc, 0);
    sure_ends(alloc, words, session, dial, row.status, row.text)
        && failing_ends(rt, alloc, words, row.session, &[], row.status, row.text)
}

// The words ask for an input to be read.
fn is_reading(words: &[&str]) -> bool {
    match words {
        [one] => *one == "validate" || *one == "roll",
        [one, other] => *one == "validate" && *other == "trail",
        _ => false,
    }
}

// Over a source whose first or second read fails a row ends for that if its words ask for a reading, and else as it says; no bytes are
// read by one read.
fn fails_so(rt: &impl Abort, alloc: Global, words: &[Vec<u8>], row: &Row) -> bool {
    if is_reading(row.words) {
        failing_ends(rt, alloc, words, row.session, &[0], 4, b"")
            && (row.session.is_empty() || failing_ends(rt, alloc, words, row.session, &[1], 4, b""))
    } else {
        failing_ends(rt, alloc, words, row.session, &[0], row.status, row.text)
    }
}

#[test]
fn rows_end_as_they_say_and_where_the_outside_fails(rt: HostRuntime) {
    for row in rows() {
        let words = words_of(&rt, rt.alloc(), row.words);
        let held = ends_so(&rt, rt.alloc(), &words, row)
            && slow_ends(&rt, rt.alloc(), &words, row)
            && fails_so(&rt, rt.alloc(), &words, row);
        check_row(&rt, row.name, held);
    }
}
