//! What tests share: words, and a run over a session.
use dns_io::{Sink, Source, SureSink, SureSource};
use dns_link::{Dialer, FixedClock};
use dns_record::Octets;
use dns_run::run;
use std::alloc::Global;
use std::process::Abort;

/// The words of a run.
pub(crate) fn words_of(rt: &impl Abort, alloc: Global, words: &[&str]) -> Vec<Vec<u8>> {
    let mut all = Vec::new(alloc);
    for word in words {
        let bytes = word.as_bytes().to_vec(alloc).expect(rt, "memory");
        all.push(bytes).expect(rt, "memory");
    }
    all
}

/// A session as the bytes of a source.
pub(crate) fn bytes_of(rt: &impl Abort, alloc: Global, session: &[u8]) -> Octets {
    Octets::from_slice(alloc, session).expect(rt, "memory")
}

/// The status of a run over a dialer, at a clock at 1000.
pub(crate) fn status_over<S: Source, W: Sink, D: Dialer + Drop>(
    alloc: Global,
    words: &[Vec<u8>],
    source: &mut S,
    sink: &mut W,
    dial: D,
) -> u8 {
    let mut clock = FixedClock::new(1000);
    let end = run(alloc, words, source, sink, dial, &mut clock);
    end.status
}

/// Over a source of these bytes and a sink, neither of which fails, the words end with this status and this text.
pub(crate) fn sure_ends<D: Dialer + Drop>(
    alloc: Global,
    words: &[Vec<u8>],
    session: Octets,
    dial: D,
    status: u8,
    text: &[u8],
) -> bool {
    let mut source = SureSource::new(session);
    let mut sink = SureSink::new(alloc);
    let ended = status_over(alloc, words, &mut source, &mut sink, dial);
    ended == status && *sink.taken() == *text
}
