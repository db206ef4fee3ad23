//! Streams of std as sources and sinks, where the streams fail.
use crate::rows::check_row;
use dns_io::{Failed, InputSource, OutputSink, Sink, SinkFault, Source};
use std::io;
use std::io::{Read, Write};

/// A reader and a writer of std whose second call fails. The writer then takes nothing.
#[derive(Drop)]
struct Broken {
    calls: u64,
}

impl Read for Broken {
    fn read(&mut self, buf: &mut [u8]) -> io::Result<usize> {
        self.calls = self.calls.saturating_add(1);
        match buf {
            [first, ..] if self.calls != 2 => {
                *first = 100;
                Ok(1)
            }
            _ => Err(io::Error::from(io::ErrorKind::Other)),
        }
    }
}

impl Write for Broken {
    fn write(&mut self, buf: &[u8]) -> io::Result<usize> {
        self.calls = self.calls.saturating_add(1);
        match self.calls {
            1 => Ok(buf.len().min(1)),
            2 => Err(io::Error::from(io::ErrorKind::Other)),
            _ => Ok(0),
        }
    }

    fn flush(&mut self) -> io::Result<()> {
        Ok(())
    }
}

/// What each read by a buffer of four bytes puts there, or that it fails.
const READS: &[Result<&[u8], Failed>] = &[Ok(b"d"), Err(Failed), Ok(b"d")];

fn reads_once<S: Source>(source: &mut S, want: Result<&[u8], Failed>) -> bool {
    let mut buffer = [0; 4];
    match (source.read(&mut buffer), want) {
        (Ok(count), Ok(bytes)) => &buffer[..count.min(4)] == bytes,
        (Err(_), Err(_)) => true,
        _ => false,
    }
}

fn broken_reader_is_read() -> bool {
    let mut broken = InputSource::new(Broken { calls: 0 });
    for want in READS {
        if !reads_once(&mut broken, *want) {
            return false;
        }
    }
    true
}

#[test]
fn a_reader_is_read_on_after_a_fault(rt: HostRuntime) {
    check_row(&rt, "a reader", broken_reader_is_read());
}

/// What a write is given, and what it comes to.
struct WriteRow(&'static [u8], Result<usize, SinkFault>);

const WRITES: &[WriteRow] = &[
    WriteRow(b"ab", Ok(1)),
    WriteRow(b"b", Err(SinkFault::Failed)),
    // nothing is taken
    WriteRow(b"b", Err(SinkFault::Failed)),
    WriteRow(b"", Ok(0)),
];

fn writes() -> &'static [WriteRow] {
    WRITES
}

fn broken_writer_is_written() -> bool {
    let mut broken = OutputSink::new(Broken { calls: 0 });
    for row in writes() {
        if broken.write(row.0) != row.1 {
            return false;
        }
    }
    true
}

#[test]
fn a_writer_that_takes_nothing_has_failed(rt: HostRuntime) {
    check_row(&rt, "a writer", broken_writer_is_written());
}
