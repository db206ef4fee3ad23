//! A source over any reader of std, and a sink over any writer: the edge to the system.
ghost use Rattle.std.specs.Prelude.{◌≡◌, false};
ghost use Rattle.std.specs.Io.{ReadsAtMost, WritesAtMost};
ghost use Rattle.std.specs.Io.KnownBytes.{ReadConsumes, WriteAppends};

use crate::sink::{Sink, SinkFault};
use crate::source::{Failed, Source};
use std::io::{ErrorKind, Read, Write};

// Reads once. A read that a signal interrupted is tried again.
fn read_from<R: Read>(input: &mut R, buf: &mut [u8]) -> Result<usize, Failed>
    ensures bound { ReadsAtMost result buf.new }
    ensures bytes { ReadConsumes (R.remaining input.old) (R.remaining input.new) result buf.new }
{
    for _attempt in 0..u64::MAX {
        match input.read(buf) {
            Ok(count) => return Ok(count),
            Err(error) if error.kind() == ErrorKind::Interrupted => (),
            Err(_) => return Err(Failed),
        }
    }
    Err(Failed)
}

// Writes once. A write that a signal interrupted is tried again.
fn write_to<W: Write>(output: &mut W, bytes: &[u8]) -> Result<usize, Failed>
    ensures bound { WritesAtMost result bytes.now }
    ensures bytes { WriteAppends (W.contents output.old) (W.contents output.new) result bytes.now }
{
    for _attempt in 0..u64::MAX {
        match output.write(bytes) {
            Ok(count) => return Ok(count),
            Err(error) if error.kind() == ErrorKind::Interrupted => (),
            Err(_) => return Err(Failed),
        }
    }
    Err(Failed)
}

/// A source over a reader of std, as the standard input. It tells its bytes where the reader does.
#[derive(Drop)]
pub struct InputSource<R: Read + Drop> {
    input: R,
    faults: u64,
}

impl<R: Read + Drop> InputSource<R> {
    ghost use Rattle.dns_io.specs.Standard.{reader_of, failed_reads};

    /// A source of what the reader gives, with no fault.
    pub fn new(input: R) -> InputSource<R>
        ensures reader { reader_of result ≡ input }
        ensures faults { failed_reads result ≡ 0 }
    {
        InputSource { input, faults: 0 }
    }
}

impl<R: Read + Drop> Source for InputSource<R> {
    ghost use Rattle.dns_io.specs.Standard.{reader_of, failed_reads};

    ghost left = { λ s. R.remaining (reader_of s) };

    ghost faults = { failed_reads };

    fn read(&mut self, buf: &mut [u8]) -> Result<usize, Failed> {
        match read_from(&mut self.input, buf) {
            Ok(count) => Ok(count),
            Err(Failed) => {
                self.faults = self.faults.saturating_add(1);
                Err(Failed)
            }
        }
    }
}

/// A sink over a writer of std, as the standard output. It tells its bytes where the writer does.
#[derive(Drop)]
pub struct OutputSink<W: Write + Drop> {
    output: W,
    faults: u64,
}

impl<W: Write + Drop> OutputSink<W> {
    ghost use Rattle.dns_io.specs.Standard.{writer_of, failed_writes};

    /// A sink that hands bytes to the writer, with no fault.
    pub fn new(output: W) -> OutputSink<W>
        ensures writer { writer_of result ≡ output }
        ensures faults { failed_writes result ≡ 0 }
    {
        OutputSink { output, faults: 0 }
    }
}

impl<W: Write + Drop> Sink for OutputSink<W> {
    ghost use Rattle.dns_io.specs.Standard.{writer_of, failed_writes};

    ghost taken = { λ s. W.contents (writer_of s) };

    ghost faults = { failed_writes };

    ghost takes_memory = { false };

    fn write(&mut self, bytes: &[u8]) -> Result<usize, SinkFault> {
        match write_to(&mut self.output, bytes) {
            Ok(count) if count > 0 || bytes.is_empty() => Ok(count),
            _ => {
                self.faults = self.faults.saturating_add(1);
                Err(SinkFault::Failed)
            }
        }
    }
}
