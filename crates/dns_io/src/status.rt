//! The statuses with which a program ends, and what it answers where a text or an input isn't whole.
ghost use Rattle.std.specs.Prelude.{◌≡◌, ◌≢◌, ◌<◌, ◌≤◌, true};
ghost use Rattle.std.specs.Io.KnownBytes.{Appends};
ghost use Rattle.dns_model.specs.Counts.{Rose};
ghost use Rattle.dns_io.specs.Reading.{too_long_text};
ghost use Rattle.dns_io.specs.Writing.{bad_words_text, EndsWriting, TakesPrefix, WritesText};
ghost use Rattle.dns_io.specs.Runs.{KeepsSink};

use crate::sink::{Sink, SinkFault, write_all};
use crate::source::ReadStop;

/// What was asked for is written.
pub const DONE: u8 = 0;

/// The lookup answered a fault, whose line is written.
pub const FAULT: u8 = 1;

/// The words of the command line aren't a form; nothing was read.
pub const BAD_WORDS: u8 = 2;

/// The input isn't what the words ask for, as a session.
pub const BAD_INPUT: u8 = 3;

/// A read failed.
pub const READ_FAILED: u8 = 4;

/// A write failed after a prefix of the text.
pub const WRITE_FAILED: u8 = 5;

/// Memory ran out.
pub const NO_MEMORY: u8 = 6;

/// The input has more than [`INPUT_LIMIT`](crate::INPUT_LIMIT) bytes.
pub const TOO_LONG: u8 = 7;

/// The status where an input wasn't read to its end, of which nothing is written.
pub fn read_status(stop: ReadStop) -> u8
    ensures failed { result ≡ 4 → stop ≡ ReadStop.Failed }
    ensures memory { result ≡ 6 → stop ≡ ReadStop.NoMemory }
    ensures long { result ≡ 7 → stop ≡ ReadStop.TooLong }
    ensures least { 4 ≤ result }
    ensures other { result ≢ 5 }
    ensures most { result ≤ 7 }
{
    match stop {
        ReadStop::Failed => READ_FAILED,
        ReadStop::TooLong => TOO_LONG,
        ReadStop::NoMemory => NO_MEMORY,
    }
}

/// Writes a text, and answers the status that is given, or why it wasn't written.
pub fn write_text<W: Sink>(status: u8, text: &[u8], output: &mut W) -> u8
    ensures ends { EndsWriting result status W.takes_memory (W.faults output.old) (W.faults output.new)
        (W.taken output.old) (W.taken output.new) text.now }

    // What follows of that for a status below 5.
    ensures written { result < 5 → Appends (W.taken output.old) (W.taken output.new) text.now }
    ensures kept { result < 5 → result ≡ status }
    ensures text { status < 5 → WritesText result status (W.taken output.old) (W.taken output.new) text.now }
    ensures sink { result ≡ 5 → status < 5 → Rose (W.faults output.old) (W.faults output.new) }
    ensures memory { result ≡ 6 → status < 5 → W.takes_memory ≡ true }
    ensures most { status < 5 → result ≤ 6 }
    ensures keeps { status < 4 → KeepsSink W.faults result output.old output.new }

    ensures prefix { TakesPrefix (W.taken output.old) (W.taken output.new) text.now }
    ensures later { W.faults output.old ≤ W.faults output.new }
{
    match write_all(output, text) {
        Ok(()) => status,
        Err(SinkFault::Failed) => WRITE_FAILED,
        Err(SinkFault::NoMemory) => NO_MEMORY,
    }
}

/// Says that the words of the command line aren't a form.
pub fn refuse_words<W: Sink>(output: &mut W) -> u8
    ensures ends { EndsWriting result 2 W.takes_memory (W.faults output.old) (W.faults output.new)
        (W.taken output.old) (W.taken output.new) bad_words_text }
    ensures written { result < 5 → Appends (W.taken output.old) (W.taken output.new) bad_words_text }
    ensures kept { result < 5 → result ≡ 2 }
    ensures text { WritesText result 2 (W.taken output.old) (W.taken output.new) bad_words_text }
    ensures sink { result ≡ 5 → Rose (W.faults output.old) (W.faults output.new) }
    ensures memory { result ≡ 6 → W.takes_memory ≡ true }
    ensures keeps { KeepsSink W.faults result output.old output.new }
    ensures prefix { TakesPrefix (W.taken output.old) (W.taken output.new) bad_words_text }
    ensures most { result ≤ 6 }
    ensures later { W.faults output.old ≤ W.faults output.new }
{
    write_text(BAD_WORDS, b"bad words\n", output)
}

/// Says that the input is too long.
pub fn refuse_long<W: Sink>(output: &mut W) -> u8
    ensures ends { EndsWriting result 7 W.takes_memory (W.faults output.old) (W.faults output.new)
        (W.taken output.old) (W.taken output.new) too_long_text }
    ensures written { result ≡ 7 → Appends (W.taken output.old) (W.taken output.new) too_long_text }
    ensures sink { result ≡ 5 → Rose (W.faults output.old) (W.faults output.new) }
    ensures memory { result ≡ 6 → W.takes_memory ≡ true }
    ensures prefix { TakesPrefix (W.taken output.old) (W.taken output.new) too_long_text }
    ensures least { 5 ≤ result }
    ensures most { result ≤ 7 }
    ensures later { W.faults output.old ≤ W.faults output.new }
{
    write_text(TOO_LONG, b"input too long\n", output)
}
