//! Writing what a call comes to, each part to its own sink.
ghost use Rattle.std.specs.Prelude.{◌≡◌, ◌≤◌, IfErr, OnOk};
ghost use Rattle.dns_query_run.specs.Endings.{IsCutShort, IsUnwritten, Says, Took, fault_status, sink_met, unwritten_complaint, unwritten_status};
ghost use Rattle.dns_query_run.specs.Told.{told_of};

use crate::told::Told;
use dns_io::{Sink, SinkFault, status, write_all};

/// Memory ran out.
pub(crate) const OUT_OF_MEMORY: &[u8] = b"dns_query: out of memory\n";

/// Which part of what a call comes to isn't written whole, and why.
#[derive(Clone, Copy, Debug, PartialEq, Eq)]
pub(crate) enum Unwritten {
    /// The text, and nothing of the session is written.
    Output(SinkFault),
    /// The session.
    Session(SinkFault),
}

// The status of a sink's fault.
fn fault_status(fault: SinkFault) -> u8
    ensures status { result ≡ fault_status fault }
    ensures most { result ≤ 6 }
{
    match fault {
        SinkFault::Failed => status::WRITE_FAILED,
        SinkFault::NoMemory => status::NO_MEMORY,
    }
}

impl Unwritten {
    /// The status that a run ends with then.
    pub(crate) fn status(self) -> u8
        ensures status { result ≡ unwritten_status self }
        ensures most { result ≤ 6 }
    {
        match self {
            Unwritten::Output(fault) => fault_status(fault),
            Unwritten::Session(fault) => fault_status(fault),
        }
    }

    /// What is said then.
    pub(crate) fn complaint(self) -> &'static [u8]
        ensures { result.now ≡ unwritten_complaint self }
    {
        match self {
            Unwritten::Output(SinkFault::Failed) => {
                b"dns_query: can't write to the standard output\n"
            }
            Unwritten::Session(SinkFault::Failed) => b"dns_query: can't write the session\n",
            Unwritten::Output(SinkFault::NoMemory) => OUT_OF_MEMORY,
            Unwritten::Session(SinkFault::NoMemory) => OUT_OF_MEMORY,
        }
    }
}

// Writes a text whole, or says why not.
fn write_whole<K: Sink>(sink: &mut K, text: &[u8]) -> Result<(), SinkFault>
    ensures whole { OnOk result (Took (sink_met K.taken K.faults K.takes_memory sink.old sink.new) text.now) }
    ensures cut { IfErr result (λ fault. IsCutShort fault (sink_met K.taken K.faults K.takes_memory sink.old sink.new) text.now) }
    ensures later { K.faults sink.old ≤ K.faults sink.new }
{
    write_all(sink, text)
}

/// Says a text on the standard error. What can't be written there is lost.
pub(crate) fn say<Z: Sink>(text: &[u8], errors: &mut Z)
    ensures says { Says (sink_met Z.taken Z.faults Z.takes_memory errors.old errors.new) text.now }
    ensures later { Z.faults errors.old ≤ Z.faults errors.new }
{
    let _ = write_whole(errors, text);
}

/// Writes the text, and then what is saved.
pub(crate) fn write_parts<W: Sink, S: Sink>(
    told: &Told,
    output: &mut W,
    saved: &mut S,
) -> Result<(), Unwritten>
    ensures text { OnOk result (Took (sink_met W.taken W.faults W.takes_memory output.old output.new) told.now.text.items) }
    ensures saved { OnOk result (Took (sink_met S.taken S.faults S.takes_memory saved.old saved.new) told.now.saved.items) }
    ensures cut { IfErr result (λ stop. IsUnwritten stop (told_of told.now)
        (sink_met W.taken W.faults W.takes_memory output.old output.new)
        (sink_met S.taken S.faults S.takes_memory saved.old saved.new)) }
    ensures later { W.faults output.old ≤ W.faults output.new }
    ensures saved_later { S.faults saved.old ≤ S.faults saved.new }
{
    if let Err(fault) = write_whole(output, &told.text) {
        return Err(Unwritten::Output(fault));
    }
    match write_whole(saved, &told.saved) {
        Ok(()) => Ok(()),
        Err(fault) => Err(Unwritten::Session(fault)),
    }
}
