//! What an input comes to, and how that is written.
ghost use Rattle.std.specs.Prelude.{◌≡◌, ◌≢◌, ◌<◌, ◌≤◌, IfOk};
ghost use Rattle.dns_forward_run.specs.Steps.{IsLost, IsLow, KeepsWriting, TellsLines, WroteAs, WrotePart};

use crate::lines::{SeatLine, lines_status, lines_text};
use dns_io::Sink;
use dns_io::status::{self, write_text};
use dns_record::NoMemory;
use std::alloc::Global;

/// What an input comes to.
pub enum Ending {
    /// A status, and the text that is written with it.
    Told(u8, Vec<u8>),
    /// The dialer or the listener failed before a seat was served.
    Failed,
    /// Memory ran out.
    NoMemory,
}

// By hand, so that a function that lets one go calls this.
impl Drop for Ending {
    fn drop(self) {
        match self {
            Ending::Told(_, _) => {}
            Ending::Failed => {}
            Ending::NoMemory => {}
        }
    }
}

/// What an input comes to, and the dialer that was given, unless it was lost for want of memory.
#[derive(Drop)]
pub(crate) struct ForwardEnding<D: Drop> {
    pub(crate) ending: Ending,
    pub(crate) dial: Option<D>,
}

// The status of lines, and their text.
fn told(alloc: Global, lines: Result<Vec<SeatLine>, NoMemory>) -> Result<(u8, Vec<u8>), NoMemory>
    ensures { IfOk result (λ told. TellsLines lines (Ending.Told told.0 told.1)) }
{
    let lines = lines?;
    let text = lines_text(alloc, &lines)?;
    Ok((lines_status(&lines), text))
}

/// What lines come to.
pub(crate) fn ending_of(alloc: Global, lines: Result<Vec<SeatLine>, NoMemory>) -> Ending
    ensures told { TellsLines lines result }
    ensures low { IsLow result }
{
    match told(alloc, lines) {
        Ok((status, text)) => Ending::Told(status, text),
        Err(NoMemory) => Ending::NoMemory,
    }
}

/// Writes what an input comes to, and answers the status with which the run ends.
pub(crate) fn write_ending<W: Sink>(ending: &Ending, output: &mut W) -> u8
    requires { IsLow ending.now }
    ensures written { result < 4 → WroteAs ending.now result (W.taken output.old) (W.taken output.new) }
    ensures form { result ≢ 2 }
    ensures failed { result ≡ 4 → ending.now ≡ Ending.Failed }
    ensures lost { IsLost ending.now → result ≡ 6 }
    ensures part { WrotePart W.taken ending.now output.old output.new }
    ensures keeps { KeepsWriting W.faults result output.old output.new }
{
    match ending {
        Ending::Told(status, text) => write_text(*status, text, output),
        Ending::Failed => status::READ_FAILED,
        Ending::NoMemory => status::NO_MEMORY,
    }
}
