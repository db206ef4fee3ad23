//! The file that a session is written to.
ghost use Rattle.std.specs.Prelude.{◌≤◌, length, IfSome};

use dns_io::{OutputSink, Sink, SinkFault};
use std::fs::File;

/// A sink over the file of a path. The file is made, or emptied, at the first byte, so that it stays as it is where nothing is written.
#[derive(Drop)]
pub(crate) struct SessionFile<'a> {
    rt: &'a HostRuntime,
    /// None where the words name no file, or bytes that are no path.
    path: Option<&'a str>,
    /// The file, once it is open.
    file: Option<OutputSink<File>>,
    faults: u64,
}

impl<'a> SessionFile<'a> {
    /// The file of a path, which isn't opened yet.
    pub(crate) fn new(rt: &'a HostRuntime, path: Option<&'a str>) -> SessionFile<'a> {
        SessionFile {
            rt,
            path,
            file: None,
            faults: 0,
        }
    }
}

// Writes once to the file of a path, which is opened before the first time.
fn write_to(
    rt: &HostRuntime,
    path: Option<&str>,
    file: &mut Option<OutputSink<File>>,
    bytes: &[u8],
) -> Option<usize>
    ensures { IfSome result (λ n. n ≤ length bytes.now) }
{
    if file.is_none() {
        let made = File::create(rt, path?).ok()?;
        *file = Some(OutputSink::new(made));
    }
    file.as_mut()?.write(bytes).ok()
}

/// It tells nothing of its bytes.
impl<'a> Sink for SessionFile<'a> {
    ghost use Rattle.std.specs.Prelude.{None, false};

    ghost taken = { λ _. None };

    ghost faults = { λ s. s.faults };

    ghost takes_memory = { false };

    fn write(&mut self, bytes: &[u8]) -> Result<usize, SinkFault> {
        match write_to(self.rt, self.path, &mut self.file, bytes) {
            Some(count) if count > 0 || bytes.is_empty() => Ok(count),
            _ => {
                self.faults = self.faults.saturating_add(1);
                Err(SinkFault::Failed)
            }
        }
    }
}
