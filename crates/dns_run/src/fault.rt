//! What an error in answer to a session comes to.
ghost use Rattle.std.specs.Prelude.{◌<◌, IfOk};
ghost use Rattle.dns_session.specs.SessionValue.{SessionValue};
ghost use Rattle.dns_run.specs.Tasks.{EndsAsFault, MayFail};

use dns_handle::NetError;
use dns_io::status;
use dns_record::NoMemory;
use dns_report::write_fault;
use std::alloc::Global;

/// The status of an error, and its line.
pub(crate) fn fault_ending(alloc: Global, error: &NetError) -> Result<(u8, Vec<u8>), NoMemory>
    ensures ends { (s : SessionValue) → MayFail s error.now → IfOk result (λ x. EndsAsFault s error.now x.0 x.1.items) }
    ensures low { IfOk result (λ x. x.0 < 4) }
{
    if error.is_no_memory() {
        return Err(NoMemory);
    }
    let text = write_fault(alloc, error)?;
    Ok((status::FAULT, text))
}
