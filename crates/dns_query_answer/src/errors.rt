//! Why there is no answer, as a line.
ghost use Rattle.std.specs.Prelude.{◌≡◌, ◌++◌, OnOk};
ghost use Rattle.dns_handle.specs.Errors as seen;
ghost use Rattle.dns_handle.specs.Replies.{error_of};
ghost use Rattle.dns_query_answer.specs.AnswerText.{error_line, fault_line};

use crate::words::push_code;
use dns_handle::{DnsError, NetError};
use dns_record::{NoMemory, ResponseCode};
use dns_report::write_fault;
use dns_text::push_text;

// Appends that the server answered with a code.
fn push_answered(into: &mut Vec<u8>, code: ResponseCode) -> Result<(), NoMemory>
    ensures { OnOk result (into.new.items ≡ into.old.items ++ error_line (seen.Dns (seen.ResponseCode code.0))) }
{
    push_text(into, b"no answer: the server answered with ")?;
    push_code(into, code)?;
    push_text(into, b"\n")
}

// Appends the line of an error by the words of a report.
#[tactic(auto, unfolding(crate::specs::AnswerText::fault_line))]
fn push_fault(into: &mut Vec<u8>, error: &NetError) -> Result<(), NoMemory>
    ensures { OnOk result (into.new.items ≡ into.old.items ++ fault_line (error_of error.now)) }
{
    push_text(into, b"no answer: ")?;
    let line = write_fault(*into.allocator(), error)?;
    push_text(into, &line)
}

/// Appends why there is no answer; nothing where memory ran out.
pub(crate) fn push_error(into: &mut Vec<u8>, error: &NetError) -> Result<(), NoMemory>
    ensures { OnOk result (into.new.items ≡ into.old.items ++ error_line (error_of error.now)) }
{
    match error {
        NetError::Timeout => push_text(into, b"no answer: the server didn't answer in time\n"),
        NetError::Busy => push_text(into, b"no answer: the server was busy\n"),
        NetError::NoConnections => push_text(into, b"no answer: no connection can be made\n"),
        NetError::Truncated => push_text(into, b"no answer: the reply was truncated\n"),
        NetError::Dns(DnsError::ResponseCode(code)) => push_answered(into, *code),
        NetError::Dns(DnsError::DnssecBogus) => push_text(into, b"Bogus: validation failed\n"),
        NetError::Dns(DnsError::NoRecordsFound(_)) => push_fault(into, error),
        NetError::Dns(DnsError::Nsec { .. }) => push_fault(into, error),
        NetError::Message(_) => push_fault(into, error),
        NetError::Msg(_) => push_fault(into, error),
        NetError::Proto(_) => push_fault(into, error),
        NetError::Io(_) => push_fault(into, error),
        NetError::QueryCaseMismatch => push_fault(into, error),
        NetError::ForeignClassRecord { .. } => push_fault(into, error),
        NetError::NoMemory => Ok(()),
    }
}
