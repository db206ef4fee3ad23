//! Whether two lookups came to the same.
ghost use Rattle.std.specs.Prelude.{◌≡◌, ◌↔◌, IsTrue, IfOk, true};
ghost use Rattle.std.specs.Option.{option_map};
ghost use Rattle.dns_handle.specs.Replies.{error_of, reply_of};
ghost use Rattle.dns_report.specs.Faults.{fault_text};
ghost use Rattle.dns_saved_lookup.specs.Alike.{Alike, AlikeErrors, as_told, shown};
ghost use Rattle.dns_saved_lookup.specs.Lookups.{denied_in};

use dns_handle::{DnsError, DnsResponse, IoKind, NetError};
use dns_record::NoMemory;
use dns_report::{Parts, write_fault, write_report};
use std::alloc::Global;

// The response inside an error.
pub(crate) fn denied_in(error: &NetError) -> Option<&DnsResponse>
    ensures { option_map (λ r. r.now) result ≡ denied_in (error_of error.now) }
{
    match error {
        NetError::Dns(
            DnsError::Nsec {
                query: _,
                response,
                proof: _,
            },
        ) => Some(response),
        _ => None,
    }
}

// Whether two texts are one.
fn same_text(one: &[u8], other: &[u8]) -> bool
    ensures { IsTrue result ↔ (one.now ≡ other.now) }
{
    one == other
}

// Whether two responses have one report, with the trail.
fn same_report(alloc: Global, one: &DnsResponse, other: &DnsResponse) -> Result<bool, NoMemory>
    ensures { IfOk result (λ same. IsTrue same ↔ (shown one.now ≡ shown other.now)) }
{
    let first = write_report(alloc, one, Parts::WithTrail)?;
    let second = write_report(alloc, other, Parts::WithTrail)?;
    Ok(same_text(&first, &second))
}

// The line of an error, as a session can say it.
fn told_line(alloc: Global, error: &NetError) -> Result<Vec<u8>, NoMemory>
    ensures { IfOk result (λ v. v.items ≡ fault_text (as_told (error_of error.now))) }
{
    match error {
        NetError::Message(_)
        | NetError::Msg(_)
        | NetError::NoConnections
        | NetError::Proto(_)
        | NetError::Io(_)
        | NetError::QueryCaseMismatch
        | NetError::Truncated => write_fault(alloc, &NetError::Io(IoKind::Other)),
        _ => write_fault(alloc, error),
    }
}

// Whether two errors have one line.
fn same_line(alloc: Global, one: &NetError, other: &NetError) -> Result<bool, NoMemory>
    ensures { IfOk result (λ same. IsTrue same
        ↔ (fault_text (as_told (error_of one.now)) ≡ fault_text (as_told (error_of other.now)))) }
{
    let first = told_line(alloc, one)?;
    let second = told_line(alloc, other)?;
    Ok(same_text(&first, &second))
}

// Whether what two errors hold of a response has one report.
fn same_held(alloc: Global, one: &NetError, other: &NetError) -> Result<bool, NoMemory>
    ensures { IfOk result (λ same. IsTrue same
        ↔ (option_map shown (denied_in (error_of one.now)) ≡ option_map shown (denied_in (error_of other.now)))) }
{
    match (denied_in(one), denied_in(other)) {
        (None, None) => Ok(true),
        (Some(first), Some(second)) => same_report(alloc, first, second),
        _ => Ok(false),
    }
}

// Whether two errors are alike.
fn same_error(alloc: Global, one: &NetError, other: &NetError) -> Result<bool, NoMemory>
    ensures { IfOk result (λ same. IsTrue same ↔ AlikeErrors (error_of one.now) (error_of other.now)) }
{
    if !same_line(alloc, one, other)? {
        return Ok(false);
    }
    same_held(alloc, one, other)
}

/// Whether two lookups came to answers of one report, with the trail, or to errors that are alike.
pub(crate) fn same_reply(
    alloc: Global,
    one: &Result<DnsResponse, NetError>,
    other: &Result<DnsResponse, NetError>,
) -> Result<bool, NoMemory>
    ensures { IfOk result (λ same. IsTrue same ↔ Alike (reply_of one.now) (reply_of other.now)) }
{
    match (one, other) {
        (Ok(first), Ok(second)) => same_report(alloc, first, second),
        (Err(first), Err(second)) => same_error(alloc, first, second),
        _ => Ok(false),
    }
}
