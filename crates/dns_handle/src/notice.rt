//! Fixed texts of errors.
ghost use Rattle.std.specs.Prelude.{◌≡◌, Some};
ghost use Rattle.dns_handle.specs.Notices.{notice_text};

use std::fmt;

/// A fixed text that an error carries.
#[derive(Clone, Copy, Debug, PartialEq, Eq, Hash)]
pub enum Notice {
    /// A request has no question where one is needed.
    NoQueryInRequest,
    /// The time is outside a signature's validity.
    ExpiredRrsig,
    /// A key isn't the one that a signature names, or is no zone key.
    WrongDnskey,
    /// A signature isn't one of the set.
    WrongRrsig,
    /// A nested query would be deeper than the limit of a lookup allows.
    ExceededMaxValidationDepth,
    /// A lookup has sent as many queries as it may.
    ExceededMaxNestedQueries,
    /// Each id that was drawn for a request is a live request's.
    IdSpaceExhausted,
    /// As many messages wait to be sent as may.
    SendQueueFull,
    /// A future that gave its answer was polled again.
    PolledAfterCompletion,
    /// A socket took fewer bytes than a datagram has.
    NotAllBytesSent,
    /// A zone transfer goes on behind its last record (RFC 5936, 2.2; RFC 1995, 4).
    TransferHasTrailingRecords,
    /// A whole zone was asked for, and changes of it came (RFC 5936, 2.2; RFC 1995, 4).
    TransferIsIncremental,
    /// An exchange that threads share has recorded as many calls, or as many bytes of messages, as it may.
    HistoryFull,
}

impl Notice {
    /// The text, as Display writes it.
    pub fn text(self) -> &'static str
        ensures { result.now ≡ notice_text self }
    {
        match self {
            Notice::NoQueryInRequest => "no query in request",
            Notice::ExpiredRrsig => "ExpiredRrsig",
            Notice::WrongDnskey => "WrongDnskey",
            Notice::WrongRrsig => "WrongRrsig",
            Notice::ExceededMaxValidationDepth => "exceeded max validation depth",
            Notice::ExceededMaxNestedQueries => "exceeded max nested queries",
            Notice::IdSpaceExhausted => "id space exhausted, consider filing an issue",
            Notice::SendQueueFull => "send queue full",
            Notice::PolledAfterCompletion => "polled after completion",
            Notice::NotAllBytesSent => "not all bytes of message sent",
            Notice::TransferHasTrailingRecords => {
                "invalid zone transfer, contains trailing records"
            }
            Notice::TransferIsIncremental => "invalid zone transfer, expected AXFR, got IXFR",
            Notice::HistoryFull => "history full",
        }
    }
}

impl fmt::Display for Notice {
    ghost output = { λ notice. Some (notice_text notice) };

    fn fmt<W: fmt::Write>(&self, f: &mut fmt::Formatter<W>) -> fmt::Result {
        f.write_str(self.text())
    }
}
