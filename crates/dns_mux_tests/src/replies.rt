//! Questions, and replies as far as tests tell one from another.
use dns_evidence::Trail;
use dns_handle::{DnsError, DnsResponse, IoKind, NetError, Notice};
use dns_message::Message;
use dns_model::Denial;
use dns_record::{DNSClass, Name, Query, RecordType};
use std::alloc::Global;
use std::process::Abort;

/// A question for this name and type.
pub(crate) fn question(rt: &impl Abort, alloc: Global, name: &str, record_type: u16) -> Query {
    Query {
        name: Name::from_ascii(alloc, name).expect(rt, "a name"),
        query_type: RecordType(record_type),
        query_class: DNSClass::IN,
    }
}

/// A reply, as far as tests tell one from another.
#[derive(Clone, Copy, PartialEq)]
pub(crate) enum Said {
    /// A response with the id.
    Response(u16),
    TimedOut,
    Busy,
    NoConnections,
    Bogus,
    Reset,
    PolledAgain,
    Other,
}

fn error(said: Said) -> NetError {
    match said {
        Said::Busy => NetError::Busy,
        Said::NoConnections => NetError::NoConnections,
        Said::Bogus => NetError::Dns(DnsError::DnssecBogus),
        Said::Reset => NetError::Io(IoKind::ConnectionReset),
        Said::PolledAgain => NetError::Message(Notice::PolledAfterCompletion),
        _ => NetError::Timeout,
    }
}

/// A response with an id and nothing else.
fn with_id(alloc: Global, id: u16) -> DnsResponse {
    let mut message = Message::query(alloc);
    message.id = id;
    DnsResponse {
        message,
        chains: Vec::new(alloc),
        denial: Denial::None,
        trail: Trail::new(alloc),
    }
}

/// A reply that says this.
pub(crate) fn reply(alloc: Global, said: Said) -> Result<DnsResponse, NetError> {
    match said {
        Said::Response(id) => Ok(with_id(alloc, id)),
        _ => Err(error(said)),
    }
}

/// What a reply says.
pub(crate) fn said_by(reply: &Result<DnsResponse, NetError>) -> Said {
    match reply {
        Ok(response) => Said::Response(response.message.id),
        Err(NetError::Timeout) => Said::TimedOut,
        Err(NetError::Busy) => Said::Busy,
        Err(NetError::NoConnections) => Said::NoConnections,
        Err(NetError::Dns(DnsError::DnssecBogus)) => Said::Bogus,
        Err(NetError::Io(IoKind::ConnectionReset)) => Said::Reset,
        Err(NetError::Message(Notice::PolledAfterCompletion)) => Said::PolledAgain,
        Err(_) => Said::Other,
    }
}
