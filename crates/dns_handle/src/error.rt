//! Errors of a send or a lookup, their texts, and what they say.
ghost use Rattle.std.specs.Prelude.{◌≡◌, IfOk};
ghost use Rattle.dns_handle.specs.Replies.{dns_error_of, error_of};
ghost use Rattle.dns_handle.specs.Conversions.{decode_failed, outside_failed, proto_failed};
ghost use Rattle.dns_handle.specs.declared.error.NetError.TheVariants.{NoMemory, Dns, Message, Msg};
ghost use Rattle.dns_handle.specs.declared.error.DnsError.TheVariants.{NoRecordsFound};
ghost use Rattle.dns_handle.specs.ErrorKinds.{is_nx_domain, is_no_records_found, is_connection_closed, is_no_memory, soa_of};

use crate::{DnsResponse, IoKind, NoRecords, Notice};
use dns_message::{DecodeError, DecodeKind};
use dns_model::Proof;
use dns_record::{DNSClass, Name, NoMemory, Query, Record, RecordType, ResponseCode, Text};
use std::alloc::{AllocError, AllocFailed};
use std::fmt;
use thiserror::Error;

/// What DNS itself answers in place of the records.
#[derive(Drop, Error)]
pub enum DnsError {
    /// The response has a code that stands for a failure.
    #[error("error response: {}", .0.0)]
    ResponseCode(ResponseCode),
    /// There are no records to the question (RFC 2308, 2).
    #[error("no records found for {}", .0.query)]
    NoRecordsFound(NoRecords),
    /// The records are denied, or should be and aren't (RFC 4035, 5.4): the judged response, and how far the denial is proved.
    #[error("DNSSEC Negative Record Response for {query}, {proof:?}")]
    Nsec {
        query: Query,
        response: Box<DnsResponse>,
        proof: Proof,
    },
    /// Validation failed.
    #[error("DNSSEC validation failed")]
    DnssecBogus,
}

/// What is wrong with bytes that came, or with a message that was to be written.
#[derive(Clone, Copy, Debug, PartialEq, Eq, Drop, Error)]
pub enum ProtoError {
    /// The bytes are no message.
    #[error("{kind:?} {offset}", kind = .0.kind, offset = .0.offset)]
    Decode(DecodeError),
    /// The message has more than 65,535 bytes.
    #[error("TooLong")]
    TooLong,
}

/// Why a send or a lookup has no response.
#[derive(Drop, Error)]
pub enum NetError {
    /// The handle has too much to do; later it may answer.
    #[error("resource too busy")]
    Busy,
    /// An answer of DNS itself.
    #[error("DNS error: {0}")]
    Dns(DnsError),
    /// A fixed text.
    #[error("{0}")]
    Message(Notice),
    /// A text of a handle's own.
    #[error("{}", .0.as_str())]
    Msg(Text),
    /// No connection can be made.
    #[error("no connections available")]
    NoConnections,
    /// Bytes that aren't a message came, or a message can't be written.
    #[error("protocol error: {0}")]
    Proto(ProtoError),
    /// The outside failed.
    #[error("io error: {0:?}")]
    Io(IoKind),
    /// Nothing came in time.
    #[error("request timed out")]
    Timeout,
    /// The response spells the query's name in another case.
    #[error("case of query name in response did not match")]
    QueryCaseMismatch,
    /// The response holds a record of another class than the query's: the first such.
    #[error("foreign class record in response: {record_name} {record_class} {record_type}")]
    ForeignClassRecord {
        record_name: Name,
        record_class: DNSClass,
        record_type: RecordType,
    },
    /// The response was cut, and nothing else can be tried.
    #[error("response was truncated; TCP already tried or no other transport available")]
    Truncated,
    /// Memory ran out.
    #[error("out of memory")]
    NoMemory,
}

/// The text of Display.
impl fmt::Debug for DnsError {
    fn fmt<W: fmt::Write>(&self, f: &mut fmt::Formatter<W>) -> fmt::Result {
        write!(f, "{self}")
    }
}

/// The text of Display.
impl fmt::Debug for NetError {
    fn fmt<W: fmt::Write>(&self, f: &mut fmt::Formatter<W>) -> fmt::Result {
        write!(f, "{self}")
    }
}

impl From<NoMemory> for NetError {
    ghost from_gives = { λ _ e. e ≡ NoMemory };

    fn from(_error: NoMemory) -> Self {
        NetError::NoMemory
    }
}

impl From<AllocError> for NetError {
    ghost from_gives = { λ _ e. e ≡ NoMemory };

    fn from(_error: AllocError) -> Self {
        NetError::NoMemory
    }
}

impl<T: Drop> From<AllocFailed<T>> for NetError {
    ghost from_gives = { λ _ e. e ≡ NoMemory };

    fn from(_failed: AllocFailed<T>) -> Self {
        NetError::NoMemory
    }
}

impl From<DnsError> for NetError {
    ghost from_gives = { λ error e. e ≡ Dns error };

    fn from(error: DnsError) -> Self {
        NetError::Dns(error)
    }
}

impl From<NoRecords> for NetError {
    ghost from_gives = { λ missing e. e ≡ Dns (NoRecordsFound missing) };

    fn from(missing: NoRecords) -> Self {
        NetError::Dns(DnsError::NoRecordsFound(missing))
    }
}

impl From<Notice> for NetError {
    ghost from_gives = { λ notice e. e ≡ Message notice };

    fn from(notice: Notice) -> Self {
        NetError::Message(notice)
    }
}

impl From<Text> for NetError {
    ghost from_gives = { λ text e. e ≡ Msg text };

    fn from(text: Text) -> Self {
        NetError::Msg(text)
    }
}

/// A decoder's `NoMemory` becomes `NoMemory`.
impl From<ProtoError> for NetError {
    ghost from_gives = { λ error e. e ≡ proto_failed error };

    fn from(error: ProtoError) -> Self {
        match error {
            ProtoError::Decode(error) => NetError::from(error),
            ProtoError::TooLong => NetError::Proto(ProtoError::TooLong),
        }
    }
}

/// A decoder's `NoMemory` becomes `NoMemory`.
impl From<DecodeError> for NetError {
    ghost from_gives = { λ error e. e ≡ decode_failed error };

    fn from(error: DecodeError) -> Self {
        match error.kind {
            DecodeKind::NoMemory => NetError::NoMemory,
            _ => NetError::Proto(ProtoError::Decode(error)),
        }
    }
}

/// What came too late is `Timeout`.
impl From<IoKind> for NetError {
    ghost from_gives = { λ kind e. e ≡ outside_failed kind };

    fn from(kind: IoKind) -> Self {
        match kind {
            IoKind::TimedOut => NetError::Timeout,
            _ => NetError::Io(kind),
        }
    }
}

impl DnsError {
    /// An equal error in memory of its own.
    pub fn try_clone(&self) -> Result<DnsError, NoMemory>
        ensures { IfOk result (λ e. dns_error_of e ≡ dns_error_of self.now) }
    {
        match self {
            DnsError::ResponseCode(code) => Ok(DnsError::ResponseCode(*code)),
            DnsError::NoRecordsFound(missing) => {
                let missing = missing.try_clone()?;
                Ok(DnsError::NoRecordsFound(missing))
            }
            DnsError::Nsec {
                query,
                response,
                proof,
            } => {
                let query = query.try_clone()?;
                let content = response.try_clone()?;
                let response = Box::new(*Box::allocator(response), content)?;
                Ok(DnsError::Nsec {
                    query,
                    response,
                    proof: *proof,
                })
            }
            DnsError::DnssecBogus => Ok(DnsError::DnssecBogus),
        }
    }
}

impl NetError {
    /// Whether the name doesn't exist: there are no records, by code NXDOMAIN (RFC 2308, 2.1).
    pub fn is_nx_domain(&self) -> bool
        ensures { result ≡ is_nx_domain (error_of self.now) }
    {
        matches!(
            self,
            NetError::Dns(DnsError::NoRecordsFound(missing))
                if missing.response_code == ResponseCode::NX_DOMAIN
        )
    }

    /// Whether there are no records to the question.
    pub fn is_no_records_found(&self) -> bool
        ensures { result ≡ is_no_records_found (error_of self.now) }
    {
        matches!(self, NetError::Dns(DnsError::NoRecordsFound(_)))
    }

    /// Whether a connection was there and is gone. A refused one and one that waits too long aren't.
    pub fn is_connection_closed(&self) -> bool
        ensures { result ≡ is_connection_closed (error_of self.now) }
    {
        matches!(
            self,
            NetError::Io(
                IoKind::ConnectionReset
                    | IoKind::ConnectionAborted
                    | IoKind::NotConnected
                    | IoKind::BrokenPipe
                    | IoKind::UnexpectedEof
            )
        )
    }

    /// Whether memory ran out.
    pub fn is_no_memory(&self) -> bool
        ensures { result ≡ is_no_memory (error_of self.now) }
    {
        matches!(self, NetError::NoMemory)
    }

    /// The SOA that came with no records.
    pub fn into_soa(self) -> Option<Record>
        ensures { result ≡ soa_of (error_of self) }
    {
        match self {
            NetError::Dns(DnsError::NoRecordsFound(missing)) => missing.soa,
            _ => None,
        }
    }

    /// An equal error in memory of its own.
    pub fn try_clone(&self) -> Result<NetError, NoMemory>
        ensures { IfOk result (λ e. error_of e ≡ error_of self.now) }
    {
        match self {
            NetError::Busy => Ok(NetError::Busy),
            NetError::Dns(error) => {
                let error = error.try_clone()?;
                Ok(NetError::Dns(error))
            }
            NetError::Message(notice) => Ok(NetError::Message(*notice)),
            NetError::Msg(text) => {
                let text = text.try_clone()?;
                Ok(NetError::Msg(text))
            }
            NetError::NoConnections => Ok(NetError::NoConnections),
            NetError::Proto(error) => Ok(NetError::Proto(*error)),
            NetError::Io(kind) => Ok(NetError::Io(*kind)),
            NetError::Timeout => Ok(NetError::Timeout),
            NetError::QueryCaseMismatch => Ok(NetError::QueryCaseMismatch),
            NetError::ForeignClassRecord {
                record_name,
                record_class,
                record_type,
            } => {
                let record_name = record_name.try_clone()?;
                Ok(NetError::ForeignClassRecord {
                    record_name,
                    record_class: *record_class,
                    record_type: *record_type,
                })
            }
            NetError::Truncated => Ok(NetError::Truncated),
            NetError::NoMemory => Ok(NetError::NoMemory),
        }
    }
}
