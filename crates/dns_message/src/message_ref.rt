//! A message of parts that stand elsewhere, as it is written.
use crate::message::Edns;
use dns_record::{OpCode, Query, Record, ResponseCode};

/// A message of parts that stand elsewhere, so that it can be written and none of them is copied (RFC 1035, 4.1).
#[derive(Drop)]
pub struct MessageRef<'a> {
    /// By which a response is matched to its query.
    pub id: u16,
    /// QR: a response, and no query.
    pub response: bool,
    /// What is asked to be done.
    pub op_code: OpCode,
    /// AA: the server has authority for the name.
    pub authoritative: bool,
    /// TC: the message was cut off.
    pub truncated: bool,
    /// RD: the sender wants the server to ask further.
    pub recursion_desired: bool,
    /// RA: the server asks further.
    pub recursion_available: bool,
    /// AD: the server takes all of it for authentic (RFC 4035, 3.2.3).
    pub authentic_data: bool,
    /// CD: the sender checks for itself (RFC 4035, 3.2.2).
    pub checking_disabled: bool,
    /// How it was answered, with the upper bits of an OPT.
    pub response_code: ResponseCode,
    /// The question section.
    pub queries: &'a [Query],
    /// The answer section.
    pub answers: &'a [&'a Record],
    /// The authority section.
    pub authorities: &'a [&'a Record],
    /// The additional section, the OPT aside.
    pub additionals: &'a [&'a Record],
    /// The OPT record, where there is one.
    pub edns: &'a Option<Edns>,
}
