//! What is denied, and with which mark (RFC 4035, 5.4).
ghost use Rattle.std.specs.Prelude.{◌≡◌, ◌++◌, OnOk};
ghost use Rattle.dns_handle.specs.Replies.{error_of, reply_of};
ghost use Rattle.dns_query_json.specs.AnswerJson.{denial_field, denial_object, denial_value, denied_value, refused_value};

use crate::records::push_mark;
use crate::strings::{push_named, push_sign, push_string_field};
use dns_handle::{DnsError, DnsResponse, NetError};
use dns_model::{Denial, Proof};
use dns_record::NoMemory;
use dns_text::push_text;

// Appends a kind of denial, and its mark.
#[tactic(auto, unfolding(crate::specs::AnswerJson::denial_object))]
fn push_object(into: &mut Vec<u8>, kind: &[u8], mark: Proof) -> Result<(), NoMemory>
    ensures { OnOk result (into.new.items ≡ into.old.items ++ denial_object kind.now mark) }
{
    push_sign(into, b'{')?;
    push_string_field(into, b"kind", kind)?;
    push_sign(into, b',')?;
    push_mark(into, mark)?;
    push_sign(into, b'}')
}

// Appends what an answer denies.
fn push_denial(into: &mut Vec<u8>, denial: Denial) -> Result<(), NoMemory>
    ensures { OnOk result (into.new.items ≡ into.old.items ++ denial_value denial) }
{
    match denial {
        Denial::None => push_text(into, b"null"),
        Denial::Absent(mark) => push_object(into, b"absent", mark),
        Denial::Expanded(mark) => push_object(into, b"expanded", mark),
    }
}

// Appends what a refused answer denies.
fn push_refused(into: &mut Vec<u8>, error: &NetError) -> Result<(), NoMemory>
    ensures { OnOk result (into.new.items ≡ into.old.items ++ refused_value (error_of error.now)) }
{
    match error {
        NetError::Dns(
            DnsError::Nsec {
                query: _,
                response: _,
                proof,
            },
        ) => push_object(into, b"refused", *proof),
        _ => push_text(into, b"null"),
    }
}

// Appends what a reply denies.
fn push_denied(into: &mut Vec<u8>, reply: &Result<DnsResponse, NetError>) -> Result<(), NoMemory>
    ensures { OnOk result (into.new.items ≡ into.old.items ++ denied_value (reply_of reply.now)) }
{
    match reply {
        Ok(response) => push_denial(into, response.denial),
        Err(error) => push_refused(into, error),
    }
}

/// Appends the field of what a reply denies.
#[tactic(auto, unfolding(crate::specs::AnswerJson::denial_field))]
pub(crate) fn push_denial_field(
    into: &mut Vec<u8>,
    reply: &Result<DnsResponse, NetError>,
) -> Result<(), NoMemory>
    ensures { OnOk result (into.new.items ≡ into.old.items ++ denial_field (reply_of reply.now)) }
{
    push_named(into, b"denial")?;
    push_denied(into, reply)
}
