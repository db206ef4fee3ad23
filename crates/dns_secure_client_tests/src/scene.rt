//! The session that `dns_check` is run on (`crates/dns_check/stdin`), in memory: the root's name servers and its key.
use dns_evidence::{Listed, Trail};
use dns_handle::{DnsResponse, NetError};
use dns_message::Message;
use dns_model::Denial;
use dns_record::{DNSClass, Name, Octets, Query, RecordType};
use dns_recorded::Recorded;
use dns_trust::TrustAnchors;
use std::alloc::Global;

/// The root's NS set with a signature that is good from 900 to 2000, as a message.
const SERVERS: &[u8] =
    b"\0\0\x84\0\0\x01\0\x02\0\0\0\0\0\0\x02\0\x01\0\0\x02\0\x01\0\0\x0e\x10\0\x03\x01a\0\0\0\x2e\0\x01\0\0\x0e\x10\0\x15\0\x02\x0d\0\0\0\x0e\x10\0\0\x07\xd0\0\0\x03\x84\xae\xc9\0\xc0\xde";

/// The root's key set, as a message.
const KEYS: &[u8] =
    b"\0\0\x84\0\0\x01\0\x01\0\0\0\0\0\0\x30\0\x01\0\0\x30\0\x01\0\0\x0e\x10\0\x06\x01\x01\x03\x0d\xaa\xbb";

/// The response to an update of the root zone, of code NOERROR (RFC 2136, 2.2).
const UPDATED: &[u8] = b"\0\0\xa8\0\0\x01\0\0\0\0\0\0\0\0\x06\0\x01";

/// The bytes that the signature of the NS set signs (RFC 4034, 3.1.8.1).
const SIGNED: &[u8] =
    b"\0\x02\x0d\0\0\0\x0e\x10\0\0\x07\xd0\0\0\x03\x84\xae\xc9\0\0\0\x02\0\x01\0\0\x0e\x10\0\x03\x01a\0";

/// A verifier by which that signature is good, and no other.
pub(crate) fn verifier(alloc: Global) -> Result<Listed, NetError> {
    let mut verifier = Listed::new(alloc);
    verifier.support(13);
    verifier.accept(13, b"\xaa\xbb", SIGNED, b"\xc0\xde")?;
    Ok(verifier)
}

/// A query for records of the root.
pub(crate) fn query_of(alloc: Global, query_type: RecordType) -> Result<Query, NetError> {
    Ok(Query {
        name: Name::root(alloc)?,
        query_type,
        query_class: DNSClass::IN,
    })
}

/// Puts a message in as the reply to a query for records of the root.
fn push_reply(
    alloc: Global,
    upstream: &mut Recorded,
    query_type: RecordType,
    bytes: &[u8],
) -> Result<(), NetError> {
    if bytes.len() > 65_535 {
        return Err(NetError::Truncated);
    }
    let response = DnsResponse {
        message: Message::from_vec(alloc, bytes)?,
        chains: Vec::new(alloc),
        denial: Denial::None,
        trail: Trail::new(alloc),
    };
    upstream.push(query_of(alloc, query_type)?, Ok(response))?;
    Ok(())
}

/// An upstream that answers for the root's name servers and its key, and takes updates.
pub(crate) fn upstream(alloc: Global) -> Result<Recorded, NetError> {
    let mut upstream = Recorded::new(alloc);
    push_reply(alloc, &mut upstream, RecordType::NS, SERVERS)?;
    push_reply(alloc, &mut upstream, RecordType::DNSKEY, KEYS)?;
    push_reply(alloc, &mut upstream, RecordType::SOA, UPDATED)?;
    Ok(upstream)
}

/// The root's key.
pub(crate) fn anchors(alloc: Global) -> Result<TrustAnchors, NetError> {
    let mut anchors = TrustAnchors::empty(alloc);
    let key = Octets::from_slice(alloc, b"\xaa\xbb")?;
    let _ = anchors.insert_with_name(Name::root(alloc)?, 13, key)?;
    Ok(anchors)
}
