//! What becomes of a request: a question is looked up for it, or it is refused (RFC 1035, 4.1.1; RFC 6891, 6.1.3).
ghost use Rattle.std.specs.Prelude.{◌≡◌};
ghost use Rattle.dns_forwarded.specs.Requests.{course_of, is_later_version, is_unasked};
ghost use Rattle.dns_forwarded.specs.Seen.{course_seen};

use dns_message::{Edns, Message};
use dns_record::{DNSClass, OpCode, Query, RecordType, ResponseCode};

// Whether this is a version of EDNS after 0.
fn is_later_version(edns: &Option<Edns>) -> bool
    ensures { result ≡ is_later_version edns.now }
{
    match edns {
        None => false,
        Some(edns) => 0 < edns.version,
    }
}

// Whether a question is of another class than IN, or for a transfer.
fn is_unasked(query: &Query) -> bool
    ensures { result ≡ is_unasked query.now }
{
    query.query_class != DNSClass::IN
        || query.query_type == RecordType::IXFR
        || query.query_type == RecordType::AXFR
}

/// The question that is looked up for a request, or the code by which it is refused.
pub(crate) fn course_of(request: &Message) -> Result<&Query, ResponseCode>
    ensures { course_seen result ≡ course_of request.now }
{
    if request.op_code != OpCode::QUERY {
        return Err(ResponseCode::NOT_IMP);
    }
    let [query] = request.queries.as_slice() else {
        return Err(ResponseCode::FORM_ERR);
    };
    if is_later_version(&request.edns) {
        return Err(ResponseCode::BAD_VERS);
    }
    if is_unasked(query) {
        return Err(ResponseCode::NOT_IMP);
    }
    Ok(query)
}
