//! What a validator does with a whole request: it looks a query up by the request itself, and hands any other one on.

ghost use Rattle.std.specs.Prelude.{◌≡◌, ◌≢◌, ◌≤◌, ◌==◌, None, IfOk, IfErr};
ghost use Rattle.dns_handle.specs.Replies.{reply_of};
ghost use Rattle.dns_handle.specs.Requests.{first_question};
ghost use Rattle.dns_trust.specs.Judge.{judge_of};
ghost use Rattle.dns_lookup.specs.Calls.{use_of};
ghost use Rattle.dns_lookup.specs.Sending.{AnswersRequest};

use crate::lookup::{Bounds, look_up_by_request};
use dns_cache::AcceptedBy;
use dns_evidence::Verifier;
use dns_handle::{DnsHandle, DnsRequest, DnsResponse, NetError, Notice};
use dns_record::{NoMemory, OpCode, Query};
use dns_trust::Judge;
use std::alloc::Global;

/// The answer to a request at the moment of the judge by which its replies are judged.
pub(crate) fn answer_request<H: DnsHandle, V: Verifier, C: AcceptedBy<V>>(
    alloc: Global,
    judge: Judge<'_, V>,
    handle: &mut H,
    cache: &mut C,
    request: DnsRequest,
    bounds: Bounds,
) -> Result<DnsResponse, NetError>
    ensures later { H.faults handle.old ≤ H.faults handle.new }
    ensures answers { AnswersRequest H.DnsHandle (judge_of V.answers judge.entry) request bounds.iterations bounds.ranges
        judge.entry.moment (use_of C.ValidationCache cache.old cache.new) handle.old handle.new (reply_of result) }
{
    if !is_query(&request) {
        return handle.send(alloc, request, judge.moment);
    }
    let Some(query) = question_of(&request)? else {
        return Err(NetError::Message(Notice::NoQueryInRequest));
    };
    look_up_by_request(alloc, judge, handle, cache, query, request, bounds)
}

// A query, and no notify, update or other operation.
fn is_query(request: &DnsRequest) -> bool
    ensures { result ≡ (request.now.message.op_code == 0) }
{
    request.message.op_code == OpCode::QUERY
}

// The first question of a request, if it has one.
fn question_of(request: &DnsRequest) -> Result<Option<Query>, NoMemory>
    ensures first { IfOk result (λ q. q ≡ first_question request.now) }
    ensures err { IfErr result (λ e. first_question request.now ≢ None) }
{
    let Some(query) = request.message.queries.first() else {
        return Ok(None);
    };
    Ok(Some(query.try_clone()?))
}
