//! The requests of asks, and the request that a validation is given.

ghost use Rattle.std.specs.Prelude.{◌≡◌, IfOk};
ghost use Rattle.dns_handle.specs.Requests.{plain_options, request_of};
ghost use Rattle.dns_validation.specs.Requests.{asking_options, asking_request, request_for as request_by, checked_edns, checked_request};

use dns_handle::{DnsRequest, DnsRequestOptions};
use dns_message::Edns;
use dns_record::{NoMemory, Octets, Query};
use std::alloc::Global;

/// The request of an ask whose reply is judged (RFC 4035, 4.1; RFC 6840, 5.7) or only seen. The only error is running out of memory.
pub fn request_for(
    alloc: Global,
    query: &Query,
    options: &DnsRequestOptions,
    judged: bool,
) -> Result<DnsRequest, NoMemory>
    ensures { IfOk result (λ r. r ≡ request_by options.now (record { query = query.now; judged = judged })) }
{
    if judged {
        asking_request_of(alloc, query, options)
    } else {
        plain_request_of(alloc, query, options)
    }
}

// The request of a query by the options as they are.
fn plain_request_of(
    alloc: Global,
    query: &Query,
    options: &DnsRequestOptions,
) -> Result<DnsRequest, NoMemory>
    ensures { IfOk result (λ r. r ≡ request_of query.now options.now) }
{
    let query = query.try_clone()?;
    let request = DnsRequest::from_query(alloc, query, *options)?;
    Ok(request)
}

// The request of a judged ask.
fn asking_request_of(
    alloc: Global,
    query: &Query,
    options: &DnsRequestOptions,
) -> Result<DnsRequest, NoMemory>
    ensures { IfOk result (λ r. r ≡ asking_request query.now options.now) }
{
    let query = query.try_clone()?;
    let mut request = DnsRequest::from_query(alloc, query, asking_options_of(options))?;
    request.message.authentic_data = true;
    Ok(request)
}

/// The options of a judged ask: with EDNS and DO (RFC 4035, 4.1).
pub fn asking_options_of(options: &DnsRequestOptions) -> DnsRequestOptions
    ensures { result ≡ asking_options options.now }
{
    let mut asking = *options;
    if !options.use_edns {
        asking.edns_payload_len = default_payload();
    }
    asking.use_edns = true;
    asking.edns_set_dnssec_ok = true;
    asking
}

// The payload of an OPT record that a request didn't have, in bytes: that of the default options.
fn default_payload() -> u16
    ensures { result ≡ plain_options.edns_payload_len }
{
    DnsRequestOptions::default().edns_payload_len
}

/// The request with EDNS and DO, AD set and CD clear (RFC 4035, 3.2 and 4.1).
pub fn checked(alloc: Global, request: DnsRequest) -> DnsRequest
    ensures { result ≡ checked_request request }
{
    let mut request = request;
    let edns = request.message.edns.take();
    request.message.edns = Some(with_do(alloc, edns));
    request.message.authentic_data = true;
    request.message.checking_disabled = false;
    request.options = asking_options_of(&request.options);
    request
}

// The OPT record of a request, with DO.
fn with_do(alloc: Global, edns: Option<Edns>) -> Edns
    ensures { result ≡ checked_edns edns }
{
    match edns {
        None => Edns {
            max_payload: default_payload(),
            version: 0,
            dnssec_ok: true,
            flags: 0,
            options: Octets::from_vec(Vec::new(alloc)),
        },
        Some(edns) => {
            let mut edns = edns;
            edns.dnssec_ok = true;
            edns
        }
    }
}
