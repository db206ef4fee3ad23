//! Requests: a message to send, and how (RFC 1035, 4.1; RFC 6891).
ghost use Rattle.std.specs.Prelude.{◌≡◌, IfOk, OnOk};
ghost use Rattle.dns_handle.specs.Requests.{requested_edns, first_cased, first_query, plain_options, request_cased, request_of};

use crate::letter_case::name_cased;
use dns_message::{Edns, Message};
use dns_record::{NoMemory, Octets, OpCode, Query, ResponseCode};
use std::alloc::Global;
use std::marker::Model;
use std::mem;

/// How a request is made and sent.
#[derive(Clone, Copy, Debug, PartialEq, Eq, Hash)]
pub struct DnsRequestOptions {
    /// The request has an OPT record (RFC 6891).
    pub use_edns: bool,
    /// The most bytes of a datagram that the OPT record names.
    pub edns_payload_len: u16,
    /// The OPT record asks for DNSSEC records (RFC 3225).
    pub edns_set_dnssec_ok: bool,
    /// The request asks for recursion.
    pub recursion_desired: bool,
    /// The name's letters are sent in a random case.
    pub case_randomization: bool,
    /// How deep the asks of a validator's lookup go; above 255 it counts as 255.
    pub max_request_depth: u16,
    /// Milliseconds before a request is sent again.
    pub retry_interval_ms: u64,
}

/// No EDNS, recursion desired, letters as they are, asks at most 26 deep, sent again at once.
impl Default for DnsRequestOptions {
    ghost is_default = { λ options. options ≡ plain_options };

    fn default() -> Self {
        DnsRequestOptions {
            use_edns: false,
            edns_payload_len: 1232,
            edns_set_dnssec_ok: false,
            recursion_desired: true,
            case_randomization: false,
            max_request_depth: 26,
            retry_interval_ms: 0,
        }
    }
}

/// A message to send, and how.
#[derive(Drop)]
pub struct DnsRequest {
    /// The message that is sent.
    pub message: Message,
    /// How it is sent.
    pub options: DnsRequestOptions,
    /// The question as it was before its letters' case was changed.
    pub original: Option<Query>,
}

impl Model for DnsRequest {
    ghost use Rattle.dns_handle.specs.Requests.{RequestValue};

    ghost Value = { RequestValue };

    ghost view = { λ r. record { message = r.message; options = r.options; original = r.original } };
}

// The OPT record that the options ask for: version 0, no flag but DO, no option.
fn make_edns(alloc: Global, options: &DnsRequestOptions) -> Option<Edns>
    ensures { result ≡ requested_edns options.now }
{
    if options.use_edns {
        Some(Edns {
            max_payload: options.edns_payload_len,
            version: 0,
            dnssec_ok: options.edns_set_dnssec_ok,
            flags: 0,
            options: Octets::from_vec(Vec::new(alloc)),
        })
    } else {
        None
    }
}

// Changes the case of the first question's letters whose bit is set, and gives the question as it was.
fn change_first(queries: &mut Vec<Query>, bits: &[u8]) -> Result<Option<Query>, NoMemory>
    ensures before { IfOk result (λ q. q ≡ first_query queries.old.items) }
    ensures after { OnOk result (queries.new.items ≡ first_cased bits.now queries.old.items) }
{
    let alloc = *queries.allocator();
    let Some(query) = queries.first_mut() else {
        return Ok(None);
    };
    let changed = name_cased(alloc, &query.name, bits)?;
    Ok(Some(Query {
        name: mem::replace(&mut query.name, changed),
        query_type: query.query_type,
        query_class: query.query_class,
    }))
}

impl DnsRequest {
    /// A request that asks one question: a query of id 0 with RD and an OPT record as the options say (RFC 1035, 4.1.1;
    /// RFC 6891, 6.1.3). Whoever sends it gives it an id. The only error is that memory ran out.
    ///
    /// ```
    /// fn request_with_edns(alloc: Global, query: Query) -> Result<DnsRequest, NoMemory> {
    ///     let mut options = DnsRequestOptions::default();
    ///     options.use_edns = true;
    ///     DnsRequest::from_query(alloc, query, options)
    /// }
    /// ```
    pub fn from_query(
        alloc: Global,
        query: Query,
        options: DnsRequestOptions,
    ) -> Result<DnsRequest, NoMemory>
        ensures { IfOk result (λ r. r ≡ request_of query options) }
    {
        let mut queries = Vec::new(alloc);
        queries.push(query)?;
        let edns = make_edns(alloc, &options);
        Ok(DnsRequest {
            message: Message {
                id: 0,
                response: false,
                op_code: OpCode::QUERY,
                authoritative: false,
                truncated: false,
                recursion_desired: options.recursion_desired,
                recursion_available: false,
                authentic_data: false,
                checking_disabled: false,
                response_code: ResponseCode::NO_ERROR,
                queries,
                answers: Vec::new(alloc),
                authorities: Vec::new(alloc),
                additionals: Vec::new(alloc),
                edns,
            },
            options,
            original: None,
        })
    }

    /// The request with the case of some letters of its first question's name changed, and `original` that question as it
    /// was before this call (RFC 4343, 4.1). Each letter, A to Z or a to z, takes the next bit in its turn, from the leaf to
    /// the root; a byte gives its bits from the least upward. A letter whose bit is set is changed, and one for which no
    /// byte is left isn't. A request without a question stays as it is. The only error is that memory ran out.
    pub fn with_case(mut self, bits: &[u8]) -> Result<DnsRequest, NoMemory>
        ensures { IfOk result (λ r. r ≡ request_cased bits.now self) }
    {
        if let Some(original) = change_first(&mut self.message.queries, bits)? {
            self.original = Some(original);
        }
        Ok(self)
    }

    /// An equal value in memory of its own.
    pub fn try_clone(&self) -> Result<DnsRequest, NoMemory>
        ensures { IfOk result (λ r. r ≡ self.now) }
    {
        let message = self.message.try_clone()?;
        let original = match &self.original {
            None => None,
            Some(query) => Some(query.try_clone()?),
        };
        Ok(DnsRequest {
            message,
            options: self.options,
            original,
        })
    }
}
