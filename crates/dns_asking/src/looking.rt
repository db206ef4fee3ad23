//! A lookup over a handle that is made for it.
ghost use Rattle.std.specs.Prelude.{◌≡◌};
ghost use Rattle.dns_handle.specs.Replies.{reply_of};
ghost use Rattle.dns_asking.specs.Lookups.{LooksUp, options_to};

use crate::inquiry::Inquiry;
use dns_evidence::Verifier;
use dns_handle::{DnsHandle, DnsRequestOptions, DnsResponse, NetError};
use dns_lookup::{DnssecDnsHandle, default_cache};
use dns_record::NoMemory;
use std::alloc::Global;

/// How a lookup over a handle ended.
#[derive(Drop)]
pub struct LookupEnd<H: Drop> {
    /// The answer, or an error.
    pub reply: Result<DnsResponse, NetError>,
    /// The handle, as the lookup leaves it.
    pub handle: H,
}

/// Options that ask for nothing but a depth.
fn options_to(depth: u16) -> DnsRequestOptions
    ensures { result ≡ options_to depth }
{
    let mut options = DnsRequestOptions::default();
    options.max_request_depth = depth;
    options
}

/// Looks up over a handle what is asked for.
pub fn look_up<H: DnsHandle + Drop, V: Verifier + Drop>(
    alloc: Global,
    handle: H,
    inquiry: Inquiry<V>,
) -> LookupEnd<H>
    ensures { LooksUp H.DnsHandle V.Verifier inquiry handle result.handle (reply_of result.reply) }
{
    let Inquiry {
        query,
        depth,
        anchors,
        verifier,
        moment,
    } = inquiry;
    let Ok(cache) = default_cache(alloc) else {
        return LookupEnd {
            reply: Err(NetError::NoMemory),
            handle,
        };
    };
    let Ok(made) = DnssecDnsHandle::with_cache(handle, anchors, verifier, cache) else {
        unreachable!()
    };
    let mut validator = made;
    let reply = validator.lookup(alloc, query, options_to(depth), moment);
    LookupEnd {
        reply,
        handle: validator.into_inner(),
    }
}
