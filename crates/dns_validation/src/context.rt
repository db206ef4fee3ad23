//! What stays the same over all asks of a validation.

ghost use Rattle.std.specs.Prelude.{◌≡◌};
ghost use Rattle.dns_rules.specs.Asking.{depth_limit};

use dns_cache::TtlRanges;
use dns_evidence::{IterationLimits, Limits};
use dns_handle::{DnsRequest, DnsRequestOptions};
use dns_record::Query;
use dns_trust::Judge;
use std::alloc::Global;

/// What stays the same over all asks of a validation.
#[derive(Drop)]
pub(crate) struct Context<'a, V> {
    pub(crate) alloc: Global,
    /// By what sets are judged, and at which moment.
    pub(crate) judge: Judge<'a, V>,
    pub(crate) query: Query,
    /// What is sent for the query.
    pub(crate) request: DnsRequest,
    pub(crate) options: DnsRequestOptions,
    /// How many iterations of the hash of NSEC3 records count.
    pub(crate) iterations: IterationLimits,
    /// For how long what is found is kept.
    pub(crate) ranges: TtlRanges,
}

/// How deep the asks go: at most as deep as the options say, and never deeper than 255.
pub(crate) fn limit_of<V>(context: &Context<'_, V>) -> u16
    ensures { result ≡ depth_limit context.now.options.max_request_depth }
{
    dns_evidence::depth_limit(context.options.max_request_depth)
}

/// How far it goes.
pub(crate) fn limits_of<V>(context: &Context<'_, V>) -> Limits
    ensures { result ≡ record {
      depth = depth_limit context.now.options.max_request_depth;
      soft = context.now.iterations.soft;
      hard = context.now.iterations.hard;
    } }
{
    Limits {
        depth: limit_of(context),
        soft: context.iterations.soft,
        hard: context.iterations.hard,
    }
}
