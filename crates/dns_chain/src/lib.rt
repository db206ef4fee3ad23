//! The validator under the names that a caller looks for: the handle that looks up, the validation that asks, the checkers of chains
//! and trails, and what finds a key's, a signature's or a set's mark by itself (RFC 4035, 5); and what a caller needs to name beside them.
#![tactic(auto)]

pub use dns_cache::{
    Acceptance, AcceptedBy, BOGUS_CACHE_TTL, CacheKey, DefaultCache, Entry, ListCache,
    LruValidationCache, ProofError, ProofErrorKind, RrsetProof, TtlRange, TtlRanges,
    ValidationCache,
};
pub use dns_chain_check::{accepted_chain, check_chain, is_trusted};
pub use dns_evidence::{
    Chain, IterationLimits, Limits, Link, LinkSignature, Listed, Steps, Trail, Verifier,
};
pub use dns_handle::{DnsHandle, DnsRequest, DnsRequestOptions, DnsResponse, NetError};
pub use dns_lookup::DnssecDnsHandle;
pub use dns_marks::{
    DnsAnswer, KeyAnswer, KeysMark, ZoneVerdict, ds_verdict, mark_keys, mark_rrset, verify_dnskey,
    verify_rrset_with_dnskey, verify_rrsig_with_keys,
};
pub use dns_message::Message;
pub use dns_model::{Denial, Proof};
pub use dns_record::{DNSClass, Name, NoMemory, Octets, Query, Record, RecordSet, RecordType};
pub use dns_shared_cache::{DefaultSharedCache, SharedCache, Shelf};
pub use dns_trail::{check_trail, is_in_order};
pub use dns_trust::{Judge, RrsigValidity, TrustAnchors};
pub use dns_validation::{Asking, Validation, Wanted};
