//! Handles under the names that a caller looks for: errors, requests, responses with their chains and trails, handles, and
//! `Recorded`, a handle whose replies are known beforehand; `RetryDnsHandle`, which sends again after an error; whether a verifier accepts a
//! chain by itself; and what a caller needs to name beside them.
#![tactic(auto)]

pub use dns_chain_check::accepted_chain;
pub use dns_evidence::{
    Asked, Chain, Ending, JudgedSet, Link, LinkSignature, Reply, Told, Trail, Verifier, all_shown,
    clone_links, clone_rdatas, has_rdata, same_owner, shows_ds, shows_key, shows_member,
};
pub use dns_handle::{
    DnsError, DnsHandle, DnsRequest, DnsRequestOptions, DnsResponse, ForwardNSData, IoKind,
    NetError, NoRecords, Notice, ProtoError, Protocol, QueryKey, faults_after,
};
pub use dns_message::{DecodeError, DecodeKind, Edns, Message};
pub use dns_model::{Answered, AskRef, Denial, MarkOrigin, Proof, Section};
pub use dns_record::{
    DNSClass, Name, NoMemory, Octets, OpCode, Query, Record, RecordSet, RecordType, ResponseCode,
};
pub use dns_recorded::Recorded;
pub use dns_retry::{RetryDnsHandle, RetrySend};
