//! The set at which a chain ends, and the signature that its last link names (RFC 4035, 5.3).

ghost use Rattle.std.specs.Prelude.{◌≡◌, ◌==◌, ◌&&◌, Some, map};
ghost use Rattle.std.specs.Option.{option_copied};
ghost use Rattle.dns_model.specs.Names.{name_eq};
ghost use Rattle.dns_model.specs.Chains.{ends_at as ends_at_in, last_link, link_is_for, rdatas_of, same_rdatas as are_same};
ghost use Rattle.dns_rules.specs.Serving.{names_decider as names_in};
ghost use Rattle.dns_evidence.specs.Link.{link_value};

use dns_evidence::Link;
use dns_record::{DNSClass, Name, Rdata, Record, RecordSet, RecordType};

/// The chain ends at the set, and its last link names the signature that decided, or is a key set where none did.
#[tactic(auto, using(crate::proofs::EndLemmas::last_value))]
pub(crate) fn ends_by(links: &[Link], set: &RecordSet, decider: Option<&Record>) -> bool
    ensures { result ≡ (ends_at_in (map link_value links.now) set.now
        && names_in (last_link (map link_value links.now)) (option_copied decider.entry)) }
{
    match links.last() {
        Some(last) => is_for(last, set) && names_decider(last, decider),
        None => false,
    }
}

// The link is about the set.
fn is_for(link: &Link, set: &RecordSet) -> bool
    ensures { result ≡ link_is_for set.now (Some (link_value link.now)) }
{
    match link {
        Link::Anchored { .. } | Link::Matched { .. } => false,
        Link::KeySet {
            owner,
            class,
            keys,
            ..
        } => is_set_of(set, RecordType::DNSKEY, owner, *class) && same_rdatas(&set.records, keys),
        Link::Signed {
            owner,
            class,
            record_type,
            rdatas,
            ..
        } => is_set_of(set, *record_type, owner, *class) && same_rdatas(&set.records, rdatas),
    }
}

// The set has this type, owner and class.
fn is_set_of(set: &RecordSet, record_type: RecordType, owner: &Name, class: DNSClass) -> bool
    ensures { result ≡ ((set.now.rtype == record_type.0) && (name_eq set.now.owner owner.now && (set.now.class == class.0))) }
{
    set.record_type == record_type && set.name == *owner && set.dns_class == class
}

// The rdatas of some records are these, in order.
fn same_rdatas(mut records: &[Record], mut rdatas: &[Rdata]) -> bool
    ensures { result ≡ are_same (rdatas_of records.entry.now) rdatas.entry.now }
{
    'records: while let Some((record, more)) = records.split_first() {
        let Some((rdata, others)) = rdatas.split_first() else {
            return false;
        };
        if record.rdata != *rdata {
            return false;
        }
        records = more;
        rdatas = others;
    }
    rdatas.is_empty()
}

// The link names the signature that decided, or is a key set where none did.
fn names_decider(link: &Link, decider: Option<&Record>) -> bool
    ensures { result ≡ names_in (Some (link_value link.now)) (option_copied decider.entry) }
{
    match link {
        Link::Anchored { .. } | Link::Matched { .. } => false,
        Link::KeySet { .. } => decider.is_none(),
        Link::Signed { sig, .. } => match decider {
            Some(signature) => signature.rdata == *sig,
            None => false,
        },
    }
}
