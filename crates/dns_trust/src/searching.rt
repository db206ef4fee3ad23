//! What the search for the zone of a name asks, where it begins, and what it looks for (RFC 4035, 4.3 and 5.2).

ghost use Rattle.std.specs.Prelude.{◌≡◌, ◌==◌, ◌++◌, IfOk};
ghost use Rattle.std.specs.List.{list_any};
ghost use Rattle.dns_model.specs.Types.{type_dnskey};
ghost use Rattle.dns_rules.specs.Delegations.{ds_question};
ghost use Rattle.dns_rules.specs.Unsigned.{is_ns_of as is_ns_record, needs_zone, ns_question, question_start as start_of_question, set_start as start_of_set};

use dns_record::{DNSClass, Name, NoMemory, Query, Record, RecordSet, RecordType};

/// What a plain ask for the NS records of a name comes to.
#[derive(Clone, Copy)]
pub enum NsProbe {
    /// They are there.
    Found,
    /// They aren't, so the name above is asked for them.
    Absent,
    /// The ask met a fault or was refused.
    Failed,
}

/// The set holds a zone's keys.
pub fn is_key_set(set: &RecordSet) -> bool
    ensures { result ≡ (set.now.rtype == type_dnskey) }
{
    set.record_type == RecordType::DNSKEY
}

/// No signature covers the set, and it isn't DS, so that its zone decides.
pub fn needs_zone(set: &RecordSet) -> bool
    ensures { result ≡ needs_zone set.now }
{
    set.rrsigs.is_empty() && set.record_type != RecordType::DS
}

/// Where the search for a set's zone begins: an NSEC3 stands right below its zone (RFC 5155, 3).
pub fn set_start(set: &RecordSet) -> Result<Name, NoMemory>
    ensures { IfOk result (λ n. n ≡ start_of_set set.now) }
{
    if set.record_type == RecordType::NSEC3 {
        set.name.base_name()
    } else {
        set.name.try_clone()
    }
}

/// Where the search for a question's zone begins: a DS stands in the zone above (RFC 4035, 2.4).
pub fn question_start(query: &Query) -> Result<Name, NoMemory>
    ensures { IfOk result (λ n. n ≡ start_of_question query.now) }
{
    if query.query_type == RecordType::DS {
        query.name.base_name()
    } else {
        query.name.try_clone()
    }
}

/// The question for the NS records of a name.
pub fn ns_query(name: &Name, class: DNSClass) -> Result<Query, NoMemory>
    ensures { IfOk result (λ q. q ≡ ns_question class.0 name.now) }
{
    let name = name.try_clone()?;
    Ok(Query {
        name,
        query_type: RecordType::NS,
        query_class: class,
    })
}

/// Whether a record is an NS record of a name, whatever its class.
pub fn is_ns_of(name: &Name, found: &Record) -> bool
    ensures { result ≡ is_ns_record name.now found.now }
{
    *name == found.name && found.record_type == RecordType::NS
}

/// Some record of the sections of a reply is an NS record of the name, whatever its section and its class.
pub fn has_ns_record(
    name: &Name,
    answers: &[Record],
    authorities: &[Record],
    additionals: &[Record],
) -> bool
    ensures { result ≡ list_any (is_ns_record name.now) (answers.now ++ authorities.now ++ additionals.now) }
{
    has_ns_in(name, answers) || has_ns_in(name, authorities) || has_ns_in(name, additionals)
}

// Some of these records is an NS record of the name.
fn has_ns_in(name: &Name, records: &[Record]) -> bool
    ensures { result ≡ list_any (is_ns_record name.now) records.now }
{
    for found in records {
        if is_ns_of(name, found) {
            return true;
        }
    }
    false
}

/// The question for the DS set of a zone.
pub fn ds_query(zone: Name, class: DNSClass) -> Query
    ensures { result ≡ ds_question class.0 zone }
{
    Query {
        name: zone,
        query_type: RecordType::DS,
        query_class: class,
    }
}
