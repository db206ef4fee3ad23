//! The zone whose records may deny a query, and which queries may be denied.
ghost use Rattle.std.specs.Prelude.{◌≡◌};
ghost use Rattle.std.specs.List.{find};
ghost use Rattle.dns_rules.specs.DenialInZones.{is_data_type as is_data_type_in};
ghost use Rattle.dns_aggressive.specs.Denials.{has_live as has_live_in, may_deny as may_deny_in, names_up, zone_for};

use crate::kept_list::KeptList;
use dns_record::{DNSClass, NameRef, Query, RecordType};

/// Whether a query may be denied: it is of class IN, and of a type that zones hold as data.
pub(crate) fn may_deny(query: &Query) -> bool
    ensures { result ≡ may_deny_in query.now }
{
    query.query_class == DNSClass::IN && is_data_type(query.query_type)
}

// Whether zones hold RRsets of the type as data: not those of their signing, nor those of queries and messages (RFC 6895, 3.1).
fn is_data_type(record_type: RecordType) -> bool
    ensures { result ≡ is_data_type_in record_type.0 }
{
    record_type != RecordType::RRSIG
        && record_type != RecordType::NSEC
        && record_type != RecordType::NSEC3
        && record_type != RecordType::OPT
        && record_type.0 / 128 != 1
}

/// The apex of the longest zone that may hold a query and has a live record.
pub(crate) fn zone_of<'a>(kept: &KeptList, query: &'a Query, now: u64) -> Option<NameRef<'a>>
    ensures { result ≡ zone_for kept.now query.now now }
{
    let name = query.name.borrowed();
    if query.query_type != RecordType::DS {
        return longest(kept, &name, now);
    }
    // DS stands in the zone above the name (RFC 4035, 2.4)
    let (_, above) = name.split_first()?;
    longest(kept, &above, now)
}

// The longest of a name and those above it that is the zone of a live record.
#[tactic(auto, unfolding(crate::specs::Denials::names_up))]
fn longest<'a>(kept: &KeptList, name: &NameRef<'a>, now: u64) -> Option<NameRef<'a>>
    ensures { result ≡ find (has_live_in now kept.now) (names_up name.now) }
{
    if kept.has_live(name, now) {
        return Some(name.copy());
    }
    let (_, above) = name.split_first()?;
    longest(kept, &above, now)
}
