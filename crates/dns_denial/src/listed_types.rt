//! What the types that an NSEC or NSEC3 record lists say of its owner (RFC 4034, 4.1.2; RFC 5155, 3.2.1).
ghost use Rattle.std.specs.Prelude.{◌≡◌};
ghost use Rattle.dns_rules.specs.ListedTypes.{has_type as has_type_in, is_cut as is_cut_in, ends_zone as ends_zone_in, is_unsigned_cut as is_unsigned_cut_in, lacks_data as lacks_data_in, denies_at_owner as denies_at_owner_in, proved_by_owner, wildcard_lacks as wildcard_lacks_in};

use dns_model::Answered;
use dns_rdata::TypeSet;
use dns_record::{RecordType, ResponseCode};

// Whether the type stands at the owner. NSEC and RRSIG stand at each owner, so their bits tell nothing.
fn has_type(types: &TypeSet<'_>, record_type: RecordType) -> bool
    ensures { result ≡ has_type_in record_type.0 types.now }
{
    types.contains(record_type)
        && !(record_type == RecordType::NSEC || record_type == RecordType::RRSIG)
}

// Whether the record stands above a zone cut (RFC 6840, 4.1): its owner is a delegation, and no apex.
fn is_cut(types: &TypeSet<'_>) -> bool
    ensures { result ≡ is_cut_in types.now }
{
    has_type(types, RecordType::NS) && !has_type(types, RecordType::SOA)
}

/// Whether the owner is a delegation or has DNAME, so that nothing of its zone stands below it (RFC 6840, 4.1).
pub(crate) fn ends_zone(types: &TypeSet<'_>) -> bool
    ensures { result ≡ ends_zone_in types.now }
{
    is_cut(types) || has_type(types, RecordType::DNAME)
}

/// Whether the owner is a delegation to a zone that isn't signed (RFC 5155, 8.9).
pub(crate) fn is_unsigned_cut(types: &TypeSet<'_>) -> bool
    ensures { result ≡ is_unsigned_cut_in types.now }
{
    types.contains(RecordType::NS)
        && !types.contains(RecordType::DS)
        && !types.contains(RecordType::SOA)
}

// Whether the owner has neither the type nor a CNAME that would stand for it (RFC 6840, 4.3).
fn lacks_data(types: &TypeSet<'_>, record_type: RecordType) -> bool
    ensures { result ≡ lacks_data_in record_type.0 types.now }
{
    !(has_type(types, record_type) || has_type(types, RecordType::CNAME))
}

// Whether a record denies the type at its owner: for DS it may not be the child's, and for others not the parent's.
fn denies_at_owner(types: &TypeSet<'_>, record_type: RecordType) -> bool
    ensures { result ≡ denies_at_owner_in record_type.0 types.now }
{
    lacks_data(types, record_type)
        && if record_type == RecordType::DS {
            !has_type(types, RecordType::SOA)
        } else {
            !is_cut(types)
        }
}

/// Whether the record at the name proves what the response says: the name exists, so only its data can be denied.
pub(crate) fn is_proved_by_owner(
    types: &TypeSet<'_>,
    record_type: RecordType,
    code: ResponseCode,
    answered: Answered,
) -> bool
    ensures { result ≡ proved_by_owner record_type.0 code.0 answered types.now }
{
    answered == Answered::No
        && code == ResponseCode::NO_ERROR
        && denies_at_owner(types, record_type)
}

/// Whether nothing at a wildcard answers for the type, and it is no delegation and has no DNAME (RFC 4592, 4.2 and 4.4).
pub fn wildcard_lacks(types: &TypeSet<'_>, record_type: RecordType) -> bool
    ensures { result ≡ wildcard_lacks_in record_type.0 types.now }
{
    lacks_data(types, record_type)
        && !(has_type(types, RecordType::NS) || has_type(types, RecordType::DNAME))
}
