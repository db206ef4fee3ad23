//! Whether a signature fits the owner and the type of what it covers, by its signer and its Labels, and whether it is timely
//! (RFC 4035, 5.3.1).

ghost use Rattle.std.specs.Prelude.{◌≡◌};
ghost use Rattle.dns_model.specs.Chains.{signer_fits as signer_is_above, never_expanded, right_below_signer};
ghost use Rattle.dns_model.specs.Serial.{timely};

use dns_rdata::{Rrsig, SerialNumber};
use dns_record::{Name, NameRef, RecordType};

/// The signer stands at the owner or above it; a DS stands in the zone above.
pub fn signer_fits(owner: &Name, record_type: RecordType, signer: &NameRef<'_>) -> bool
    ensures { result ≡ signer_is_above record_type.0 signer.now owner.now }
{
    if record_type == RecordType::DS {
        signer.strictly_above(&owner.borrowed())
    } else {
        signer.zone_of(&owner.borrowed())
    }
}

/// An NSEC or NSEC3 isn't expanded from a wildcard (RFC 4035, 5.3.4).
pub fn is_never_expanded(owner: &Name, record_type: RecordType, labels: u8) -> bool
    ensures { result ≡ never_expanded record_type.0 labels owner.now }
{
    if record_type == RecordType::NSEC || record_type == RecordType::NSEC3 {
        labels == owner.borrowed().num_labels()
    } else {
        true
    }
}

/// An NSEC3 stands right below its signer (RFC 5155, 3).
pub fn is_right_below_signer(owner: &Name, record_type: RecordType, signer: &NameRef<'_>) -> bool
    ensures { result ≡ right_below_signer record_type.0 signer.now owner.now }
{
    if record_type == RecordType::NSEC3 {
        owner.borrowed().parent().eq_name(signer)
    } else {
        true
    }
}

/// A moment in seconds since 1970 lies in the signature's validity, on the circle of 2^32 seconds (RFC 4034, 3.1.5).
pub fn is_timely(read: &Rrsig<'_>, now: u64) -> bool
    ensures { result ≡ timely read.now now }
{
    let moment = SerialNumber::of_moment(now);
    read.inception.at_or_before(moment) && moment.at_or_before(read.expiration)
}
