//! Whether a record is live, and for how long it belongs to a group (RFC 8198, 5.4).
ghost use Rattle.std.specs.Prelude.{◌≡◌, ◌-◌, ◌&&◌, option_copied};
ghost use Rattle.dns_model.specs.Names.{name_eq};
ghost use Rattle.dns_aggressive.specs.Denials.{is_live_in as is_live_in_zone, is_of_way as is_of_way_in};
ghost use Rattle.dns_aggressive.specs.Expiring.{left_if};
ghost use Rattle.dns_aggressive.specs.Records.{way_of};

use crate::kept::{Kept, KeptRecord};
use dns_denial::Nsec3Parameters;
use dns_record::{Name, NameRef};

// Whether a record is an NSEC record, or is hashed in this way.
fn is_of_way(item: &KeptRecord, way: Option<&Nsec3Parameters<'_>>) -> bool
    ensures { result ≡ is_of_way_in (option_copied way.entry) (way_of item.now) }
{
    match (way, item.nsec3()) {
        (None, None) => true,
        (Some(way), Some(nsec3)) => way.are_of(nsec3),
        _ => false,
    }
}

/// Whether a record is a zone's and still used at a moment.
pub(crate) fn is_live_in(one: &Kept, zone: &NameRef<'_>, now: u64) -> bool
    ensures { result ≡ is_live_in_zone now zone.now one.now }
{
    one.is_live(now) && one.zone.borrowed().eq_name(zone)
}

/// The seconds that a record has left; of one that isn't of the group the greatest number.
pub(crate) fn left_of(one: &Kept, zone: &Name, way: Option<&Nsec3Parameters<'_>>, now: u64) -> u32
    ensures { result ≡ left_if (name_eq one.now.zone zone.now && is_of_way_in (option_copied way.entry) (way_of one.now.item))
        (one.now.expires - now) }
{
    if one.zone != *zone || !is_of_way(&one.item, way) {
        return u32::MAX;
    }
    u32::try_from(one.expires.saturating_sub(now)).unwrap_or(u32::MAX)
}
