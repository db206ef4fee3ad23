//! The sightings that messages show.
ghost use Rattle.std.specs.Prelude.{◌≡◌, IfOk};
ghost use Rattle.dns_roll.specs.TrustedText.{sighting_in as sighting_in_sight, sightings_in};

use crate::roll_text::Sight;
use dns_anchor_roll::Sighting;
use dns_message::{DecodeKind, Message};
use dns_record::{Name, NoMemory};
use std::alloc::Global;

// What a message shows of the keys of a zone. Bytes that are no message show nothing.
fn sighting_in(alloc: Global, zone: &Name, sight: &Sight) -> Result<Option<Sighting>, NoMemory>
    ensures { IfOk result (λ s. s ≡ sighting_in_sight zone.now sight.now) }
{
    match Message::from_octets(sight.bytes.try_clone()?) {
        Ok(message) => Sighting::of(alloc, &message, zone, sight.moment),
        Err(error) => {
            if error.kind == DecodeKind::NoMemory {
                return Err(NoMemory);
            }
            Ok(None)
        }
    }
}

/// The sightings of a zone's keys, in the order of time.
pub(crate) fn sightings_of(
    alloc: Global,
    zone: &Name,
    sights: &[Sight],
) -> Result<Vec<Sighting>, NoMemory>
    ensures { IfOk result (λ v. v.items ≡ sightings_in zone.now sights.now) }
{
    let mut all = Vec::new(alloc);
    for sight in sights {
        if let Some(sighting) = sighting_in(alloc, zone, sight)? {
            all.push(sighting)?;
        }
    }
    Ok(all)
}
