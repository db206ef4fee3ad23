//! Laws of what is written of a text of sightings. Each is the contract of a function that does nothing.
ghost use Rattle.dns_roll.specs.RollLaws.{ExactlyTrusted, WrittenOnce};

/// A law: the keys that are written are exactly those that are trusted after the sightings (RFC 5011, 2).
pub fn exactly_trusted()
    ensures { ExactlyTrusted }
{}

/// A law: no key is written twice, whatever flags it is named with.
pub fn written_once()
    ensures { WrittenOnce }
{}
