//! Laws of trust that follows a zone's keys. Each is the contract of a function that does nothing.
ghost use Rattle.std.specs.Prelude.{ℕ, List};
ghost use Rattle.dns_anchor_roll.specs.Laws.{GapEndsStretch, IsTrustOfStretches, RevokedForGood, TrustedBeforeAccept};

/// A law: a key that some sighting revokes is trusted after no longer list of sightings (RFC 5011, 2.1).
pub fn revoked_for_good()
    ensures { RevokedForGood }
{}

/// A law: no stretch goes over an accepted sighting that doesn't show its key; a hold-down begins anew after it (RFC 5011, 2.2).
pub fn gap_ends_a_stretch()
    ensures { GapEndsStretch }
{}

/// A law: a sighting is accepted only by a key in it that was trusted before it (RFC 5011, 2.2).
pub fn trusted_before_accept()
    ensures { TrustedBeforeAccept }
{}

/// A law: a key comes through its hold-down exactly where accepted sightings one after another show it, the one before the first of
/// them doesn't, and the last is seen 30 days after the first, or its original ttl if that is longer (RFC 5011, 2.4.1).
pub fn stretch_of_trust()
    ensures { IsTrustOfStretches }
{}
