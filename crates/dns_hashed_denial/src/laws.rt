//! Laws of hashed denial (RFC 5155): what NSEC3 records prove of each zone in which they are true. Each is the contract of
//! a function that does nothing.
ghost use Rattle.std.specs.Prelude.{◌≡◌, ℕ, true, List};
ghost use Rattle.dns_model.specs.Names.{Labels};
ghost use Rattle.dns_model.specs.Records.{Question};
ghost use Rattle.dns_model.specs.Owned.{OwnedNsec3};
ghost use Rattle.dns_model.specs.declared.proof.Proof.TheVariants.{Secure};
ghost use Rattle.dns_model.specs.declared.answered.Answered.TheVariants.{No, Expanded};
ghost use Rattle.dns_rules.specs.Nsec3Covering.{is_opt_out, nsec3_spans};
ghost use Rattle.dns_rules.specs.Nsec3Verdict.{nsec3_verdict, shows_insecure_delegation};
ghost use Rattle.dns_rules.specs.Zones.{Zone, exists_in};
ghost use Rattle.dns_hashed_denial.specs.HashedZones.{Hashing, is_light, IsTrueNsec3};
ghost use Rattle.dns_hashed_denial.specs.HashedDenial.{IsDeniedByHashes, IsExpandedByHashes, IsInsecureByHashes};

/// A law: a true record covers the hash of no name that exists, but of light names where its flag Opt-Out is set
/// (RFC 5155, 6 and 7.1). This is so of any hash.
pub fn true_records_cover_light_names_alone()
    ensures { (hash : Hashing) (zone : Zone) (nsec3 : OwnedNsec3) (name : Labels) → IsTrueNsec3 hash zone nsec3
        → exists_in zone name ≡ true → nsec3_spans (hash name) nsec3 ≡ true
        → (is_opt_out nsec3 ≡ true) × (is_light zone name ≡ true) }
{}

/// A law: a Secure denial holds in each zone in which the records are true (RFC 5155, 8.4 to 8.7).
pub fn secure_denials_hold_in_each_zone()
    ensures { (query : Question) (apex : Labels) (code : ℕ) (nsec3s : List OwnedNsec3) (soft hard : ℕ)
        → nsec3_verdict query apex code No nsec3s soft hard ≡ Secure → IsDeniedByHashes query apex code nsec3s }
{}

/// A law: where an expansion is Secure, each zone in which the records are true has no name closer than the wildcard's parent,
/// but for light ones in an opt-out span (RFC 5155, 8.8).
pub fn secure_expansions_hold_in_each_zone()
    ensures { (query : Question) (apex : Labels) (code labels : ℕ) (nsec3s : List OwnedNsec3) (soft hard : ℕ)
        → nsec3_verdict query apex code (Expanded labels) nsec3s soft hard ≡ Secure
        → IsExpandedByHashes query labels nsec3s }
{}

/// A law: where records show that a child's delegation is insecure, it has no DS in each zone in which they are true, and
/// no delegation at or above it has one (RFC 5155, 8.9).
pub fn insecure_children_have_no_ds()
    ensures { (child : Labels) (nsec3s : List OwnedNsec3) → shows_insecure_delegation child nsec3s ≡ true
        → IsInsecureByHashes child nsec3s }
{}
