//! How the names of a zone are hashed (RFC 5155, 3.1 and 8.2).
ghost use Rattle.std.specs.Prelude.{◌≡◌};
ghost use Rattle.std.specs.List.{find};
ghost use Rattle.std.specs.Option.{option_copied};
ghost use Rattle.dns_rules.specs.Nsec3Covering.{is_considered as is_considered_in};
ghost use Rattle.dns_rules.specs.Nsec3Verdict.{has_parameters, hashed, is_shared as is_shared_in, parameters_in, parameters_of as parameters_of_in};

use crate::nsec3_fields::is_considered;
use dns_rdata::{Nsec3Record, nsec3_hash_of};
use dns_record::NameRef;
use std::marker::Model;

/// How the names of a zone are hashed by SHA-1, the one hash algorithm that is known (RFC 5155, 3.1 and 11).
#[derive(Drop)]
pub struct Nsec3Parameters<'a> {
    /// What is hashed behind the name, and behind the hash of each round.
    pub salt: &'a [u8],
    /// How many more rounds there are after the first.
    pub iterations: u16,
}

impl<'a> Model for Nsec3Parameters<'a> {
    ghost use Rattle.dns_rules.specs.Nsec3Verdict.{Parameters};

    ghost Value = { Parameters };

    ghost view = { λ p. record { salt = p.salt.now; iterations = p.iterations } };
}

impl<'a> Nsec3Parameters<'a> {
    /// Those of a record.
    pub fn of(nsec3: &'a Nsec3Record) -> Nsec3Parameters<'a>
        ensures { result ≡ parameters_in nsec3.now }
    {
        Nsec3Parameters {
            salt: nsec3.salt.as_slice(),
            iterations: nsec3.iterations,
        }
    }

    /// Whether the record has these.
    pub fn are_of(&self, nsec3: &Nsec3Record) -> bool
        ensures { result ≡ has_parameters self.now nsec3.now }
    {
        *nsec3.salt.as_slice() == *self.salt && nsec3.iterations == self.iterations
    }

    // Whether each record that isn't ignored has these.
    fn are_shared(&self, nsec3s: &[Nsec3Record]) -> bool
        ensures { result ≡ is_shared_in nsec3s.now self.now }
    {
        for nsec3 in nsec3s {
            if is_considered(nsec3) && !self.are_of(nsec3) {
                return false;
            }
        }
        true
    }

    /// The hash of a name in the zone.
    pub fn hash(&self, name: &NameRef<'_>) -> [u8; 20]
        ensures { result ≡ hashed self.now name.now }
    {
        nsec3_hash_of(self.salt, name, self.iterations)
    }
}

// The parameters of all records that aren't ignored; `None` where there is no such record, or they differ.
pub(crate) fn parameters_of<'a>(nsec3s: &'a [Nsec3Record]) -> Option<Nsec3Parameters<'a>>
    ensures { result ≡ parameters_of_in nsec3s.now }
{
    let first = first_considered(nsec3s)?;
    let by = Nsec3Parameters::of(first);
    if by.are_shared(nsec3s) {
        Some(by)
    } else {
        None
    }
}

// The first record that isn't ignored.
fn first_considered<'a>(nsec3s: &'a [Nsec3Record]) -> Option<&'a Nsec3Record>
    ensures { option_copied result ≡ find is_considered_in nsec3s.now }
{
    for nsec3 in nsec3s {
        if is_considered(nsec3) {
            return Some(nsec3);
        }
    }
    None
}
