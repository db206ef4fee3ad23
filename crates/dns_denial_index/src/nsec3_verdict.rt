//! What an index of NSEC3 records proves of a query (RFC 5155, 8).
ghost use Rattle.std.specs.Prelude.{◌≡◌, ℕ, ◌+◌, ◌-◌, ◌*◌, ◌≤◌, ◌^◌, length};
ghost use Rattle.dns_model.specs.declared.answered.Answered.TheVariants.{No, Expanded};
ghost use Rattle.dns_model.specs.declared.proof.Proof.TheVariants.{Secure};
ghost use Rattle.dns_hashed_denial.specs.HashedDenial.{IsDeniedByHashes, IsExpandedByHashes};
ghost use Rattle.dns_rules.specs.Nsec3Verdict.{nsec3_verdict as nsec3_verdict_in};

use crate::Nsec3Index;
use dns_denial::{Nsec3Parameters, Nsec3Records, nsec3_verdict};
use dns_evidence::Steps;
use dns_model::{Answered, Proof};
use dns_rdata::Nsec3Record;
use dns_record::{Name, NameRef, Query, RecordType, ResponseCode};
use std::marker::{Model, PhantomData};
use std::sync::ledger::Ledger;

// An index of which a verdict is made, with the ledger in which its steps are counted. Contracts see the list of its records.
#[derive(Drop)]
struct Asked<'a, L: Ledger> {
    index: &'a Nsec3Index,
    // The index's records, of which all are looked at for their zone and their parameters.
    nsec3s: &'a [Nsec3Record],
    ledger: PhantomData<L>,
}

impl<'a, L: Ledger> Model for Asked<'a, L> {
    ghost use Rattle.std.specs.Prelude.{◌≡◌, List};
    ghost use Rattle.dns_model.specs.Owned.{OwnedNsec3};

    ghost Value = { List OwnedNsec3 };

    ghost view = { λ a. a.index.now };

    ghost invariant = { λ a. a.nsec3s.now ≡ a.index.now };
}

impl<'a, L: Ledger> Nsec3Records for Asked<'a, L> {
    ghost use Rattle.std.specs.Prelude.{length};
    ghost use Rattle.dns_denial_index.specs.Steps.{most_steps as most_steps_of};

    type Notes = Steps<L>;

    ghost records = { λ a. a };

    ghost steps = { λ s. s };

    ghost most_steps = { λ a. most_steps_of (length a) };

    fn are_of_zone(&self, zone: &NameRef<'_>) -> bool {
        self.nsec3s.are_of_zone(zone)
    }

    fn parameters(&self) -> Option<Nsec3Parameters<'_>> {
        self.nsec3s.parameters()
    }

    fn matching(&self, hash: &[u8; 20], steps: &mut Steps<L>) -> Option<&Nsec3Record> {
        let found = self.index.found(hash, steps);
        self.index.numbered(found.matching)
    }

    fn covering(&self, hash: &[u8; 20], steps: &mut Steps<L>) -> Option<&Nsec3Record> {
        let found = self.index.found(hash, steps);
        self.index.numbered(found.covering)
    }

    fn wildcard_denies(
        &self,
        wildcard: &[u8; 20],
        record_type: RecordType,
        steps: &mut Steps<L>,
    ) -> bool {
        self.index.wildcard_denies(wildcard, record_type, steps)
    }
}

impl Nsec3Index {
    /// What the records prove of a response to a query, as `verify_nsec3` says it of their list. It takes no memory. There are at
    /// most three searches more than the query's name has labels, so at most 130, each within the steps of `covering`. For their
    /// zone and their parameters the records are gone over once.
    pub fn verify<L: Ledger>(
        &self,
        query: &Query,
        zone: &Name,
        code: ResponseCode,
        answered: Answered,
        soft: u16,
        hard: u16,
        steps: &mut Steps<L>,
    ) -> Proof
        ensures verdict { result ≡ nsec3_verdict_in query.now zone.now code.0 answered self.now soft hard }
        ensures denial { result ≡ Secure → answered ≡ No → IsDeniedByHashes query.now zone.now code.0 self.now }
        ensures expansion { (labels : ℕ) → result ≡ Secure → answered ≡ Expanded labels
            → IsExpandedByHashes query.now labels self.now }
        ensures steps { 2 ^ (steps.new - steps.old) ≤ (4 * length self.now + 1) ^ (length query.now.owner + 3) }
    {
        let asked = Asked::<L> {
            index: self,
            nsec3s: self.records(),
            ledger: PhantomData,
        };
        nsec3_verdict(query, zone, code, answered, &asked, soft, hard, steps)
    }
}
