//! What an index of NSEC records proves of a query (RFC 4035, 5.3.4 and 5.4).
ghost use Rattle.std.specs.Prelude.{◌≡◌, ℕ, ◌+◌, ◌-◌, ◌*◌, ◌≤◌, ◌^◌, length};
ghost use Rattle.dns_model.specs.declared.answered.Answered.TheVariants.{No, Expanded};
ghost use Rattle.dns_model.specs.declared.proof.Proof.TheVariants.{Secure};
ghost use Rattle.dns_rules.specs.DenialInZones.{IsDeniedIn, IsExpandedIn};
ghost use Rattle.dns_rules.specs.NsecVerdict.{nsec_verdict as nsec_verdict_in};

use crate::NsecIndex;
use dns_denial::{NsecFind, NsecRecords, nsec_verdict};
use dns_evidence::Steps;
use dns_model::{Answered, Proof};
use dns_rdata::NsecRecord;
use dns_record::{Name, NameRef, Query, RecordType, ResponseCode};
use std::marker::PhantomData;
use std::sync::ledger::Ledger;

// An index of which a verdict is made, with the ledger in which its steps are counted.
#[derive(Drop)]
struct Asked<'a, L: Ledger> {
    index: &'a NsecIndex,
    ledger: PhantomData<L>,
}

impl<'a, L: Ledger> NsecRecords for Asked<'a, L> {
    ghost use Rattle.std.specs.Prelude.{length};
    ghost use Rattle.dns_denial_index.specs.Steps.{most_steps as most_steps_of};

    type Notes = Steps<L>;

    ghost records = { λ a. a.index.now };

    ghost steps = { λ s. s };

    ghost most_steps = { λ a. most_steps_of (length a.index.now) };

    fn of_name(&self, name: &NameRef<'_>, steps: &mut Steps<L>) -> NsecFind<'_> {
        let found = self.index.found(name, steps);
        if let Some(nsec) = self.index.numbered(found.owned) {
            return NsecFind::Owned(nsec);
        }
        match self.index.numbered(found.covering) {
            Some(nsec) => NsecFind::Covered(nsec),
            None => NsecFind::Nothing,
        }
    }

    fn covering(&self, name: &NameRef<'_>, steps: &mut Steps<L>) -> Option<&NsecRecord> {
        let found = self.index.found(name, steps);
        self.index.numbered(found.covering)
    }

    fn wildcard_denies(
        &self,
        wildcard: &NameRef<'_>,
        record_type: RecordType,
        steps: &mut Steps<L>,
    ) -> bool {
        self.index.wildcard_denies(wildcard, record_type, steps)
    }
}

impl NsecIndex {
    /// What the records prove of a response to a query, as `verify_nsec` says it of their list. It takes no memory. There are at
    /// most two searches, each within the steps of `covering`.
    pub fn verify<L: Ledger>(
        &self,
        query: &Query,
        zone: &Name,
        code: ResponseCode,
        answered: Answered,
        steps: &mut Steps<L>,
    ) -> Proof
        ensures verdict { result ≡ nsec_verdict_in query.now zone.now code.0 answered self.now }
        ensures denial { result ≡ Secure → answered ≡ No → IsDeniedIn query.now zone.now code.0 self.now }
        ensures expansion { (labels : ℕ) → result ≡ Secure → answered ≡ Expanded labels
            → IsExpandedIn query.now zone.now labels self.now }
        ensures steps { 2 ^ (steps.new - steps.old) ≤ (4 * length self.now + 1) ^ 2 }
    {
        let asked = Asked::<L> {
            index: self,
            ledger: PhantomData,
        };
        nsec_verdict(query, zone, code, answered, &asked, steps)
    }
}
