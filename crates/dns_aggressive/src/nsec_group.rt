//! The live NSEC records of a zone, of which a verdict is made by searches.
ghost use Rattle.std.specs.Prelude.{◌≡◌};
ghost use Rattle.dns_aggressive.specs.Reaching.{nsecs_of, IsSearchable};

use crate::nsec_search::{covering, owned, owners_before};
use crate::zone_run::ZoneRun;
use dns_denial::{NsecFind, NsecRecords, wildcard_lacks};
use dns_rdata::NsecRecord;
use dns_record::{NameRef, RecordType};
use std::marker::Model;

/// The live NSEC records of a zone at a moment. Contracts see the list of them, in order of their owners.
#[derive(Drop)]
pub(crate) struct NsecGroup<'a> {
    run: ZoneRun<'a>,
    // The positions of the zone's records that reach.
    reaching: &'a [usize],
    moment: u64,
}

impl<'a> Model for NsecGroup<'a> {
    ghost use Rattle.std.specs.Prelude.{List};
    ghost use Rattle.dns_model.specs.Owned.{OwnedNsec};
    ghost use Rattle.dns_aggressive.specs.Reaching.{nsecs_of, IsSearchable};

    ghost Value = { List OwnedNsec };

    ghost view = { λ g. nsecs_of g.run g.moment };

    ghost invariant = { λ g. IsSearchable g.run g.reaching.now };
}

impl<'a> NsecGroup<'a> {
    /// Those of a run, with the positions of the zone's records that reach.
    pub(crate) fn new(run: ZoneRun<'a>, reaching: &'a [usize], moment: u64) -> NsecGroup<'a>
        requires { IsSearchable run reaching.now }
        ensures { result ≡ nsecs_of run.entry moment }
    {
        NsecGroup {
            run,
            reaching,
            moment,
        }
    }
}

impl<'a> NsecRecords for NsecGroup<'a> {
    type Notes = ();

    ghost records = { λ g. g };

    fn of_name(&self, name: &NameRef<'_>, _notes: &mut ()) -> NsecFind<'_> {
        let number = owners_before(&self.run, self.reaching, name);
        if let Some(nsec) = owned(&self.run, self.reaching, number, name, self.moment) {
            return NsecFind::Owned(nsec);
        }
        match covering(&self.run, self.reaching, number, name, self.moment) {
            Some(nsec) => NsecFind::Covered(nsec),
            None => NsecFind::Nothing,
        }
    }

    fn covering(&self, name: &NameRef<'_>, _notes: &mut ()) -> Option<&NsecRecord> {
        let number = owners_before(&self.run, self.reaching, name);
        covering(&self.run, self.reaching, number, name, self.moment)
    }

    fn wildcard_denies(
        &self,
        wildcard: &NameRef<'_>,
        record_type: RecordType,
        _notes: &mut (),
    ) -> bool {
        let number = owners_before(&self.run, self.reaching, wildcard);
        match owned(&self.run, self.reaching, number, wildcard, self.moment) {
            Some(nsec) => wildcard_lacks(&nsec.type_set(), record_type),
            None => false,
        }
    }
}
