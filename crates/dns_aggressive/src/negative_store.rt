//! A store of NSEC and NSEC3 records from which denials are made (RFC 8198).
ghost use Rattle.std.specs.Prelude.{◌≡◌, ◌++◌, ◌<◌, ◌≤◌, ◌^◌, ◌-◌, min, length, [], None, Some, IfOk, IfSome, OnOk, OnErr};
ghost use Rattle.dns_aggressive.specs.Denials.{decision, made};
ghost use Rattle.dns_aggressive.specs.Lists.{AreAmong, kept_after};
ghost use Rattle.dns_aggressive.specs.Promises.{IsDenial};
ghost use Rattle.dns_aggressive.specs.Taking.{taken as taken_in};

use crate::kept::Kept;
use crate::kept_list::KeptList;
use crate::synthesizing::{Synthesized, made_in};
use crate::taking::taken;
use crate::zone_search::{may_deny, zone_of};
use dns_handle::DnsResponse;
use dns_record::{NoMemory, Query};
use std::alloc::Global;
use std::marker::Model;

/// Secure NSEC and NSEC3 records of earlier responses, from which later queries are denied (RFC 8198, 5.1 and 5.2). Of records with
/// one zone, owner and type, and of NSEC3 records with one salt and iterations too, the newest is kept.
///
/// Contracts see the records in their order, how many are kept at the most, and how many groups of NSEC3 records are tried.
pub struct NegativeStore {
    alloc: Global,
    limit: u32,
    most: Option<u32>,
    kept: KeptList,
}

impl Model for NegativeStore {
    ghost use Rattle.dns_aggressive.specs.Records.{StoreValue};
    ghost use Rattle.dns_aggressive.specs.Flags.{IsStored};

    ghost Value = { StoreValue };

    ghost view = { λ s. record { limit = s.limit; most = s.most; kept = s.kept } };

    ghost invariant = { λ s. IsStored s.kept };
}

// By hand, so that a function that lets one go calls this.
impl Drop for NegativeStore {
    fn drop(self) {
        let NegativeStore {
            alloc: _,
            limit: _,
            most: _,
            kept: _,
        } = self;
    }
}

impl NegativeStore {
    /// A store without records, which keeps so many at the most.
    pub fn new(alloc: Global, limit: u32) -> NegativeStore
        requires { 1 ≤ limit }
        ensures { result ≡ record { limit = limit; most = None; kept = [] } }
    {
        NegativeStore {
            alloc,
            limit,
            most: None,
            kept: KeptList::new(alloc),
        }
    }

    /// Bounds how many groups of NSEC3 records, by salt and iterations, are tried for a query. There is no bound unless one is set.
    /// A zone that signs records with thousands of salts could otherwise make each query for it cost as many searches.
    pub fn most_groups(&mut self, most: u32)
        ensures { self.new ≡ record self.old { most = Some most } }
    {
        self.most = Some(most);
    }

    /// Keeps the Secure NSEC and NSEC3 records of class IN that stand in the authority section of a response and whose set has a
    /// chain in it, at a moment in seconds since 1970. NSEC3 records with flags are left out (RFC 8198, 5.3). A new record stands
    /// last and takes the place of an older one; then the first ones go, down to the limit.
    ///
    /// The answer is how many records were taken; it stops at the greatest `u32`. After an error all is as before.
    pub fn learn(&mut self, response: &DnsResponse, now: u64) -> Result<u32, NoMemory>
        ensures kept { OnOk result (self.new ≡ record self.old {
          kept
              = kept_after self.old.limit self.old.kept (taken_in response.now now);
        }) }
        ensures number { IfOk result (λ n. n ≡ min (length (taken_in response.now now)) (2 ^ 32 - 1)) }
        ensures from { OnOk result (AreAmong self.new.kept (self.old.kept ++ taken_in response.now now)) }
        ensures err { OnErr result (self.new ≡ self.old) }
    {
        let taken = taken(self.alloc, response, now)?;
        let number = u32::try_from(taken.len()).unwrap_or(u32::MAX);
        self.kept.learn(taken, self.limit as usize)?;
        Ok(number)
    }

    /// Denies a query at a moment in seconds since 1970, by the live records of the longest zone that may hold it: `None` where they
    /// don't deny it. A record is live before it expires.
    ///
    /// Each group of records is asked by itself, as a response with them in it would be judged: NSEC first, then NSEC3 by salt and
    /// iterations. The first that shows that the name doesn't exist, or that it has no data of the type, decides.
    pub fn synthesize(&self, query: &Query, now: u64) -> Result<Option<Synthesized>, NoMemory>
        ensures made { IfOk result (λ denial. denial ≡ made self.now query.now now) }
        ensures denial { IfSome (decision self.now query.now now) (IsDenial self.now query.now now) }
    {
        if !may_deny(query) {
            return Ok(None);
        }
        let Some(zone) = zone_of(&self.kept, query, now) else {
            return Ok(None);
        };
        let zone = zone.to_name(self.alloc)?;
        made_in(self.alloc, &self.kept, self.most, zone, query, now)
    }

    /// The records, the one that was kept first first, also those that are no longer live.
    pub fn kept(&self) -> &[Kept]
        ensures { result.now ≡ self.now.kept }
    {
        self.kept.as_slice()
    }
}
