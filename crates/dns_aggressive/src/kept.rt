//! Records that are kept for later denials (RFC 8198, 5.1, 5.2 and 5.4).
ghost use Rattle.std.specs.Prelude.{◌≡◌, is_some};
ghost use Rattle.std.specs.Option.{option_copied};
ghost use Rattle.dns_aggressive.specs.Records.{is_live as is_live_at, nsec_of, nsec3_of};

use dns_rdata::{Nsec3Record, NsecRecord};
use dns_record::Name;
use std::marker::Model;

/// A record by which names and types are denied.
pub enum KeptRecord {
    /// An NSEC record (RFC 4034, 4).
    Nsec(NsecRecord),
    /// An NSEC3 record without flags, by SHA-1 (RFC 5155, 3).
    Nsec3(Nsec3Record),
}

// By hand, so that a function that lets one go calls this.
impl Drop for KeptRecord {
    fn drop(self) {
        match self {
            KeptRecord::Nsec(_) => {}
            KeptRecord::Nsec3(_) => {}
        }
    }
}

impl KeptRecord {
    /// The record as an NSEC record; `None` where it is none.
    pub fn nsec(&self) -> Option<&NsecRecord>
        ensures { option_copied result ≡ nsec_of self.now }
    {
        match self {
            KeptRecord::Nsec(nsec) => Some(nsec),
            KeptRecord::Nsec3(_) => None,
        }
    }

    /// The record as an NSEC3 record; `None` where it is none.
    pub fn nsec3(&self) -> Option<&Nsec3Record>
        ensures { option_copied result ≡ nsec3_of self.now }
    {
        match self {
            KeptRecord::Nsec(_) => None,
            KeptRecord::Nsec3(nsec3) => Some(nsec3),
        }
    }
}

/// A record that is kept.
pub struct Kept {
    /// The zone that signed it.
    pub zone: Name,
    /// What it says.
    pub item: KeptRecord,
    /// The moment from which it isn't used, in seconds since 1970.
    pub expires: u64,
}

impl Model for Kept {
    ghost use Rattle.dns_aggressive.specs.Records.{KeptValue};

    ghost Value = { KeptValue };

    ghost view = { λ k. record { zone = k.zone; item = k.item; expires = k.expires } };
}

// By hand, so that a function that lets one go calls this.
impl Drop for Kept {
    fn drop(self) {
        let Kept {
            zone: _,
            item: _,
            expires: _,
        } = self;
    }
}

impl Kept {
    /// Whether the record is still used at a moment, in seconds since 1970.
    pub fn is_live(&self, now: u64) -> bool
        ensures { result ≡ is_live_at now self.now }
    {
        now < self.expires
    }

    /// Whether it is an NSEC3 record.
    pub(crate) fn is_nsec3(&self) -> bool
        ensures { result ≡ is_some (nsec3_of self.now.item) }
    {
        self.item.nsec3().is_some()
    }
}
