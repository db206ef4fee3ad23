//! The data of a record as bytes, with names spelled out (RFC 1035, 3.2.1).
ghost use Rattle.std.specs.Prelude.{◌≡◌, ◌≤◌, IfOk, length, nat_eq, refl};
ghost use Rattle.std.specs.Ordering.{nat_cmp, as_partial_cmp};
ghost use Rattle.std.specs.Cmp.{partial_equiv_from_equiv, partial_order_from_agreeing_total};
ghost use Rattle.std.specs.Cmp.Lexicographic.{pointwise, slice_cmp, nat_list_eq_equiv, nat_list_cmp_total, texts_ties};

use crate::{NoMemory, Octets};
use std::alloc::Global;
use std::cmp::Ordering;
use std::marker::Model;

/// The data of a record, names spelled out (RFC 1035, 3.2.1): at most 65,535 bytes.
#[derive(Debug)]
pub struct Rdata {
    bytes: Octets,
}

impl Model for Rdata {
    ghost use Rattle.std.specs.Prelude.{List, ℕ, length, ◌≤◌};

    ghost Value = { List ℕ };

    ghost view = { λ r. r.bytes };

    ghost invariant = { λ r. length r.bytes ≤ 65535 };
}

// By hand, so that a function that lets an rdata go calls this.
impl Drop for Rdata {
    fn drop(self) {
        let Rdata { bytes } = self;
        drop(bytes);
    }
}

impl Rdata {
    /// The most bytes that an rdata has.
    pub const MAX_LEN: usize = 65535;

    /// An rdata of these bytes, which takes no memory.
    pub fn from_octets(bytes: Octets) -> Rdata
        requires { length bytes ≤ 65535 }
        ensures { result ≡ bytes }
    {
        Rdata { bytes }
    }

    /// An rdata with a copy of these bytes.
    pub fn from_slice(alloc: Global, bytes: &[u8]) -> Result<Rdata, NoMemory>
        requires { length bytes.now ≤ 65535 }
        ensures { IfOk result (λ r. r ≡ bytes.now) }
    {
        let bytes = Octets::from_slice(alloc, bytes)?;
        Ok(Rdata { bytes })
    }

    /// The bytes, lent; at most 65,535.
    pub fn as_slice(&self) -> &[u8]
        ensures bytes { result.now ≡ self.now }
        ensures short { length result.now ≤ 65535 }
    {
        self.bytes.as_slice()
    }

    /// The bytes themselves.
    pub fn into_octets(self) -> Octets
        ensures bytes { result ≡ self }
        ensures short { length result ≤ 65535 }
    {
        let Rdata { bytes } = self;
        bytes
    }

    /// An equal value; long octets are shared.
    pub fn try_clone(&self) -> Result<Rdata, NoMemory>
        ensures { IfOk result (λ r. r ≡ self.now) }
    {
        let bytes = self.bytes.try_clone()?;
        Ok(Rdata { bytes })
    }
}

impl PartialEq for Rdata {
    ghost eq = { pointwise nat_eq };

    ghost laws = { partial_equiv_from_equiv nat_list_eq_equiv };

    fn eq(&self, other: &Rdata) -> bool {
        self.as_slice() == other.as_slice()
    }
}

impl Eq for Rdata {
    ghost laws = { nat_list_eq_equiv };
}

// The order of the bytes, in which records are signed (RFC 4034, 6.3).
impl PartialOrd for Rdata {
    ghost partial_cmp = { as_partial_cmp (slice_cmp nat_cmp) };

    ghost laws = { partial_order_from_agreeing_total (slice_cmp nat_cmp) nat_list_cmp_total (λ x y. refl) texts_ties };

    fn partial_cmp(&self, other: &Rdata) -> Option<Ordering> {
        Some(self.cmp(other))
    }
}

impl Ord for Rdata {
    ghost cmp = { slice_cmp nat_cmp };

    ghost total = { nat_list_cmp_total };

    ghost matches_partial_cmp = { λ x y. refl };

    ghost matches_eq = { texts_ties };

    fn cmp(&self, other: &Rdata) -> Ordering {
        self.as_slice().cmp(other.as_slice())
    }
}
