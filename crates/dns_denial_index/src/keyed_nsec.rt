//! NSEC records with the keys of their owners and of their ends (RFC 4034, 4.1.1 and 6.1).
ghost use Rattle.std.specs.Prelude.{◌≡◌, IfOk};
ghost use Rattle.dns_denial_index.specs.NameKeys.{name_key as name_key_of, end_key as end_key_of};

use crate::name_keys::name_key;
use dns_rdata::NsecRecord;
use dns_record::{NoMemory, Octets};
use std::alloc::Global;
use std::marker::Model;

/// The last byte of the key behind all names at or below a name.
const BEHIND: u8 = 255;

/// A record with the keys of its owner and of its end. Contracts see the record.
pub(crate) struct KeyedNsec<'a> {
    nsec: &'a NsecRecord,
    owner: Octets,
    end: Octets,
}

impl<'a> Model for KeyedNsec<'a> {
    ghost use Rattle.std.specs.Prelude.{◌≡◌};
    ghost use Rattle.dns_model.specs.Owned.{OwnedNsec};
    ghost use Rattle.dns_denial_index.specs.NameKeys.{name_key, end_key};

    ghost Value = { OwnedNsec };

    ghost view = { λ k. k.nsec.now };

    ghost invariant = { λ k. (k.owner ≡ name_key k.nsec.now.owner) × (k.end ≡ end_key k.nsec.now) };
}

// By hand, so that a function that lets one go calls this.
impl<'a> Drop for KeyedNsec<'a> {
    fn drop(self) {
        let KeyedNsec {
            nsec: _,
            owner,
            end,
        } = self;
        drop(owner);
        drop(end);
    }
}

impl<'a> KeyedNsec<'a> {
    /// A record with its keys. Those of names that another record has too, such as the one before it in a response, are shared
    /// with that one.
    pub(crate) fn new(
        alloc: Global,
        nsec: &'a NsecRecord,
        other: &Option<KeyedNsec<'a>>,
    ) -> Result<KeyedNsec<'a>, NoMemory>
        ensures { IfOk result (λ keyed. keyed ≡ nsec.now) }
    {
        if let Some(keyed) = other {
            let known = keyed.nsec;
            if known.owner.eq_case(&nsec.owner) {
                return keyed.beside(alloc, nsec);
            }
        }
        let owner = Octets::from_slice(alloc, name_key(&nsec.owner.borrowed()).as_slice())?;
        let end = end_key(alloc, nsec, owner.as_slice())?;
        Ok(KeyedNsec { nsec, owner, end })
    }

    // Another record of the same owner, with its keys.
    #[tactic(auto, using(crate::proofs::NameKeys::same_end))]
    fn beside(&self, alloc: Global, nsec: &'a NsecRecord) -> Result<KeyedNsec<'a>, NoMemory>
        requires { nsec.now.owner ≡ self.now.owner }
        ensures { IfOk result (λ keyed. keyed ≡ nsec.now) }
    {
        let known = self.nsec;
        let owner = self.owner.try_clone()?;
        let end = if known.next.eq_case(&nsec.next) {
            self.end.try_clone()?
        } else {
            end_key(alloc, nsec, owner.as_slice())?
        };
        Ok(KeyedNsec { nsec, owner, end })
    }

    /// The key of the owner.
    pub(crate) fn owner(&self) -> &Octets
        ensures { result.now ≡ name_key_of self.now.owner }
    {
        &self.owner
    }

    /// The key of the end.
    pub(crate) fn end(&self) -> &Octets
        ensures { result.now ≡ end_key_of self.now }
    {
        &self.end
    }
}

// The key at which the names between a record's owner and its next one end, by the key of the owner. Where the record leads
// back, it is the one right behind all names at or below the next one.
fn end_key(alloc: Global, nsec: &NsecRecord, owner: &[u8]) -> Result<Octets, NoMemory>
    requires { owner.now ≡ name_key_of nsec.now.owner }
    ensures { IfOk result (λ key. key ≡ end_key_of nsec.now) }
{
    let mut key = name_key(&nsec.next.borrowed());
    if key.as_slice().cmp(owner).is_le() {
        key.push(BEHIND);
    }
    Octets::from_slice(alloc, key.as_slice())
}
