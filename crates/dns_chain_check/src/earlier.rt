//! The links before one, and what these show.

ghost use Rattle.std.specs.Prelude.{◌≡◌, slice_get, map};
ghost use Rattle.dns_model.specs.Chains.{all_shown as all_shown_in, shows_ds as shows_ds_in, shows_key as shows_key_in, shows_member as shows_member_in};
ghost use Rattle.dns_evidence.specs.Link.{link_value};

use crate::indexed::IndexedLink;
use dns_evidence::{Link, all_shown, shows_key};
use dns_record::{DNSClass, NameRef, Rdata};
use std::marker::Model;

/// The links before one, each with its index.
#[derive(Drop)]
pub(crate) struct Earlier<'e, 'a> {
    links: &'e [Link],
    indexed: &'e [IndexedLink<'a>],
}

impl<'e, 'a> Model for Earlier<'e, 'a> {
    ghost use Rattle.std.specs.Prelude.{◌≡◌, List, map};
    ghost use Rattle.dns_model.specs.Chains.{LinkValue};
    ghost use Rattle.dns_evidence.specs.Link.{link_value};

    ghost Value = { List LinkValue };

    ghost view = { λ e. map link_value e.links.now };

    ghost invariant = { λ e. e.indexed.now ≡ map link_value e.links.now };
}

impl<'e, 'a> Earlier<'e, 'a> {
    /// These links, of which the others are the indexes.
    pub(crate) fn of(links: &'e [Link], indexed: &'e [IndexedLink<'a>]) -> Earlier<'e, 'a>
        requires { indexed.now ≡ map link_value links.now }
        ensures { result ≡ map link_value links.now }
    {
        Earlier { links, indexed }
    }

    /// The link with this number shows that the owner's zone trusts this key.
    pub(crate) fn shows_key(
        &self,
        number: u32,
        owner: &NameRef,
        class: DNSClass,
        key: &[u8],
    ) -> bool
        ensures { result ≡ shows_key_in owner.now class.0 key.now (slice_get self.now number) }
    {
        shows_key(self.links, number, owner, class, key)
    }

    /// The link with this number shows a DS of the owner.
    pub(crate) fn shows_ds(&self, number: u32, owner: &NameRef, class: DNSClass, ds: &[u8]) -> bool
        ensures { result ≡ shows_ds_in owner.now class.0 ds.now (slice_get self.now number) }
    {
        match self.indexed.get(number as usize) {
            Some(link) => link.shows_ds(owner, class, ds),
            None => false,
        }
    }

    /// The link with this number shows a key set of the owner with this key in it.
    pub(crate) fn shows_member(
        &self,
        number: u32,
        owner: &NameRef,
        class: DNSClass,
        key: &[u8],
    ) -> bool
        ensures { result ≡ shows_member_in owner.now class.0 key.now (slice_get self.now number) }
    {
        match self.indexed.get(number as usize) {
            Some(link) => link.shows_member(owner, class, key),
            None => false,
        }
    }

    /// Each key is shown by the link whose number stands at its place, and there are as many numbers as keys.
    pub(crate) fn shows_all(
        &self,
        owner: &NameRef,
        class: DNSClass,
        keys: &[Rdata],
        numbers: &[u32],
    ) -> bool
        ensures { result ≡ all_shown_in self.now owner.now class.0 keys.now numbers.now }
    {
        all_shown(self.links, owner, class, keys, numbers)
    }
}
