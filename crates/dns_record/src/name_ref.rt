//! Names that are lent: what is asked of a name, over the bytes of its wire form (RFC 1035, 3.1).
ghost use Rattle.std.specs.Prelude.{◌≡◌, ◌≤◌, ◌++◌, ◌∷◌, ◌↔◌, true, [], IfOk, OnOk, OnErr, IsTrue, MatchOption, length, drop, option_map};
ghost use Rattle.std.specs.List.{list_all};
ghost use Rattle.dns_model.specs.Bytes.{is_bytes};
ghost use Rattle.dns_model.specs.Names.{name_eq, name_cmp, at_or_above, strictly_above, folded, is_name, is_wildcard, last_labels, num_labels, parent, wire};
ghost use Rattle.dns_model.specs.NameForm.{name_in, labels_of, IsWire};

use crate::reading::{known_bytes, label_at, name_end, push_lowered};
use crate::{Name, NoMemory, Octets};
use std::alloc::Global;
use std::marker::Model;

/// A domain name read where it stands, as in an rdata or in a `Name`. Contracts see it as its labels, the leaf first.
/// None of its calls takes memory but `to_name`, `folded` and `push_folded`.
#[derive(Drop)]
pub struct NameRef<'a> {
    wire: &'a [u8],
}

impl<'a> Model for NameRef<'a> {
    ghost use Rattle.dns_model.specs.Names.{Labels};
    ghost use Rattle.dns_model.specs.NameForm.{labels_of, IsWire};

    ghost Value = { Labels };

    ghost view = { λ n. labels_of n.wire.now };

    ghost invariant = { λ n. IsWire n.wire.now };
}

impl<'a> NameRef<'a> {
    /// The name in wire form at the front of bytes, and the bytes after it (RFC 1035, 3.1). `None` where none stands
    /// there: the bytes end too early, a length byte is above 63, as a pointer's is, or there are more than 255 bytes.
    pub fn front(bytes: &'a [u8]) -> Option<(NameRef<'a>, &'a [u8])>
        ensures { option_map (λ p. (p.0, p.1.now)) result ≡ name_in bytes.now }
    {
        let end = name_end(bytes)?;
        let (wire, rest) = bytes.split_at(end);
        Some((NameRef { wire }, rest))
    }

    // The name whose wire form these bytes are.
    pub(crate) fn of_wire(wire: &'a [u8]) -> NameRef<'a>
        requires { IsWire wire.now }
        ensures { result ≡ labels_of wire.now }
    {
        NameRef { wire }
    }

    /// The wire form, with the closing zero byte: at most 255 bytes.
    pub fn wire(&self) -> &'a [u8]
        ensures value { result.now ≡ wire self.now }
        ensures name { is_name self.now ≡ true }
    {
        self.wire
    }

    /// The same name over the same bytes.
    pub fn copy(&self) -> NameRef<'a>
        ensures value { result ≡ self.now }
        ensures name { is_name self.now ≡ true }
        ensures bytes { list_all is_bytes self.now ≡ true }
    {
        let wire = known_bytes(self.wire);
        NameRef { wire }
    }

    /// An equal name in memory of its own.
    pub fn to_name(&self, alloc: Global) -> Result<Name, NoMemory>
        ensures { IfOk result (λ n. n ≡ self.now) }
    {
        Name::of_ref(alloc, self)
    }

    /// The wire form with A to Z as a to z (RFC 4034, 6.2).
    pub fn folded(&self, alloc: Global) -> Result<Octets, NoMemory>
        ensures { IfOk result (λ o. o ≡ wire (folded self.now)) }
    {
        Octets::lowered(alloc, self.wire)
    }

    /// Appends the wire form with A to Z as a to z (RFC 4034, 6.2). Where memory runs out, `into` stays as it was.
    pub fn push_folded(&self, into: &mut Vec<u8>) -> Result<(), NoMemory>
        ensures ok { OnOk result (into.new.items ≡ into.old.items ++ wire (folded self.now)) }
        ensures err { OnErr result (into.new.items ≡ into.old.items) }
    {
        push_lowered(into, self.wire)
    }

    /// The first label and the name above it; `None` of the root.
    pub fn split_first(&self) -> Option<(&'a [u8], NameRef<'a>)>
        ensures { MatchOption result (self.now ≡ []) (λ p. self.now ≡ p.0.now ∷ p.1) }
    {
        let (label, wire) = label_at(self.wire)?;
        if label.len() == 0 {
            return None;
        }
        Some((label, NameRef { wire }))
    }

    /// The name without its first label; the root's is the root.
    pub fn parent(&self) -> NameRef<'a>
        ensures { result ≡ parent self.now }
    {
        match self.split_first() {
            Some((_, above)) => above,
            None => self.copy(),
        }
    }

    /// The name without its first labels, this many; the root, if it has no more.
    pub fn skip_labels(&self, labels: u8) -> NameRef<'a>
        ensures { result ≡ drop labels self.now }
    {
        let mut rest = self.copy();
        for _skipped in 0..labels {
            rest = rest.parent();
        }
        rest
    }

    /// The name that the last labels make, this many, or all.
    pub fn last_labels(&self, labels: u8) -> NameRef<'a>
        ensures { result ≡ last_labels labels self.now }
    {
        let count = self.label_count();
        self.skip_labels(count.saturating_sub(labels))
    }

    /// How many labels there are; the root has none.
    pub fn label_count(&self) -> u8
        ensures value { result ≡ length self.now }
        ensures limit { result ≤ 127 }
    {
        let mut rest = self.copy();
        let mut count = 0;
        'labels: while let Some((_, above)) = rest.split_first() {
            rest = above;
            count += 1;
        }
        count
    }

    /// How many labels there are, a leading `*` aside (RFC 4034, 3.1.3).
    pub fn num_labels(&self) -> u8
        ensures { result ≡ num_labels self.now }
    {
        let count = self.label_count();
        if self.is_wildcard() {
            count.saturating_sub(1)
        } else {
            count
        }
    }

    /// Whether this is the root.
    pub fn is_root(&self) -> bool
        ensures { IsTrue result ↔ (self.now ≡ []) }
    {
        self.label_count() == 0
    }

    /// Whether the first label is `*` (RFC 4592, 2.1.1).
    pub fn is_wildcard(&self) -> bool
        ensures { result ≡ is_wildcard self.now }
    {
        match self.split_first() {
            Some((label, _)) => *label == *b"*".as_slice(),
            None => false,
        }
    }

    /// Whether the two are equal, with A to Z as a to z.
    pub fn eq_name(&self, other: &NameRef) -> bool
        ensures { result ≡ name_eq self.now other.now }
    {
        self.wire.eq_ignore_ascii_case(other.wire)
    }

    /// Whether the two are equal, A to Z apart from a to z.
    pub fn eq_case(&self, other: &NameRef) -> bool
        ensures { IsTrue result ↔ (self.now ≡ other.now) }
    {
        *self.wire() == *other.wire()
    }

    /// Whether this name is at or above the other: its labels are the other's last, with A to Z as a to z.
    pub fn zone_of(&self, name: &NameRef) -> bool
        ensures { result ≡ at_or_above self.now name.now }
    {
        let labels = self.label_count();
        let all = name.label_count();
        if labels > all {
            return false;
        }
        self.eq_name(&name.skip_labels(all - labels))
    }

    /// Whether this name is above the other and not equal to it.
    pub fn strictly_above(&self, name: &NameRef) -> bool
        ensures { result ≡ strictly_above self.now name.now }
    {
        self.zone_of(name) && !self.eq_name(name)
    }
}
