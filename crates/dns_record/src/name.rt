//! Names, each in memory of its own (RFC 1035, 3.1).
ghost use Rattle.std.specs.Prelude.{◌≡◌, ◌≤◌, ◌++◌, ◌↔◌, true, [], IfOk, OnOk, OnErr, IsTrue, length};
ghost use Rattle.dns_model.specs.Names.{at_or_above, folded, is_name, is_wildcard, last_labels, num_labels, parent, wire};
ghost use Rattle.dns_model.specs.NameForm.{labels_of, name_of, IsWire};

use crate::{NameRef, NoMemory, Octets};
use std::alloc::Global;
use std::marker::Model;

/// A domain name, always absolute (RFC 1035, 3.1). Contracts see it as its labels, the leaf first; it is kept in wire form.
pub struct Name {
    wire: Octets,
}

impl Model for Name {
    ghost use Rattle.dns_model.specs.Names.{Labels};
    ghost use Rattle.dns_model.specs.NameForm.{labels_of, IsWire};

    ghost Value = { Labels };

    ghost view = { λ n. labels_of n.wire };

    ghost invariant = { λ n. IsWire n.wire };
}

// By hand, so that a function that lets a name go calls this.
impl Drop for Name {
    fn drop(self) {
        let Name { wire } = self;
        drop(wire);
    }
}

impl Name {
    /// The most bytes of a wire form, its closing zero byte counted (RFC 1035, 2.3.4).
    pub const MAX_LEN: usize = 255;

    /// The most bytes of a label (RFC 1035, 2.3.4).
    pub const MAX_LABEL_LEN: usize = 63;

    /// The name whose wire form the bytes are (RFC 1035, 3.1), which takes no memory.
    pub fn from_octets(wire: Octets) -> Name
        requires { IsWire wire }
        ensures { result ≡ labels_of wire }
    {
        Name { wire }
    }

    /// The name whose wire form the bytes are, with nothing after it (RFC 1035, 3.1), or `None`.
    pub fn from_wire(alloc: Global, bytes: &[u8]) -> Result<Option<Name>, NoMemory>
        ensures { IfOk result (λ n. n ≡ name_of bytes.now) }
    {
        match NameRef::front(bytes) {
            Some((name, [])) => Ok(Some(name.to_name(alloc)?)),
            _ => Ok(None),
        }
    }

    // A copy of a name that stands elsewhere.
    pub(crate) fn of_ref(alloc: Global, name: &NameRef) -> Result<Name, NoMemory>
        ensures { IfOk result (λ n. n ≡ name.now) }
    {
        let wire = Octets::from_slice(alloc, name.wire())?;
        Ok(Name { wire })
    }

    /// The name, lent.
    pub fn borrowed(&self) -> NameRef<'_>
        ensures { result ≡ self.now }
    {
        NameRef::of_wire(self.wire.as_slice())
    }

    /// The wire form, with the closing zero byte (RFC 1035, 3.1).
    pub fn wire(&self) -> &[u8]
        ensures value { result.now ≡ wire self.now }
        ensures name { is_name self.now ≡ true }
    {
        self.wire.as_slice()
    }

    /// Appends the wire form with A to Z as a to z (RFC 4034, 6.2). Where memory runs out, `into` stays as it was.
    pub fn push_folded(&self, into: &mut Vec<u8>) -> Result<(), NoMemory>
        ensures ok { OnOk result (into.new.items ≡ into.old.items ++ wire (folded self.now)) }
        ensures err { OnErr result (into.new.items ≡ into.old.items) }
    {
        self.borrowed().push_folded(into)
    }

    // The allocator that the name's bytes came from.
    pub(crate) fn allocator(&self) -> Global {
        self.wire.allocator()
    }

    /// The root, which has no label.
    pub fn root(alloc: Global) -> Result<Name, NoMemory>
        ensures { IfOk result (λ n. n ≡ []) }
    {
        let wire = Octets::from_slice(alloc, &[0])?;
        Ok(Name { wire })
    }

    /// An equal value; long octets are shared.
    pub fn try_clone(&self) -> Result<Name, NoMemory>
        ensures { IfOk result (λ n. n ≡ self.now) }
    {
        let wire = self.wire.try_clone()?;
        Ok(Name { wire })
    }

    /// How many labels there are, a leading `*` aside (RFC 4034, 3.1.3).
    pub fn num_labels(&self) -> u8
        ensures { result ≡ num_labels self.now }
    {
        self.borrowed().num_labels()
    }

    /// How many labels there are; the root has none.
    pub fn label_count(&self) -> u8
        ensures value { result ≡ length self.now }
        ensures limit { result ≤ 127 }
    {
        self.borrowed().label_count()
    }

    /// Whether this is the root.
    pub fn is_root(&self) -> bool
        ensures { IsTrue result ↔ (self.now ≡ []) }
    {
        self.borrowed().is_root()
    }

    /// Whether the first label is `*` (RFC 4592, 2.1.1).
    pub fn is_wildcard(&self) -> bool
        ensures { result ≡ is_wildcard self.now }
    {
        self.borrowed().is_wildcard()
    }

    /// The name without its first label; the root's is the root.
    pub fn base_name(&self) -> Result<Name, NoMemory>
        ensures { IfOk result (λ n. n ≡ parent self.now) }
    {
        self.borrowed().parent().to_name(self.allocator())
    }

    /// The name that the last labels make, this many, or all.
    pub fn trim_to(&self, labels: u8) -> Result<Name, NoMemory>
        ensures { IfOk result (λ n. n ≡ last_labels labels self.now) }
    {
        let last = self.borrowed().last_labels(labels);
        last.to_name(self.allocator())
    }

    /// Whether this name is at or above the other: its labels are the other's last, with A to Z as a to z.
    pub fn zone_of(&self, name: &Name) -> bool
        ensures { result ≡ at_or_above self.now name.now }
    {
        self.borrowed().zone_of(&name.borrowed())
    }

    /// Whether the two are equal, A to Z apart from a to z.
    pub fn eq_case(&self, other: &Name) -> bool
        ensures { IsTrue result ↔ (self.now ≡ other.now) }
    {
        self.borrowed().eq_case(&other.borrowed())
    }
}
