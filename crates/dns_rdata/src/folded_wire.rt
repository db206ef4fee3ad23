//! The wire form of a name with A to Z as a to z, in room of its own.
ghost use Rattle.std.specs.Prelude.{◌≡◌};
ghost use Rattle.dns_model.specs.Names.{wire, folded};

use dns_record::{Name, NameRef};
use std::marker::Model;

/// A name's wire form with A to Z as a to z, for a digest; it takes no memory. Contracts see it as its bytes.
#[derive(Drop)]
pub struct FoldedWire {
    bytes: [u8; 255],
    len: usize,
}

impl Model for FoldedWire {
    ghost use Rattle.std.specs.Prelude.{List, ℕ, take, ◌≤◌};

    ghost Value = { List ℕ };

    ghost view = { λ f. take f.len f.bytes };

    ghost invariant = { λ f. f.len ≤ 255 };
}

impl FoldedWire {
    /// The folded wire form of a name.
    pub fn of(name: &Name) -> FoldedWire
        ensures { result ≡ wire (folded name.now) }
    {
        FoldedWire::of_ref(&name.borrowed())
    }

    /// The same of a name read where it stands.
    pub fn of_ref(name: &NameRef<'_>) -> FoldedWire
        ensures { result ≡ wire (folded name.now) }
    {
        let wire = name.wire();
        let len = wire.len();
        let mut bytes = [0; 255];
        let front = &mut bytes[..len];
        front.copy_from_slice(wire);
        front.make_ascii_lowercase();
        FoldedWire { bytes, len }
    }

    /// The bytes, lent.
    pub fn as_slice(&self) -> &[u8]
        ensures { result.now ≡ self.now }
    {
        &self.bytes[..self.len]
    }
}
