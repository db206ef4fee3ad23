//! A few bytes in the value itself.
ghost use Rattle.std.specs.Prelude.{◌≡◌, ◌≤◌, length, map, take};
ghost use Rattle.std.specs.Char.{to_ascii_lowercase};

use std::marker::Model;

/// The most bytes that are held in the value itself: it is then no larger than a part of a block, and nearly all names have no more.
pub const ROOM: usize = 24;

/// A few bytes, held in the value itself. Contracts see them as a list. They stand behind the number, and so at a word, since
/// they are moved with what else octets may hold.
#[derive(Drop)]
pub struct InPlace {
    len: u32,
    room: [u8; ROOM],
}

impl Model for InPlace {
    ghost use Rattle.std.specs.Prelude.{List, ℕ, ◌≤◌, take};

    ghost Value = { List ℕ };

    ghost view = { λ f. take f.len f.room };

    ghost invariant = { λ f. f.len ≤ 24 };
}

impl InPlace {
    /// No byte.
    pub fn empty() -> InPlace
        ensures { length result ≡ 0 }
    {
        InPlace {
            len: 0,
            room: [0; ROOM],
        }
    }

    /// A copy of bytes.
    pub fn from_slice(bytes: &[u8]) -> InPlace
        requires { length bytes.now ≤ 24 }
        ensures { result ≡ bytes.now }
    {
        let mut room = [0; ROOM];
        room[..bytes.len()].copy_from_slice(bytes);
        InPlace {
            room,
            len: bytes.len() as u32,
        }
    }

    /// A copy of bytes, A to Z as a to z.
    pub fn lowered(bytes: &[u8]) -> InPlace
        requires { length bytes.now ≤ 24 }
        ensures { result ≡ map to_ascii_lowercase bytes.now }
    {
        let mut room = [0; ROOM];
        room[..bytes.len()].copy_from_slice(bytes);
        room[..bytes.len()].make_ascii_lowercase();
        InPlace {
            room,
            len: bytes.len() as u32,
        }
    }

    /// The bytes, lent.
    pub fn as_slice(&self) -> &[u8]
        ensures { result.now ≡ self.now }
    {
        &self.room[..self.len as usize]
    }

    /// The first bytes, this many, or all.
    pub fn truncated(self, len: usize) -> InPlace
        ensures { result ≡ take len self }
    {
        let InPlace { room, len: held } = self;
        let len = if len < held as usize {
            len as u32
        } else {
            held
        };
        InPlace { room, len }
    }

    /// The same bytes again.
    pub fn copy(&self) -> InPlace
        ensures { result ≡ self.now }
    {
        InPlace {
            room: self.room,
            len: self.len,
        }
    }
}
