//! Bytes in memory: few stand in the value itself, many are shared by copies and parts.
ghost use Rattle.std.specs.Prelude.{◌≡◌, ◌≤◌, [], length, map, slice_range, take, ◌↔◌, IsTrue, IfOk};
ghost use Rattle.std.specs.Char.{to_ascii_lowercase};
ghost use Rattle.std.specs.Cmp.{partial_equiv_from_equiv, partial_order_from_agreeing_total};
ghost use Rattle.std.specs.Cmp.Lexicographic.{slice_cmp};
ghost use Rattle.std.specs.Hash as fed;
ghost use Rattle.std.specs.Hash.{same_Alike};
ghost use Rattle.std.specs.Ordering.{nat_cmp, as_partial_cmp};
ghost use Rattle.std.specs.Str.{bytes_eq};
ghost use Rattle.std.proofs.Common.{refl};
ghost use Rattle.std.proofs.lemmas.Cmp.{nat_list_cmp_total, nat_list_eq_equiv};
ghost use Rattle.std.proofs.lemmas.Slice.Eq.{bytes_eq-Decides};
ghost use Rattle.dns_model.proofs.OrderLemmas.{bytes_ties};

use crate::NoMemory;
use crate::reading::push_lowered;
use block_part::BlockPart;
use in_place::{InPlace, ROOM};
use std::alloc::Global;
use std::cmp::Ordering;
use std::fmt;
use std::hash::{Hash, Hasher};
use std::marker::Model;

mod block_part;
mod in_place;

/// Bytes in memory. Contracts see them as a list. A copy of many bytes shares them, as a part of them does; few are copied.
pub struct Octets {
    held: Held,
    alloc: Global,
}

/// Where the bytes are.
#[derive(Drop)]
enum Held {
    InPlace(InPlace),
    Own(Vec<u8>),
    Block(BlockPart),
}

impl Model for Octets {
    ghost use Rattle.std.specs.Prelude.{List, ℕ};
    ghost use Rattle.dns_record.specs.Held.{bytes_of};

    ghost Value = { List ℕ };

    ghost view = { λ o. bytes_of o.held };
}

// By hand, so that a function that lets octets go calls this, whatever they hold.
impl Drop for Octets {
    fn drop(self) {
        let Octets { held, alloc: _ } = self;
        drop(held);
    }
}

// The first elements, this many, or all.
fn front_of(bytes: Vec<u8>, len: usize) -> Vec<u8>
    ensures { result.items ≡ take len bytes.items }
{
    let mut bytes = bytes;
    bytes.truncate(len);
    bytes
}

impl Octets {
    /// The most bytes of which a copy or a part takes no memory and shares nothing.
    pub const MOST_IN_PLACE: usize = ROOM;

    /// No byte, which takes no memory.
    pub fn empty(alloc: Global) -> Octets
        ensures { result ≡ [] }
    {
        let held = Held::InPlace(InPlace::empty());
        Octets { held, alloc }
    }

    /// The bytes of a `Vec`, which takes no memory. A copy of them is one; `into_shared` is for those that are copied often.
    pub fn from_vec(bytes: Vec<u8>) -> Octets
        ensures { result ≡ bytes.items }
    {
        let alloc = *bytes.allocator();
        let held = Held::Own(bytes);
        Octets { held, alloc }
    }

    /// A copy of bytes.
    pub fn from_slice(alloc: Global, bytes: &[u8]) -> Result<Octets, NoMemory>
        ensures { IfOk result (λ o. o ≡ bytes.now) }
    {
        let held = if bytes.len() <= ROOM {
            Held::InPlace(InPlace::from_slice(bytes))
        } else {
            Held::Block(BlockPart::whole(alloc, Vec::from_slice(alloc, bytes)?)?)
        };
        Ok(Octets { held, alloc })
    }

    /// A copy of bytes, A to Z as a to z.
    pub fn lowered(alloc: Global, bytes: &[u8]) -> Result<Octets, NoMemory>
        ensures { IfOk result (λ o. o ≡ map to_ascii_lowercase bytes.now) }
    {
        if bytes.len() <= ROOM {
            let held = Held::InPlace(InPlace::lowered(bytes));
            return Ok(Octets { held, alloc });
        }
        let mut lowered = Vec::with_capacity(alloc, bytes.len())?;
        push_lowered(&mut lowered, bytes)?;
        Ok(Octets::from_vec(lowered))
    }

    /// The bytes, lent.
    pub fn as_slice(&self) -> &[u8]
        ensures { result.now ≡ self.now }
    {
        match &self.held {
            Held::InPlace(few) => few.as_slice(),
            Held::Own(bytes) => bytes.as_slice(),
            Held::Block(part) => part.as_slice(),
        }
    }

    /// How many bytes there are.
    pub fn len(&self) -> usize
        ensures { result ≡ length self.now }
    {
        self.as_slice().len()
    }

    /// Whether there is no byte.
    pub fn is_empty(&self) -> bool
        ensures { IsTrue result ↔ (self.now ≡ []) }
    {
        self.as_slice().is_empty()
    }

    /// The same bytes, such that copies and parts of them share them.
    pub fn into_shared(self) -> Result<Octets, NoMemory>
        ensures { IfOk result (λ o. o ≡ self) }
    {
        let Octets { held, alloc } = self;
        let held = match held {
            Held::Own(bytes) => Held::Block(BlockPart::whole(alloc, bytes)?),
            held => held,
        };
        Ok(Octets { held, alloc })
    }

    /// The first bytes, this many, or all. It takes no memory.
    pub fn truncated(self, len: usize) -> Octets
        ensures { result ≡ take len self }
    {
        let Octets { held, alloc } = self;
        let held = match held {
            Held::InPlace(few) => Held::InPlace(few.truncated(len)),
            Held::Own(bytes) => Held::Own(front_of(bytes, len)),
            Held::Block(part) => Held::Block(part.truncated(len)),
        };
        Octets { held, alloc }
    }

    /// The bytes in a `Vec`: their own, or a copy.
    pub fn into_vec(self) -> Result<Vec<u8>, NoMemory>
        ensures { IfOk result (λ bytes. bytes.items ≡ self) }
    {
        let Octets { held, alloc } = self;
        match held {
            Held::InPlace(few) => Ok(Vec::from_slice(alloc, few.as_slice())?),
            Held::Own(bytes) => Ok(bytes),
            Held::Block(part) => Ok(Vec::from_slice(alloc, part.as_slice())?),
        }
    }

    /// The allocator that the bytes came from.
    pub fn allocator(&self) -> Global {
        self.alloc
    }

    /// The bytes from one place up to another. Where they are shared it is no copy, unless so few would keep a large block.
    pub fn part(&self, start: usize, end: usize) -> Result<Octets, NoMemory>
        requires rises { start ≤ end }
        requires inside { end ≤ length self.now }
        ensures { IfOk result (λ o. o ≡ slice_range self.now start end) }
    {
        match &self.held {
            Held::Block(part) if ROOM < end - start && part.may_keep(end - start) => {
                let held = Held::Block(part.part(start, end)?);
                Ok(Octets {
                    held,
                    alloc: self.alloc,
                })
            }
            _ => Octets::from_slice(self.alloc, &self.as_slice()[start..end]),
        }
    }

    /// An equal value. Shared bytes are shared once more.
    pub fn try_clone(&self) -> Result<Octets, NoMemory>
        ensures { IfOk result (λ o. o ≡ self.now) }
    {
        let held = match &self.held {
            Held::InPlace(few) => Held::InPlace(few.copy()),
            Held::Block(part) => Held::Block(part.share()?),
            Held::Own(bytes) => return Octets::from_slice(self.alloc, bytes.as_slice()),
        };
        Ok(Octets {
            held,
            alloc: self.alloc,
        })
    }
}

impl fmt::Debug for Octets {
    fn fmt<W: fmt::Write>(&self, f: &mut fmt::Formatter<W>) -> fmt::Result {
        f.debug_list().slice(self.as_slice()).finish()
    }
}

impl PartialEq for Octets {
    ghost eq = { bytes_eq };

    ghost laws = { partial_equiv_from_equiv nat_list_eq_equiv };

    fn eq(&self, other: &Octets) -> bool {
        *self.as_slice() == *other.as_slice()
    }
}

impl Eq for Octets {
    ghost laws = { nat_list_eq_equiv };
}

impl PartialOrd for Octets {
    ghost partial_cmp = { as_partial_cmp (slice_cmp nat_cmp) };

    ghost laws = { partial_order_from_agreeing_total (slice_cmp nat_cmp) nat_list_cmp_total (λ x y. refl) bytes_ties };

    fn partial_cmp(&self, other: &Octets) -> Option<Ordering> {
        Some(self.cmp(other))
    }
}

impl Ord for Octets {
    ghost cmp = { slice_cmp nat_cmp };

    ghost total = { nat_list_cmp_total };

    ghost matches_partial_cmp = { λ x y. refl };

    ghost matches_eq = { bytes_ties };

    fn cmp(&self, other: &Octets) -> Ordering {
        self.as_slice().cmp(other.as_slice())
    }
}

impl Hash for Octets {
    ghost hash_input = { fed.slice fed.u8 };

    ghost respects_eq = { λ x y h. (same_Alike (fed.slice fed.u8) bytes_eq-Decides).fed x y h };

    fn hash<H: Hasher>(&self, state: &mut H) {
        self.as_slice().hash(state);
    }
}
