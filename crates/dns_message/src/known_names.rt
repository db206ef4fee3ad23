//! Names of a message that were read already, by their places (RFC 1035, 4.1.4).
ghost use Rattle.std.specs.Prelude.{◌≡◌, ◌+◌, ◌≤◌, List, ℕ, length, IfOk, IfSome};
ghost use Rattle.std.specs.List.{All};
ghost use Rattle.dns_message.specs.KnownNames.{AreKnown, IsKnown, IsPassed, part_of};

use crate::step::PLACES;
use dns_record::{Name, NoMemory};
use std::alloc::Global;

/// A place to which a pointer of a name leads, and how many bytes of labels the name has before.
#[derive(Clone, Copy, Drop)]
pub(crate) struct Passed {
    pub(crate) place: u16,
    pub(crate) size: u8,
}

/// The names of one message that were spelled, by the places to which pointers led. So the labels at a place are walked once,
/// however many names lead there.
#[derive(Drop)]
pub(crate) struct KnownNames {
    /// Wire forms, one behind another.
    spelled: Vec<u8>,
    /// For each place that a pointer can name, where among these bytes its name begins.
    starts: Vec<u32>,
    /// For each of them how long its name is, or 0 where it wasn't spelled.
    sizes: Vec<u8>,
}

/// Behind so many spelled bytes no more are kept, so that a place among them has 32 bits. Nor are there more of them.
const MOST_SPELLED: usize = 0xffff_0000;

/// Of a message of up to so many bytes no names are kept: what they cost is little.
const SHORT: usize = 1024;

impl KnownNames {
    // None of a message's names.
    pub(crate) fn new(alloc: Global, bytes: &[u8]) -> Result<KnownNames, NoMemory>
        ensures { IfOk result (λ names. AreKnown bytes.now names) }
    {
        let count = if bytes.len() <= SHORT {
            0
        } else {
            bytes.len().min(usize::from(PLACES))
        };
        let starts = vec![in alloc; 0u32; count]?;
        let sizes = vec![in alloc; 0u8; count]?;
        Ok(KnownNames {
            spelled: Vec::new(alloc),
            starts,
            sizes,
        })
    }

    // The wire form of the name at a place, where it was spelled, and where a name has room for it behind so many bytes.
    pub(crate) fn find(&self, place: u16, before: usize) -> Option<&[u8]>
        requires { before ≤ 254 }
        ensures known { (bytes : List ℕ) → AreKnown bytes self.now
            → IfSome result (λ spelled. IsKnown bytes place spelled.now) }
        ensures room { IfSome result (λ spelled. before + length spelled.now ≤ 255) }
    {
        let place = usize::from(place);
        if self.sizes.len() <= place || self.starts.len() <= place {
            return None;
        }
        let size = usize::from(self.sizes[place]);
        let start = self.starts[place] as usize;
        if size == 0 || Name::MAX_LEN < before + size || self.spelled.len() < start + size {
            return None;
        }
        Some(&self.spelled[start..start + size])
    }

    // Whether the names at a place are kept.
    pub(crate) fn keeps(&self, place: u16) -> bool {
        usize::from(place) < self.sizes.len()
    }

    // Puts the part of a name that stands at a place which it passed: its wire form begins at `base` among the spelled bytes.
    fn put(&mut self, bytes: &[u8], one: Passed, base: usize, name: &[u8])
        requires known { AreKnown bytes.now self.old }
        requires passed { IsPassed bytes.now name.now one }
        requires base { base ≤ 4294901760 }
        requires inside { base + length name.now ≤ length self.old.spelled.items }
        requires there { part_of self.old.spelled.items base (length name.now) ≡ name.now }
        ensures known { AreKnown bytes.now self.new }
        ensures spelled { self.new.spelled ≡ self.old.spelled }
    {
        let place = usize::from(one.place);
        if place < self.sizes.len() {
            self.starts[place] = (base + usize::from(one.size)) as u32;
            self.sizes[place] = (name.len() - usize::from(one.size)) as u8;
        }
    }

    // Keeps a name that was spelled, for each place which it passed.
    pub(crate) fn learn(
        &mut self,
        bytes: &[u8],
        passed: &[Passed],
        name: &[u8],
    ) -> Result<(), NoMemory>
        requires known { AreKnown bytes.now self.old }
        requires passed { All (IsPassed bytes.now name.now) passed.now }
        ensures { AreKnown bytes.now self.new }
    {
        let base = self.spelled.len();
        if passed.is_empty() || MOST_SPELLED < base {
            return Ok(());
        }
        self.spelled.extend_from_slice(name)?;
        for one in passed {
            self.put(bytes, *one, base, name);
        }
        Ok(())
    }
}
