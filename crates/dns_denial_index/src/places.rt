//! Keys in order, and where another key stands among them. Keys are strings of bytes.
ghost use Rattle.std.specs.Prelude.{◌≡◌, ◌+◌, ◌-◌, ◌*◌, ◌<◌, ◌≤◌, ◌^◌, IfOk, length, map};
ghost use Rattle.std.specs.List.Sorted.{IsPermutation};
ghost use Rattle.dns_denial_index.specs.Places.{key_of, place_of, IsNumbered};

use dns_evidence::Steps;
use dns_record::{NoMemory, Octets};
use std::cmp::Ordering;
use std::marker::Model;
use std::sync::ledger::Ledger;

/// Keys in order. Each of them has a place, and so have the gaps around it. Contracts see them as a list.
#[derive(Drop)]
pub(crate) struct Points {
    sorted: Vec<Octets>,
}

impl Model for Points {
    ghost use Rattle.std.specs.Prelude.{List, ℕ};
    ghost use Rattle.std.specs.Cmp.Lexicographic.{slice_cmp};
    ghost use Rattle.std.specs.List.Sorted.{IsSorted};
    ghost use Rattle.std.specs.Ordering.{nat_cmp};

    ghost Value = { List (List ℕ) };

    ghost view = { λ p. p.sorted.items };

    ghost invariant = { λ p. IsSorted (slice_cmp nat_cmp) p.sorted.items };
}

/// Keys in order, and the places of keys among them.
#[derive(Drop)]
pub(crate) struct Placing {
    pub(crate) points: Points,
    pub(crate) places: Vec<usize>,
}

impl Points {
    /// These keys, in order, and the place of each of them, in the order in which they were given.
    pub(crate) fn placing(keys: Vec<Octets>) -> Result<Placing, NoMemory>
        requires { length keys.items < 2 ^ 40 }
        ensures points { IfOk result (λ placing. IsPermutation keys.items placing.points) }
        ensures places { IfOk result (λ placing. placing.places.items ≡ map (place_of placing.points) keys.items) }
    {
        let mut places = vec![in *keys.allocator(); 0; keys.len()]?;
        let numbered = in_order(keys)?;
        let mut first = 0;
        for index in 0..numbered.len() {
            if numbered[index].0 != numbered[first].0 {
                first = index;
            }
            places[numbered[index].1] = 2 * first + 1;
        }
        let sorted = without_numbers(numbered)?;
        Ok(Placing {
            points: Points { sorted },
            places,
        })
    }

    /// How many places there are: one more than twice the points.
    pub(crate) fn places(&self) -> usize
        requires { length self.now < 2 ^ 40 }
        ensures { result ≡ 2 * length self.now + 1 }
    {
        2 * self.sorted.len() + 1
    }

    /// The place of a key: twice the number of points before it, and one more where it is a point itself. A step is a turn of the
    /// search, in which the key is compared with one point.
    pub(crate) fn place<L: Ledger>(&self, key: &[u8], steps: &mut Steps<L>) -> usize
        requires { length self.now < 2 ^ 40 }
        ensures place { result ≡ place_of self.now key.now }
        ensures rises { steps.old ≤ steps.new }
        ensures steps { 2 ^ (steps.new - steps.old) ≤ 2 * length self.now + 1 }
        ensures ticks { length self.now + 1 < 2 * 2 ^ (steps.new - steps.old) }
    {
        let mut low = 0;
        let mut high = self.sorted.len();
        let mut met = false;
        'turns: while low < high {
            steps.tick();
            let middle = low + (high - low) / 2;
            match self.sorted[middle].as_slice().cmp(key) {
                Ordering::Less => low = middle + 1,
                Ordering::Equal => {
                    met = true;
                    high = middle;
                }
                Ordering::Greater => high = middle,
            }
        }
        if met { 2 * low + 1 } else { 2 * low }
    }
}

// These keys in order, each with its number in the order in which they were given.
fn in_order(keys: Vec<Octets>) -> Result<Vec<(Octets, usize)>, NoMemory>
    ensures { IfOk result (λ numbered. IsNumbered keys.items numbered.items) }
{
    let mut numbered = Vec::with_capacity(*keys.allocator(), keys.len())?;
    for key in keys {
        let number = numbered.len();
        numbered.push((key, number))?;
    }
    // By keys alone: what is equal needn't be sorted further.
    numbered.sort_unstable_by(|one, two| one.0.cmp(&two.0));
    Ok(numbered)
}

// The keys alone.
fn without_numbers(numbered: Vec<(Octets, usize)>) -> Result<Vec<Octets>, NoMemory>
    ensures { IfOk result (λ keys. keys.items ≡ map key_of numbered.items) }
{
    let mut keys = Vec::with_capacity(*numbered.allocator(), numbered.len())?;
    for (key, _) in numbered {
        keys.push(key)?;
    }
    Ok(keys)
}
