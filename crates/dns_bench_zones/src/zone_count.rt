//! How many zones are nested.
ghost use Rattle.std.specs.Prelude.{◌≡◌, ◌≤◌, ◌&&◌, nat_le, Some, None, if◌then◌else◌};

use std::marker::Model;

/// How many zones are nested below the root: from 1 to 100. Contracts see it as its number.
#[derive(Clone, Copy, Debug, PartialEq, Eq)]
pub struct ZoneCount {
    number: u8,
}

impl Model for ZoneCount {
    ghost use Rattle.std.specs.Prelude.{ℕ, ◌≤◌};

    ghost Value = { ℕ };

    ghost view = { λ c. c.number };

    ghost inverse = { λ n. record { number = n } };

    ghost invariant = { λ c. (1 ≤ c.number) × (c.number ≤ 100) };
}

impl ZoneCount {
    /// The most zones.
    pub const MOST: u8 = 100;

    /// That many zones; None exactly for 0 and above 100.
    pub fn new(number: u8) -> Option<ZoneCount>
        ensures { result ≡ (if nat_le 1 number && nat_le number 100 then Some number else None) }
    {
        if 1 <= number && number <= ZoneCount::MOST {
            Some(ZoneCount { number })
        } else {
            None
        }
    }

    /// The number.
    pub fn number(self) -> u8
        ensures number { result ≡ self }
        ensures least { 1 ≤ result }
        ensures most { result ≤ 100 }
    {
        self.number
    }
}
