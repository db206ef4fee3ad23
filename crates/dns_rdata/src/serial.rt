//! Numbers on the circle of 2^32 (RFC 1982).
ghost use Rattle.std.specs.Prelude.{◌≡◌, ◌^◌, ◌↔◌, IsTrue, IsNone, false};
ghost use Rattle.std.specs.Option.{option_map};
ghost use Rattle.std.specs.Ordering.{ordering_reverse};
ghost use Rattle.dns_model.specs.Serial.{at_or_before, serial_cmp, distance, moment_number};

use std::cmp::Ordering;

/// A number on the circle of 2^32 (RFC 1982): the times of signatures, and the serials of zones.
#[derive(Clone, Copy, Debug, PartialEq, Eq, Hash)]
pub struct SerialNumber(pub u32);

impl SerialNumber {
    /// A moment in seconds since 1970 as the times of signatures count (RFC 4034, 3.1.5).
    pub fn of_moment(now: u64) -> SerialNumber
        ensures { result.0 ≡ moment_number now }
    {
        SerialNumber((now % 0x1_0000_0000) as u32)
    }

    /// How far `other` lies after this number on the circle (RFC 1982, 3.2).
    pub fn distance_to(self, other: SerialNumber) -> u32
        ensures { result ≡ distance self.0 other.0 }
    {
        other.0.wrapping_sub(self.0)
    }

    /// Whether the two are equal, or `other` lies 1 to 2^31 - 1 after `self` (RFC 1982, 3.2).
    pub fn at_or_before(self, other: SerialNumber) -> bool
        ensures value { result ≡ at_or_before self.0 other.0 }
        // Of two numbers that aren't equal at most one is before the other, and of two that lie 2^31 apart none.
        ensures one_way { IsTrue result → IsTrue (at_or_before other.0 self.0) → self.0 ≡ other.0 }
        ensures opposite { distance self.0 other.0 ≡ 2 ^ 31 → result ≡ false }
    {
        let steps = self.distance_to(other);
        self.0 == other.0 || (0 < steps && steps < 0x8000_0000)
    }

    /// How the two are ordered, or None where neither is at or before the other: where they lie 2^31 apart.
    pub fn serial_cmp(self, other: SerialNumber) -> Option<Ordering>
        ensures value { result ≡ serial_cmp self.0 other.0 }
        ensures none { IsNone result ↔ (distance self.0 other.0 ≡ 2 ^ 31) }
        ensures turned { serial_cmp other.0 self.0 ≡ option_map ordering_reverse result }
    {
        if self.0 == other.0 {
            Some(Ordering::Equal)
        } else if self.at_or_before(other) {
            Some(Ordering::Less)
        } else if other.at_or_before(self) {
            Some(Ordering::Greater)
        } else {
            None
        }
    }
}
