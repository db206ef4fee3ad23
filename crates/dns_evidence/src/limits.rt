//! How far a lookup goes.

ghost use Rattle.std.specs.Prelude.{◌≡◌};
ghost use Rattle.dns_rules.specs.Asking.{depth_limit as limit_of, effective as effective_limits};

use std::marker::Model;

/// How many sends one lookup makes at the most.
pub const MOST_SENDS: usize = 1024;

/// How far validation goes.
#[derive(Clone, Copy, Debug, PartialEq, Eq, Hash)]
pub struct Limits {
    /// How deep the asks of a lookup go; above 255 it counts as 255.
    pub depth: u16,
    /// Hash iterations above which NSEC3 records leave a denial Insecure (RFC 9276, 3.2).
    pub soft: u16,
    /// Hash iterations above which NSEC3 records leave a denial Bogus (RFC 9276, 3.2).
    pub hard: u16,
}

impl Model for Limits {
    ghost use Rattle.dns_rules.specs.Asking.{Limits};

    ghost Value = { Limits };

    ghost view = { λ l. record { depth = l.depth; soft = l.soft; hard = l.hard } };

    ghost inverse = { λ l. record { depth = l.depth; soft = l.soft; hard = l.hard } };
}

/// Iterations of the hash of NSEC3 records (RFC 9276, 3.2).
#[derive(Clone, Copy, Debug, PartialEq, Eq, Hash)]
pub struct IterationLimits {
    /// Above it they leave a denial Insecure.
    pub soft: u16,
    /// Above it they leave a denial Bogus.
    pub hard: u16,
}

impl IterationLimits {
    /// 100 and 500.
    pub const DEFAULT: IterationLimits = IterationLimits {
        soft: 100,
        hard: 500,
    };
}

/// How deep the asks of a lookup go that may go so deep: never deeper than 255.
pub fn depth_limit(depth: u16) -> u16
    ensures { result ≡ limit_of depth }
{
    depth.min(255)
}

/// The limits with the depth to which asks go.
pub fn effective(limits: &Limits) -> Limits
    ensures { result ≡ effective_limits limits.now }
{
    Limits {
        depth: depth_limit(limits.depth),
        ..*limits
    }
}
