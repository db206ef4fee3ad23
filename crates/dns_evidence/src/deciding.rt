//! The signature that decided a set (RFC 4035, 5.3.3).
ghost use Rattle.std.specs.Prelude.{◌≡◌};
ghost use Rattle.std.specs.Option.{option_copied};
ghost use Rattle.dns_rules.specs.MarkedSets.{decider as decider_of};

use crate::MarkedSet;
use dns_record::Record;

/// The signature that decided a set (RFC 4035, 5.3.3), if one did.
pub fn decider<'a>(set: &'a MarkedSet) -> Option<&'a Record>
    ensures { option_copied result ≡ decider_of set.now }
{
    set.set.rrsigs.get(set.sig? as usize)
}
