//! The owner and type of a set as a key of an ordered map.
ghost use Rattle.std.specs.Prelude.{◌≡◌};
ghost use Rattle.std.specs.Cmp.{eq_by_cmp_equiv, partial_equiv_from_equiv, partial_order_from_total};
ghost use Rattle.std.specs.Ordering.{as_partial_cmp, eq_by_cmp};
ghost use Rattle.std.proofs.Common.{refl};
ghost use Rattle.dns_outcome.specs.SetKeys.{set_key, set_key_cmp, set_key_total};

use dns_rdata::FoldedWire;
use dns_record::{Name, RecordType};
use std::cmp::Ordering;

/// The owner and type of a set as a key of an ordered map. The owner's bytes are folded once, so that two keys are compared
/// in one pass; and no choice of names makes a search longer, as it would where a hash can be foreseen. It takes no memory.
#[derive(Drop)]
pub(crate) struct SetKey {
    /// The wire form, with A to Z as a to z.
    owner: FoldedWire,
    record_type: u16,
}

impl SetKey {
    /// The key of an owner and type.
    pub(crate) fn of(owner: &Name, record_type: RecordType) -> SetKey
        ensures { result ≡ set_key owner.now record_type.0 }
    {
        SetKey {
            owner: FoldedWire::of(owner),
            record_type: record_type.0,
        }
    }
}

impl PartialEq for SetKey {
    ghost eq = { eq_by_cmp set_key_cmp };

    ghost laws = { partial_equiv_from_equiv (eq_by_cmp_equiv set_key_total) };

    fn eq(&self, other: &SetKey) -> bool {
        self.cmp(other).is_eq()
    }
}

impl Eq for SetKey {
    ghost laws = { eq_by_cmp_equiv set_key_total };
}

impl PartialOrd for SetKey {
    ghost partial_cmp = { as_partial_cmp set_key_cmp };

    ghost laws = { partial_order_from_total set_key_total };

    fn partial_cmp(&self, other: &SetKey) -> Option<Ordering> {
        Some(self.cmp(other))
    }
}

impl Ord for SetKey {
    ghost cmp = { set_key_cmp };

    ghost total = { set_key_total };

    ghost matches_partial_cmp = { λ x y. refl };

    ghost matches_eq = { λ x y. refl };

    fn cmp(&self, other: &SetKey) -> Ordering {
        let owners = self.owner.as_slice().cmp(other.owner.as_slice());
        owners.then(self.record_type.cmp(&other.record_type))
    }
}
