//! The comparisons of names, over wire bytes: A to Z as a to z, and the canonical order (RFC 4034, 6.1).
ghost use Rattle.std.specs.Prelude.{◌≡◌, length, map};
ghost use Rattle.std.specs.Char.{to_ascii_lowercase};
ghost use Rattle.std.specs.Cmp.{partial_equiv_from_equiv, partial_order_from_agreeing_total};
ghost use Rattle.std.specs.Cmp.Lexicographic.{slice_cmp};
ghost use Rattle.std.specs.Ordering.{nat_cmp, as_partial_cmp};
ghost use Rattle.std.proofs.Common.{refl};
ghost use Rattle.dns_model.specs.Names.{name_input, name_eq, name_cmp};
ghost use Rattle.dns_model.proofs.NameLemmas.{name_equiv, name_alike};
ghost use Rattle.dns_model.proofs.OrderLemmas.{name_total, name_ties};

use crate::{Name, NameRef};
use std::cmp::Ordering;
use std::hash::{Hash, Hasher};

impl PartialEq for Name {
    ghost eq = { name_eq };

    ghost laws = { partial_equiv_from_equiv name_equiv };

    fn eq(&self, other: &Name) -> bool {
        self.borrowed().eq_name(&other.borrowed())
    }
}

impl Eq for Name {
    ghost laws = { name_equiv };
}

impl PartialOrd for Name {
    ghost partial_cmp = { as_partial_cmp name_cmp };

    ghost laws = { partial_order_from_agreeing_total name_cmp name_total (λ x y. refl) name_ties };

    fn partial_cmp(&self, other: &Name) -> Option<Ordering> {
        Some(self.cmp(other))
    }
}

impl Ord for Name {
    ghost cmp = { name_cmp };

    ghost total = { name_total };

    ghost matches_partial_cmp = { λ x y. refl };

    ghost matches_eq = { name_ties };

    fn cmp(&self, other: &Name) -> Ordering {
        self.borrowed().cmp_name(&other.borrowed())
    }
}

impl Hash for Name {
    ghost hash_input = { name_input };

    ghost respects_eq = { λ x y h. name_alike.fed x y h };

    fn hash<H: Hasher>(&self, state: &mut H) {
        for byte in self.wire() {
            state.write_u8(byte.to_ascii_lowercase());
        }
    }
}

/// Equality as that of `Name`.
impl<'a> PartialEq for NameRef<'a> {
    ghost eq = { name_eq };

    ghost laws = { partial_equiv_from_equiv name_equiv };

    fn eq(&self, other: &NameRef<'a>) -> bool {
        self.eq_name(other)
    }
}

impl<'a> Eq for NameRef<'a> {
    ghost laws = { name_equiv };
}

impl<'a> NameRef<'a> {
    /// The canonical order (RFC 4034, 6.1): label by label from the root, as lower-cased bytes; a missing label sorts first.
    pub fn cmp_name(&self, other: &NameRef) -> Ordering
        ensures { result ≡ name_cmp self.now other.now }
    {
        let ours = self.label_count();
        let theirs = other.label_count();
        if ours < theirs {
            return cmp_aligned(self, &other.skip_labels(theirs - ours)).then(Ordering::Less);
        }
        if theirs < ours {
            return cmp_aligned(&self.skip_labels(ours - theirs), other).then(Ordering::Greater);
        }
        cmp_aligned(self, other)
    }
}

// The order of two names with as many labels.
fn cmp_aligned(one: &NameRef, two: &NameRef) -> Ordering
    requires { length one.now ≡ length two.now }
    ensures { result ≡ name_cmp one.now two.now }
{
    match (one.split_first(), two.split_first()) {
        (Some((first, above)), Some((second, other))) => {
            cmp_aligned(&above, &other).then(cmp_lowered(first, second))
        }
        _ => Ordering::Equal,
    }
}

// The order of two labels as lower-cased bytes.
fn cmp_lowered(one: &[u8], two: &[u8]) -> Ordering
    ensures { result ≡ slice_cmp nat_cmp (map to_ascii_lowercase one.now) (map to_ascii_lowercase two.now) }
{
    let mut left = one;
    let mut right = two;
    'bytes: while let Some((a, more)) = left.split_first() {
        let Some((b, rest)) = right.split_first() else {
            return Ordering::Greater;
        };
        let order = a.to_ascii_lowercase().cmp(&b.to_ascii_lowercase());
        if order != Ordering::Equal {
            return order;
        }
        left = more;
        right = rest;
    }
    if right.is_empty() {
        Ordering::Equal
    } else {
        Ordering::Less
    }
}
