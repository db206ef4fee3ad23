//! The closest encloser of a name that doesn't exist, and the wildcard below it (RFC 4592, 2.1.1 and 3.3.1).
ghost use Rattle.std.specs.Prelude.{◌≡◌, length, if◌then◌else◌};
ghost use Rattle.dns_model.specs.Names.{star, wire, common_ancestor as common_ancestor_of};
ghost use Rattle.dns_denial.specs.Common.{same_label};
ghost use Rattle.dns_rules.specs.NsecVerdict.{closest_encloser as closest_encloser_of};

use arrayvec::ArrayVec;
use dns_rdata::NsecRecord;
use dns_record::NameRef;

/// The longest ancestor of a name that must exist where the record covers it: the longer of those that it shares with the
/// owner and with the next owner.
#[tactic(auto, unfolding(dns_rules::specs::NsecVerdict::closest_encloser))]
pub(crate) fn closest_encloser<'a>(name: &NameRef<'a>, nsec: &NsecRecord) -> NameRef<'a>
    ensures { result ≡ closest_encloser_of name.now nsec.now }
{
    let by_owner = common_ancestor(name, &nsec.owner.borrowed());
    let by_next = common_ancestor(name, &nsec.next.borrowed());
    if by_owner.label_count() < by_next.label_count() {
        by_next
    } else {
        by_owner
    }
}

// The name that the common last labels of two names make.
fn common_ancestor<'a>(name: &NameRef<'a>, other: &NameRef<'_>) -> NameRef<'a>
    ensures { result ≡ common_ancestor_of name.now other.now }
{
    let ours = name.label_count();
    let theirs = other.label_count();
    let one = name.skip_labels(ours.saturating_sub(theirs));
    let two = other.skip_labels(theirs.saturating_sub(ours));
    common_of_aligned(&one, &two)
}

// The same of names with as many labels: what stands above the last labels that differ.
fn common_of_aligned<'a>(one: &NameRef<'a>, two: &NameRef<'_>) -> NameRef<'a>
    requires { length one.now ≡ length two.now }
    ensures { result ≡ common_ancestor_of one.now two.now }
{
    let mut common = one.copy();
    let mut left = one.copy();
    let mut right = two.copy();
    'labels: while let Some((first, above)) = left.split_first() {
        let Some((second, beyond)) = right.split_first() else {
            return common;
        };
        common = common_above(common, &above, first, second);
        left = above;
        right = beyond;
    }
    common
}

// What two names have in common so far: what stands above these two labels, where they differ.
fn common_above<'a>(
    common: NameRef<'a>,
    above: &NameRef<'a>,
    first: &[u8],
    second: &[u8],
) -> NameRef<'a>
    ensures { result ≡ if same_label first.now second.now then common.entry else above.now }
{
    if first.eq_ignore_ascii_case(second) {
        common
    } else {
        above.copy()
    }
}

/// The wire form of the wildcard right below a name.
pub(crate) fn wildcard_below(name: &NameRef<'_>) -> ArrayVec<u8, 257>
    ensures { result.items ≡ wire (star name.now) }
{
    let mut bytes = ArrayVec::new();
    bytes.push(1);
    bytes.push(b'*');
    let _fits = bytes.try_extend_from_slice(name.wire());
    bytes
}
