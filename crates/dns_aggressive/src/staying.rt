//! Records that stay are moved to the front.
ghost use Rattle.std.specs.Prelude.{◌≡◌, length, take};
ghost use Rattle.dns_aggressive.specs.Flags.{flagged};

use crate::kept::Kept;

/// Takes out the records whose flag is not set.
pub(crate) fn keep_flagged(list: &mut Vec<Kept>, flags: &[bool])
    requires { length flags.now ≡ length list.old.items }
    ensures { list.new.items ≡ flagged flags.now list.old.items }
{
    let stayed = to_front(list.as_mut_slice(), flags);
    list.truncate(stayed);
}

// Moves the records whose flag is set to the front, in order; the answer is how many there are.
fn to_front(list: &mut [Kept], flags: &[bool]) -> usize
    requires { length flags.now ≡ length list.old }
    ensures { take result list.new ≡ flagged flags.now list.old }
{
    let mut stayed = 0;
    for (place, flag) in flags.iter().enumerate() {
        if *flag {
            list.swap(stayed, place);
            stayed += 1;
        }
    }
    stayed
}
