//! The newest record of each place: positions in order of places, as more records stand behind the others.
ghost use Rattle.std.specs.Prelude.{◌≡◌, ◌+◌, ◌-◌, ◌*◌, ◌≤◌, ◌<◌, ℕ, Some, false, length};
ghost use Rattle.std.specs.Vec.{vec_capacity};
ghost use Rattle.dns_aggressive.specs.Lists.{same_place};
ghost use Rattle.dns_aggressive.specs.Orders.{at, AreLatest, IsLatest, IsPlaced};
ghost use Rattle.dns_aggressive.specs.Reaching.{AreReaching};

use crate::kept::Kept;
use crate::order::{BeforePlace, passed, put_in, record_at};
use crate::place::have_one_place;
use crate::reaching::note;

/// Notes the places of the records from a position on, and which records reach. The answer is whether one of them stands in place of an older one that isn't
/// gone: without that each record is still the newest of its place.
pub(crate) fn place_from(
    kept: &[Kept],
    by_place: &mut Vec<usize>,
    reaching: &mut Vec<usize>,
    from: usize,
    gone: usize,
) -> bool
    requires placed { IsPlaced kept.now from by_place.old.items }
    requires within { from ≤ length kept.now }
    requires room { length by_place.old.items + (length kept.now - from) ≤ vec_capacity by_place.old }
    requires reaching { AreReaching kept.now from reaching.old.items }
    requires space { length reaching.old.items + 2 * (length kept.now - from) ≤ vec_capacity reaching.old }
    ensures placed { IsPlaced kept.now (length kept.now) by_place.new.items }
    ensures reaching { AreReaching kept.now (length kept.now) reaching.new.items }
    ensures latest { result ≡ false → AreLatest kept.now gone from → AreLatest kept.now gone (length kept.now) }
{
    let mut replaced = false;
    for position in from..kept.len() {
        let old = place(kept, by_place, position);
        note(kept, by_place, reaching, position);
        replaced = is_replaced(replaced, old, gone);
    }
    replaced
}

// Whether a record was replaced before, or this one is now and isn't gone.
fn is_replaced(replaced: bool, old: Option<usize>, gone: usize) -> bool
    ensures before { result ≡ false → replaced ≡ false }
    ensures old { result ≡ false → (position : ℕ) → gone ≤ position → old ≡ Some position → ⊥ }
{
    match old {
        Some(old) => replaced || gone <= old,
        None => replaced,
    }
}

// Notes the place of the next record; the answer is the older one that had it.
fn place(kept: &[Kept], by_place: &mut Vec<usize>, position: usize) -> Option<usize>
    requires placed { IsPlaced kept.now position by_place.old.items }
    requires within { position < length kept.now }
    requires room { length by_place.old.items < vec_capacity by_place.old }
    ensures placed { IsPlaced kept.now (position + 1) by_place.new.items }
    ensures others { (other : ℕ) → other < position → IsLatest kept.now position other → (result ≡ Some other → ⊥)
        → same_place (at kept.now other) (at kept.now position) ≡ false }
    ensures len { length by_place.new.items ≤ length by_place.old.items + 1 }
    ensures capacity { vec_capacity by_place.old ≤ vec_capacity by_place.new }
{
    let next = record_at(kept, position);
    let number = passed(kept, by_place, &BeforePlace(next));
    if number < by_place.len() {
        let old = by_place[number];
        if have_one_place(record_at(kept, old), next) {
            by_place[number] = position;
            return Some(old);
        }
    }
    put_in(by_place, number, position);
    None
}
