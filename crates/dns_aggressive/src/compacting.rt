//! Records that no longer count are taken out, in one pass over all.
ghost use Rattle.std.specs.Prelude.{◌≡◌, ◌+◌, ◌<◌, ◌≤◌, ◌^◌, [], false, length, drop, map, slice_set, take, if◌then◌else◌, IfOk};
ghost use Rattle.std.specs.List.{filter};
ghost use Rattle.std.specs.Vec.{vec_capacity};
ghost use Rattle.dns_aggressive.specs.Lists.{latest};
ghost use Rattle.dns_aggressive.specs.Orders.{AreInside, AreLatest, IsPlaced, nth};
ghost use Rattle.dns_aggressive.specs.Expiring.{AreExpiries, HaveAll};
ghost use Rattle.dns_aggressive.specs.Reaching.{AreReaching};
ghost use Rattle.dns_aggressive.specs.KeptLists.{IsKeptList};
ghost use Rattle.dns_aggressive.specs.Compaction.{HasRoom, AreMarked, AreCounted, flag_at};

use crate::expiries::Expiries;
use crate::kept::Kept;
use crate::staying::keep_flagged;
use dns_record::NoMemory;
use std::alloc::Global;

/// Room for a pass over so many records, so that the pass takes no memory.
pub(crate) struct Room {
    stays: Vec<bool>,
    moved: Vec<usize>,
}

impl Drop for Room {
    fn drop(self) {
        let Room { stays: _, moved: _ } = self;
    }
}

impl Room {
    pub(crate) fn new(alloc: Global, count: usize) -> Result<Room, NoMemory>
        ensures { IfOk result (HasRoom count) }
    {
        Ok(Room {
            stays: Vec::with_capacity(alloc, count)?,
            moved: Vec::with_capacity(alloc, count)?,
        })
    }
}

/// Lets the records that no longer count go, where one was replaced or most are gone. The answer is how many first ones are still
/// passed over.
pub(crate) fn settle(
    kept: &mut Vec<Kept>,
    by_place: &mut Vec<usize>,
    expiries: &mut Expiries,
    reaching: &mut Vec<usize>,
    gone: usize,
    replaced: bool,
    room: Room,
) -> usize
    requires within { gone ≤ length kept.old.items }
    requires latest { replaced ≡ false → AreLatest kept.old.items gone (length kept.old.items) }
    requires placed { IsPlaced kept.old.items (length kept.old.items) by_place.old.items }
    requires expiring { AreExpiries kept.old.items (length kept.old.items) expiries.old }
    requires all { HaveAll gone (length kept.old.items) expiries.old }
    requires reach { AreReaching kept.old.items (length kept.old.items) reaching.old.items }
    requires room { HasRoom (length kept.old.items) room }
    ensures list { drop result kept.new.items ≡ latest (drop gone kept.old.items) }
    ensures stands { IsKeptList kept.new.items result by_place.new.items expiries.new reaching.new.items }
{
    if !replaced && gone <= kept.len() / 2 {
        return gone;
    }
    compact(kept, by_place, expiries, reaching, gone, room);
    0
}

// Takes out the records that are gone and those with a newer one of their place.
fn compact(
    kept: &mut Vec<Kept>,
    by_place: &mut Vec<usize>,
    expiries: &mut Expiries,
    reaching: &mut Vec<usize>,
    gone: usize,
    room: Room,
)
    requires placed { IsPlaced kept.old.items (length kept.old.items) by_place.old.items }
    requires expiring { AreExpiries kept.old.items (length kept.old.items) expiries.old }
    requires all { HaveAll gone (length kept.old.items) expiries.old }
    requires reach { AreReaching kept.old.items (length kept.old.items) reaching.old.items }
    requires room { HasRoom (length kept.old.items) room }
    ensures kept { kept.new.items ≡ latest (drop gone kept.old.items) }
    ensures placed { IsPlaced kept.new.items (length kept.new.items) by_place.new.items }
    ensures expiring { AreExpiries kept.new.items (length kept.new.items) expiries.new }
    ensures all { HaveAll 0 (length kept.new.items) expiries.new }
    ensures reach { AreReaching kept.new.items (length kept.new.items) reaching.new.items }
{
    let mut room = room;
    mark(&mut room.stays, by_place, gone, kept.len());
    count(&mut room.moved, &room.stays);
    renumber(by_place, &room.stays, &room.moved);
    renumber(&mut expiries.by_zone, &room.stays, &room.moved);
    renumber(&mut expiries.by_group, &room.stays, &room.moved);
    renumber(reaching, &room.stays, &room.moved);
    keep_flagged(kept, &room.stays);
}

// A flag for each of so many positions: it is set at those of an order that aren't gone.
fn mark(stays: &mut Vec<bool>, order: &[usize], gone: usize, len: usize)
    requires empty { stays.old.items ≡ [] }
    requires room { len ≤ vec_capacity stays.old }
    requires inside { AreInside len order.now }
    ensures { AreMarked order.now gone len stays.new.items }
{
    let _ = stays.resize(len, false);
    for position in order {
        if gone <= *position {
            stays[*position] = true;
        }
    }
}

// For each position how many flags are set before it.
fn count(moved: &mut Vec<usize>, stays: &[bool])
    requires empty { moved.old.items ≡ [] }
    requires room { length stays.now ≤ vec_capacity moved.old }
    ensures { AreCounted stays.now (length stays.now) moved.new.items }
{
    let mut set = 0;
    for flag in stays {
        moved.push_reserved(set);
        set = one_more_if(*flag, set);
    }
}

fn one_more_if(flag: bool, number: usize) -> usize
    requires { number + 1 < 2 ^ 64 }
    ensures { result ≡ number + (if flag then 1 else 0) }
{
    if flag { number + 1 } else { number }
}

// The positions whose flag is set, each moved to the number of flags before it.
fn renumber(order: &mut Vec<usize>, stays: &[bool], moved: &[usize])
    requires stays { AreInside (length stays.now) order.old.items }
    requires moved { length moved.now ≡ length stays.now }
    ensures { order.new.items ≡ map (nth moved.now) (filter (flag_at stays.now) order.old.items) }
{
    keep_staying(order, stays);
    move_all(order.as_mut_slice(), moved);
}

// Takes out the positions whose flag is not set.
fn keep_staying(order: &mut Vec<usize>, stays: &[bool])
    requires { AreInside (length stays.now) order.old.items }
    ensures { order.new.items ≡ filter (flag_at stays.now) order.old.items }
{
    let left = staying_first(order.as_mut_slice(), stays);
    order.truncate(left);
}

// Moves the positions whose flag is set to the front, in order; the answer is how many there are.
fn staying_first(order: &mut [usize], stays: &[bool]) -> usize
    requires { AreInside (length stays.now) order.old }
    ensures { take result order.new ≡ filter (flag_at stays.now) order.old }
{
    let mut left = 0;
    for number in 0..order.len() {
        left = keep_if_staying(order, stays, left, number);
    }
    left
}

// Moves one of them to the front, if its flag is set; the answer is how many then stand there.
fn keep_if_staying(order: &mut [usize], stays: &[bool], left: usize, number: usize) -> usize
    requires left { left ≤ number }
    requires within { number < length order.old }
    requires inside { nth order.old number < length stays.now }
    ensures left { result ≡ (if flag_at stays.now (nth order.old number) then left + 1 else left) }
    ensures order { order.new ≡ (if flag_at stays.now (nth order.old number)
        then slice_set order.old left (nth order.old number) else order.old) }
{
    let position = order[number];
    if !stays[position] {
        return left;
    }
    order[left] = position;
    left + 1
}

// Replaces each position by the one to which it moves.
fn move_all(order: &mut [usize], moved: &[usize])
    requires { AreInside (length moved.now) order.old }
    ensures { order.new ≡ map (nth moved.now) order.old }
{
    for number in 0..order.len() {
        order[number] = moved[order[number]];
    }
}
