//! Sends over an exchange whose history is nearly full.
ghost use Rattle.std.specs.Prelude.{◌≡◌, ◌<◌};

use crate::beside::Beside;
use crate::heard::Heard;
use crate::holders::{asked, exchange_of, holder_over};
use crate::parts::{check, draws_of, link_of};
use std::alloc::Global;
use std::marker::Brand;
use std::process::Abort;
use std::sync::Wait;
use std::sync::ledger::{Blank, Ledger};

/// So many entries find room in a history, less the place of the first close.
const MOST_ENTRIES: u64 = 1_048_575;

// What a send is answered where so many entries find room; its answer comes. An ask whose answer is whole after two reads has nine
// entries.
fn asked_with<W: Abort + Wait + Copy, G: Ledger>(
    rt: W,
    alloc: Global,
    room: u64,
    blank: Blank,
) -> Heard
    requires name { blank.name ≡ G.name }
    requires parts { blank.parts ≡ G.parts }
    requires some { 0 < G.parts }
{
    let (exchange, token) = exchange_of(&rt, alloc, draws_of(&rt, alloc, &[7]));
    let (token, mut beside) = Beside::new(rt, alloc, &exchange, token);
    beside.tick(MOST_ENTRIES.saturating_sub(room));
    let link = link_of(&rt, alloc, &[(7, 1)]);
    let mut holder = holder_over::<W, G, _, _>(rt, alloc, exchange, token, link, blank);
    asked(alloc, &mut holder)
}

fn heard_with<W: Abort + Wait + Copy>(rt: W, alloc: Global, room: u64) -> Heard {
    asked_with::<W, Brand>(rt, alloc, room, Blank::new(1))
}

/// With no room the send is refused, and with room for less than eight entries a take or the arrival is.
#[test]
fn a_full_history_is_answered(rt: HostRuntime) {
    for room in [0, 2, 7] {
        check(
            &rt,
            "the history is full",
            heard_with(rt, rt.alloc(), room) == Heard::Full,
        );
    }
}

/// With room for eight entries the cancel is refused, which is passed over.
#[test]
fn a_history_with_room_for_an_ask_gives_its_answer(rt: HostRuntime) {
    for room in [8, 9] {
        check(
            &rt,
            "the answer is given",
            heard_with(rt, rt.alloc(), room) == Heard::Id(7),
        );
    }
}
