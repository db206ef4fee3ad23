//! Two holders in two threads.
ghost use Rattle.std.specs.Prelude.{◌≡◌, ◌<◌};

use crate::heard::Heard;
use crate::holders::{asked, exchange_of, holder_over};
use crate::hooked_link::HookedLink;
use crate::hooks::{AfterDraws, CountedDraws};
use crate::parts::{check, draws_of, link_of};
use dns_handle::IoKind;
use std::alloc::Global;
use std::marker::Brand;
use std::process::Abort;
use std::sync::Wait;
use std::sync::atomic::AtomicU64;
use std::sync::ledger::{Blank, Ledger};
use std::thread;
use std::thread::Threads;

// What two holders are answered side by side, whose requests have the ids 7 and 8, the ids in order. Nothing is read before both
// have sent.
fn both_asked<W: Threads + Abort + Wait + Copy + Send + Sync, G: Ledger + Send + Sync>(
    rt: W,
    alloc: Global,
    come: &[(u16, u32)],
    blank: Blank,
) -> (Heard, Heard)
    requires name { blank.name ≡ G.name }
    requires parts { blank.parts ≡ G.parts }
    requires two { G.parts ≡ 2 }
{
    let drawn = AtomicU64::new(0);
    let draws = CountedDraws::new(draws_of(&rt, alloc, &[7, 8]), &drawn);
    let (exchange, token) = exchange_of(&rt, alloc, draws);
    let link = HookedLink::new(link_of(&rt, alloc, come), AfterDraws::new(&drawn, 2));
    let holder = holder_over::<W, G, _, _>(rt, alloc, exchange, token, link, blank);
    let (mut first, mut second) = holder.split().ok().expect(&rt, "memory");
    let (one, other) = thread::join(
        &rt,
        move || asked(alloc, &mut first),
        move || asked(alloc, &mut second),
    );
    (one, other)
}

fn heard_by_both<W: Threads + Abort + Wait + Copy + Send + Sync>(
    rt: W,
    alloc: Global,
    come: &[(u16, u32)],
) -> (Heard, Heard) {
    both_asked::<W, Brand>(rt, alloc, come, Blank::new(2))
}

// Whether one is answered by 7 and the other by 8.
fn are_answered(both: (Heard, Heard)) -> bool {
    both == (Heard::Id(7), Heard::Id(8)) || both == (Heard::Id(8), Heard::Id(7))
}

/// Whoever reads first reads the answer of the other too, in one of the two orders.
#[test]
fn two_holders_are_answered_in_either_order(rt: HostRuntime) {
    let alloc = rt.alloc();
    check(
        &rt,
        "8 comes first",
        are_answered(heard_by_both(rt, alloc, &[(8, 1), (7, 1)])),
    );
    check(
        &rt,
        "7 comes first",
        are_answered(heard_by_both(rt, alloc, &[(7, 1), (8, 1)])),
    );
}

#[test]
fn an_end_is_told_to_both(rt: HostRuntime) {
    let end = Heard::Fault(IoKind::UnexpectedEof);
    check(
        &rt,
        "both hear the end",
        heard_by_both(rt, rt.alloc(), &[]) == (end, end),
    );
}
