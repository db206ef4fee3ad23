//! Three holders of one connection.
ghost use Rattle.std.specs.Prelude.{◌≡◌, ◌<◌};

use crate::heard::Heard;
use crate::holders::{asked, exchange_of, holder_over};
use crate::parts::{check, draws_of, link_of};
use std::alloc::Global;
use std::marker::Brand;
use std::process::Abort;
use std::sync::Wait;
use std::sync::ledger::{Blank, Ledger};

// Whether each of three holders is answered, and then the first again.
fn all_are_answered<W: Abort + Wait + Copy, G: Ledger>(rt: W, alloc: Global, blank: Blank) -> bool
    requires name { blank.name ≡ G.name }
    requires parts { blank.parts ≡ G.parts }
    requires three { G.parts ≡ 3 }
{
    let (exchange, token) = exchange_of(&rt, alloc, draws_of(&rt, alloc, &[7, 8, 9, 10]));
    let link = link_of(&rt, alloc, &[(7, 1), (8, 1), (9, 1), (10, 1)]);
    let holder = holder_over::<W, G, _, _>(rt, alloc, exchange, token, link, blank);
    let (holder, mut second) = holder.split().ok().expect(&rt, "memory");
    let (mut first, mut third) = holder.split().ok().expect(&rt, "memory");
    asked(alloc, &mut first) == Heard::Id(7)
        && asked(alloc, &mut second) == Heard::Id(8)
        && asked(alloc, &mut third) == Heard::Id(9)
        && asked(alloc, &mut first) == Heard::Id(10)
}

fn three_are_answered<W: Abort + Wait + Copy>(rt: W, alloc: Global) -> bool {
    all_are_answered::<W, Brand>(rt, alloc, Blank::new(3))
}

#[test]
fn three_holders_are_answered(rt: HostRuntime) {
    check(&rt, "all are answered", three_are_answered(rt, rt.alloc()));
}
