//! A turn: the one value is taken out of the queue, and given back.
ghost use Rattle.std.specs.Prelude.{◌≡◌, true, Some};
ghost use Rattle.turns.specs.Turns.{Begins, Agrees, IsSound, Takes, given};
ghost use Rattle.crossbeam_queue.specs.Passes.{view, IsSamePass, IsPassOf, ruled_capacity};
ghost use Rattle.dns_journal.specs.Calls.{IsJournal};
ghost use Rattle.dns_shared_exchange.specs.Tokens.{IsKnown};

use crossbeam_queue::protocol::{Join, Lesson, Outcome, Protocol, Split};
use crossbeam_queue::{Pass, RuledArrayQueue};
use dns_journal::JournaledCore;
use std::marker::Model;
use std::sync::Wait;
use std::thread;

/// What a pass knows. No value of it is made.
pub struct View {}

impl Model for View {
    ghost use Rattle.turns.specs.Turns.{Known, spent};
    ghost use Rattle.dns_multiplexer.specs.Machine.{Settings};
    ghost use Rattle.dns_journal.specs.Entries.{Entry};

    ghost Value = { Known Settings Entry };

    ghost view = { λ _. spent };
}

/// The rule of taking turns.
pub struct OneTurn {}

impl Protocol<JournaledCore, View> for OneTurn {
    ghost use Rattle.turns.specs.Turns.{Kept, founder};

    ghost holds = { Kept };

    ghost first = { founder };
}

/// The core is taken out of the queue.
pub(crate) struct Taking {}

impl Outcome<JournaledCore, View> for Taking {
    ghost use Rattle.turns.specs.Turns.{Takes};

    ghost then = { Takes };
}

impl Lesson<JournaledCore, View> for Taking {
    ghost use Rattle.std.specs.Prelude.{⊤};

    ghost fact = { λ v items. ⊤ };
}

/// It is given back.
pub(crate) struct Giving {}

impl Outcome<JournaledCore, View> for Giving {
    ghost use Rattle.std.specs.Prelude.{◌≡◌};
    ghost use Rattle.turns.specs.Turns.{given};

    ghost then = { λ v x w. w ≡ given v x };
}

impl Lesson<JournaledCore, View> for Giving {
    ghost use Rattle.std.specs.Prelude.{◌≡◌, []};

    ghost fact = { λ v items. items ≡ [] };
}

/// A new pass has seen as much, and has made no call.
pub(crate) struct Splitting {}

impl Split<View> for Splitting {
    ghost use Rattle.turns.specs.Turns.{newcomer};

    ghost left = { λ v. v };

    ghost right = { newcomer };
}

/// Two passes are one.
pub(crate) struct Joining {}

impl Join<View> for Joining {
    ghost use Rattle.turns.specs.Turns.{joined, spent};

    ghost both = { joined };

    ghost spent = { spent };
}

impl Lesson<JournaledCore, View> for Joining {
    ghost use Rattle.turns.specs.Turns.{IsSound};

    ghost fact = { λ v items. IsSound v };
}

pub type Line = RuledArrayQueue<JournaledCore, View, OneTurn>;

/// Takes the core out of the queue, once it is there.
pub(crate) fn take_turn<W: Wait>(
    rt: &W,
    line: &Line,
    pass: &mut Pass<JournaledCore, View>,
) -> JournaledCore
    requires pass { IsPassOf line.now pass.old }
    requires sound { IsSound (view pass.old) }
    ensures pass { IsSamePass pass.old pass.new }
    ensures taken { Takes (view pass.old) result (view pass.new) }
    ensures sound { IsSound (view pass.new) }
{
    for _ in rt.forever() {
        if let Some(core) = line.pop_as::<Taking, W>(rt, pass) {
            return core;
        }
        thread::yield_now();
    }
    unreachable!()
}

/// Gives the core back.
pub(crate) fn give_turn<W: Wait>(
    rt: &W,
    line: &Line,
    pass: &mut Pass<JournaledCore, View>,
    core: JournaledCore,
)
    requires pass { IsPassOf line.now pass.old }
    requires one { ruled_capacity line.now ≡ 1 }
    requires out { (view pass.old).is_out ≡ true }
    requires begun { Begins core.journal (view pass.old).journal }
    requires about { Agrees (view pass.old).about (Some core.about) }
    requires sound { IsSound (view pass.old) }
    requires legal { IsJournal core }
    ensures pass { IsSamePass pass.old pass.new }
    ensures given { view pass.new ≡ given (view pass.old) core }
    ensures known { IsKnown (view pass.new) }
{
    let Ok(()) = line.push_as::<Giving, W>(rt, pass, core) else {
        unreachable!()
    };
}
