//! The program over any files, any network, any clock and any sinks.
ghost use Rattle.std.specs.Prelude.{◌≤◌, map};
ghost use Rattle.std.specs.Option.{option_copied};
ghost use Rattle.dns_query_lookup.specs.Servers.{meanings_over};
ghost use Rattle.dns_query_run.specs.Calls.{TellsArguments};
ghost use Rattle.dns_query_run.specs.Endings.{EndsRun, EndsTold, KeepsSinks, sink_met};
ghost use Rattle.dns_query_run.specs.Told.{told_of};

use crate::endings::arguments_ending;
use crate::files::FileTexts;
use crate::told::Told;
use crate::unwritten::{OUT_OF_MEMORY, say, write_parts};
use dns_handle::DnsHandle;
use dns_io::{Sink, status};
use dns_link::{Clock, Dialer};
use dns_multiplexer::RandDraws;
use dns_query_handle::{
    CheckingHandle, ConnectingHandle, DeadlineHandle, FallbackHandle, NotingHandle, Stopwatch,
};
use dns_query_lookup::Outside;
use dns_record::NoMemory;
use dns_udp::UdpExchange;
use std::alloc::Global;

// Writes what a call comes to, each part to its own place.
fn write_told<W: Sink, S: Sink, Z: Sink>(
    told: &Told,
    output: &mut W,
    saved: &mut S,
    errors: &mut Z,
) -> u8
    ensures ends { EndsTold (told_of told.now)
        (sink_met W.taken W.faults W.takes_memory output.old output.new)
        (sink_met S.taken S.faults S.takes_memory saved.old saved.new)
        (sink_met Z.taken Z.faults Z.takes_memory errors.old errors.new) result }
    ensures most { told.now.status ≤ 6 → result ≤ 6 }
    ensures later { W.faults output.old ≤ W.faults output.new }
    ensures saved_later { S.faults saved.old ≤ S.faults saved.new }
    ensures errors_later { Z.faults errors.old ≤ Z.faults errors.new }
{
    say(&told.complaint, errors);
    match write_parts(told, output, saved) {
        Ok(()) => told.status,
        Err(stop) => {
            say(stop.complaint(), errors);
            stop.status()
        }
    }
}

/// Runs the program with its arguments, those after its name, and answers its status.
///
/// 0: all that was asked for is Secure, or its denial is; or the text that was asked for is written. 1: something of it is Insecure, and
/// nothing worse. 2: the arguments aren't a call, or name no server. 3: something of it is Bogus, or nobody judged it. 4: there is no answer:
/// nobody could be asked, no key is trusted, or the server's answer is an error. 5: a write failed, or the lookup can't be saved. 6: memory
/// ran out.
///
/// The server that the arguments name is asked, or the first of `resolv.conf`: first for the key sets of zones whose digests are trust anchors,
/// then for the question and for what proves its answer. Each query has the CD bit, unless the arguments say otherwise, goes by
/// datagrams, and again over a connection where its response is truncated; once the time is over none is sent. Ids and ports are drawn from
/// the seed; None stands for the clock's moment, from which they can be foretold.
///
/// An answer goes to `output`, and why there is none to `errors`; so does all else that is wrong. Where a write to `output` or `saved` fails, a
/// prefix of its text was taken. What can't be written to `errors` is lost.
///
/// Where the arguments name a file, `saved` takes a session of the lookup: what came for each query, with the signatures that count. A lookup of
/// that session, by the signatures that it lists, comes to the same answer, with the same trail. Else nothing is written to `saved`.
pub fn run_query<
    W: Sink,
    S: Sink,
    Z: Sink,
    D: Dialer + Drop,
    E: Dialer + Drop,
    T: Stopwatch + Drop,
    K: Clock,
>(
    alloc: Global,
    arguments: &[Vec<u8>],
    files: FileTexts<'_>,
    outside: Outside<D, E, T>,
    seed: Option<u64>,
    clock: &mut K,
    output: &mut W,
    saved: &mut S,
    errors: &mut Z,
) -> u8
    // How the run ends by what its arguments come to, which has its status, its text, what is saved of it and what is said of it.
    ensures ends { EndsRun (TellsArguments
        (meanings_over
        ⟦<NotingHandle<DeadlineHandle<CheckingHandle<FallbackHandle<UdpExchange<D, RandDraws>, ConnectingHandle<E, RandDraws>>>, T>, T> as DnsHandle>⟧
        ⟦<NotingHandle<DeadlineHandle<CheckingHandle<ConnectingHandle<E, RandDraws>>, T>, T> as DnsHandle>⟧)
        (map (λ w. w.items) arguments.now) (option_copied files.entry.anchors) (option_copied files.entry.resolver) outside seed)
        (sink_met W.taken W.faults W.takes_memory output.old output.new)
        (sink_met S.taken S.faults S.takes_memory saved.old saved.new)
        (sink_met Z.taken Z.faults Z.takes_memory errors.old errors.new) result }

    // No status is above 6, and counts of failed writes never fall.
    ensures keeps { KeepsSinks
        (sink_met W.taken W.faults W.takes_memory output.old output.new)
        (sink_met S.taken S.faults S.takes_memory saved.old saved.new)
        (sink_met Z.taken Z.faults Z.takes_memory errors.old errors.new) result }
{
    match arguments_ending(alloc, arguments, files, outside, seed, clock) {
        Ok(told) => write_told(&told, output, saved, errors),
        Err(NoMemory) => {
            say(OUT_OF_MEMORY, errors);
            status::NO_MEMORY
        }
    }
}
