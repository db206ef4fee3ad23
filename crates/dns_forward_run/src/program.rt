//! The forwarder over any source, any sink, any network, any listener and any clock.
ghost use Rattle.std.specs.Prelude.{◌≡◌, ◌≤◌, None};
ghost use Rattle.dns_io.specs.Runs.{outside, AnInput};
ghost use Rattle.dns_forward_run.specs.Forms.{AreFew, asked_form, words_ask};
ghost use Rattle.dns_forward_run.specs.Forwards.{EndsByWords, EndsForward, IsStopped, StopsByWords, met_of, net_view};
ghost use Rattle.dns_forward_run.specs.Keeping.{KeepsForward};

use crate::form::{Form, form_of, help_text, version_text};
use crate::forwarding::{Forwarding, forward};
use dns_io::status::{self, read_status, refuse_long, refuse_words, write_text};
use dns_io::{ReadStop, RunEnd, Sink, Source, read_all};
use dns_link::{Clock, Dialer};
use dns_listener::Listener;
use std::alloc::Global;
use std::random::RandomSource;
use std::sync::Wait;
use std::thread::Threads;

/// Reads a session, serves clients by it with the words of the call, those after the program's name, and answers the status. Of the
/// session the trusted keys, the algorithms, the depth and the accepted signatures are used.
///
/// With `udp LISTEN UPSTREAM COUNT` one seat takes datagrams that come to an address, and asks the server by datagrams. With
/// `tcp LISTEN UPSTREAM CONNECTIONS COUNT` it connects to the server, then waits for that many connections of clients, and serves all
/// of them side by side, each by a seat of its own. All seats share one cache.
///
/// 0: each seat had its requests or heard that no more come, and its line is written. 1: the same, and some seat's port failed. 2: the
/// words aren't a form, and nothing was read. 3: the input is no session; the first bad line is named. 4: a read, connecting or listening
/// failed, and nothing is written. 5: a write failed after a prefix of the text. 6: memory ran out, or the system gave no random bytes.
/// 7: the input has more than 16,777,216 bytes.
///
/// Ids and ports are drawn by a generator that is seeded with the clock's moment, so they can be foretold.
pub fn run_forward<S, W, D, N, K, Rt>(
    rt: &Rt,
    alloc: Global,
    words: &[Vec<u8>],
    input: &mut S,
    output: &mut W,
    dial: D,
    listen: &mut N,
    clock: K,
) -> RunEnd<D>
where
    S: Source,
    W: Sink,
    D: Dialer + Drop + Send,
    D::Link: Send,
    D::Datagrams: Send,
    N: Listener,
    N::Port: Send,
    K: Clock + Clone + Drop + Send,
    Rt: Threads + Wait + RandomSource + Copy + Send + Sync,
    // How the run ends by its words, its input and what its seats did.
    ensures ends { EndsByWords (net_view D.counts D.calls N.counts N.told) (asked_form words.now)
        (met_of dial result.dial listen.old listen.new) result.status (S.left input.old) (W.taken output.old) (W.taken output.new) }

    // 4 has its cause outside.
    ensures stopped { result.status ≡ 4 → StopsByWords (net_view D.counts D.calls N.counts N.told) (asked_form words.now)
        (met_of dial result.dial listen.old listen.new) (S.faults input.old) (S.faults input.new) }

    // The dialer is lost only where memory ran out.
    ensures dialer { result.dial ≡ None → result.status ≡ 6 }

    // The other statuses from 5 on have their causes outside, an input is read to its end or not at all, and counts never fall.
    ensures outside { KeepsForward (outside S.left S.faults W.taken W.faults W.takes_memory) (words_ask words.now)
        result.status input.old input.new output.old output.new }
{
    run_forward_seeded(rt, alloc, words, input, output, dial, listen, clock, None)
}

// Reads a session, and serves clients by it.
#[tactic(auto, using(crate::proofs::ForwardLemmas::keeps_read, crate::proofs::ForwardLemmas::keeps_long))]
fn read_and_forward<S, W, D, N, K, Rt>(
    rt: &Rt,
    alloc: Global,
    given: Forwarding<D, K>,
    input: &mut S,
    output: &mut W,
    listen: &mut N,
) -> RunEnd<D>
where
    S: Source,
    W: Sink,
    D: Dialer + Drop + Send,
    D::Link: Send,
    D::Datagrams: Send,
    N: Listener,
    N::Port: Send,
    K: Clock + Clone + Drop + Send,
    Rt: Threads + Wait + RandomSource + Copy + Send + Sync,
    requires few { AreFew given.service.carried }
    requires bound { given.service.count ≤ 1000 }
    ensures ends { EndsForward (net_view D.counts D.calls N.counts N.told) given.service
        (met_of given.dial result.dial listen.old listen.new) result.status (S.left input.old) (W.taken output.old) (W.taken output.new) }
    ensures stopped { result.status ≡ 4 → IsStopped (net_view D.counts D.calls N.counts N.told) given.service
        (met_of given.dial result.dial listen.old listen.new) (S.faults input.old) (S.faults input.new) }
    ensures dialer { result.dial ≡ None → result.status ≡ 6 }
    ensures outside { KeepsForward (outside S.left S.faults W.taken W.faults W.takes_memory) AnInput
        result.status input.old input.new output.old output.new }
{
    match read_all(alloc, input) {
        Ok(bytes) => forward(*rt, alloc, given, &bytes, output, listen),
        Err(ReadStop::TooLong) => RunEnd {
            status: refuse_long(output),
            dial: Some(given.dial),
        },
        Err(stop) => RunEnd {
            status: read_status(stop),
            dial: Some(given.dial),
        },
    }
}

/// [`run_forward`], with a seed from which ids and ports are drawn; None stands for the clock's moment. Whoever knows the seed knows the
/// draws.
pub fn run_forward_seeded<S, W, D, N, K, Rt>(
    rt: &Rt,
    alloc: Global,
    words: &[Vec<u8>],
    input: &mut S,
    output: &mut W,
    dial: D,
    listen: &mut N,
    clock: K,
    seed: Option<u64>,
) -> RunEnd<D>
where
    S: Source,
    W: Sink,
    D: Dialer + Drop + Send,
    D::Link: Send,
    D::Datagrams: Send,
    N: Listener,
    N::Port: Send,
    K: Clock + Clone + Drop + Send,
    Rt: Threads + Wait + RandomSource + Copy + Send + Sync,
    // How the run ends by its words, its input and what its seats did.
    ensures ends { EndsByWords (net_view D.counts D.calls N.counts N.told) (asked_form words.now)
        (met_of dial result.dial listen.old listen.new) result.status (S.left input.old) (W.taken output.old) (W.taken output.new) }

    // 4 has its cause outside.
    ensures stopped { result.status ≡ 4 → StopsByWords (net_view D.counts D.calls N.counts N.told) (asked_form words.now)
        (met_of dial result.dial listen.old listen.new) (S.faults input.old) (S.faults input.new) }

    // The dialer is lost only where memory ran out.
    ensures dialer { result.dial ≡ None → result.status ≡ 6 }

    // The other statuses from 5 on have their causes outside, an input is read to its end or not at all, and counts never fall.
    ensures outside { KeepsForward (outside S.left S.faults W.taken W.faults W.takes_memory) (words_ask words.now)
        result.status input.old input.new output.old output.new }
{
    match form_of(words) {
        Some(Form::Forward(service)) => {
            let given = Forwarding {
                service,
                seed,
                dial,
                clock,
            };
            read_and_forward(rt, alloc, given, input, output, listen)
        }
        Some(Form::Help) => RunEnd {
            status: write_text(status::DONE, help_text(), output),
            dial: Some(dial),
        },
        Some(Form::Version) => RunEnd {
            status: write_text(status::DONE, version_text(), output),
            dial: Some(dial),
        },
        None => RunEnd {
            status: refuse_words(output),
            dial: Some(dial),
        },
    }
}
