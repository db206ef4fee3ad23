//! The program over any source, any sink, any network and any clock.
ghost use Rattle.std.specs.Prelude.{None};
ghost use Rattle.dns_asking.specs.Servers.{network};
ghost use Rattle.dns_io.specs.Runs.{outside, KeepsOutside};
ghost use Rattle.dns_run.specs.Ends.{EndsRun, RunsOver};
ghost use Rattle.dns_run.specs.Forms.{words_ask};

use crate::form::{Form, form_of};
use crate::offline::run_offline;
use crate::server::{AskedEnd, ServerAsk, ask};
use dns_handle::DnsHandle;
use dns_io::{RunEnd, Sink, Source};
use dns_link::{Clock, Dialer, Link};
use dns_multiplexer::RandDraws;
use dns_tcp::TcpExchange;
use dns_udp::UdpExchange;
use std::alloc::Global;

/// Runs the program with its words, those after its name, and answers its status.
///
/// 0: the text that was asked for is written. 1: the lookup answered a fault, whose line is written; so does connecting. 2: the words aren't a
/// form, and nothing was read. 3: the input isn't in the grammar; the first bad line is named. 4: a read failed, and nothing
/// is written. 5: a write failed after a prefix of the text. 6: memory ran out. 7: the input has more than 16,777,216 bytes.
/// Words are judged first, then reading, then the grammar, then the lookup.
///
/// Only words that ask a server use the dialer and the clock. Then the clock is read once, after the grammar: its moment stands in place of
/// the session's, and ids and ports are drawn by a generator that is seeded with it, so they can be foretold.
pub fn run<S: Source, W: Sink, D: Dialer + Drop, K: Clock>(
    alloc: Global,
    words: &[Vec<u8>],
    input: &mut S,
    output: &mut W,
    dial: D,
    clock: &mut K,
) -> RunEnd<D>
    // How the run ends by its words, its input and its output.
    ensures ends { EndsRun words.now result.status (S.left input.old) (W.taken output.old) (W.taken output.new) }

    // How it ends where the words ask a server: ids and ports are drawn from the clock's moment.
    ensures over { RunsOver
        (network D.counts D.given_bytes D.given_datagrams D.calls D.Link.counts D.Link.given D.Link.calls
        ⟦<UdpExchange<D, RandDraws> as DnsHandle>⟧ ⟦<TcpExchange<D::Link, RandDraws> as DnsHandle>⟧)
        None words.now dial result S.left W.taken input.old output.old output.new }

    // The statuses from 4 on have their causes outside, an input is read to its end or not at all, and counts never fall.
    ensures outside { KeepsOutside (outside S.left S.faults W.taken W.faults W.takes_memory) (words_ask words.now)
        result.status input.old input.new output.old output.new }
{
    run_seeded(alloc, words, input, output, dial, clock, None)
}

/// [`run`], with a seed from which ids and ports are drawn where a server is asked; None stands for the clock's moment. Whoever knows
/// the seed knows the draws.
pub fn run_seeded<S: Source, W: Sink, D: Dialer + Drop, K: Clock>(
    alloc: Global,
    words: &[Vec<u8>],
    input: &mut S,
    output: &mut W,
    dial: D,
    clock: &mut K,
    seed: Option<u64>,
) -> RunEnd<D>
    // How the run ends by its words, its input and its output.
    ensures ends { EndsRun words.now result.status (S.left input.old) (W.taken output.old) (W.taken output.new) }

    // How it ends where the words ask a server: ids and ports are drawn from the seed, or from the clock's moment where there is none.
    ensures over { RunsOver
        (network D.counts D.given_bytes D.given_datagrams D.calls D.Link.counts D.Link.given D.Link.calls
        ⟦<UdpExchange<D, RandDraws> as DnsHandle>⟧ ⟦<TcpExchange<D::Link, RandDraws> as DnsHandle>⟧)
        seed words.now dial result S.left W.taken input.old output.old output.new }

    // The statuses from 4 on have their causes outside, an input is read to its end or not at all, and counts never fall.
    ensures outside { KeepsOutside (outside S.left S.faults W.taken W.faults W.takes_memory) (words_ask words.now)
        result.status input.old input.new output.old output.new }
{
    match form_of(words) {
        Some(Form::Ask(how, explains, protocol, server)) => {
            let given = ServerAsk {
                how,
                explains,
                protocol,
                server,
                seed,
                dial,
            };
            let AskedEnd { status, dial } = ask(alloc, given, input, output, clock);
            RunEnd {
                status,
                dial: Some(dial),
            }
        }
        _ => RunEnd {
            status: run_offline(alloc, words, input, output),
            dial: Some(dial),
        },
    }
}
