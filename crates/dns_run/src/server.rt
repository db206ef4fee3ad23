//! What bytes come to that are a session, over a server in place of the session's replies.
ghost use Rattle.std.specs.Prelude.{◌≡◌, ◌≢◌, ◌<◌, ◌^◌, ◌≤◌, length, IfOk, IsOk, MatchResult};
ghost use Rattle.std.specs.Option.{option_map};
ghost use Rattle.std.specs.Io.KnownBytes.{Appends};
ghost use Rattle.dns_handle.specs.Replies.{reply_of};
ghost use Rattle.dns_asking.specs.Servers.{network};
ghost use Rattle.dns_io.specs.Reading.{input_limit};
ghost use Rattle.dns_io.specs.Runs.{outside, AnInput, KeepsOutside, KeepsSink};
ghost use Rattle.dns_io.specs.Writing.{TakesPrefix};
ghost use Rattle.dns_session.specs.Stops.{NamesLine};
ghost use Rattle.dns_run.specs.Asks.{IsInquiryOf, IsReplyText};
ghost use Rattle.dns_run.specs.Calls.{AnswersBytes, AnswersInquiry, AnswersSessionAt, EndsAsked, WritesAnswer, WritesPrefixOf};
ghost use Rattle.dns_run.specs.Explaining.{judge_by};
ghost use Rattle.dns_run.specs.ExplainingOver.{IsJudgingOf, IsToldText};

use crate::explain::explained;
use crate::judging::{Judging, judging_at};
use dns_asking::{AskEnd, Inquiry, ServerAddress, ask_server};
use dns_handle::{DnsHandle, DnsResponse, NetError, Protocol};
use dns_io::status::{self, read_status, refuse_long, write_text};
use dns_io::{ReadStop, Sink, Source, read_all};
use dns_link::{Clock, Dialer, Link};
use dns_multiplexer::RandDraws;
use dns_record::NoMemory;
use dns_report::{Parts, write_fault, write_report};
use dns_session::{Session, SessionStop, bad_line_text, read_session};
use dns_session_lookup::{
    SessionVerifier, Verification, session_anchors, session_options, session_verifier,
};
use dns_tcp::TcpExchange;
use dns_udp::UdpExchange;
use std::alloc::Global;

/// A server, and what is needed to ask it.
#[derive(Drop)]
pub(crate) struct ServerAsk<D: Drop> {
    /// How the signatures of the session are verified.
    pub(crate) how: Verification,
    /// Whether the answer is explained.
    pub(crate) explains: bool,
    pub(crate) protocol: Protocol,
    pub(crate) server: ServerAddress,
    /// What ids and ports are drawn from; None for the moment.
    pub(crate) seed: Option<u64>,
    pub(crate) dial: D,
}

/// What bytes come to over a server: a status and a text, and the dialer that was given.
#[derive(Drop)]
pub(crate) struct ServerEnding<D: Drop> {
    pub(crate) ending: Result<(u8, Vec<u8>), NoMemory>,
    pub(crate) dial: D,
}

/// How a run ends that asks a server.
#[derive(Drop)]
pub(crate) struct AskedEnd<D: Drop> {
    pub(crate) status: u8,
    pub(crate) dial: D,
}

// What a session asks at a moment.
fn inquiry_at(
    alloc: Global,
    how: Verification,
    session: Session,
    moment: u64,
) -> Result<Inquiry<SessionVerifier>, NoMemory>
    ensures { IfOk result (λ i. IsInquiryOf how session moment i) }
{
    let Session {
        by_turn: _,
        moment: _,
        depth,
        algorithms,
        anchors,
        accepts,
        query,
        replies: _,
    } = session;
    let verifier = session_verifier(alloc, how, &algorithms, accepts)?;
    let anchors = session_anchors(alloc, anchors)?;
    Ok(Inquiry {
        query,
        depth: session_options(depth).max_request_depth,
        anchors,
        verifier,
        moment,
    })
}

// The same, with by what sets are judged, where the answer is to be explained.
fn inquiry_with(
    alloc: Global,
    explains: bool,
    how: Verification,
    session: Session,
    moment: u64,
) -> Result<(Option<Judging>, Inquiry<SessionVerifier>), NoMemory>
    ensures judging { IfOk result (λ x. IsJudgingOf explains how session moment x.0) }
    ensures inquiry { IfOk result (λ x. IsInquiryOf how session moment x.1) }
{
    let judging = judging_if(alloc, explains, how, &session, moment)?;
    let inquiry = inquiry_at(alloc, how, session, moment)?;
    Ok((judging, inquiry))
}

// The report of an answer, or the line of a fault.
#[tactic(auto, using(dns_handle::proofs::ErrorLemmas::untold_no_memory))]
fn reply_ending(
    alloc: Global,
    reply: &Result<DnsResponse, NetError>,
) -> Result<(u8, Vec<u8>), NoMemory>
    ensures ends { IfOk result (λ x. IsReplyText (reply_of reply.now) x.0 x.1.items) }
    ensures low { IfOk result (λ x. x.0 < 4) }
{
    match reply {
        Ok(answer) => {
            let text = write_report(alloc, answer, Parts::Answer)?;
            Ok((status::DONE, text))
        }
        Err(error) => {
            if error.is_no_memory() {
                return Err(NoMemory);
            }
            let text = write_fault(alloc, error)?;
            Ok((status::FAULT, text))
        }
    }
}

// The first bad line.
fn refused(alloc: Global, number: u64) -> Result<(u8, Vec<u8>), NoMemory>
    ensures ends { IfOk result (λ x. NamesLine number x.0 x.1.items) }
    ensures low { IfOk result (λ x. x.0 < 4) }
{
    let text = bad_line_text(alloc, number)?;
    Ok((status::BAD_INPUT, text))
}

// The status and the text of an answer, which is explained where it is known by what its sets are judged.
fn told_ending(
    alloc: Global,
    judging: &Option<Judging>,
    reply: &Result<DnsResponse, NetError>,
) -> Result<(u8, Vec<u8>), NoMemory>
    ensures ends { IfOk result (λ x. IsToldText (option_map (λ j. (judge_by j, j.limits)) judging.now) (reply_of reply.now) x.0 x.1.items) }
    ensures low { IfOk result (λ x. x.0 < 4) }
{
    match judging {
        Some(judging) => explained(alloc, judging, reply),
        None => reply_ending(alloc, reply),
    }
}

// By what the sets of a session's lookup are judged at a moment, where its answer is to be explained.
fn judging_if(
    alloc: Global,
    explains: bool,
    how: Verification,
    session: &Session,
    moment: u64,
) -> Result<Option<Judging>, NoMemory>
    ensures { IfOk result (IsJudgingOf explains how session.now moment) }
{
    if explains {
        let judging = judging_at(alloc, how, session, moment)?;
        Ok(Some(judging))
    } else {
        Ok(None)
    }
}

// What a server answers to an inquiry.
fn ask_inquiry<D: Dialer + Drop>(
    alloc: Global,
    given: ServerAsk<D>,
    judging: &Option<Judging>,
    inquiry: Inquiry<SessionVerifier>,
) -> ServerEnding<D>
    ensures ends { AnswersInquiry
        (network D.counts D.given_bytes D.given_datagrams D.calls D.Link.counts D.Link.given D.Link.calls
        ⟦<UdpExchange<D, RandDraws> as DnsHandle>⟧ ⟦<TcpExchange<D::Link, RandDraws> as DnsHandle>⟧)
        given judging.now inquiry result }
    ensures low { IfOk result.ending (λ x. x.0 < 4) }
{
    let ServerAsk {
        how: _,
        explains: _,
        protocol,
        server,
        seed,
        dial,
    } = given;
    let draws = RandDraws::from_seed(seed.unwrap_or(inquiry.moment));
    let AskEnd { reply, dial } = ask_server(alloc, dial, draws, protocol, server, inquiry);
    let ending = told_ending(alloc, judging, &reply);
    ServerEnding { ending, dial }
}

// What a server answers to a session at a moment.
fn ask_session<D: Dialer + Drop>(
    alloc: Global,
    given: ServerAsk<D>,
    session: Session,
    moment: u64,
) -> ServerEnding<D>
    ensures ends { AnswersSessionAt
        (network D.counts D.given_bytes D.given_datagrams D.calls D.Link.counts D.Link.given D.Link.calls
        ⟦<UdpExchange<D, RandDraws> as DnsHandle>⟧ ⟦<TcpExchange<D::Link, RandDraws> as DnsHandle>⟧)
        given session moment result }
    ensures low { IfOk result.ending (λ x. x.0 < 4) }
{
    match inquiry_with(alloc, given.explains, given.how, session, moment) {
        Ok((judging, inquiry)) => ask_inquiry(alloc, given, &judging, inquiry),
        Err(NoMemory) => ServerEnding {
            ending: Err(NoMemory),
            dial: given.dial,
        },
    }
}

// What bytes come to. The clock is read once, after the grammar and before a server is asked.
fn ask_bytes<D: Dialer + Drop, K: Clock>(
    alloc: Global,
    given: ServerAsk<D>,
    bytes: &[u8],
    clock: &mut K,
) -> ServerEnding<D>
    requires { length bytes.now < 2 ^ 32 }
    ensures ends { AnswersBytes
        (network D.counts D.given_bytes D.given_datagrams D.calls D.Link.counts D.Link.given D.Link.calls
        ⟦<UdpExchange<D, RandDraws> as DnsHandle>⟧ ⟦<TcpExchange<D::Link, RandDraws> as DnsHandle>⟧)
        given bytes.now result }
    ensures low { IfOk result.ending (λ x. x.0 < 4) }
{
    match read_session(alloc, bytes) {
        Ok(session) => {
            let moment = clock.now();
            ask_session(alloc, given, session, moment)
        }
        Err(SessionStop::BadLine(number)) => ServerEnding {
            ending: refused(alloc, number),
            dial: given.dial,
        },
        Err(SessionStop::NoMemory) => ServerEnding {
            ending: Err(NoMemory),
            dial: given.dial,
        },
    }
}

// Writes what bytes came to.
fn write_ending<W: Sink>(ending: Result<(u8, Vec<u8>), NoMemory>, output: &mut W) -> u8
    requires { IfOk ending (λ x. x.0 < 4) }
    ensures written { result < 4 → IfOk ending (λ x. (result ≡ x.0) × Appends (W.taken output.old) (W.taken output.new) x.1.items) }
    ensures only { result < 4 → IsOk ending }
    ensures prefix { MatchResult ending (λ x. TakesPrefix (W.taken output.old) (W.taken output.new) x.1.items) (λ e. output.new ≡ output.old) }
    ensures keeps { KeepsSink W.faults result output.old output.new }
{
    match ending {
        Ok((status, text)) => write_text(status, &text, output),
        Err(NoMemory) => status::NO_MEMORY,
    }
}

// Asks a server what bytes ask for, and writes what it answers.
fn answer_bytes<W: Sink, D: Dialer + Drop, K: Clock>(
    alloc: Global,
    given: ServerAsk<D>,
    bytes: &[u8],
    output: &mut W,
    clock: &mut K,
) -> AskedEnd<D>
    requires { length bytes.now ≤ input_limit }
    ensures ends { WritesAnswer
        (network D.counts D.given_bytes D.given_datagrams D.calls D.Link.counts D.Link.given D.Link.calls
        ⟦<UdpExchange<D, RandDraws> as DnsHandle>⟧ ⟦<TcpExchange<D::Link, RandDraws> as DnsHandle>⟧)
        given bytes.now result (W.taken output.old) (W.taken output.new) }
    ensures prefix { WritesPrefixOf
        (network D.counts D.given_bytes D.given_datagrams D.calls D.Link.counts D.Link.given D.Link.calls
        ⟦<UdpExchange<D, RandDraws> as DnsHandle>⟧ ⟦<TcpExchange<D::Link, RandDraws> as DnsHandle>⟧)
        given bytes.now result (W.taken output.old) (W.taken output.new) }
    ensures keeps { KeepsSink W.faults result.status output.old output.new }
{
    let ServerEnding { ending, dial } = ask_bytes(alloc, given, bytes, clock);
    let status = write_ending(ending, output);
    AskedEnd { status, dial }
}

/// Reads a session, asks a server what it asks for, and writes what that answers.
#[tactic(auto, using(dns_io::proofs::Runs::keeps_answered, dns_io::proofs::Runs::keeps_long, dns_io::proofs::Runs::keeps_stopped, crate::proofs::AskLemmas::stopped_asked))]
pub(crate) fn ask<S: Source, W: Sink, D: Dialer + Drop, K: Clock>(
    alloc: Global,
    given: ServerAsk<D>,
    input: &mut S,
    output: &mut W,
    clock: &mut K,
) -> AskedEnd<D>
    ensures ends { EndsAsked
        (network D.counts D.given_bytes D.given_datagrams D.calls D.Link.counts D.Link.given D.Link.calls
        ⟦<UdpExchange<D, RandDraws> as DnsHandle>⟧ ⟦<TcpExchange<D::Link, RandDraws> as DnsHandle>⟧)
        given result (S.left input.old) (W.taken output.old) (W.taken output.new) }
    ensures form { result.status ≢ 2 }
    ensures outside { KeepsOutside (outside S.left S.faults W.taken W.faults W.takes_memory) AnInput
        result.status input.old input.new output.old output.new }
{
    match read_all(alloc, input) {
        Ok(bytes) => answer_bytes(alloc, given, &bytes, output, clock),
        Err(ReadStop::TooLong) => AskedEnd {
            status: refuse_long(output),
            dial: given.dial,
        },
        Err(stop) => AskedEnd {
            status: read_status(stop),
            dial: given.dial,
        },
    }
}
