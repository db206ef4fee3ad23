//! What arguments come to.
ghost use Rattle.std.specs.Prelude.{◌≡◌, ◌≤◌, is_some, map, IfOk};
ghost use Rattle.std.specs.Option.{option_copied};
ghost use Rattle.dns_query_lookup.specs.Servers.{meanings_over};
ghost use Rattle.dns_query_run.specs.Calls.{IsFixed, TellsArguments, TellsCall, TellsQuestion, call_of, depth_of};
ghost use Rattle.dns_query_run.specs.Complaints.{complaint, server_words};
ghost use Rattle.dns_query_run.specs.Files.{IsUnread, status_without};
ghost use Rattle.dns_query_run.specs.Told.{IsSilent, told_of};

use crate::complaints::{BAD_ARGUMENTS, NO_ANSWER, anchors_told, complaint_of};
use crate::files::{AnchorsStop, FileTexts, ServerStop, anchor_lines, server_for};
use crate::fixed_texts::{help_text, version_text};
use crate::refused::arguments_told;
use crate::telling::ended_told;
use crate::told::Told;
use dns_handle::{DnsHandle, DnsRequestOptions};
use dns_io::status;
use dns_link::{Clock, Dialer};
use dns_master_file::RecordLine;
use dns_multiplexer::RandDraws;
use dns_query_handle::{
    CheckingHandle, ConnectingHandle, DeadlineHandle, FallbackHandle, NotingHandle, Stopwatch,
};
use dns_query_lookup::{Call, Outside, ask_server};
use dns_query_words::{Arguments, Form, Switches, WordsError, read_words};
use dns_record::NoMemory;
use dns_udp::UdpExchange;
use std::alloc::Global;
use std::net::SocketAddr;

// A fixed text, with status 0.
fn fixed_told(alloc: Global, text: &[u8]) -> Result<Told, NoMemory>
    ensures tells { IfOk result (λ told. IsFixed text.now (told_of told)) }
    ensures most { IfOk result (λ told. told.status ≤ 5) }
{
    let mut copy = Vec::new(alloc);
    copy.extend_from_slice(text)?;
    Ok(Told {
        status: status::DONE,
        text: copy,
        saved: Vec::new(alloc),
        complaint: Vec::new(alloc),
    })
}

// Whether the arguments name a file for the session.
fn names_file(arguments: &Arguments<'_>) -> bool
    ensures { result ≡ is_some arguments.now.save }
{
    arguments.save.is_some()
}

// Nobody is asked: nothing says whom.
fn server_told(alloc: Global, stop: ServerStop) -> Result<Told, NoMemory>
    ensures tells { IfOk result (λ told. IsSilent (status_without stop) (complaint (server_words stop)) (told_of told)) }
    ensures most { IfOk result (λ told. told.status ≤ 5) }
{
    match stop {
        ServerStop::NoAddress => complaint_of(
            alloc,
            BAD_ARGUMENTS,
            b"the server behind @ must be an IP address, or an address and a port",
        ),
        ServerStop::NoServer => complaint_of(
            alloc,
            NO_ANSWER,
            b"no server is given, and /etc/resolv.conf names none",
        ),
    }
}

// Nobody is asked: the trust anchors can't be used.
fn lines_told(alloc: Global, stop: AnchorsStop) -> Result<Told, NoMemory>
    ensures tells { IfOk result (λ told. IsUnread stop (told_of told)) }
    ensures most { IfOk result (λ told. told.status ≤ 5) }
{
    match stop {
        AnchorsStop::TooLong => complaint_of(
            alloc,
            NO_ANSWER,
            b"the file of trust anchors has more than 16777216 bytes",
        ),
        AnchorsStop::Bad(error) => anchors_told(alloc, error),
    }
}

// How deep a lookup may ask.
fn depth_of(depth: Option<u8>) -> u16
    ensures { result ≡ depth_of depth }
{
    match depth {
        Some(depth) => u16::from(depth),
        None => DnsRequestOptions::default().max_request_depth,
    }
}

// The question of some arguments, with these trust anchors, at a moment.
fn call_of<'a>(arguments: &'a Arguments<'_>, lines: &'a [RecordLine], moment: u64) -> Call<'a>
    ensures { result ≡ call_of arguments.now lines.now moment }
{
    Call {
        query: &arguments.query,
        depth: depth_of(arguments.depth),
        lines,
        moment,
        is_disabled: !arguments.switches.no_cd,
        limit_ms: u64::from(arguments.timeout) * 1000,
    }
}

// Asks a server what a call asks, tells what that comes to, and keeps it where a file is named.
fn call_told<D: Dialer + Drop, E: Dialer + Drop, T: Stopwatch + Drop>(
    alloc: Global,
    call: &Call<'_>,
    outside: Outside<D, E, T>,
    server: SocketAddr,
    switches: Switches,
    keeps: bool,
    seed: u64,
) -> Result<Told, NoMemory>
    ensures tells { IfOk result (λ told. TellsCall
        (meanings_over
        ⟦<NotingHandle<DeadlineHandle<CheckingHandle<FallbackHandle<UdpExchange<D, RandDraws>, ConnectingHandle<E, RandDraws>>>, T>, T> as DnsHandle>⟧
        ⟦<NotingHandle<DeadlineHandle<CheckingHandle<ConnectingHandle<E, RandDraws>>, T>, T> as DnsHandle>⟧)
        switches keeps call.now outside server seed (told_of told)) }
    ensures most { IfOk result (λ told. told.status ≤ 5) }
{
    let ended = ask_server(alloc, outside, server, switches.tcp, seed, call);
    ended_told(alloc, switches, keeps, call, ended)
}

// What a question comes to. The clock is read once, when all that is needed is known.
fn question_told<D: Dialer + Drop, E: Dialer + Drop, T: Stopwatch + Drop, K: Clock>(
    alloc: Global,
    arguments: &Arguments<'_>,
    files: FileTexts<'_>,
    outside: Outside<D, E, T>,
    seed: Option<u64>,
    clock: &mut K,
) -> Result<Told, NoMemory>
    ensures tells { IfOk result (λ told. TellsQuestion
        (meanings_over
        ⟦<NotingHandle<DeadlineHandle<CheckingHandle<FallbackHandle<UdpExchange<D, RandDraws>, ConnectingHandle<E, RandDraws>>>, T>, T> as DnsHandle>⟧
        ⟦<NotingHandle<DeadlineHandle<CheckingHandle<ConnectingHandle<E, RandDraws>>, T>, T> as DnsHandle>⟧)
        arguments.now (option_copied files.entry.anchors) (option_copied files.entry.resolver) outside seed (told_of told)) }
    ensures most { IfOk result (λ told. told.status ≤ 5) }
{
    let server = match server_for(arguments.server, files.resolver) {
        Ok(server) => server,
        Err(stop) => return server_told(alloc, stop),
    };
    let lines = match anchor_lines(alloc, files.anchors) {
        Ok(lines) => lines,
        Err(stop) => return lines_told(alloc, stop),
    };
    let moment = clock.now();
    let call = call_of(arguments, &lines, moment);
    let seed = seed.unwrap_or(moment);
    call_told(
        alloc,
        &call,
        outside,
        server,
        arguments.switches,
        names_file(arguments),
        seed,
    )
}

/// What arguments come to, before anything is written.
pub(crate) fn arguments_ending<D: Dialer + Drop, E: Dialer + Drop, T: Stopwatch + Drop, K: Clock>(
    alloc: Global,
    given: &[Vec<u8>],
    files: FileTexts<'_>,
    outside: Outside<D, E, T>,
    seed: Option<u64>,
    clock: &mut K,
) -> Result<Told, NoMemory>
    ensures tells { IfOk result (λ told. TellsArguments
        (meanings_over
        ⟦<NotingHandle<DeadlineHandle<CheckingHandle<FallbackHandle<UdpExchange<D, RandDraws>, ConnectingHandle<E, RandDraws>>>, T>, T> as DnsHandle>⟧
        ⟦<NotingHandle<DeadlineHandle<CheckingHandle<ConnectingHandle<E, RandDraws>>, T>, T> as DnsHandle>⟧)
        (map (λ w. w.items) given.now) (option_copied files.entry.anchors) (option_copied files.entry.resolver) outside seed
        (told_of told)) }
    ensures most { IfOk result (λ told. told.status ≤ 5) }
{
    match read_words(alloc, given) {
        Ok(Form::Ask(arguments)) => question_told(alloc, &arguments, files, outside, seed, clock),
        Ok(Form::Help) => fixed_told(alloc, help_text()),
        Ok(Form::Version) => fixed_told(alloc, version_text()),
        Err(WordsError::Refused(refusal, place)) => arguments_told(alloc, given, refusal, place),
        Err(WordsError::NoMemory) => Err(NoMemory),
    }
}
