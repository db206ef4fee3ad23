//! The words that the program takes, and its fixed texts.
ghost use Rattle.std.specs.Prelude.{◌≡◌, ◌≤◌, map, IfSome};
ghost use Rattle.dns_run.specs.Forms.{IsWithin, ask_form, asked_form, form_named, form_of_five, form_of_four, form_of_three, form_of_two, bench_form, protocol_in, shown_by, verified_by, zones_in, help_text, version_text};

use crate::task::Task;
use dns_asking::ServerAddress;
use dns_bench_zones::ZoneCount;
use dns_handle::Protocol;
use dns_report::Parts;
use dns_session_lookup::Verification;
use dns_text::u8_in;

/// What the program is asked for.
#[derive(Clone, Copy)]
pub enum Form {
    /// To answer a session whose signatures are verified so, by a report that shows so much.
    Validate(Verification, Parts),
    /// To do another task on an input.
    Task(Task),
    /// To look the host of so many nested zones up, from 1 to 100.
    Bench(u8),
    /// To answer a session whose signatures are verified so, and to explain the answer or not, over a server at an address.
    Ask(Verification, bool, Protocol, ServerAddress),
    /// To tell its forms.
    Help,
    /// To tell its version.
    Version,
}

// How signatures are verified, by the first word of a call to answer a session.
fn verified_by(word: &[u8]) -> Option<Verification>
    ensures { result ≡ verified_by word.now }
{
    if word == b"validate".as_slice() {
        return Some(Verification::ByList);
    }
    if word == b"verify".as_slice() {
        return Some(Verification::ByArithmetic);
    }
    None
}

// The same, with how much a report shows, where words ask to answer a session.
fn shown_by(words: &[Vec<u8>]) -> Option<(Verification, Parts)>
    ensures { result ≡ shown_by (map (λ w. w.items) words.now) }
{
    match words {
        [word] => {
            let how = verified_by(word)?;
            Some((how, Parts::Answer))
        }
        [word, next] if next.as_slice() == b"trail".as_slice() => {
            let how = verified_by(word)?;
            Some((how, Parts::WithTrail))
        }
        _ => None,
    }
}

// What else one word asks for.
fn form_named(word: &[u8]) -> Option<Form>
    ensures value { result ≡ form_named word.now }
    ensures within { IsWithin result }
{
    if word == b"audit".as_slice() {
        return Some(Form::Task(Task::Audit));
    }
    if word == b"questions".as_slice() {
        return Some(Form::Task(Task::Questions));
    }
    if word == b"roll".as_slice() {
        return Some(Form::Task(Task::Roll));
    }
    if word == b"deny".as_slice() {
        return Some(Form::Task(Task::Deny));
    }
    if word == b"explain".as_slice() {
        return Some(Form::Task(Task::Explain(Verification::ByList)));
    }
    if word == b"--help".as_slice() {
        return Some(Form::Help);
    }
    if word == b"--version".as_slice() {
        return Some(Form::Version);
    }
    None
}

// How many nested zones a word says.
fn zones_in(word: &[u8]) -> Option<u8>
    ensures value { result ≡ zones_in word.now }
    ensures within { IfSome result (λ n. (1 ≤ n) × (n ≤ 100)) }
{
    let number = u8_in(word)?;
    let zones = ZoneCount::new(number)?;
    Some(zones.number())
}

// To look the host of as many nested zones up as a word says.
fn bench_form(zones: &[u8]) -> Option<Form>
    ensures value { result ≡ bench_form (zones_in zones.now) }
    ensures within { IsWithin result }
{
    let zones = zones_in(zones)?;
    Some(Form::Bench(zones))
}

// What else two words ask for.
fn form_of_two(word: &[u8], next: &[u8]) -> Option<Form>
    ensures value { result ≡ form_of_two word.now next.now }
    ensures within { IsWithin result }
{
    if word == b"bench".as_slice() {
        return bench_form(next);
    }
    if word == b"explain".as_slice() && next == b"verify".as_slice() {
        return Some(Form::Task(Task::Explain(Verification::ByArithmetic)));
    }
    None
}

// What carries messages to a server.
fn protocol_in(word: &[u8]) -> Option<Protocol>
    ensures { result ≡ protocol_in word.now }
{
    if word == b"udp".as_slice() {
        return Some(Protocol::Udp);
    }
    if word == b"tcp".as_slice() {
        return Some(Protocol::Tcp);
    }
    None
}

// To ask a server at an address.
fn ask_form(how: Verification, explains: bool, carried: &[u8], address: &[u8]) -> Option<Form>
    ensures value { result ≡ ask_form how explains carried.now address.now }
    ensures within { IsWithin result }
{
    let protocol = protocol_in(carried)?;
    let server = ServerAddress::read(address)?;
    Some(Form::Ask(how, explains, protocol, server))
}

// What three words ask for.
fn form_of_three(word: &[u8], carried: &[u8], address: &[u8]) -> Option<Form>
    ensures value { result ≡ form_of_three word.now carried.now address.now }
    ensures within { IsWithin result }
{
    if word == b"ask".as_slice() {
        return ask_form(Verification::ByList, false, carried, address);
    }
    None
}

// What four words ask for.
fn form_of_four(word: &[u8], next: &[u8], carried: &[u8], address: &[u8]) -> Option<Form>
    ensures value { result ≡ form_of_four word.now next.now carried.now address.now }
    ensures within { IsWithin result }
{
    if word == b"ask".as_slice() && next == b"verify".as_slice() {
        return ask_form(Verification::ByArithmetic, false, carried, address);
    }
    if word == b"ask".as_slice() && next == b"explain".as_slice() {
        return ask_form(Verification::ByList, true, carried, address);
    }
    None
}

// What five words ask for.
fn form_of_five(
    word: &[u8],
    next: &[u8],
    third: &[u8],
    carried: &[u8],
    address: &[u8],
) -> Option<Form>
    ensures value { result ≡ form_of_five word.now next.now third.now carried.now address.now }
    ensures within { IsWithin result }
{
    if word == b"ask".as_slice() && next == b"explain".as_slice() && third == b"verify".as_slice() {
        return ask_form(Verification::ByArithmetic, true, carried, address);
    }
    None
}

/// What words ask for.
pub(crate) fn form_of(words: &[Vec<u8>]) -> Option<Form>
    ensures value { result ≡ asked_form words.now }
    ensures within { IsWithin result }
{
    if let Some((how, shows)) = shown_by(words) {
        return Some(Form::Validate(how, shows));
    }
    match words {
        [word] => form_named(word),
        [word, next] => form_of_two(word, next),
        [word, carried, address] => form_of_three(word, carried, address),
        [word, next, carried, address] => form_of_four(word, next, carried, address),
        [word, next, third, carried, address] => {
            form_of_five(word, next, third, carried, address)
        }
        _ => None,
    }
}

/// The program's forms, a line each.
pub(crate) fn help_text() -> &'static [u8]
    ensures { result.now ≡ help_text }
{
    b"dns_check validate        reads a session and writes the report of its lookup\ndns_check validate trail  the same, and how the lookup came about, step by step\ndns_check verify          as validate, with signatures computed in place of the session's list\ndns_check verify trail    as validate trail, likewise\ndns_check explain         reads a session and writes the report and the trail of its lookup, and why each set isn't secure\ndns_check explain verify  the same, with signatures computed\ndns_check audit           reads a session and a report behind it, and writes which of its parts hold\ndns_check questions       reads a session and writes which signatures a verifier must be asked for\ndns_check roll            reads sightings of a zone's keys and writes which of them are trusted\ndns_check deny            reads a session and questions behind it, and writes which of them the records of its answer deny\ndns_check bench N         looks a host up below N nested zones, 1 to 100, and writes what that took\ndns_check ask udp ADDRESS reads a session and writes the report of its lookup over a server, as 192.0.2.1:53\ndns_check ask tcp ADDRESS the same over a connection\ndns_check ask verify udp ADDRESS, ask verify tcp ADDRESS  the same, with signatures computed\ndns_check ask explain ..  as ask, and as explain: ask explain udp ADDRESS, ask explain verify tcp ADDRESS\ndns_check --help          writes these lines\ndns_check --version       writes the name and the version\n"
}

/// The program's name and version.
pub(crate) fn version_text() -> &'static [u8]
    ensures { result.now ≡ version_text }
{
    b"dns_check 0.1.0\n"
}
