//! The words that the program takes, and its fixed texts.
ghost use Rattle.std.specs.Prelude.{◌≡◌, ◌≤◌, map, IfSome};
ghost use Rattle.dns_forward_run.specs.Forms.{AreFew, IsWithin, asked_form, connections_in, count_in, form_named, form_of_five, form_of_four, help_text, service_in, version_text};

use dns_asking::ServerAddress;
use dns_text::decimal_in;

/// What carries the requests of clients, and those to the server.
#[derive(Clone, Copy, Debug, PartialEq, Eq)]
pub enum Carried {
    /// Datagrams, of all clients to one socket.
    Datagrams,
    /// So many connections of clients, from 1 to 32, and one to the server.
    Connections(u8),
}

/// What is served, and over which server.
#[derive(Clone, Copy, Debug, PartialEq, Eq)]
pub struct Service {
    /// What carries requests.
    pub carried: Carried,
    /// Where clients send theirs to.
    pub listen: ServerAddress,
    /// The server that is asked.
    pub upstream: ServerAddress,
    /// How many requests each seat has at most, up to 1,000.
    pub count: u32,
}

/// What the program is asked for.
#[derive(Clone, Copy)]
pub enum Form {
    /// To serve clients.
    Forward(Service),
    /// To tell its forms.
    Help,
    /// To tell its version.
    Version,
}

// How many connections a word says.
fn connections_in(word: &[u8]) -> Option<u8>
    ensures value { result ≡ connections_in word.now }
    ensures within { IfSome result (λ n. (1 ≤ n) × (n ≤ 32)) }
{
    let number = decimal_in(word, 32)?;
    if number == 0 {
        return None;
    }
    Some(number as u8)
}

// How many requests a word says.
fn count_in(word: &[u8]) -> Option<u32>
    ensures value { result ≡ count_in word.now }
    ensures within { IfSome result (λ n. n ≤ 1000) }
{
    let number = decimal_in(word, 1000)?;
    Some(number as u32)
}

// To serve clients that send so, at an address, over a server, each seat so often.
fn service_in(carried: Carried, listen: &[u8], upstream: &[u8], count: &[u8]) -> Option<Form>
    ensures value { result ≡ service_in carried listen.now upstream.now count.now }
    ensures within { AreFew carried → IsWithin result }
{
    let listen = ServerAddress::read(listen)?;
    let upstream = ServerAddress::read(upstream)?;
    let count = count_in(count)?;
    Some(Form::Forward(Service {
        carried,
        listen,
        upstream,
        count,
    }))
}

// What one word asks for.
fn form_named(word: &[u8]) -> Option<Form>
    ensures value { result ≡ form_named word.now }
    ensures within { IsWithin result }
{
    if word == b"--help".as_slice() {
        return Some(Form::Help);
    }
    if word == b"--version".as_slice() {
        return Some(Form::Version);
    }
    None
}

// What four words ask for.
fn form_of_four(word: &[u8], listen: &[u8], upstream: &[u8], count: &[u8]) -> Option<Form>
    ensures value { result ≡ form_of_four word.now listen.now upstream.now count.now }
    ensures within { IsWithin result }
{
    if word == b"udp".as_slice() {
        return service_in(Carried::Datagrams, listen, upstream, count);
    }
    None
}

// What five words ask for.
fn form_of_five(
    word: &[u8],
    listen: &[u8],
    upstream: &[u8],
    connections: &[u8],
    count: &[u8],
) -> Option<Form>
    ensures value { result ≡ form_of_five word.now listen.now upstream.now connections.now count.now }
    ensures within { IsWithin result }
{
    if word == b"tcp".as_slice() {
        let connections = connections_in(connections)?;
        return service_in(Carried::Connections(connections), listen, upstream, count);
    }
    None
}

/// What words ask for.
pub(crate) fn form_of(words: &[Vec<u8>]) -> Option<Form>
    ensures value { result ≡ asked_form words.now }
    ensures within { IsWithin result }
{
    match words {
        [word] => form_named(word),
        [word, listen, upstream, count] => form_of_four(word, listen, upstream, count),
        [word, listen, upstream, connections, count] => {
            form_of_five(word, listen, upstream, connections, count)
        }
        _ => None,
    }
}

/// The program's forms, a line each.
pub(crate) fn help_text() -> &'static [u8]
    ensures { result.now ≡ help_text }
{
    b"dns_forward udp LISTEN UPSTREAM COUNT              reads a session and answers COUNT requests that come to LISTEN by datagrams, over the server UPSTREAM\ndns_forward tcp LISTEN UPSTREAM CONNECTIONS COUNT  the same over CONNECTIONS connections, COUNT requests each, and one connection to UPSTREAM\ndns_forward --help                                 writes these lines\ndns_forward --version                              writes the name and the version\n"
}

/// The program's name and version.
pub(crate) fn version_text() -> &'static [u8]
    ensures { result.now ≡ version_text }
{
    b"dns_forward 0.1.0\n"
}
