//! Whom a system asks, by its `resolv.conf`.
ghost use Rattle.std.specs.Prelude.{◌≡◌, ◌≤◌, length, IfNone, IfSome};
ghost use Rattle.std.specs.Option.{option_copied};
ghost use Rattle.std.specs.declared.net.socket_addr.SocketAddr.{SocketAddr as Address};
ghost use Rattle.dns_query_files.specs.ResolverFiles.{IsFirstServer, NamesServer, after_blanks as blanks_passed, is_blank as is_a_blank, server_word as word_of_server, word_size as size_of_word};
ghost use Rattle.dns_query_files.specs.TextLines.{lines_of};

use crate::text_lines::cut_line;
use dns_query_words::alone_in;
use std::net::SocketAddr;

// Whether a byte is a space or a tab.
fn is_blank(byte: u8) -> bool
    ensures { result ≡ is_a_blank byte }
{
    matches!(byte, b' ' | b'\t')
}

// What is left after blanks.
#[tactic(auto, unfolding(crate::specs::ResolverFiles::after_blanks))]
fn after_blanks(bytes: &[u8]) -> &[u8]
    ensures { result.now ≡ blanks_passed bytes.now }
{
    let mut rest = bytes;
    'blanks: while let Some((byte, more)) = rest.split_first() {
        if !is_blank(*byte) {
            return rest;
        }
        rest = more;
    }
    rest
}

// How many bytes stand before the first blank.
#[tactic(auto, unfolding(crate::specs::ResolverFiles::word_size))]
fn word_size(bytes: &[u8]) -> usize
    ensures size { result ≡ size_of_word bytes.now }
    ensures within { result ≤ length bytes.now }
{
    let mut rest = bytes;
    'bytes: while let Some((byte, more)) = rest.split_first() {
        if is_blank(*byte) {
            return bytes.len() - rest.len();
        }
        rest = more;
    }
    bytes.len()
}

// The word behind `nameserver`, if the line begins with that.
fn server_word(line: &[u8]) -> Option<&[u8]>
    ensures { option_copied result ≡ word_of_server line.now }
{
    let rest = line.strip_prefix(b"nameserver")?;
    let (first, _) = rest.split_first()?;
    if !is_blank(*first) {
        return None;
    }
    let word = after_blanks(rest);
    Some(&word[..word_size(word)])
}

// The server that a line names.
fn server_of_line(line: &[u8]) -> Option<SocketAddr>
    ensures some { IfSome result (NamesServer line.now) }
    ensures none { IfNone result ((server : Address) → ¬ (NamesServer line.now server)) }
{
    match server_word(line) {
        Some(word) => alone_in(word),
        None => None,
    }
}

/// The server that the first line of a `resolv.conf` names that begins with `nameserver` and has an IPv4 or IPv6 address behind it: at
/// the port 53. None where no line does.
pub fn first_server(text: &[u8]) -> Option<SocketAddr>
    ensures { IsFirstServer (lines_of text.now) result }
{
    let mut rest = Some(text);
    'lines: while let Some(left) = rest {
        let (line, more) = cut_line(left);
        if let Some(server) = server_of_line(line) {
            return Some(server);
        }
        rest = more;
    }
    None
}
