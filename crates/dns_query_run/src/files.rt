//! What is taken of files: whom to ask, and which keys to trust.
ghost use Rattle.std.specs.Prelude.{◌≡◌, None, Ok, IfErr, IfOk};
ghost use Rattle.std.specs.Option.{option_copied, option_map};
ghost use Rattle.dns_query_files.specs.AnchorFiles.{anchors_in};
ghost use Rattle.dns_query_run.specs.Files.{HasNoAnchors, HasNoServer, IsServerFor, anchors_text};

use dns_io::INPUT_LIMIT;
use dns_master_file::RecordLine;
use dns_query_files::{AnchorsError, first_server, read_anchors, root_anchors};
use dns_query_words::server_in;
use std::alloc::Global;
use std::net::SocketAddr;

/// The texts of files that a call may need.
#[derive(Clone, Copy)]
pub struct FileTexts<'a> {
    /// Trust anchors, as lines of a master file; where there are none, the root's keys that stand in the program are trusted.
    pub anchors: Option<&'a [u8]>,
    /// The system's `resolv.conf`, if it has one.
    pub resolver: Option<&'a [u8]>,
}

/// Why nobody is asked.
#[derive(Clone, Copy, Debug, PartialEq, Eq, Drop)]
pub(crate) enum ServerStop {
    /// The text behind `@` is no address.
    NoAddress,
    /// `resolv.conf` names no server, or isn't there.
    NoServer,
}

/// Why trust anchors aren't read.
#[derive(Clone, Copy, Debug, PartialEq, Eq, Drop)]
pub(crate) enum AnchorsStop {
    /// The text has more than 16,777,216 bytes.
    TooLong,
    /// A line can't be used, or there is none.
    Bad(AnchorsError),
}

// The first server of a `resolv.conf`, if there is one.
fn system_server(resolver: Option<&[u8]>) -> Result<SocketAddr, ServerStop>
    ensures some { IfOk result (IsServerFor None (option_copied resolver.entry)) }
    ensures none { IfErr result (λ stop. HasNoServer stop None (option_copied resolver.entry)) }
{
    let Some(text) = resolver else {
        return Err(ServerStop::NoServer);
    };
    match first_server(text) {
        Some(server) => Ok(server),
        None => Err(ServerStop::NoServer),
    }
}

/// Whom a call asks: the server that a text names, or the system's where there is no text.
pub(crate) fn server_for(
    text: Option<&[u8]>,
    resolver: Option<&[u8]>,
) -> Result<SocketAddr, ServerStop>
    ensures some { IfOk result (IsServerFor (option_map (λ t. t.now) text.entry) (option_copied resolver.entry)) }
    ensures none { IfErr result (λ stop. HasNoServer stop (option_map (λ t. t.now) text.entry) (option_copied resolver.entry)) }
{
    let Some(text) = text else {
        return system_server(resolver);
    };
    match server_in(text) {
        Some(server) => Ok(server),
        None => Err(ServerStop::NoAddress),
    }
}

/// The records of the trust anchors of a text, or of those that stand in the program where there is no text.
pub(crate) fn anchor_lines(
    alloc: Global,
    text: Option<&[u8]>,
) -> Result<Vec<RecordLine>, AnchorsStop>
    ensures lines { IfOk result (λ lines. anchors_in (anchors_text (option_copied text.entry)) ≡ Ok lines.items) }
    ensures none { IfErr result (λ stop. HasNoAnchors stop (anchors_text (option_copied text.entry))) }
{
    let text = match text {
        Some(text) => text,
        None => root_anchors(),
    };
    if text.len() > INPUT_LIMIT {
        return Err(AnchorsStop::TooLong);
    }
    match read_anchors(alloc, text) {
        Ok(lines) => Ok(lines),
        Err(error) => Err(AnchorsStop::Bad(error)),
    }
}
