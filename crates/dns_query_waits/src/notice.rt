//! What is said while an answer is awaited.
use dns_message::Message;
use dns_query_handle::{Stopwatch, SystemStopwatch};
use std::alloc::Global;
use std::io::Print;
use std::net::SocketAddr;
use std::time;

/// A wait of so many milliseconds is spoken of.
pub(crate) const SPOKEN_OF_MS: u64 = 1000;

/// The length of a message has two bytes (RFC 1035, 4.2.2).
const LONGEST_MESSAGE: usize = 65_535;

/// Whether and where it is said that an answer is awaited, and the clock by which that is told.
#[derive(Clone, Copy, Drop)]
pub(crate) struct Voice<C, P> {
    /// Nothing is said otherwise.
    pub(crate) speaks: bool,
    /// Where requests are read again.
    pub(crate) alloc: Global,
    pub(crate) clock: C,
    pub(crate) printer: P,
}

/// A request that was sent, and since when an answer is awaited.
#[derive(Drop)]
pub(crate) struct Notice<C: Drop, P: Drop> {
    voice: Voice<C, P>,
    server: Option<SocketAddr>,
    request: Vec<u8>,
    /// None where nothing is awaited, or where that was said.
    watch: Option<SystemStopwatch<C>>,
}

impl<C: time::Clock + Copy + Drop, P: Print + Copy + Drop> Notice<C, P> {
    /// Nothing was sent yet.
    pub(crate) fn new(voice: Voice<C, P>) -> Notice<C, P> {
        Notice {
            voice,
            server: None,
            request: Vec::new(voice.alloc),
            watch: None,
        }
    }

    /// Bytes of a request go to a server, from now on.
    pub(crate) fn send(&mut self, server: SocketAddr, bytes: &[u8]) {
        self.server = Some(server);
        // Without memory nothing is said.
        let _ = self.request.extend_from_slice(bytes);
        self.watch = Some(SystemStopwatch::new(self.voice.clock));
    }

    /// Another request begins.
    pub(crate) fn clear(&mut self) {
        self.request.clear();
    }

    /// Says whom an answer is awaited from, and to what, where that takes longer than a second and wasn't said yet. The request stands
    /// behind so many bytes.
    pub(crate) fn look(&mut self, front: usize) {
        let Some(watch) = &mut self.watch else {
            return;
        };
        if !self.voice.speaks || watch.elapsed_ms() < SPOKEN_OF_MS {
            return;
        }
        self.watch = None;
        if let (Some(server), Some(message)) = (self.server, self.request.get(front..)) {
            say_awaited(self.voice, server, message);
        }
    }
}

// Says whom an answer to a request is awaited from.
fn say_awaited<C: Drop, P: Print + Drop>(voice: Voice<C, P>, server: SocketAddr, request: &[u8]) {
    if request.len() > LONGEST_MESSAGE {
        return;
    }
    let Ok(message) = Message::from_vec(voice.alloc, request) else {
        return;
    };
    let Some(asked) = message.queries.first() else {
        return;
    };
    let name = &asked.name;
    let record_type = asked.query_type;
    let _ = voice.printer.println(format_args!(
        "dns_query: waiting for {server} to answer {name} {record_type}"
    ));
}
