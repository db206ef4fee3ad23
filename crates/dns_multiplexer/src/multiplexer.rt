//! `DnsMultiplexer`, a core with its generator of ids.
ghost use Rattle.std.specs.Prelude.{◌≡◌};

use crate::multiplexer_core::{MultiplexerCore, encoded_request};
use crate::stream_handle::{BufDnsStreamHandle, StreamReceiver};
use crate::{Arrival, DnsRequestSender, Draws, RequestId, SerialMessage, Taken};
use dns_handle::{DnsRequest, IoKind, NetError};
use dns_record::{NoMemory, Octets};
use std::alloc::Global;
use std::net::SocketAddr;

/// The number of each event, since nobody asks which event brought an item.
const UNNUMBERED: u64 = 0;

/// Sends many requests over one connection, and hands each response to its request by the id (RFC 1035, 4.1.1; RFC 7766,
/// 6.2.1). It reads no socket and no clock: bytes that came are handed to `arrive`, what is to be sent is taken from
/// `pop_outbound`, and `tick` says what time it is.
///
/// What waits for a request that ended is kept until it was taken, and its room until a `take` has answered `Ended`, or a
/// `cancel`.
#[derive(Drop)]
pub struct DnsMultiplexer<R: Draws + Drop> {
    core: MultiplexerCore,
    draws: R,
}

impl<R: Draws + Drop> DnsMultiplexer<R> {
    ghost use Rattle.std.specs.Prelude.{[], false};
    ghost use Rattle.dns_multiplexer.specs.Draws.{IsPop};
    ghost use Rattle.dns_multiplexer.specs.Machine.{with_maximum};
    ghost use Rattle.dns_multiplexer.specs.Multiplexers.{machine_of, draws_of};

    /// No request yet; requests end after 5,000 milliseconds, and 32 are live at most. What waits in the queue already is
    /// sent first. Messages go to the handle's address, whatever the server is.
    ///
    /// ```
    /// fn first_message(
    ///     alloc: Global,
    ///     server: SocketAddr,
    ///     request: &DnsRequest,
    ///     now_ms: u64,
    /// ) -> Result<Option<SerialMessage>, NetError> {
    ///     let (handle, queue) = BufDnsStreamHandle::new(alloc, server);
    ///     let draws = RandDraws::from_seed(now_ms);
    ///     let mut multiplexer = DnsMultiplexer::new(alloc, server, handle, queue, draws);
    ///     multiplexer.send_message(alloc, request, now_ms)?;
    ///     Ok(multiplexer.pop_outbound())
    /// }
    /// ```
    pub fn new(
        alloc: Global,
        _server: SocketAddr,
        handle: BufDnsStreamHandle,
        queue: StreamReceiver,
        draws: R,
    ) -> DnsMultiplexer<R>
        ensures settings { (machine_of result).settings
            ≡ record { timeout = 5000; maximum = 32; buffer = handle.buffer; server = handle.addr } }
        ensures state { (machine_of result).state ≡ record { requests = []; outbound = queue } }
        ensures open { (machine_of result).is_shutdown ≡ false }
        ensures draws { draws_of result ≡ draws }
    {
        DnsMultiplexer {
            core: MultiplexerCore::new(alloc, handle, queue),
            draws,
        }
    }

    /// Requests end after so many milliseconds.
    pub fn with_timeout(mut self, ms: u64) -> DnsMultiplexer<R>
        requires { (machine_of self).state.requests ≡ [] }
        ensures timeout { machine_of result
            ≡ record (machine_of self) { settings = record (machine_of self).settings { timeout = ms } } }
        ensures draws { draws_of result ≡ draws_of self }
    {
        self.core.set_timeout(ms);
        self
    }

    /// So many requests are live at most. With 0 each send is `Busy`.
    pub fn with_max_active_requests(mut self, max: usize) -> DnsMultiplexer<R>
        ensures maximum { machine_of result
            ≡ record (machine_of self) { settings = with_maximum max (machine_of self).settings } }
        ensures draws { draws_of result ≡ draws_of self }
    {
        self.core.set_max_active_requests(max);
        self
    }

    /// The core and the generator by themselves, for those who keep them apart.
    pub fn into_parts(self) -> (MultiplexerCore, R)
        ensures core { result.0.machine ≡ machine_of self }
        ensures draws { result.1 ≡ draws_of self }
    {
        let DnsMultiplexer { core, draws } = self;
        (core, draws)
    }

    /// Takes the next message that is to be sent out of the queue. None exactly where none waits. It takes no memory.
    pub fn pop_outbound(&mut self) -> Option<SerialMessage>
        ensures popped { IsPop (machine_of self.old).settings (machine_of self.old).state (machine_of self.new).state result }
        ensures kept { machine_of self.new ≡ record (machine_of self.old) { state = (machine_of self.new).state } }
        ensures draws { draws_of self.new ≡ draws_of self.old }
    {
        self.core.pop_outbound()
    }
}

impl<R: Draws + Drop> DnsRequestSender for DnsMultiplexer<R> {
    ghost use Rattle.dns_multiplexer.specs.Draws.{Drawn};
    ghost use Rattle.dns_multiplexer.specs.Multiplexers.{machine_of, draws_of};

    ghost machine = { machine_of };

    ghost drew = { λ old ids new. Drawn R.draws_id (draws_of old) ids (draws_of new) };

    fn send_message(
        &mut self,
        alloc: Global,
        request: &DnsRequest,
        now_ms: u64,
    ) -> Result<RequestId, NetError> {
        let encoded = encoded_request(request)?;
        self.core.send(alloc, &mut self.draws, encoded, now_ms)
    }

    fn shutdown(&mut self) {
        self.core.shutdown();
    }

    fn is_shutdown(&self) -> bool {
        self.core.is_shutdown()
    }

    fn arrive(&mut self, alloc: Global, bytes: &[u8]) -> Result<Arrival, NoMemory> {
        let bytes = Octets::from_slice(alloc, bytes)?;
        self.core.arrive(alloc, bytes, UNNUMBERED)
    }

    fn take(&mut self, id: RequestId) -> Taken {
        let (taken, _) = self.core.take(id);
        taken
    }

    fn cancel(&mut self, id: RequestId) {
        self.core.cancel(id);
    }

    fn tick(&mut self, now_ms: u64) {
        self.core.tick(now_ms);
    }

    fn close(&mut self, fault: IoKind) {
        self.core.close(fault, UNNUMBERED);
    }
}
