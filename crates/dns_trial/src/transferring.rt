//! A zone's transfer from a server of this machine, over a multiplexer.

use crate::trial_zone::{known_soa, push_record, server_at, zone};
use dns_handle::{DnsRequest, DnsRequestOptions, IoKind, NetError};
use dns_link::{Dialer, Link, SocketDialer};
use dns_message::Message;
use dns_multiplexer::{
    BufDnsStreamHandle, DnsMultiplexer, DnsRequestSender, RandDraws, RequestId, Taken,
};
use dns_record::{NoMemory, Record};
use dns_tcp::{Feed, TcpStream};
use dns_transfer::TransferState;
use dns_update::zone_transfer;
use std::alloc::Global;
use std::net::SocketAddr;

/// What a transfer has brought: how far it is, the lines of its records, and how many they are.
struct Brought {
    transfer: TransferState,
    lines: Vec<u8>,
    records: u64,
}

// By hand, so that a function that drops it calls this.
impl Drop for Brought {
    fn drop(self) {
        let Brought {
            transfer: _,
            lines: _,
            records: _,
        } = self;
    }
}

impl Brought {
    // Takes the answers of the next message.
    fn take(&mut self, answers: &[Record]) -> Result<(), NetError> {
        self.transfer.process(answers)?;
        for record in answers {
            push_record(&mut self.lines, record)?;
            self.records = self.records.saturating_add(1);
        }
        Ok(())
    }
}

// Hands the bytes of a message to the multiplexer, and takes what then waits for the request.
fn hand_over(
    alloc: Global,
    multiplexer: &mut DnsMultiplexer<RandDraws>,
    number: RequestId,
    bytes: &[u8],
    brought: &mut Brought,
) -> Result<(), NetError> {
    if bytes.len() > 65_535 {
        return Err(NetError::Io(IoKind::InvalidData));
    }
    multiplexer.arrive(alloc, bytes)?;
    if let Taken::Item(reply) = multiplexer.take(number) {
        let response = reply?;
        brought.take(&response.message.answers)?;
    }
    Ok(())
}

// Reads messages up to the transfer's last, each taken before the next is read.
fn receive<L: Link + Drop>(
    alloc: Global,
    stream: &mut TcpStream<L>,
    multiplexer: &mut DnsMultiplexer<RandDraws>,
    number: RequestId,
    brought: &mut Brought,
) -> Result<(), NetError> {
    for _ in 0..u64::MAX {
        match stream.feed()? {
            Feed::More => {}
            Feed::Message(message) => {
                hand_over(
                    alloc,
                    multiplexer,
                    number,
                    message.bytes.as_slice(),
                    brought,
                )?;
            }
            Feed::Closed => break,
        }
        if brought.transfer.is_ended() {
            break;
        }
    }
    Ok(())
}

// Writes the message that waits to be sent.
fn write_out<L: Link + Drop>(
    stream: &mut TcpStream<L>,
    handle: &mut BufDnsStreamHandle,
    multiplexer: &mut DnsMultiplexer<RandDraws>,
) -> Result<(), NetError> {
    let Some(message) = multiplexer.pop_outbound() else {
        return Ok(());
    };
    if message.bytes.is_empty() {
        return Ok(());
    }
    stream.enqueue(handle, message)?;
    for _ in 0..u64::MAX {
        if stream.drain()? {
            break;
        }
    }
    Ok(())
}

// Sends a request over a link, and takes the messages that come for it.
fn transfer_over<L: Link + Drop>(
    alloc: Global,
    link: L,
    server: SocketAddr,
    request: &DnsRequest,
    brought: &mut Brought,
) -> Result<(), NetError> {
    let (mut stream, mut handle) = TcpStream::from_stream(alloc, link, server);
    let (sender, queue) = BufDnsStreamHandle::new(alloc, server);
    let draws = RandDraws::from_seed(1);
    let mut multiplexer = DnsMultiplexer::new(alloc, server, sender, queue, draws);
    let number = multiplexer.send_message(alloc, request, 0)?;
    write_out(&mut stream, &mut handle, &mut multiplexer)?;
    receive(alloc, &mut stream, &mut multiplexer, number, brought)
}

// The request for the zone, or for what has changed since a serial number.
fn request(alloc: Global, serial: u32) -> Result<DnsRequest, NoMemory> {
    let message: Message = zone_transfer(alloc, zone(alloc)?, known_soa(alloc, serial)?)?;
    Ok(DnsRequest {
        message,
        options: DnsRequestOptions::default(),
        original: None,
    })
}

// Asks a server for the zone. There is no limit but that of each read, since much is read after one write.
fn bring(
    rt: &HostRuntime,
    alloc: Global,
    server: SocketAddr,
    serial: u32,
    brought: &mut Brought,
) -> Result<(), NetError> {
    let request = request(alloc, serial)?;
    let mut dial = SocketDialer::new(rt);
    let link = dial.connect(server, None, 5000)?;
    transfer_over(alloc, link, server, &request, brought)
}

/// Puts a line for each record of a transfer behind a text: of the whole zone, or, where the serial number isn't 0, of what has changed since.
/// How many records came of a transfer that ended well, and 0 of any other.
pub(crate) fn transferred(
    rt: &HostRuntime,
    alloc: Global,
    port: u32,
    serial: u32,
    text: &mut Vec<u8>,
) -> Result<u64, NoMemory> {
    let mut brought = Brought {
        transfer: TransferState::new(serial != 0),
        lines: Vec::new(alloc),
        records: 0,
    };
    let came = bring(rt, alloc, server_at(port), serial, &mut brought);
    if let Err(NetError::NoMemory) = came {
        return Err(NoMemory);
    }
    text.extend_from_slice(&brought.lines)?;
    let is_whole = came.is_ok() && brought.transfer.is_ended();
    Ok(if is_whole { brought.records } else { 0 })
}
