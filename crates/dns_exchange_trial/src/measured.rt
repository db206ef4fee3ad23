//! The multiplexer beside the plain machine: what it answers to the same events.
ghost use Rattle.std.specs.Prelude.{◌≡◌, [], false};
ghost use Rattle.dns_multiplexer.specs.Multiplexers.{machine_of};

use crate::machine::Machine;
use crate::plain_mux::{Answer, Event, SIZE, TIMEOUT};
use dns_handle::{DnsRequest, DnsRequestOptions, IoKind, NetError, Notice};
use dns_message::Message;
use dns_multiplexer::{
    BufDnsStreamHandle, DnsMultiplexer, DnsRequestSender, Draws, RequestId, SerialMessage, Taken,
};
use dns_record::NoMemory;
use std::alloc::Global;
use std::net::{IpAddr, Ipv4Addr, SocketAddr};

/// The server of all requests.
pub(crate) fn server() -> SocketAddr {
    SocketAddr::new(IpAddr::V4(Ipv4Addr::new(192, 0, 2, 1)), 53)
}

/// A query without a question.
pub(crate) fn request(alloc: Global) -> DnsRequest {
    DnsRequest {
        message: Message::query(alloc),
        options: DnsRequestOptions::default(),
        original: None,
    }
}

/// A multiplexer with the settings of the plain machine, and so many live requests at most.
pub(crate) fn multiplexer<D: Draws + Drop>(
    alloc: Global,
    draws: D,
    maximum: usize,
) -> DnsMultiplexer<D>
    ensures requests { (machine_of result).state.requests ≡ [] }
    ensures outbound { (machine_of result).state.outbound ≡ [] }
    ensures open { (machine_of result).is_shutdown ≡ false }
{
    let (handle, queue) = BufDnsStreamHandle::with_buffer_size(alloc, server(), SIZE);
    DnsMultiplexer::new(alloc, server(), handle, queue, draws)
        .with_timeout(TIMEOUT)
        .with_max_active_requests(maximum)
}

/// A response of 50 bytes: one question for `www.validate.org.`, and one address (RFC 1035, 4.1).
const RESPONSE: &[u8; 50] =
    b"\0\0\x81\x80\0\x01\0\x01\0\0\0\0\x03www\x08validate\x03org\0\0\x01\0\x01\xc0\x0c\0\x01\0\x01\0\0\x0e\x10\0\x04\xc0\0\x02\x07";

/// That response, whose id and code are to be set.
pub(crate) fn response() -> [u8; 50] {
    *RESPONSE
}

/// Sets the id of a response and its code, which is the mark (RFC 1035, 4.1.1).
pub(crate) fn set_front(response: &mut [u8; 50], id: u16, mark: u8) {
    let [high, low] = id.to_be_bytes();
    response[0] = high;
    response[1] = low;
    response[3] = 0x80 | (mark % 16);
}

/// That response with an id and a mark.
pub(crate) fn response_with(id: u16, mark: u8) -> [u8; 50] {
    let mut response = response();
    set_front(&mut response, id, mark);
    response
}

/// What a send is answered that is refused.
pub(crate) fn refused(error: &NetError) -> Result<Answer, NoMemory> {
    match error {
        NetError::NoMemory => Err(NoMemory),
        NetError::Busy => Ok(Answer::Busy),
        NetError::Message(Notice::IdSpaceExhausted) => Ok(Answer::Exhausted),
        NetError::Message(Notice::SendQueueFull) => Ok(Answer::QueueFull),
        _ => Ok(Answer::Other),
    }
}

/// What a send is answered.
pub(crate) fn send<D: Draws + Drop>(
    alloc: Global,
    mux: &mut DnsMultiplexer<D>,
    moment: u64,
) -> Result<Answer, NoMemory> {
    if mux.is_shutdown() {
        return Ok(Answer::Other);
    }
    match mux.send_message(alloc, &request(alloc), moment) {
        Ok(RequestId(number)) => Ok(Answer::Sent(number)),
        Err(error) => refused(&error),
    }
}

/// What was taken for a request.
pub(crate) fn given(taken: &Taken) -> Answer {
    match taken {
        Taken::Item(Ok(response)) => Answer::Response(
            (response.message.response_code.0 % 16) as u8,
        ),
        Taken::Item(Err(NetError::Io(IoKind::UnexpectedEof))) => Answer::Fault,
        Taken::Item(Err(_)) => Answer::Other,
        Taken::Pending => Answer::Pending,
        Taken::Ended => Answer::Ended,
    }
}

/// What a request is given.
pub(crate) fn taken<D: Draws + Drop>(mux: &mut DnsMultiplexer<D>, number: u64) -> Answer {
    given(&mux.take(RequestId(number)))
}

/// The id of the message that is to be sent.
pub(crate) fn outbound(message: &Option<SerialMessage>) -> Answer {
    match message {
        None => Answer::Nothing,
        Some(message) => match message.bytes.as_slice() {
            [high, low, ..] => Answer::Popped(u16::from_be_bytes([*high, *low])),
            _ => Answer::Other,
        },
    }
}

/// What is popped.
pub(crate) fn popped<D: Draws + Drop>(mux: &mut DnsMultiplexer<D>) -> Answer {
    outbound(&mux.pop_outbound())
}

impl<D: Draws + Drop> Machine for DnsMultiplexer<D> {
    fn answer(&mut self, alloc: Global, event: Event) -> Result<Answer, NoMemory> {
        match event {
            Event::Send(moment) => return send(alloc, self, moment),
            Event::Arrive(id, mark) => {
                return Ok(Answer::Arrived(self.arrive(alloc, &response_with(id, mark))?));
            }
            Event::Take(number) => return Ok(taken(self, number)),
            Event::Pop => return Ok(popped(self)),
            Event::Cancel(number) => self.cancel(RequestId(number)),
            Event::Tick(now) => self.tick(now),
            Event::Close => self.close(IoKind::UnexpectedEof),
        }
        Ok(Answer::Nothing)
    }
}
