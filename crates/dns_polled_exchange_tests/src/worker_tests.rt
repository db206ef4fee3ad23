//! Four workers over one connection. docs/LIBRARY.md shows this file up to the tests.
ghost use Rattle.std.specs.Prelude.{◌≡◌};

use dns_polled_exchange::{
    BufDnsStreamHandle, CallerToken, DnsExchange, DnsMultiplexer, RandDraws, RequestId, Taken,
};
use dns_transport::{
    DnsRequest, DnsRequestOptions, DnsResponse, Feed, IoKind, Link, NetError, TcpStream,
};
use dns_wire::{DNSClass, Name, Query, RecordType};
use std::alloc::Global;
use std::net::SocketAddr;
use std::sync::{Mutex, Wait};
use std::thread;
use std::thread::Threads;

/// A worker reads so many pieces at most for one request.
const MOST_READS: u32 = 10_000;

/// So many messages wait to be sent at most.
const MOST_WAITING: u32 = 33;

/// A connection that workers share.
#[derive(Drop)]
struct Connection<L: Link + Drop> {
    stream: TcpStream<L>,
    handle: BufDnsStreamHandle,
}

/// What a worker has of an exchange.
#[derive(Drop)]
struct Worker {
    exchange: DnsExchange<RandDraws>,
    token: CallerToken,
    ghost own: { token.line ≡ exchange },
}

/// The kind of a fault of a connection.
fn kind_of(error: &NetError) -> IoKind {
    match error {
        NetError::Io(kind) => *kind,
        _ => IoKind::Other,
    }
}

impl Worker {
    /// What came for a request, if anything did.
    fn taken<W: Wait>(
        &mut self,
        rt: &W,
        alloc: Global,
        id: RequestId,
    ) -> Option<Result<DnsResponse, NetError>> {
        match self.exchange.take(rt, alloc, &mut self.token, id) {
            Ok(Taken::Item(reply)) => Some(reply),
            Ok(Taken::Pending) => None,
            Ok(Taken::Ended) => Some(Err(NetError::Timeout)),
            Err(error) => Some(Err(NetError::from(error))),
        }
    }

    /// Moves what is to be sent to the connection, while that has room, and writes it.
    fn write<L: Link + Drop, W: Wait>(
        &mut self,
        rt: &W,
        connection: &mut Connection<L>,
    ) -> Result<(), NetError> {
        for _ in 0..MOST_WAITING {
            if !connection.stream.has_room(&connection.handle) {
                break;
            }
            let Some(message) = self.exchange.pop_outbound(rt, &mut self.token) else {
                break;
            };
            if !message.bytes.as_slice().is_empty() {
                connection.stream.enqueue(&mut connection.handle, message)?;
            }
        }
        for _ in 0..MOST_READS {
            if connection.stream.drain()? {
                break;
            }
        }
        Ok(())
    }

    /// Reads once, and hands a message over.
    fn read<L: Link + Drop, W: Wait>(
        &mut self,
        rt: &W,
        alloc: Global,
        connection: &mut Connection<L>,
    ) -> Result<(), NetError> {
        match connection.stream.feed()? {
            Feed::More => Ok(()),
            Feed::Closed => Err(NetError::Io(IoKind::UnexpectedEof)),
            Feed::Message(message) => {
                let bytes = message.bytes.as_slice();
                let _ = self.exchange.arrive(rt, alloc, &mut self.token, bytes)?;
                Ok(())
            }
        }
    }

    /// Writes what there is to write, and reads once.
    fn moved<L: Link + Drop, W: Wait>(
        &mut self,
        rt: &W,
        alloc: Global,
        connection: &mut Connection<L>,
    ) -> Result<(), NetError> {
        self.write(rt, connection)?;
        self.read(rt, alloc, connection)
    }

    /// What comes for a request within so many reads. A fault of the connection ends the requests of all workers.
    fn awaited<L: Link + Drop, W: Wait>(
        &mut self,
        rt: &W,
        alloc: Global,
        connection: &Mutex<Connection<L>>,
        id: RequestId,
    ) -> Result<DnsResponse, NetError> {
        for _ in 0..MOST_READS {
            if let Some(reply) = self.taken(rt, alloc, id) {
                return reply;
            }
            let mut locked = connection.lock(rt);
            // Another worker may have read it meanwhile.
            if let Some(reply) = self.taken(rt, alloc, id) {
                return reply;
            }
            if let Err(error) = self.moved(rt, alloc, &mut *locked) {
                let fault = kind_of(&error);
                let _ = self.exchange.close(rt, alloc, &mut self.token, fault);
            }
        }
        Err(NetError::Timeout)
    }

    /// The response to a request that is sent at a moment, in milliseconds.
    fn ask<L: Link + Drop, W: Wait>(
        &mut self,
        rt: &W,
        alloc: Global,
        connection: &Mutex<Connection<L>>,
        request: &DnsRequest,
        now_ms: u64,
    ) -> Result<DnsResponse, NetError> {
        let id = self
            .exchange
            .send(rt, alloc, &mut self.token, request, now_ms)?;
        let reply = self.awaited(rt, alloc, connection, id);
        let _ = self.exchange.cancel(rt, alloc, &mut self.token, id);
        reply
    }

    /// This worker, and another one beside it.
    fn beside(self) -> Result<(Worker, Worker), NetError> {
        let Worker { exchange, token } = self;
        let other = exchange.share()?;
        let Ok((token, new)) = exchange.split(token) else {
            unreachable!()
        };
        let first = Worker { exchange, token };
        let second = Worker {
            exchange: other,
            token: new,
        };
        Ok((first, second))
    }
}

/// A request for a type of records at the root.
fn request_for(alloc: Global, asked: u16) -> Result<DnsRequest, NetError> {
    let query = Query {
        name: Name::root(alloc)?,
        query_type: RecordType(asked),
        query_class: DNSClass::IN,
    };
    Ok(DnsRequest::from_query(alloc, query, DnsRequestOptions::default())?)
}

/// Whether a response is to a request for a type.
fn is_about(reply: &Result<DnsResponse, NetError>, asked: u16) -> bool {
    match reply {
        Ok(response) => match response.message.queries.first() {
            Some(query) => query.query_type.0 == asked,
            None => false,
        },
        Err(_) => false,
    }
}

/// How many of a worker's requests for types up to one are answered.
fn answered<L: Link + Drop, W: Wait>(
    rt: &W,
    alloc: Global,
    mut worker: Worker,
    connection: &Mutex<Connection<L>>,
    types: u16,
) -> u64 {
    let mut count: u64 = 0;
    for asked in 0..types {
        if let Ok(request) = request_for(alloc, asked) {
            let reply = worker.ask(rt, alloc, connection, &request, 0);
            count = count.saturating_add(u64::from(is_about(&reply, asked)));
        }
    }
    count
}

/// Four workers of one exchange.
fn workers_of<W: Wait>(rt: &W, alloc: Global, server: SocketAddr) -> Result<Vec<Worker>, NetError> {
    let (handle, queue) = BufDnsStreamHandle::new(alloc, server);
    let draws = RandDraws::from_seed(1);
    let mux = DnsMultiplexer::new(alloc, server, handle, queue, draws);
    let (exchange, token) = DnsExchange::from_stream(rt, alloc, mux)?;
    let first = Worker { exchange, token };
    let (first, second) = first.beside()?;
    let (first, third) = first.beside()?;
    let (first, fourth) = first.beside()?;
    let mut workers = Vec::new(alloc);
    workers.push(first)?;
    workers.push(second)?;
    workers.push(third)?;
    workers.push(fourth)?;
    Ok(workers)
}

/// How many requests each of four workers has answered over one link to a server.
fn four_workers<R: Threads + Wait + Sync, L: Link + Drop + Send>(
    rt: &R,
    alloc: Global,
    server: SocketAddr,
    link: L,
    types: u16,
) -> Result<Vec<u64>, NetError> {
    let (stream, handle) = TcpStream::from_stream(alloc, link, server);
    let connection = Mutex::new(Connection { stream, handle });
    let workers = workers_of(rt, alloc, server)?;
    Ok(thread::map_vec(
        rt,
        workers,
        &|worker| { answered(rt, alloc, worker, &connection, types) },
    )?)
}

#[test]
fn four_workers_ask_over_one_connection(rt: HostRuntime) {
    let alloc = rt.alloc();
    let server = crate::echo::echo_server();
    let link = crate::echo::Echo::new(alloc);
    let counts = four_workers(&rt, alloc, server, link, 250);
    let counts = counts.ok().expect(&rt, "memory");
    let all = counts.as_slice() == [250, 250, 250, 250].as_slice();
    crate::echo::check(&rt, "1,000 responses", all);
}
