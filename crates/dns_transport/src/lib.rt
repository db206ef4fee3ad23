//! Transport under the names that a caller looks for: connections, sockets, dialers and clocks, messages and requests over TCP
//! (RFC 7766) and over UDP (RFC 5452); and what a caller needs to name beside them.
#![tactic(auto)]

pub use dns_handle::{
    DnsHandle, DnsRequest, DnsRequestOptions, DnsResponse, IoKind, NetError, Protocol,
};
pub use dns_link::{
    Clock, Counts, Datagrams, Dialer, FixedClock, Link, ListDatagrams, ListDialer, NetCall,
    PairLink, SocketDatagrams, SocketDialer, SocketLink, SystemClock, TimedLink, kind_of,
};
pub use dns_tcp::{DnsClientStream, Feed, TcpClientStream, TcpExchange, TcpStream, unframe};
pub use dns_udp::{
    Accepted, Binding, MAX_RECEIVE_BUFFER_SIZE, Retries, UdpClientStream, UdpClientStreamBuilder,
    UdpExchange, UdpSocket, UdpStream, accept_datagram, any_address, asks_alike, is_same_peer,
    next_port, receive_buffer, spells_alike,
};
