//! What comes for the requests of an exchange that threads share, a poll at a time. The layer above may use of a `DnsExchangeSend` that
//! a poll of it is one take (`specs/Polls.antt`); an `ExchangeStream` is the same as a stream. Of a `DnsExchangeBackground` it may use
//! which messages a poll hands over, and how it ends (`specs/Backgrounds.antt`). A caller finds the names of `dns_shared_exchange`
//! here too, and those of `dns_multiplexer` that it needs to make an exchange: so all of the subject.
#![tactic(auto)]

mod background;
mod exchange_send;
mod exchange_stream;

pub use background::DnsExchangeBackground;
pub use dns_multiplexer::{
    Arrival, BufDnsStreamHandle, DnsMultiplexer, Draws, ListDraws, RandDraws, RequestId,
    SerialMessage, StreamReceiver, Taken,
};
pub use dns_shared_exchange::{CallerToken, DnsExchange, ExchangeError};
pub use exchange_send::DnsExchangeSend;
pub use exchange_stream::ExchangeStream;
