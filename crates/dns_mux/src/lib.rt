//! Requests and their responses on the way between a caller and what sends for it: a queue of requests, and polled states over
//! `futures` for what comes back. The layer above may use each as the list of `specs/` that it is. A caller finds the names of
//! `dns_multiplexer` here too, so all of the subject.
#![tactic(auto)]

mod first_answer;
mod request_queue;
mod response_receiver;
mod response_stream;

pub use dns_multiplexer::{
    Arrival, BufDnsStreamHandle, DnsMultiplexer, DnsRequestSender, DnsStreamHandle, Draws,
    ListDraws, MultiplexerCore, RandDraws, RequestId, SerialMessage, StreamReceiver, Taken,
    calls_are_events, encoded_request, replies_are_what_histories_say,
    states_are_what_histories_say,
};
pub use dns_polled_exchange::{DnsExchangeBackground, DnsExchangeSend, ExchangeStream};
pub use dns_shared_exchange::{CallerToken, DnsExchange, ExchangeError};
pub use first_answer::{FirstAnswer, FirstAnswerFuture};
pub use request_queue::{BufDnsRequestStreamHandle, OneshotDnsRequest};
pub use response_receiver::DnsResponseReceiver;
pub use response_stream::DnsResponseStream;
