//! One exchange that threads share: a multiplexer with the journal of its events, which is out with one caller at a time. The layer
//! above may use a `DnsExchange` as its journal and what each `CallerToken` knows of it (`specs/Tokens.antt`). What an event adds
//! to a journal, and that each journal is a history of the multiplexer, is what `dns_journal` says.
#![tactic(auto)]

mod caller_token;
mod shared_exchange;
mod turn;

pub use caller_token::CallerToken;
pub use dns_journal::ExchangeError;
pub use shared_exchange::DnsExchange;
