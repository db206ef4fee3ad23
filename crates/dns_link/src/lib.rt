//! The outside of the network: links, datagram sockets, a dialer that makes them, and a clock.
//!
//! [`Link`] carries a stream of bytes, [`Datagrams`] carries datagrams, [`Dialer`] makes both, and
//! [`Clock`] tells the moment. The first three count what they met. A layer above is generic over them
//! and says by these counts what an answer came from, since no contract knows what a network gives.
//!
//! [`PairLink`], [`ListDatagrams`], [`ListDialer`] and [`FixedClock`] are in memory: they tell what they
//! give, and fail where they are told to. [`SocketLink`], [`SocketDatagrams`], [`SocketDialer`] and
//! [`SystemClock`] stand over std, a few lines each: the edge that is trusted.
#![tactic(auto)]

mod call_log;
mod call_plan;
mod clock;
mod counts;
mod datagrams;
mod deadline;
mod dialer;
mod io_kinds;
mod link;
mod list_datagrams;
mod list_dialer;
mod net_call;
mod pair_link;
mod pieces;
mod socket_datagrams;
mod socket_dialer;
mod socket_link;

pub use clock::{Clock, FixedClock, SystemClock};
pub use counts::Counts;
pub use datagrams::Datagrams;
pub use dialer::Dialer;
pub use io_kinds::kind_of;
pub use link::Link;
pub use list_datagrams::ListDatagrams;
pub use list_dialer::ListDialer;
pub use net_call::NetCall;
pub use pair_link::PairLink;
pub use socket_datagrams::SocketDatagrams;
pub use socket_dialer::SocketDialer;
pub use socket_link::{SocketLink, TimedLink};
