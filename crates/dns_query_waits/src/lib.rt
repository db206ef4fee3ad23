//! A dialer whose links and sockets say whom they wait for, and for what, once that takes more than a second, and which wait for nothing once
//! the time is over. They stand over those of another dialer. No contract speaks of what is said, nor of the time. The layer above may
//! use [`WaitingDialer`] as a dialer.
#![tactic(auto)]

mod end;
mod notice;
mod waiting_datagrams;
mod waiting_dialer;
mod waiting_link;

pub use waiting_dialer::WaitingDialer;
