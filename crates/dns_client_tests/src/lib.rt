//! Tests of messages that change a zone, tell of it or ask for all of it, of clients that send them, and of transfers: by what
//! `dns_update`, `dns_client` and `dns_transfer` give.
//!
//! They stand apart, since a crate with tests of its own is proved twice.
#![tactic(auto)]

#[cfg(test)]
mod client_calls;
#[cfg(test)]
mod client_parts;
#[cfg(test)]
mod client_tests;
#[cfg(test)]
mod large_client_tests;
#[cfg(test)]
mod large_rows;
#[cfg(test)]
mod large_update_tests;
#[cfg(test)]
mod library_tests;
#[cfg(test)]
mod memo_tests;
#[cfg(test)]
mod parts;
#[cfg(test)]
mod reader_tests;
#[cfg(test)]
mod response_tests;
#[cfg(test)]
mod transfer_list_tests;
#[cfg(test)]
mod transfer_tests;
#[cfg(test)]
mod transfers;
#[cfg(test)]
mod update_rows;
#[cfg(test)]
mod update_tests;
