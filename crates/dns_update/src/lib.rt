//! Messages that change a zone, announce a change of it, or ask for all of it: updates (RFC 2136), notifies (RFC 1996) and queries
//! for transfers (RFC 5936, RFC 1995). Each call's clause names the message of `specs/` that it builds. All have id 0 and no flag
//! set; the sender sets the id.
//!
//! ```
//! fn add_address(alloc: Global, zone: Name, address: Record) -> Result<Message, NoMemory>
//!     requires { IsTrue (at_or_above zone address.owner) }
//! {
//!     let set = RecordSet::of(alloc, address)?;
//!     append(alloc, set, zone, false, true)
//! }
//! ```
#![tactic(auto)]

mod notifies;
mod parts;
mod transfers;
mod updates;

pub use notifies::notify;
pub use transfers::zone_transfer;
pub use updates::{append, compare_and_swap, create, delete_all, delete_by_rdata, delete_rrset};
