//! What words of an rdata mean that are more than a number, a name or bytes: addresses, times, texts and lists of types. The layer above may use the calls,
//! each of which is the definition of its name.
#![tactic(auto)]

mod addresses;
mod bitmaps;
mod texts;
mod times;

pub use addresses::{addresses_follow_their_grammar, ipv4_in, ipv6_in};
pub use bitmaps::bitmap_of;
pub use texts::text_in;
pub use times::time_in;
