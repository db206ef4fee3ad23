//! What the program for questions reads of files: whom the system asks, by `resolv.conf`, and which keys are trusted, by a file of
//! DNSKEY and DS records. The layer above may use [`first_server`] and [`read_anchors`], which are the definitions of what such texts
//! say, and the root's keys as [`root_anchors`] has them.
#![tactic(auto)]

mod anchor_file;
mod anchors_error;
mod resolver_file;
mod root_keys;
mod text_lines;

pub use anchor_file::read_anchors;
pub use anchors_error::AnchorsError;
pub use resolver_file::first_server;
pub use root_keys::root_anchors;
