//! `DnssecClient`, a client whose answers are validated (RFC 4035, 5): a validator over any handle, made at once or step by step. The
//! layer above may use its `lookup`, and its `send` as that of a `DnsHandle`, by all the clauses of the validator inside; and with them
//! the calls of `dns_client::ClientHandle`.
//!
//! ```
//! fn secure_client<H: DnsHandle + Drop, V: Verifier + Drop>(
//!     alloc: Global,
//!     client: H,
//!     anchors: TrustAnchors,
//!     verifier: V,
//! ) -> Result<DnssecClient<H, V>, NetError> {
//!     DnssecClient::<H, V>::builder(client)
//!         .trust_anchor(anchors)
//!         .build(alloc, verifier)
//! }
//! ```
#![tactic(auto)]

mod builder;
mod client;

pub use builder::AsyncSecureClientBuilder;
pub use client::DnssecClient;
