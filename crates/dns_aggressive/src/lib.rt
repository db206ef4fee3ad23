//! Denials that are made from records kept of earlier responses (RFC 8198). The layer above may use `NegativeStore` by its clauses:
//! which records it keeps, and what they deny.
#![tactic(auto)]

mod chain_index;
mod compacting;
mod expiries;
mod kept;
mod kept_list;
mod live;
mod negative_store;
mod nsec3_groups;
mod nsec_group;
mod nsec_search;
mod order;
mod place;
mod placing;
mod reaching;
mod sorting;
mod staying;
mod synthesizing;
mod taking;
mod zone_run;
mod zone_search;

pub use kept::{Kept, KeptRecord};
pub use negative_store::NegativeStore;
pub use synthesizing::Synthesized;
