//! What is written beside a plain answer: its chains of trust as trees, and what was asked for it. The layer above may use
//! [`push_chains`] and [`push_asks`], which append exactly the texts of `specs/`.
#![tactic(auto)]

mod asks;
mod chain_tree;
mod link_words;
mod words;

pub use asks::push_asks;
pub use chain_tree::push_chains;
