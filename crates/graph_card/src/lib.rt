//! The work card: a graph, packed into bytes. Each graph has one card, and each card one graph.
#![tactic(auto)]

pub mod laws;
mod layout;
pub mod read;
pub mod write;
