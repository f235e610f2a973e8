//! The head of a work card, and how a field of a card is read.
#![tactic(auto)]

pub mod header;
pub mod layout;
pub mod read;
