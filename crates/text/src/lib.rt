//! Lines of text, written into lent bytes.
#![tactic(auto)]

mod line;
pub mod refusal;
pub mod sheet;
