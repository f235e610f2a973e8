//! The whole work of `plan`, on values: a card in, its answer out.
#![tactic(auto)]

pub mod answer;
