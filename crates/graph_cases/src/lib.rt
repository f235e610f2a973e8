//! Worked turnrounds, proved from the definitions, and tests of graphs and their cards.
#![tactic(auto)]

#[cfg(test)]
mod cards;
#[cfg(test)]
mod graphs;
pub mod turnrounds;
