//! Worked examples, proved from the definitions, and tests.
#![tactic(auto)]

#[cfg(test)]
mod answers;
#[cfg(test)]
mod faults;
#[cfg(test)]
mod fields;
#[cfg(test)]
mod sets;
pub mod worked;
