//! What everything else stands on: refusals by number, place and layer, sets of job numbers, and room for
//! what is to be written.
#![tactic(auto)]

pub mod fault;
pub mod job_set;
pub mod room;
mod word;
