//! The work graph: a value that keeps its rules by its type.
#![tactic(auto)]

pub mod draft;
pub mod graph;
pub mod laws;
pub mod limits;
