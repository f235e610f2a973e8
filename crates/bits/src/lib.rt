//! Fields of 1 to 63 bits in bytes, most significant bit first, with bits counted from 0.
//! This crate answers bits and counts. What a format refuses, it says itself.
#![tactic(auto)]

mod bit;
pub mod field;
pub mod laws;
pub mod number;
pub mod tail;
