//! Addresses in segments, sizes, and names with what they stand for.
#![tactic(auto)]

pub mod address;
pub mod size;
pub mod symbols;
