//! Assembly text, as the compiler writes it.
#![tactic(auto)]

pub mod line;
pub mod write;
