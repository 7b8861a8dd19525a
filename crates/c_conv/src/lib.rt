//! Conversions of integers, and the operators on two of them.
#![tactic(auto)]

pub mod conversion;
pub mod operator;
#[cfg(test)]
mod tests;
