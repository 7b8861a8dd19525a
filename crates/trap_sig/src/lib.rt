//! What a trap is asked: its arguments and the bytes that they reach, taken from the block by the
//! trap's signature.
#![tactic(auto)]

pub mod arguments;
pub mod gather;
mod inputs;
#[cfg(test)]
mod tests;
mod words;
