//! C tokens: what the tokens of a preprocessed unit are to the grammar.
#![tactic(auto)]

pub mod constant;
mod digits;
pub mod fault;
pub mod mark;
pub mod number;
#[cfg(test)]
mod tests;
pub mod text;
pub mod token;
pub mod tokens;
