//! The names that a C parser has declared so far, and which of them are typedef names.
#![tactic(auto)]

mod names;
#[cfg(test)]
mod tests;

pub use names::{Declared, Names};
