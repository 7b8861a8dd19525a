//! Types of C.
#![tactic(auto)]

pub mod compatibility;
pub mod ctype;
pub mod kind;
pub mod layout;
pub mod operator;
pub mod tags;
#[cfg(test)]
mod tests;
