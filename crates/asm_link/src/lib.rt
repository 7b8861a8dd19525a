//! Links files of assembly into an image.
#![tactic(auto)]

mod addition;
mod check;
mod emit;
pub mod fault;
mod faults;
mod gather;
mod known;
mod lent;
pub mod link;
mod names;
mod naming;
mod noted;
mod parts;
mod read;
mod reader;
mod source;
mod state;
mod tables;
#[cfg(test)]
mod tests;
mod values;
