//! Images and their files.
#![tactic(auto)]

pub mod fault;
pub mod header;
pub mod image;
pub mod read;
#[cfg(test)]
mod sample;
pub mod write;
