//! The block of memory of a module, in which a mask keeps every access. Its bytes lie in one region, behind a
//! pointer that only `region` holds.
#![tactic(auto)]

pub mod block;
mod region;
#[cfg(test)]
mod tests;
