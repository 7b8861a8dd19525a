//! The parser of blocks, statements and units.
#![tactic(auto)]

mod block;
mod body;
mod declarations;
mod make;
mod part;
#[cfg(test)]
mod part_tests;
mod parts;
mod statements;
#[cfg(test)]
mod tests;
mod tied;
pub mod unit;
mod units;
