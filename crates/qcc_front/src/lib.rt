// The compiler: preprocesses a unit, reads it where it is of the first form, and translates it to assembly text whose
// image follows it.
#![tactic(auto)]

pub mod compile;
pub mod fault;
pub mod job;
mod parse;
pub mod sum;
#[cfg(test)]
mod tests;
mod translate;
mod tree;
pub mod unit;
