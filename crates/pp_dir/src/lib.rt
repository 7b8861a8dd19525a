//! Directives: what a unit of C is after preprocessing.
#![tactic(auto)]

pub mod condition;
mod conditional;
mod constant;
mod cursor;
mod definition;
pub mod directive;
pub mod fault;
mod file;
pub mod group;
mod header;
pub mod operator;
pub mod part;
pub mod passage;
mod search;
mod section;
mod settle;
pub mod state;
#[cfg(test)]
mod tests;
pub mod unit;
pub mod value;
mod words;
mod worth;
