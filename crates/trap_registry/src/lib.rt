// Handlers of traps, by the traps' numbers.
#![tactic(auto)]

pub mod handler;
pub mod registry;
#[cfg(test)]
mod tests;
