//! Preprocessing tokens: what a file of C is cut into before its directives act.
#![tactic(auto)]

mod chars;
mod length;
pub mod lines;
mod piece;
mod punctuator;
pub mod sole;
pub mod token;
mod unclosed;
