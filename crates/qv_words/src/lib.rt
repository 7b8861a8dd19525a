//! The words of the command line, and the command that they stand for.
#![tactic(auto)]

mod calls;
pub mod command;
mod define;
mod finish;
pub mod names;
mod number;
mod options;
mod read;
mod text;
mod verb;
pub mod words;
