//! Macros and their expansion by hide sets.
#![tactic(auto)]

mod call;
mod expander;
mod fault;
mod fill;
mod macros;
mod meaning;
mod paste;
mod pending;
mod pieces;
mod spell;
mod table;
pub mod tokens;
mod unread;

pub use expander::expand;
pub use fault::ExpandFault;
pub use macros::Macro;
pub use table::{DefineFault, MacroTable};
