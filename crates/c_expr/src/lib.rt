//! The parser of expressions and initializers.
#![tactic(auto)]

mod binary;
mod exprs;
mod init;
mod look;
mod make;
pub mod part;
mod postfix;
mod primary;
pub mod read;
pub mod tied;
mod unary;
