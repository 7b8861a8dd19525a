//! The grammar of C, and the parser of declarations.
#![tactic(auto)]

pub mod cursor;
mod declarators;
mod entries;
pub mod fault;
pub mod heights;
pub mod kind;
mod make;
pub mod marking;
mod marks;
mod members;
pub mod nodes;
mod params;
pub mod read;
pub mod rules;
mod spans;
mod specifiers;
mod tied;
