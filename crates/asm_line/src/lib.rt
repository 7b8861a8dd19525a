//! Lines of assembly: how a text is cut into lines and words, and what the words of a line stand for.
#![tactic(auto)]

pub mod frame;
pub mod line;
pub mod operand;
pub mod read;
pub mod scan;
pub mod words;
