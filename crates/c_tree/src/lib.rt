//! The syntax trees of C.
//!
//! Each node has the place and the number of its first token. Parentheses, the comma behind the last item of a list,
//! `const` and `volatile` are kept, so that a tree has its tokens.
#![tactic(auto)]

pub mod at;
pub mod declaration;
pub mod declaring;
pub mod expr;
pub mod height;
pub mod operator;
pub mod stmt;
