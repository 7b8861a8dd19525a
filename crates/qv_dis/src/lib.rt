//! Writes images as assembly text, and the text is linked to them again.
#![tactic(auto)]

pub mod text;
