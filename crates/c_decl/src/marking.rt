//! Constructs that are left out.

use c_tree::at::At;

/// A construct that is read and left out.
#[derive(Clone, Copy, Debug, PartialEq, Eq)]
pub enum Marked {
    /// A list of names in place of parameters, or declarations between a function and its body.
    OldStyle,
    /// Specifiers without a type, or a declaration without specifiers.
    ImplicitInt,
    /// A member with a width.
    BitField,
}

/// A construct that is left out, where it begins.
#[derive(Clone, Copy, Debug, PartialEq, Eq)]
pub struct Marking {
    /// Its first token.
    pub at: At,
    /// What it is.
    pub kind: Marked,
}
