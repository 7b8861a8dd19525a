//! Constants.

use c_type::kind::IntKind;

/// The value of an integer or character constant, with its type.
#[derive(Clone, Copy, Debug, PartialEq, Eq)]
pub struct Constant {
    /// Its word: a negative number as two's complement.
    pub value: u32,
    /// Its type.
    pub kind: IntKind,
}
