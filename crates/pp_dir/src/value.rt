//! Values of conditions.

/// A value of `int` or `unsigned int`.
#[derive(Clone, Copy, Debug, PartialEq, Eq)]
pub struct Value {
    /// Its word: a negative number as two's complement.
    pub word: u32,
    /// Whether its type is unsigned.
    pub unsigned: bool,
}
