//! What an expression may be read as.

/// What an expression may be read as.
#[derive(Clone, Copy)]
pub enum ExprPart {
    /// With commas.
    Comma,
    /// An assignment expression.
    Assignment,
    /// A conditional expression.
    Conditional,
    /// A cast expression.
    Cast,
    /// A unary expression.
    Unary,
    /// Operators that bind tighter than the number, with their operands.
    Binary(u8),
}
