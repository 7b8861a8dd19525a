//! The parts of a condition that are read by the same rules again.

/// What is to be read.
#[derive(Clone, Copy, Debug, PartialEq, Eq)]
pub enum Part {
    /// What may stand beside an operator: a constant, parentheses, or an operator before its operand.
    Operand,
    /// A whole condition.
    Whole,
}
