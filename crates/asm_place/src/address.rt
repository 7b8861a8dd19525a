//! Addresses that names stand for.
use asm_line::line::AsmSegment;

/// What a name stands for.
#[derive(Clone, Copy, Debug, PartialEq, Eq)]
pub enum Address {
    /// A number as it stands.
    Absolute(u128),
    /// So many bytes from the start of a segment.
    Relative(AsmSegment, u128),
}
