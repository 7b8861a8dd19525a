//! The frame of a procedure.

/// The sizes of an open procedure in bytes, each rounded up to 4.
#[derive(Clone, Copy, Debug, PartialEq, Eq)]
pub struct FrameSizes {
    /// Local variables.
    pub locals: u128,
    /// Arguments that it passes.
    pub args: u128,
}
