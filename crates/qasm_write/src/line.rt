// Lines of the compiler's text.

/// A line of the text of a unit whose one function is vmMain, with no local objects and no outgoing
/// arguments.
#[derive(Clone, Copy, Debug, PartialEq, Eq)]
pub enum UnitLine {
    /// `proc vmMain 0 0` opens the function.
    Open,
    /// `ADDRFP4 0` gives the address of the first parameter.
    Parameter,
    /// `INDIRI4` loads the word at an address.
    Load,
    /// `CNSTI4 n` gives a constant.
    Constant(u32),
    /// `ADDI4` adds two words.
    Add,
    /// `SUBI4` takes a word away.
    Subtract,
    /// `RETI4` returns a word.
    Return,
    /// `endproc vmMain 0 0` closes the function.
    Close,
}
