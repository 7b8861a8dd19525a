//! The words of directives (ANSI C X3.159-1989, 3.8).

/// What the word behind a `#` says.
#[derive(Clone, Copy, Debug, PartialEq, Eq)]
pub enum Directive {
    /// No word stands there, nor anything else.
    Nothing,
    /// `define`: a macro begins.
    Define,
    /// `undef`: a name stands for no macro.
    Undef,
    /// `include`: a file is read in its place.
    Include,
    /// `if`: a conditional begins, by a condition.
    If,
    /// `ifdef`: one begins, by a name that is defined.
    Ifdef,
    /// `ifndef`: one begins, by a name that isn't.
    Ifndef,
    /// `elif`: another condition of a conditional.
    Elif,
    /// `else`: its last group.
    Else,
    /// `endif`: its end.
    Endif,
    /// `error`: the unit is refused, with a text.
    Error,
    /// `pragma`: nothing is done.
    Pragma,
    /// `line`: left out.
    Line,
    /// Another word, or no word.
    Unknown,
}
