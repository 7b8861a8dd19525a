// Lines with their places.
use asm_line::line::{Line, LineFault};

/// What stands at a place of the files.
#[derive(Clone, Copy)]
pub enum Entry<'a> {
    /// A line that can be read.
    Read(Line<'a>),
    /// A line that can't be read.
    Unread(LineFault),
    /// The end of a file.
    FileEnd,
}

/// An entry and its place.
#[derive(Clone, Copy)]
pub struct SourceLine<'a> {
    /// The file's number, from 0.
    pub file: u32,
    /// The line's number, from 1. A number that would pass 2^32 - 1 stays there.
    pub line: u32,
    /// What stands there.
    pub entry: Entry<'a>,
}
