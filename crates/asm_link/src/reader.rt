// A reader of the lines of files.
ghost use Rattle.std.specs.Prelude.{◌+◌, ◌<◌, ◌^◌, length};

use crate::fault::AsmFile;

/// Where a reader stands.
#[derive(Clone, Copy)]
pub enum Position<'a> {
    /// Before this text of the current file, which has a line at least.
    Text(&'a [u8]),
    /// Before the end of the current file.
    End,
    /// Behind the last file.
    Done,
}

/// Reads the lines of files, one after the other, each where it stands.
#[derive(Clone, Copy)]
pub struct Reader<'a> {
    /// The files behind the current one.
    pub files: &'a [AsmFile],
    /// The current file's number, from 0.
    pub file: u32,
    /// The number of the next line, from 1. A number that would pass 2^32 - 1 stays there.
    pub line: u32,
    /// Where it stands.
    pub position: Position<'a>,
    ghost few: { file + length files.now < 2 ^ 32 },
}
