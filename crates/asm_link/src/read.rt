// Reads the lines of files.
ghost use Rattle.std.specs.Prelude.{◌≡◌, ◌<◌, ◌^◌, ◌∷◌, [], IfSome, IsTrue, MatchOption, length};
ghost use Rattle.asm_link.specs.Reader.{left};
ghost use Rattle.asm_link.specs.Shown.{entry_of, line_of, texts_of};
ghost use Rattle.asm_link.specs.Source.{carries, carries_entry, entry_of_text, source_from, source_of};

use crate::fault::AsmFile;
use crate::reader::{Position, Reader};
use crate::source::{Entry, SourceLine};
use asm_line::read::read_line;
use asm_line::scan::cut_line;

/// A reader before the first line of these files.
pub fn read_files(files: &[AsmFile]) -> Reader<'_>
    requires { length files.now < 2 ^ 32 }
    ensures { left result ≡ source_of (texts_of files.now) }
{
    let [first, rest @ ..] = files else {
        return Reader {
            files,
            file: 0,
            line: 1,
            position: Position::Done,
        };
    };
    Reader {
        files: rest,
        file: 0,
        line: 1,
        position: Position::Text(&first.text),
    }
}

impl<'a> Reader<'a> {
    /// Reads the next line, or the end of a file. None behind the last file.
    pub fn next_line(&mut self) -> Option<SourceLine<'a>>
        ensures next { MatchOption result (left self.old ≡ []) (λ x. left self.old ≡ line_of x ∷ left self.new) }
        ensures carried { IfSome result (λ x. IsTrue (carries (line_of x))) }
    {
        match self.position {
            Position::Text(text) => Some(self.read_text(text)),
            Position::End => Some(self.end_file()),
            Position::Done => None,
        }
    }

    // Reads the first line of what is left of the current file's text.
    fn read_text(&mut self, text: &'a [u8]) -> SourceLine<'a>
        requires { self.old.position ≡ Position.Text text }
        ensures next { left self.old ≡ line_of result ∷ left self.new }
        ensures carried { IsTrue (carries (line_of result)) }
    {
        let (first, behind) = cut_line(text);
        let line = SourceLine {
            file: self.file,
            line: self.line,
            entry: read_entry(first),
        };
        self.line = self.line.saturating_add(1);
        self.position = match behind {
            Some(rest) => Position::Text(rest),
            None => Position::End,
        };
        line
    }

    // Goes on to the next file.
    fn end_file(&mut self) -> SourceLine<'a>
        requires { self.old.position ≡ Position.End }
        ensures next { left self.old ≡ line_of result ∷ left self.new }
        ensures carried { IsTrue (carries (line_of result)) }
    {
        let end = SourceLine {
            file: self.file,
            line: self.line,
            entry: Entry::FileEnd,
        };
        match self.files {
            [next, rest @ ..] => {
                self.files = rest;
                self.file += 1;
                self.line = 1;
                self.position = Position::Text(&next.text);
            }
            [] => self.position = Position::Done,
        }
        end
    }
}

// What stands on a line.
fn read_entry(text: &[u8]) -> Entry<'_>
    ensures is { entry_of result ≡ entry_of_text text.now }
    ensures carried { IsTrue (carries_entry (entry_of result)) }
{
    match read_line(text) {
        Ok(line) => Entry::Read(line),
        Err(fault) => Entry::Unread(fault),
    }
}
