//! The lines of a file and their tokens.
ghost use Rattle.std.specs.Prelude.{◌≡◌, ◌+◌, ◌<◌, ◌≤◌, [], true, List, IfOk, OnOk, length, take, drop, map, slice_index};
ghost use Rattle.qv_base.specs.Place.{capped};
ghost use Rattle.pp_tok.specs.declared.piece.LineState.TheVariants as LineState;
ghost use Rattle.pp_tok.specs.Chars.{Char};
ghost use Rattle.pp_tok.specs.CharVectors.{AreChars};
ghost use Rattle.pp_tok.specs.Lines.{AreRead, is_start, lines_of, on_ok, text_of, tokens_of, tokens_in, token_of, with_token, lines_behind};
ghost use Rattle.pp_tok.specs.Reading.{IsLineRead, part_at};

use crate::chars::{Chars, file_chars, text_chars};
use crate::piece::{LineState, What, piece_at, state_behind};
use crate::token::{PpKind, PpLine, PpTok, PpTokFault};
use crate::unclosed::Unclosed;
use qv_base::NoMemory;
use qv_base::name::Name;
use qv_base::place::Place;
use sqlite_items::Items;
use std::alloc::Global;

/// A line that is being read.
#[derive(Debug, Drop)]
pub(crate) struct OpenLine {
    /// Its tokens so far.
    pub line: PpLine,
    /// Which of them stand before the next piece, as far as a header name asks.
    pub state: LineState,
    /// Whether a blank stands directly before it.
    pub space: bool,
}

/// Where a line begins.
#[derive(Clone, Copy, Debug)]
pub(crate) struct LineStart {
    /// The place of its first character.
    pub at: usize,
    /// Its number.
    pub number: u32,
    /// Which tokens stand before that character.
    pub state: LineState,
}

/// A line that is read.
#[derive(Debug, Drop)]
pub(crate) struct LineRead {
    /// The line.
    pub line: PpLine,
    /// Where the next one begins.
    pub next: LineStart,
}

/// The lines of the file that has this number, each with its tokens.
///
/// Comments and blanks part the tokens, and a comment that goes over a line feed joins the lines. A
/// line without tokens is there too; behind the last line feed there is no line. The classes are
/// those of ANSI C X3.159-1989, 3.1, and the joins of its 2.1.1.2.
///
/// # Errors
///
/// OpenComment, with the line on which it begins, exactly where a comment has no end. NoMemory where
/// memory is refused.
#[tactic(auto, unfolding(crate::specs::Lines::lines_of))]
pub fn pp_lines(alloc: Global, file: u32, bytes: &[u8]) -> Result<Items<PpLine>, PpTokFault>
    ensures { AreRead result (lines_of file bytes.now) }
{
    let chars = file_chars(alloc, bytes)?;
    let mut lines = Items::new(alloc);
    let mut start = first_line();
    while start.at < chars.text.len() {
        let read = read_line(alloc, file, &chars, start)?;
        lines.push(read.line)?;
        start = read.next;
    }
    Ok(lines)
}

/// The tokens of the file that has this number, those of its lines in turn.
///
/// # Errors
///
/// OpenComment, with the line on which it begins, exactly where a comment has no end. NoMemory where
/// memory is refused.
pub fn pp_tokens(alloc: Global, file: u32, bytes: &[u8]) -> Result<Items<PpTok>, PpTokFault>
    ensures { AreRead result (tokens_of file bytes.now) }
{
    let chars = file_chars(alloc, bytes)?;
    read_tokens(alloc, file, &chars, first_line())
}

/// The tokens of a text that stands in the middle of line 1 of file 0, as that of a macro which the
/// command line defines: none is the first of its line, and no name of a header is read. A line feed
/// in it is a blank, and joins no lines.
///
/// # Errors
///
/// OpenComment of line 1, exactly where a comment has no end. NoMemory where memory is refused.
#[tactic(auto, unfolding(crate::specs::Lines::text_of))]
pub fn text_tokens(alloc: Global, text: &[u8]) -> Result<Items<PpTok>, PpTokFault>
    ensures { AreRead result (text_of text.now) }
{
    let chars = text_chars(alloc, text)?;
    let start = LineStart {
        at: 0,
        number: 1,
        state: LineState::Other,
    };
    read_tokens(alloc, 0, &chars, start)
}

fn first_line() -> LineStart
    ensures at { result.at ≡ 0 }
    ensures number { result.number ≡ 1 }
    ensures state { result.state ≡ LineState.Start }
{
    LineStart {
        at: 0,
        number: 1,
        state: LineState::Start,
    }
}

// The tokens of the lines from the first one on.
fn read_tokens(
    alloc: Global,
    file: u32,
    chars: &Chars,
    first: LineStart,
) -> Result<Items<PpTok>, PpTokFault>
    requires { length chars.now.text.items ≡ length chars.now.lines.items }
    ensures { (cs : List Char) → AreChars chars.now cs → AreRead result (on_ok tokens_in (lines_behind file 0 true (part_at first) (drop first.at cs))) }
{
    let mut tokens = Items::new(alloc);
    let mut start = first;
    while start.at < chars.text.len() {
        let read = read_line(alloc, file, chars, start)?;
        tokens.append(read.line.toks)?;
        start = read.next;
    }
    Ok(tokens)
}

// The line that begins here, up to its line feed or to the end.
fn read_line(
    alloc: Global,
    file: u32,
    chars: &Chars,
    start: LineStart,
) -> Result<LineRead, PpTokFault>
    requires { length chars.now.text.items ≡ length chars.now.lines.items }
    ensures reads { (cs : List Char) → AreChars chars.now cs → IsLineRead file start cs result }
    ensures on { IfOk result (λ read. start.at < length chars.now.text.items → start.at < read.next.at) }
{
    let mut part = OpenLine::new(alloc, start);
    let mut unclosed = Unclosed::new();
    let mut at = start.at;
    while at < chars.text.len() {
        let Some(piece) = piece_at(part.state, &chars.text, at, &mut unclosed) else {
            return Err(PpTokFault::OpenComment(chars.lines[at]));
        };
        match piece.what {
            What::LineEnd => {
                return Ok(part.finish(next_line(at + piece.length, chars.lines[at])));
            }
            What::Blank => part.space = true,
            What::Token(kind) => {
                let token = part.token(
                    alloc,
                    file,
                    kind,
                    &chars.text[at..at + piece.length],
                    chars.lines[at],
                )?;
                part.push(token)?;
            }
        }
        at += piece.length;
    }
    Ok(part.finish(next_line(at, start.number)))
}

// The start of the line behind the one that has this number.
fn next_line(at: usize, number: u32) -> LineStart
    ensures at { result.at ≡ at }
    ensures number { result.number ≡ capped (number + 1) }
    ensures state { result.state ≡ LineState.Start }
{
    LineStart {
        at,
        number: number.saturating_add(1),
        state: LineState::Start,
    }
}

impl OpenLine {
    fn new(alloc: Global, start: LineStart) -> OpenLine
        ensures { result ≡ part_at start }
    {
        OpenLine {
            line: PpLine {
                number: start.number,
                toks: Items::new(alloc),
            },
            state: start.state,
            space: false,
        }
    }

    // A token of this spelling behind what is read.
    fn token(
        &self,
        alloc: Global,
        file: u32,
        kind: PpKind,
        spelling: &[u8],
        line: u32,
    ) -> Result<PpTok, NoMemory>
        ensures { IfOk result (λ token. token ≡ token_of file self.now kind line spelling.now) }
    {
        Ok(PpTok {
            kind,
            spelling: Name::from_bytes(alloc, spelling)?,
            place: Place { file, line },
            space: self.space,
            first: self.is_at_start(),
            hidden: Items::new(alloc),
        })
    }

    // The whole line, and where the next one begins.
    fn finish(self, next: LineStart) -> LineRead
        ensures line { result.line ≡ self.line }
        ensures next { result.next ≡ next }
    {
        LineRead {
            line: self.line,
            next,
        }
    }

    fn is_at_start(&self) -> bool
        ensures { result ≡ is_start self.now.state }
    {
        matches!(self.state, LineState::Start)
    }

    fn push(&mut self, token: PpTok) -> Result<(), NoMemory>
        ensures { OnOk result (self.new ≡ with_token self.old token) }
    {
        self.state = state_behind(self.state, token.kind, token.spelling.bytes());
        self.space = false;
        self.line.toks.push(token)?;
        Ok(())
    }
}

#[cfg(test)]
mod tests {
    use super::*;
    use std::alloc::AllocError;

    // The tokens, each behind `_` where it has a blank before it and `^` where it is the first.
    fn show(out: &mut Vec<u8>, tokens: &[PpTok]) -> Result<(), AllocError> {
        for token in tokens {
            out.push(b' ')?;
            if token.space {
                out.push(b'_')?;
            }
            if token.first {
                out.push(b'^')?;
            }
            out.push(letter(token.kind))?;
            out.push(b':')?;
            out.extend_from_slice(token.spelling.bytes())?;
        }
        Ok(())
    }

    fn letter(kind: PpKind) -> u8 {
        match kind {
            PpKind::Ident => b'I',
            PpKind::Number => b'N',
            PpKind::Char => b'C',
            PpKind::Text => b'T',
            PpKind::Punct => b'P',
            PpKind::Header => b'H',
            PpKind::Byte => b'B',
        }
    }

    // Each line behind its number.
    fn show_lines(alloc: Global, lines: &[PpLine]) -> Result<Vec<u8>, AllocError> {
        let mut out = Vec::new(alloc);
        for line in lines {
            out.push(b'/')?;
            out.push(b'0' + (line.number % 10) as u8)?;
            show(&mut out, line.toks.as_slice())?;
        }
        Ok(out)
    }

    #[test]
    fn cuts_lines(rt: HostRuntime) -> Result<(), PpTokFault> {
        let rows: [(&[u8], &[u8]); 16] = [
            (b"", b""),
            (b"\n\r\na", b"/1/2/3 ^I:a"),
            (b"a\\\nb \\\r\nc\nd\n", b"/1 ^I:ab _I:c/4 ^I:d"),
            (b"\\\n\\\n# x", b"/1 ^P:# _I:x"),
            (b"a/* x\n*/b\n c", b"/1 ^I:a _I:b/3 _^I:c"),
            (b"a\\", b"/1 ^I:a B:\\"),
            (
                b"#include <a b>x\n# include \"a\\\"b\"",
                b"/1 ^P:# I:include _H:<a b> I:x/2 ^P:# _I:include _H:\"a\\\" I:b B:\"",
            ),
            (b"#include <>", b"/1 ^P:# I:include _P:< P:>"),
            (
                b"#include /**/ <x>\n#define include <x>",
                b"/1 ^P:# I:include _H:<x>/2 ^P:# I:define _I:include _P:< I:x P:>",
            ),
            (b".5e+3.x 1+2 ..5", b"/1 ^N:.5e+3.x _N:1 P:+ N:2 _P:. N:.5"),
            (
                b"... .. %: >>= -> /*/*/ //",
                b"/1 ^P:... _P:. P:. _P:% P:: _P:>>= _P:-> _P:/ P:/",
            ),
            (
                b"L'a' L\"x L 'b' aL'c'",
                b"/1 ^C:L'a' _I:L B:\" I:x _I:L _C:'b' _I:aL C:'c'",
            ),
            (
                b"\"a\nb\" 'a\\\\' '\\''",
                b"/1 ^B:\" I:a/2 ^I:b B:\" _C:'a\\\\' _C:'\\''",
            ),
            (
                b"\" '/*\"*/ ' \"/ *",
                b"/1 ^T:\" '/*\" P:* P:/ _B:' _B:\" P:/ _P:*",
            ),
            (b"-\\\n>@\t$", b"/1 ^P:-> B:@ _B:$"),
            (b"\x80\0", b"/1 ^B:\x80 B:\0"),
        ];
        for (text, want) in rows {
            let lines = pp_lines(rt.alloc(), 3, text)?;
            assert_eq!(rt;
                show_lines(rt.alloc(), lines.as_slice())?.as_slice(),
                want,
                "at {text:?}"
            );
        }
        Ok(())
    }

    #[test]
    fn tells_open_comments(rt: HostRuntime) {
        let rows: [(&[u8], u32); 4] = [
            (b"/*", 1),
            (b"a\n/*/\n\n", 2),
            (b"\"/*\"\\\n\n /* x\n /* y", 3),
            (b"#include /* <x>\n", 1),
        ];
        for (text, want) in rows {
            match pp_tokens(rt.alloc(), 0, text) {
                Err(PpTokFault::OpenComment(line)) => assert_eq!(rt; line, want, "at {text:?}"),
                _ => assert!(rt; false, "at {text:?}"),
            }
        }
    }

    #[test]
    fn cuts_texts(rt: HostRuntime) -> Result<(), PpTokFault> {
        let rows: [(&[u8], &[u8]); 3] = [
            (b"", b""),
            (b"#include <x>", b" P:# I:include _P:< I:x P:>"),
            (b" a\\\nb/*\n*/\"c\nd\"", b" _I:a B:\\ _I:b _T:\"c d\""),
        ];
        for (text, want) in rows {
            let tokens = text_tokens(rt.alloc(), text)?;
            let mut out = Vec::new(rt.alloc());
            show(&mut out, tokens.as_slice())?;
            assert_eq!(rt; out.as_slice(), want, "at {text:?}");
        }
        let tokens = pp_tokens(rt.alloc(), 2, b"a\n\\\nb")?;
        for (token, line) in tokens.as_slice().iter().zip([1, 3]) {
            assert_eq!(rt; token.place, Place { file: 2, line });
        }
        Ok(())
    }
}
