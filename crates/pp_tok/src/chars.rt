//! The characters of a file: its bytes without joins of lines, each with the number of its line.
ghost use Rattle.std.specs.Prelude.{◌≡◌, ◌∷◌, ◌++◌, ◌+◌, ◌-◌, ◌≤◌, ◌<◌, [], IfOk, OnOk, MatchOption, length, map, take, drop};
ghost use Rattle.pp_tok.specs.Chars.{chars_from};
ghost use Rattle.pp_tok.specs.CharVectors.{AreChars, Adds, HasNoFeed, IsFirstFeed, on_line, ends_with, without_last, chars_of_line};
ghost use Rattle.pp_tok.specs.Lines.{char_of_text};

use memchr::memchr;
use qv_base::NoMemory;
use std::alloc::Global;

/// Characters.
#[derive(Debug, Drop)]
pub(crate) struct Chars {
    /// Their bytes.
    pub text: Vec<u8>,
    /// The numbers of their lines.
    pub lines: Vec<u32>,
}

/// The characters of a file of these bytes.
///
/// # Errors
///
/// NoMemory where memory for them is refused.
pub(crate) fn file_chars(alloc: Global, bytes: &[u8]) -> Result<Chars, NoMemory>
    ensures { IfOk result (λ chars. AreChars chars (chars_from 1 bytes.now)) }
{
    let mut chars = Chars::with_room(alloc, bytes.len())?;
    let mut number = 1u32;
    let mut at = 0;
    while let Some(feed) = feed_from(bytes, at) {
        chars.push_line(&bytes[at..feed], number)?;
        number = number.saturating_add(1);
        at = feed + 1;
    }
    chars.push(&bytes[at..], number)?;
    Ok(chars)
}

/// The characters of a text that stands on one line.
///
/// # Errors
///
/// NoMemory where memory for them is refused.
pub(crate) fn text_chars(alloc: Global, text: &[u8]) -> Result<Chars, NoMemory>
    ensures { IfOk result (λ chars. AreChars chars (map char_of_text text.now)) }
{
    let mut chars = Chars::with_room(alloc, text.len())?;
    for byte in text {
        let byte = if *byte == b'\n' { b' ' } else { *byte };
        chars.push(&[byte], 1)?;
    }
    Ok(chars)
}

impl Chars {
    fn with_room(alloc: Global, count: usize) -> Result<Chars, NoMemory>
        ensures { IfOk result (λ chars. AreChars chars []) }
    {
        Ok(Chars {
            text: Vec::with_capacity(alloc, count)?,
            lines: Vec::with_capacity(alloc, count)?,
        })
    }

    // Adds a line that a line feed ends.
    fn push_line(&mut self, line: &[u8], number: u32) -> Result<(), NoMemory>
        ensures { OnOk result (Adds self.old self.new (chars_of_line number line.now)) }
    {
        let line = without_last(b'\r', line);
        self.push(without_last(b'\\', line), number)?;
        if ends_with(b'\\', line) {
            return Ok(());
        }
        self.push(b"\n", number)
    }

    // Adds bytes of one line.
    fn push(&mut self, bytes: &[u8], number: u32) -> Result<(), NoMemory>
        ensures { OnOk result (Adds self.old self.new (map (on_line number) bytes.now)) }
    {
        self.text.extend_from_slice(bytes)?;
        self.lines.resize(self.lines.len() + bytes.len(), number)?;
        Ok(())
    }
}

// The place of the first line feed from this place on.
fn feed_from(bytes: &[u8], at: usize) -> Option<usize>
    requires { at ≤ length bytes.now }
    ensures { MatchOption result (HasNoFeed (drop at bytes.now)) (λ feed. IsFirstFeed bytes.now at feed) }
{
    match memchr(b'\n', &bytes[at..]) {
        Some(i) => Some(at + i),
        None => None,
    }
}

// The bytes without this one at their end.
fn without_last(byte: u8, bytes: &[u8]) -> &[u8]
    ensures { result.now ≡ without_last byte bytes.now }
{
    match bytes.split_last() {
        Some((last, front)) if *last == byte => front,
        _ => bytes,
    }
}

fn ends_with(byte: u8, bytes: &[u8]) -> bool
    ensures { result ≡ ends_with byte bytes.now }
{
    match bytes.split_last() {
        Some((last, _)) => *last == byte,
        None => false,
    }
}
