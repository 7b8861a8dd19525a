//! Cuts a text into lines, and a line into words.
ghost use Rattle.std.specs.Prelude.{◌≡◌, ◌∷◌, [], ◌<◌, ◌≤◌, IsTrue, MatchOption, IfSome, length, take, drop, false};
ghost use Rattle.std.specs.List.{list_all};
ghost use Rattle.asm_line.specs.Text.{lines_of, words_of, is_blank, is_word_byte, starts_with};

use memchr::memchr;

/// The first line of a text, and the text behind its line feed. None where the line is the last one.
///
/// Each text has a line at least.
pub fn cut_line(text: &[u8]) -> (&[u8], Option<&[u8]>)
    ensures lines { MatchOption result.1 (lines_of text.now ≡ result.0.now ∷ []) (λ rest. lines_of text.now ≡ result.0.now ∷ lines_of rest.now) }
    ensures shorter { IfSome result.1 (λ rest. length rest.now < length text.now) }
{
    match memchr(b'\n', text) {
        Some(i) => (&text[..i], Some(&text[i + 1..])),
        None => (text, None),
    }
}

/// The first word of a line, and the line behind it. None where the line has no word left.
pub fn next_word(line: &[u8]) -> Option<(&[u8], &[u8])>
    ensures word { MatchOption result (words_of line.now ≡ []) (λ p. words_of line.now ≡ p.0.now ∷ words_of p.1.now) }
    ensures shorter { IfSome result (λ p. length p.1.now < length line.now) }
{
    first_word(&line[blank_len(line)..])
}

// The word that stands first, and the line behind it. None where no word does.
fn first_word(line: &[u8]) -> Option<(&[u8], &[u8])>
    requires { starts_with is_blank line.now ≡ false }
    ensures word { MatchOption result (words_of line.now ≡ []) (λ p. words_of line.now ≡ p.0.now ∷ words_of p.1.now) }
    ensures shorter { IfSome result (λ p. length p.1.now < length line.now) }
{
    let len = word_len(line);
    if len == 0 {
        return None;
    }
    Some(line.split_at(len))
}

// How many blanks stand first.
fn blank_len(line: &[u8]) -> usize
    ensures within { result ≤ length line.now }
    ensures same { words_of (drop result line.now) ≡ words_of line.now }
    ensures other { starts_with is_blank (drop result line.now) ≡ false }
{
    for (i, byte) in line.iter().enumerate() {
        if !is_blank(*byte) {
            return i;
        }
    }
    line.len()
}

// How many bytes of a word stand first.
fn word_len(line: &[u8]) -> usize
    ensures within { result ≤ length line.now }
    ensures word { IsTrue (list_all is_word_byte (take result line.now)) }
    ensures other { starts_with is_word_byte (drop result line.now) ≡ false }
{
    for (i, byte) in line.iter().enumerate() {
        if !is_word_byte(*byte) {
            return i;
        }
    }
    line.len()
}

fn is_blank(byte: u8) -> bool
    ensures { result ≡ is_blank byte }
{
    matches!(byte, b' ' | b'\t' | b'\r')
}

fn is_word_byte(byte: u8) -> bool
    ensures { result ≡ is_word_byte byte }
{
    !is_blank(byte) && byte != b';'
}

#[cfg(test)]
mod tests {
    use super::*;

    #[test]
    fn cuts(rt: HostRuntime) {
        let (line, rest) = cut_line(b"a b\r\n\nc");
        assert_eq!(rt; line, b"a b\r".as_slice());
        assert_eq!(rt; rest, Some(b"\nc".as_slice()));
        assert_eq!(rt;
            next_word(line),
            Some((b"a".as_slice(), b" b\r".as_slice()))
        );
        assert_eq!(rt; next_word(b" \r"), None);
        assert_eq!(rt; next_word(b" ;a"), None);
        assert_eq!(rt; cut_line(b"c"), (b"c".as_slice(), None));
    }
}
