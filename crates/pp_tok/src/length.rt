//! How many bytes belong to names, numbers, constants, comments and names of headers.
ghost use Rattle.std.specs.Prelude.{◌≡◌, ◌||◌, ◌&&◌, ◌==◌, not, ◌≢◌, ◌≤◌, ◌<◌, ℕ, slice_index, IfSome, length, false};
ghost use Rattle.pp_tok.specs.Chars.{starts_with};
ghost use Rattle.pp_tok.specs.Lengths.{is_letter, is_name_byte, is_blank, is_quote, name_length, goes_on, number_length, constant_length, length_through, header_length, comment_length};

use memchr::{memchr, memmem};
use qv_base::decimal::is_digit;

/// The letters, underscores and digits that stand first.
#[tactic(auto, unfolding(crate::specs::Lengths::name_length))]
pub(crate) fn name_len(text: &[u8]) -> usize
    ensures value { result ≡ name_length text.now }
    ensures within { result ≤ length text.now }
{
    for (i, byte) in text.iter().enumerate() {
        if !is_name_byte(*byte) {
            return i;
        }
    }
    text.len()
}

/// The bytes of a number behind its first one.
#[tactic(auto, unfolding(crate::specs::Lengths::number_length))]
pub(crate) fn number_len(first: u8, text: &[u8]) -> usize
    ensures value { result ≡ number_length first text.now }
    ensures within { result ≤ length text.now }
{
    let mut before = first;
    for (i, byte) in text.iter().enumerate() {
        if !goes_on(before, *byte) {
            return i;
        }
        before = *byte;
    }
    text.len()
}

/// The bytes up to the closing quote of a constant, and it. None where it has no end on its line.
#[tactic(auto, unfolding(crate::specs::Lengths::constant_length))]
pub(crate) fn constant_len(quote: u8, text: &[u8]) -> Option<usize>
    ensures value { result ≡ constant_length quote false text.now }
    ensures within { IfSome result (λ n. n ≤ length text.now) }
{
    let mut escaped = false;
    for (i, byte) in text.iter().enumerate() {
        if *byte == b'\n' {
            return None;
        }
        if is_plain(escaped, *byte, quote) {
            return Some(i + 1);
        }
        escaped = is_plain(escaped, *byte, b'\\');
    }
    None
}

// Whether a byte is this one and no backslash takes it.
fn is_plain(escaped: bool, byte: u8, wanted: u8) -> bool
    ensures { result ≡ (not escaped && byte == wanted) }
{
    !escaped && byte == wanted
}

/// The bytes of a header's name up to the one that ends it, and it. None where there is no such name.
pub(crate) fn header_len(end: u8, text: &[u8]) -> Option<usize>
    ensures value { result ≡ header_length end text.now }
    ensures within { IfSome result (λ n. n ≤ length text.now) }
{
    if starts_with(end, text) {
        return None;
    }
    len_through(end, text)
}

// The bytes up to this one on its line, and it.
#[tactic(auto, unfolding(crate::specs::Lengths::length_through))]
fn len_through(end: u8, text: &[u8]) -> Option<usize>
    ensures value { result ≡ length_through end text.now }
    ensures within { IfSome result (λ n. n ≤ length text.now) }
{
    for (i, byte) in text.iter().enumerate() {
        if *byte == b'\n' {
            return None;
        }
        if *byte == end {
            return Some(i + 1);
        }
    }
    None
}

/// The bytes up to the end of a comment, its `*/` among them. None where it is open.
#[tactic(auto, using(crate::proofs::Comments::comment_found))]
pub(crate) fn comment_len(text: &[u8]) -> Option<usize>
    ensures value { result ≡ comment_length text.now }
    ensures within { IfSome result (λ n. n ≤ length text.now) }
{
    memmem::find(text, b"*/").map(|star| star + 2)
}

/// The bytes before the end of the line.
pub(crate) fn line_len(text: &[u8]) -> usize
    ensures within { result ≤ length text.now }
    ensures inside { (k : ℕ) → k < result → slice_index text.now k ≢ 10 }
{
    memchr(b'\n', text).unwrap_or(text.len())
}

/// Whether a text begins with this byte.
pub(crate) fn starts_with(byte: u8, text: &[u8]) -> bool
    ensures { result ≡ starts_with byte text.now }
{
    matches!(text, [first, ..] if *first == byte)
}

/// Whether a byte is a letter or an underscore.
pub(crate) fn is_letter(byte: u8) -> bool
    ensures { result ≡ is_letter byte }
{
    byte.is_ascii_uppercase() || byte.is_ascii_lowercase() || byte == b'_'
}

/// Whether a byte is a letter, an underscore or a digit.
pub(crate) fn is_name_byte(byte: u8) -> bool
    ensures { result ≡ is_name_byte byte }
{
    is_letter(byte) || is_digit(byte)
}

// Whether a byte belongs to a number behind another byte of it.
fn goes_on(before: u8, byte: u8) -> bool
    ensures { result ≡ goes_on before byte }
{
    is_name_byte(byte) || byte == b'.' || (is_sign(byte) && is_exponent(before))
}

fn is_sign(byte: u8) -> bool
    ensures { result ≡ ((byte == 43) || (byte == 45)) }
{
    matches!(byte, b'+' | b'-')
}

fn is_exponent(byte: u8) -> bool
    ensures { result ≡ ((byte == 101) || (byte == 69)) }
{
    matches!(byte, b'e' | b'E')
}

/// Whether a byte is a space, a tab, a carriage return, a vertical tab or a form feed.
pub(crate) fn is_blank(byte: u8) -> bool
    ensures { result ≡ is_blank byte }
{
    matches!(byte, b' ' | b'\t' | b'\r' | 11 | 12)
}

/// Whether a byte is a single or double quote.
pub(crate) fn is_quote(byte: u8) -> bool
    ensures { result ≡ is_quote byte }
{
    matches!(byte, b'"' | b'\'')
}
