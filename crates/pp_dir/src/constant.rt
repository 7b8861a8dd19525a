//! Constants of conditions: numbers and characters.
ghost use Rattle.std.specs.Prelude.{◌≡◌, ◌<◌, ◌≤◌, length, position, IsTrue, IfSome};
ghost use Rattle.pp_dir.specs.Constants as spec;

use crate::value::Value;
use qv_base::word;

fn small(byte: u8) -> u8
    ensures { result ≡ spec.small byte }
{
    byte.to_ascii_lowercase()
}

// A digit's value, letters counting from 10; 16 of a byte that is no hexadecimal digit.
fn digit_value(byte: u8) -> u32
    ensures { result ≡ spec.digit_value byte }
{
    let letter = small(byte);
    if byte.is_ascii_digit() {
        u32::from(byte - b'0')
    } else if (b'a'..=b'f').contains(&letter) {
        u32::from(letter - b'a') + 10
    } else {
        16
    }
}

// The number that one digit of the base or more write. None where it has more than 32 bits.
fn number_in(base: u32, text: &[u8]) -> Option<u32>
    requires positive { 0 < base }
    requires small { base ≤ 16 }
    ensures { result ≡ spec.number_in base text.now }
{
    if text.is_empty() {
        return None;
    }
    let mut number = 0u64;
    for byte in text {
        let digit = digit_value(*byte);
        if digit >= base {
            return None;
        }
        number = number * u64::from(base) + u64::from(digit);
        if number > u64::from(u32::MAX) {
            return None;
        }
    }
    Some(number as u32)
}

fn is_octal(text: &[u8]) -> bool
    ensures { result ≡ spec.is_octal text.now }
{
    matches!(text, [b'0', ..])
}

fn is_hexadecimal(text: &[u8]) -> bool
    ensures value { result ≡ spec.is_hexadecimal text.now }
    ensures long { IsTrue result → 2 ≤ length text.now }
{
    match text {
        [first, second, ..] => *first == b'0' && small(*second) == b'x',
        _ => false,
    }
}

fn number_written(text: &[u8]) -> Option<u32>
    ensures { result ≡ spec.number_written text.now }
{
    if is_hexadecimal(text) {
        number_in(16, &text[2..])
    } else if is_octal(text) {
        number_in(8, text)
    } else {
        number_in(10, text)
    }
}

fn is_u(byte: u8) -> bool
    ensures { result ≡ spec.is_u byte }
{
    small(byte) == b'u'
}

fn is_l(byte: u8) -> bool
    ensures { result ≡ spec.is_l byte }
{
    small(byte) == b'l'
}

// Whether a suffix makes a number unsigned. None where it is no suffix.
fn suffix_unsigned(text: &[u8]) -> Option<bool>
    ensures { result ≡ spec.suffix_unsigned text.now }
{
    match text {
        [] => Some(false),
        [a] if is_u(*a) => Some(true),
        [a] if is_l(*a) => Some(false),
        [a, b] if (is_u(*a) && is_l(*b)) || (is_l(*a) && is_u(*b)) => Some(true),
        _ => None,
    }
}

fn is_suffix_letter(byte: u8) -> bool
    ensures { result ≡ spec.is_suffix_letter byte }
{
    is_u(byte) || is_l(byte)
}

fn suffix_letter(text: &[u8]) -> Option<usize>
    ensures value { result ≡ position spec.is_suffix_letter text.now }
    ensures within { IfSome result (λ at. at < length text.now) }
{
    text.iter().position(|byte| is_suffix_letter(*byte))
}

fn suffix_start(text: &[u8]) -> usize
    ensures value { result ≡ spec.suffix_start text.now }
    ensures within { result ≤ length text.now }
{
    suffix_letter(text).unwrap_or(text.len())
}

#[tactic(auto, unfolding(crate::specs::Constants::number_value))]
/// The value of a number. None where it is none of at most 32 bits.
pub fn number_value(spelling: &[u8]) -> Option<Value>
    ensures { result ≡ spec.number_value spelling.now }
{
    let start = suffix_start(spelling);
    let word = number_written(&spelling[..start])?;
    let unsigned = suffix_unsigned(&spelling[start..])?;
    Some(Value {
        word,
        unsigned: unsigned || word >= 1 << 31,
    })
}

// The byte that an escape of one letter stands for.
fn letter_escape(byte: u8) -> Option<u32>
    ensures { result ≡ spec.letter_escape byte }
{
    match byte {
        b'a' => Some(7),
        b'b' => Some(8),
        b'f' => Some(12),
        b'n' => Some(10),
        b'r' => Some(13),
        b't' => Some(9),
        b'v' => Some(11),
        b'\'' | b'"' | b'?' | b'\\' => Some(u32::from(byte)),
        _ => None,
    }
}

// What the bytes behind a backslash stand for.
fn escaped(text: &[u8]) -> Option<u32>
    ensures { result ≡ spec.escaped text.now }
{
    match text {
        [] => None,
        [only] if digit_value(*only) < 8 => Some(digit_value(*only)),
        [only] => letter_escape(*only),
        [b'x', digits @ ..] => number_in(16, digits),
        _ if text.len() <= 3 => number_in(8, text),
        _ => None,
    }
}

// The number of the only character.
fn character(text: &[u8]) -> Option<u32>
    ensures { result ≡ spec.character text.now }
{
    match text {
        [b'\\', escape @ ..] => escaped(escape),
        [only] => Some(u32::from(*only)),
        _ => None,
    }
}

fn between_quotes(text: &[u8]) -> &[u8]
    ensures { result.now ≡ spec.between_quotes text.now }
{
    if text.len() < 2 {
        return &[];
    }
    &text[1..text.len() - 1]
}

fn begins_with_quote(text: &[u8]) -> bool
    ensures { result ≡ spec.begins_with_quote text.now }
{
    matches!(text, [b'\'', ..])
}

#[tactic(auto, unfolding(crate::specs::Constants::character_value))]
/// The value of a character constant. None where it is none of one byte.
pub fn character_value(spelling: &[u8]) -> Option<Value>
    ensures { result ≡ spec.character_value spelling.now }
{
    if !begins_with_quote(spelling) {
        return None;
    }
    let number = character(between_quotes(spelling))?;
    if number > 255 {
        return None;
    }
    Some(Value {
        word: word::sign8(number),
        unsigned: false,
    })
}
