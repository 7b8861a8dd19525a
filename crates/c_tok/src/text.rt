//! Character constants and strings.
ghost use Rattle.std.specs.Prelude.{◌≡◌, ◌+◌, ◌<◌, ◌≤◌, ◌∷◌, length, IfOk, IfSome, IsTrue};
ghost use Rattle.c_tok.specs.Digits.{is_digit_of};
ghost use Rattle.pp_tok.specs.Chars.{starts_with};
ghost use Rattle.c_tok.specs.Results.{Answers};
ghost use Rattle.c_tok.specs.Texts as spec;

use crate::constant::Constant;
use crate::digits::{digits_len, is_digit_of, number_up_to};
use crate::fault::TokFault;
use c_type::kind::IntKind;
use qv_base::NoMemory;
use qv_base::place::Place;
use qv_base::word::sign8;
use sqlite_items::Items;
use std::alloc::Global;

/// A character of a constant or string: a byte, or an escape.
#[derive(Clone, Copy, Debug)]
pub(crate) struct Character {
    /// The bytes that write it.
    pub length: usize,
    /// The byte that it stands for.
    pub byte: u8,
}

// The byte that an escape of one letter stands for.
fn letter_byte(letter: u8) -> Option<u8>
    ensures { result ≡ spec.letter_byte letter }
{
    match letter {
        b'a' => Some(7),
        b'b' => Some(8),
        b'f' => Some(12),
        b'n' => Some(10),
        b'r' => Some(13),
        b't' => Some(9),
        b'v' => Some(11),
        b'\'' | b'"' | b'?' | b'\\' => Some(letter),
        _ => None,
    }
}

// A character by digits of a base, behind bytes of its own.
fn by_digits(own: usize, base: u32, count: usize, text: &[u8]) -> Option<Character>
    requires positive { 0 < base }
    requires small { base ≤ 16 }
    requires own { own ≤ 2 }
    requires within { count ≤ length text.now }
    ensures value { result ≡ spec.by_digits own base count text.now }
    ensures length { IfSome result (λ c. c.length ≡ own + count) }
{
    let byte = number_up_to(base, 255, &text[..count])?;
    Some(Character {
        length: own + count,
        byte: byte as u8,
    })
}

fn octal_at(text: &[u8]) -> Option<Character>
    ensures value { result ≡ spec.octal_at text.now }
    ensures some { IfSome result (λ c. 0 < c.length) }
    ensures within { IfSome result (λ c. c.length ≤ 1 + length text.now) }
{
    let count = digits_len(8, &text[..text.len().min(3)]);
    by_digits(1, 8, count, text)
}

fn hexadecimal_at(text: &[u8]) -> Option<Character>
    ensures value { result ≡ spec.hexadecimal_at text.now }
    ensures some { IfSome result (λ c. 0 < c.length) }
    ensures within { IfSome result (λ c. c.length ≤ 2 + length text.now) }
{
    let count = digits_len(16, text);
    if count == 0 {
        return None;
    }
    by_digits(2, 16, count, text)
}

// The escape whose backslash stands before.
fn escape_at(text: &[u8]) -> Option<Character>
    ensures value { result ≡ spec.escape_at text.now }
    ensures some { IfSome result (λ c. 0 < c.length) }
    ensures within { IfSome result (λ c. c.length ≤ 1 + length text.now) }
{
    let (first, rest) = text.split_first()?;
    if is_digit_of(8, *first) {
        return octal_at(text);
    }
    if *first == b'x' {
        return hexadecimal_at(rest);
    }
    let byte = letter_byte(*first)?;
    Some(Character { length: 2, byte })
}

// The character that begins with this byte. None where it is an escape that is none.
fn character_at(byte: u8, rest: &[u8]) -> Option<Character>
    ensures value { result ≡ spec.character_at byte rest.now }
    ensures some { IfSome result (λ c. 0 < c.length) }
    ensures within { IfSome result (λ c. c.length ≤ 1 + length rest.now) }
{
    if byte == b'\\' {
        return escape_at(rest);
    }
    Some(Character { length: 1, byte })
}

// The byte of the only character of a text. None where it has none or another one, or its escape is
// none.
#[tactic(auto, unfolding(crate::specs::Texts::sole_byte))]
fn sole_byte(text: &[u8]) -> Option<u8>
    ensures { result ≡ spec.sole_byte text.now }
{
    let (first, rest) = text.split_first()?;
    let character = character_at(*first, rest)?;
    if character.length != text.len() {
        return None;
    }
    Some(character.byte)
}

// The bytes that the characters of a text stand for. None where an escape is none.
fn bytes_of(alloc: Global, text: &[u8]) -> Result<Option<Items<u8>>, NoMemory>
    ensures { IfOk result (λ bytes. bytes ≡ spec.bytes_of text.now) }
{
    let mut bytes = Items::new(alloc);
    let mut rest = text;
    while let Some((first, behind)) = rest.split_first() {
        let Some(character) = character_at(*first, behind) else {
            return Ok(None);
        };
        bytes.push(character.byte)?;
        rest = &behind[character.length - 1..];
    }
    Ok(Some(bytes))
}

fn between_quotes(text: &[u8]) -> &[u8]
    ensures { result.now ≡ spec.between_quotes text.now }
{
    if text.len() < 2 {
        return &[];
    }
    &text[1..text.len() - 1]
}

fn is_wide(spelling: &[u8]) -> bool
    ensures { result ≡ starts_with 76 spelling.now }
{
    matches!(spelling, [b'L', ..])
}

/// The constant that a character constant with this spelling is, its quotes among it (ANSI C
/// X3.159-1989, 3.1.3.4). It has one character, and is the byte with its sign.
///
/// # Errors
///
/// LeftOut for a wide one, BadConstant where it has no character or several, or where its escape is
/// none or stands for more than a byte.
#[tactic(auto, unfolding(crate::specs::Texts::character_constant))]
pub fn character_constant(place: Place, spelling: &[u8]) -> Result<Constant, TokFault>
    ensures { result ≡ spec.character_constant place spelling.now }
{
    if is_wide(spelling) {
        return Err(TokFault::LeftOut(place));
    }
    let Some(byte) = sole_byte(between_quotes(spelling)) else {
        return Err(TokFault::BadConstant(place));
    };
    Ok(Constant {
        value: sign8(u32::from(byte)),
        kind: IntKind::Int,
    })
}

/// The bytes of the string with this spelling, its quotes among it (ANSI C X3.159-1989, 3.1.4),
/// without the NUL behind them.
///
/// # Errors
///
/// LeftOut for a wide one, BadConstant where an escape is none or stands for more than a byte.
/// NoMemory where memory for the bytes is refused.
#[tactic(auto, unfolding(crate::specs::Texts::string_bytes))]
pub fn string_bytes(alloc: Global, place: Place, spelling: &[u8]) -> Result<Items<u8>, TokFault>
    ensures { Answers (spec.string_bytes place spelling.now) result }
{
    if is_wide(spelling) {
        return Err(TokFault::LeftOut(place));
    }
    match bytes_of(alloc, between_quotes(spelling))? {
        Some(bytes) => Ok(bytes),
        None => Err(TokFault::BadConstant(place)),
    }
}
