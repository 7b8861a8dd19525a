//! Names, numbers and expressions.
ghost use Rattle.std.specs.Prelude.{◌≡◌, ◌≤◌, ◌<◌, [], ◌∷◌, length, drop, take, IsTrue, false, not, option_map};
ghost use Rattle.std.specs.List.{list_all};
ghost use Rattle.asm_line.specs.Operand.{addend_of, expression, is_name, is_name_byte, is_sign, number_of, pieces, total};
ghost use Rattle.asm_line.specs.Shown.{expression_of};
ghost use Rattle.asm_line.specs.Text.{starts_with};

use crate::line::Value;
use qv_base::decimal::{decimal_up_to, is_digit};
use qv_base::word::{add, neg};

const LEAST: u64 = 1 << 31;

const MOST: u64 = u32::MAX as u64;

/// Whether the word is a name: letters, digits, `_` and `$`, and no digit first.
pub fn is_name(word: &[u8]) -> bool
    ensures { result ≡ is_name word.now }
{
    match word {
        [first, ..] => !is_digit(*first) && are_name_bytes(word),
        [] => false,
    }
}

/// The number that a word writes: an optional `-` and decimal digits, from -2^31 to 2^32 - 1, mod 2^32.
/// None where it writes none of these.
pub fn number(word: &[u8]) -> Option<u32>
    ensures { result ≡ number_of word.now }
{
    match word {
        [b'-', digits @ ..] => {
            let value = decimal_up_to(LEAST, digits)?;
            Some(neg(value as u32))
        }
        _ => {
            let value = decimal_up_to(MOST, word)?;
            Some(value as u32)
        }
    }
}

/// The expression that a word writes: a name or a number, and any count of `+` or `-` and a number
/// behind it, with sums mod 2^32. None where it writes none.
pub fn expression(word: &[u8]) -> Option<Value<'_>>
    ensures { option_map expression_of result ≡ expression word.now }
{
    let (first, rest) = word.split_at(piece_len(word));
    if is_name(first) {
        return Some(Value {
            name: Some(first),
            add: total(0, rest)?,
        });
    }
    Some(Value {
        name: None,
        add: total(number(first)?, rest)?,
    })
}

// A number with what the pieces of a text add.
fn total(first: u32, text: &[u8]) -> Option<u32>
    ensures { result ≡ total first (pieces text.now) }
{
    let mut sum = first;
    let mut rest = text;
    while !rest.is_empty() {
        let (piece, behind) = rest.split_at(piece_len(rest));
        sum = add(sum, addend(piece)?);
        rest = behind;
    }
    Some(sum)
}

// What a plus or a minus and a number add.
fn addend(piece: &[u8]) -> Option<u32>
    ensures { result ≡ addend_of piece.now }
{
    match piece {
        [b'+', digits @ ..] => number(digits),
        [b'-', digits @ ..] => Some(neg(number(digits)?)),
        _ => None,
    }
}

// How many bytes the first piece of a text has: signs, and then other bytes.
fn piece_len(text: &[u8]) -> usize
    ensures within { result ≤ length text.now }
    ensures some { 0 < length text.now → 0 < result }
    ensures cut { 0 < length text.now → pieces text.now ≡ take result text.now ∷ pieces (drop result text.now) }
{
    let signs = sign_len(text);
    signs + plain_len(&text[signs..])
}

// How many signs stand first.
fn sign_len(text: &[u8]) -> usize
    ensures within { result ≤ length text.now }
    ensures signs { IsTrue (list_all is_sign (take result text.now)) }
    ensures other { starts_with is_sign (drop result text.now) ≡ false }
{
    for (i, byte) in text.iter().enumerate() {
        if !is_sign(*byte) {
            return i;
        }
    }
    text.len()
}

// How many bytes that are no sign stand first.
fn plain_len(text: &[u8]) -> usize
    ensures within { result ≤ length text.now }
    ensures plain { IsTrue (list_all (λ b. not (is_sign b)) (take result text.now)) }
    ensures other { starts_with (λ b. not (is_sign b)) (drop result text.now) ≡ false }
{
    for (i, byte) in text.iter().enumerate() {
        if is_sign(*byte) {
            return i;
        }
    }
    text.len()
}

fn is_sign(byte: u8) -> bool
    ensures { result ≡ is_sign byte }
{
    matches!(byte, b'+' | b'-')
}

fn are_name_bytes(word: &[u8]) -> bool
    ensures { result ≡ list_all is_name_byte word.now }
{
    for byte in word {
        if !is_name_byte(*byte) {
            return false;
        }
    }
    true
}

fn is_name_byte(byte: u8) -> bool
    ensures { result ≡ is_name_byte byte }
{
    matches!(byte, b'A'..=b'Z' | b'a'..=b'z' | b'0'..=b'9' | b'_' | b'$')
}
