//! Numbers as constants.
ghost use Rattle.std.specs.Prelude.{◌≡◌, ◌==◌, ◌<◌, ◌≤◌, length, IsTrue, Ok, Err};
ghost use Rattle.std.specs.List.{list_any};
ghost use Rattle.pp_tok.specs.Chars.{starts_with};
ghost use Rattle.c_tok.specs.Digits.{number_of};
ghost use Rattle.c_tok.specs.Numbers as spec;

use crate::constant::Constant;
use crate::digits::{digits_len, number_up_to};
use crate::fault::TokFault;
use c_type::kind::{IntKind, greatest};
use qv_base::decimal::is_digit;
use qv_base::place::Place;

/// What the letters behind an integer say of its type.
#[derive(Clone, Copy, Debug, PartialEq, Eq)]
pub(crate) enum Suffix {
    /// There are none.
    Plain,
    /// `u`
    Unsigned,
    /// `l`
    Long,
    /// `ul` or `lu`
    UnsignedLong,
}

fn has_dot(text: &[u8]) -> bool
    ensures { result ≡ list_any (λ b. b == 46) text.now }
{
    text.contains(&b'.')
}

fn has_digit_first(text: &[u8]) -> bool
    ensures { result ≡ spec.has_digit_first text.now }
{
    matches!(text, [first, ..] if is_digit(*first))
}

fn is_power(text: &[u8]) -> bool
    ensures { result ≡ spec.is_power text.now }
{
    match text {
        [first, rest @ ..] => {
            is_digit(*first) || (matches!(*first, b'+' | b'-') && has_digit_first(rest))
        }
        [] => false,
    }
}

fn is_exponent(text: &[u8]) -> bool
    ensures { result ≡ spec.is_exponent text.now }
{
    match text {
        [first, rest @ ..] => matches!(*first, b'e' | b'E') && is_power(rest),
        [] => false,
    }
}

fn is_floating(text: &[u8]) -> bool
    ensures { result ≡ spec.is_floating text.now }
{
    has_dot(text) || is_exponent(&text[digits_len(10, text)..])
}

fn is_hexadecimal(text: &[u8]) -> bool
    ensures value { result ≡ spec.is_hexadecimal text.now }
    ensures long { IsTrue result → 2 ≤ length text.now }
{
    matches!(text, [b'0', b'x' | b'X', ..])
}

fn starts_with_zero(text: &[u8]) -> bool
    ensures { result ≡ starts_with 48 text.now }
{
    matches!(text, [b'0', ..])
}

fn base_of(text: &[u8]) -> u32
    ensures value { result ≡ spec.base_of text.now }
    ensures positive { 0 < result }
    ensures small { result ≤ 16 }
{
    if is_hexadecimal(text) {
        16
    } else if starts_with_zero(text) {
        8
    } else {
        10
    }
}

fn behind_prefix(text: &[u8]) -> &[u8]
    ensures { result.now ≡ spec.behind_prefix text.now }
{
    if is_hexadecimal(text) {
        return &text[2..];
    }
    text
}

fn is_u(byte: u8) -> bool
    ensures { result ≡ spec.is_u byte }
{
    matches!(byte, b'u' | b'U')
}

fn is_l(byte: u8) -> bool
    ensures { result ≡ spec.is_l byte }
{
    matches!(byte, b'l' | b'L')
}

fn suffix_of(text: &[u8]) -> Option<Suffix>
    ensures { result ≡ spec.suffix_of text.now }
{
    match text {
        [] => Some(Suffix::Plain),
        [a] if is_u(*a) => Some(Suffix::Unsigned),
        [a] if is_l(*a) => Some(Suffix::Long),
        [a, b] if (is_u(*a) && is_l(*b)) || (is_l(*a) && is_u(*b)) => Some(Suffix::UnsignedLong),
        _ => None,
    }
}

fn kinds_of(suffix: Suffix, decimal: bool) -> &'static [IntKind]
    ensures { result.now ≡ spec.kinds_of suffix decimal }
{
    match suffix {
        Suffix::Plain if decimal => &[IntKind::Int, IntKind::Long, IntKind::UnsignedLong],
        Suffix::Plain => &[
            IntKind::Int,
            IntKind::UnsignedInt,
            IntKind::Long,
            IntKind::UnsignedLong,
        ],
        Suffix::Unsigned => &[IntKind::UnsignedInt, IntKind::UnsignedLong],
        Suffix::Long => &[IntKind::Long, IntKind::UnsignedLong],
        Suffix::UnsignedLong => &[IntKind::UnsignedLong],
    }
}

fn constant_among(kinds: &[IntKind], value: u32) -> Option<Constant>
    ensures { result ≡ spec.constant_among kinds.now value }
{
    for kind in kinds {
        if value <= greatest(*kind) {
            return Some(Constant { value, kind: *kind });
        }
    }
    None
}

// A number in this base, by its digits and what is behind them.
fn suffixed(place: Place, base: u32, digits: &[u8], behind: &[u8]) -> Result<Constant, TokFault>
    requires positive { 0 < base }
    requires small { base ≤ 16 }
    ensures { result ≡ spec.suffixed place base (number_of base digits.now) (spec.suffix_of behind.now) }
{
    let Some(suffix) = suffix_of(behind) else {
        return Err(TokFault::BadConstant(place));
    };
    let Some(value) = number_up_to(base, u32::MAX, digits) else {
        return Err(TokFault::ConstantTooLarge(place));
    };
    match constant_among(kinds_of(suffix, base == 10), value) {
        Some(constant) => Ok(constant),
        None => Err(TokFault::ConstantTooLarge(place)),
    }
}

fn integer_in(place: Place, base: u32, text: &[u8]) -> Result<Constant, TokFault>
    requires positive { 0 < base }
    requires small { base ≤ 16 }
    ensures { result ≡ spec.integer_in place base text.now }
{
    let count = digits_len(base, text);
    if count == 0 {
        return Err(TokFault::BadConstant(place));
    }
    suffixed(place, base, &text[..count], &text[count..])
}

/// The constant that a number with this spelling is (ANSI C X3.159-1989, 3.1.3.2).
///
/// # Errors
///
/// FloatConstant for a number with a dot and for decimal digits with an exponent, BadConstant for
/// one that is no integer with a suffix, ConstantTooLarge where no type holds it.
#[tactic(auto, unfolding(crate::specs::Numbers::number_constant))]
pub fn number_constant(place: Place, spelling: &[u8]) -> Result<Constant, TokFault>
    ensures { result ≡ spec.number_constant place spelling.now }
{
    if is_floating(spelling) {
        return Err(TokFault::FloatConstant(place));
    }
    integer_in(place, base_of(spelling), behind_prefix(spelling))
}
