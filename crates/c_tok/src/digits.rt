//! Numbers by their digits.
ghost use Rattle.std.specs.Prelude.{◌≡◌, ◌<◌, ◌≤◌, ◌^◌, length, IfSome};
ghost use Rattle.c_tok.specs.Digits as spec;

use qv_base::decimal::is_digit;

// A digit's value, letters counting from 10; 16 of a byte that is no digit of a base up to 16.
fn digit_value(byte: u8) -> u32
    ensures value { result ≡ spec.digit_value byte }
    ensures small { result ≤ 16 }
{
    if is_digit(byte) {
        u32::from(byte - b'0')
    } else if (b'a'..=b'f').contains(&byte) {
        u32::from(byte - b'a') + 10
    } else if (b'A'..=b'F').contains(&byte) {
        u32::from(byte - b'A') + 10
    } else {
        16
    }
}

/// Whether a byte is a digit of this base.
pub(crate) fn is_digit_of(base: u32, byte: u8) -> bool
    ensures { result ≡ spec.is_digit_of base byte }
{
    digit_value(byte) < base
}

/// The digits of this base that stand first.
#[tactic(auto, unfolding(crate::specs::Digits::digits_length))]
pub(crate) fn digits_len(base: u32, text: &[u8]) -> usize
    ensures value { result ≡ spec.digits_length base text.now }
    ensures within { result ≤ length text.now }
{
    for (i, byte) in text.iter().enumerate() {
        if !is_digit_of(base, *byte) {
            return i;
        }
    }
    text.len()
}

/// The number that digits of a base write. None where it is above `max`.
pub(crate) fn number_up_to(base: u32, max: u32, digits: &[u8]) -> Option<u32>
    requires positive { 0 < base }
    requires small { base ≤ 16 }
    ensures value { result ≡ spec.number_up_to base max digits.now }
    ensures within { IfSome result (λ n. n ≤ max) }
{
    let mut number = 0u64;
    for byte in digits {
        number = number * u64::from(base) + u64::from(digit_value(*byte));
        if number > u64::from(max) {
            return None;
        }
    }
    Some(number as u32)
}
