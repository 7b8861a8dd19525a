//! Numbers among the words.
ghost use Rattle.std.specs.Prelude.{◌≡◌, ◌≤◌, IfSome};
ghost use Rattle.qv_words.specs.Numbers.{word_of, steps_of, seed_of, size_of, digits_up_to};

use qv_base::decimal::decimal_up_to;
use qv_base::word::neg;

/// A word: an optional minus and 1 to 10 digits, from -2,147,483,648 to 4,294,967,295, mod 2^32.
pub fn word(text: &[u8]) -> Option<u32>
    ensures { result ≡ word_of text.now }
{
    match text {
        [b'-', digits @ ..] => {
            let value = digits_up_to(10, 1 << 31, digits)?;
            Some(neg(value as u32))
        }
        _ => {
            let value = digits_up_to(10, u64::from(u32::MAX), text)?;
            Some(value as u32)
        }
    }
}

/// A count of steps: 1 to 20 digits, at most 2^64 - 1.
pub fn steps(text: &[u8]) -> Option<u64>
    ensures { result ≡ steps_of text.now }
{
    digits_up_to(20, u64::MAX, text)
}

/// A seed: 1 to 10 digits, at most 2^32 - 1.
pub fn seed(text: &[u8]) -> Option<u32>
    ensures { result ≡ seed_of text.now }
{
    let value = digits_up_to(10, u64::from(u32::MAX), text)?;
    Some(value as u32)
}

/// A size: 1 to 5 digits, from 1 to 10,000.
pub fn size(text: &[u8]) -> Option<u32>
    ensures { result ≡ size_of text.now }
{
    let value = digits_up_to(5, 10_000, text)?;
    if value == 0 {
        return None;
    }
    Some(value as u32)
}

// A number of at least one digit and at most so many, that is at most max.
fn digits_up_to(digits: usize, max: u64, text: &[u8]) -> Option<u64>
    ensures value { result ≡ digits_up_to digits max text.now }
    ensures within { IfSome result (λ n. n ≤ max) }
{
    if text.len() > digits {
        return None;
    }
    decimal_up_to(max, text)
}
