// Numbers written in decimal digits.
ghost use Rattle.std.specs.Prelude.{◌≡◌};
ghost use Rattle.qv_base.specs.Decimal.{is_digit, decimal_up_to};

/// The number that one decimal digit or more write, leading zeros allowed. None where the text is empty,
/// has another byte, or writes a number above `max`.
pub fn decimal_up_to(max: u64, text: &[u8]) -> Option<u64>
    ensures { result ≡ decimal_up_to max text.now }
{
    if text.is_empty() {
        return None;
    }
    let mut value = 0u128;
    for byte in text {
        if !is_digit(*byte) {
            return None;
        }
        value = value * 10 + u128::from(*byte - b'0');
        if value > u128::from(max) {
            return None;
        }
    }
    Some(value as u64)
}

/// Whether the byte is one of the characters 0 to 9.
pub fn is_digit(byte: u8) -> bool
    ensures { result ≡ is_digit byte }
{
    byte.is_ascii_digit()
}
