// Arithmetic on words of 32 bits.
ghost use Rattle.std.specs.Prelude.{◌≡◌, ◌≢◌, ◌-◌, ◌^◌, ◌⊎◌};
ghost use Rattle.qv_base.specs.Word.{plus, minus, times, negated, shifted_left, shifted_right, shifted_signed, is_less_signed, quotient_signed, remainder_signed, sign_extended_8, sign_extended_16};

/// The sum, modulo 2^32.
pub fn add(a: u32, b: u32) -> u32
    ensures { result ≡ plus a b }
{
    a.wrapping_add(b)
}

/// The difference `a - b`, modulo 2^32.
pub fn sub(a: u32, b: u32) -> u32
    ensures { result ≡ minus a b }
{
    a.wrapping_sub(b)
}

/// The product, modulo 2^32.
pub fn mul(a: u32, b: u32) -> u32
    ensures { result ≡ times a b }
{
    a.wrapping_mul(b)
}

/// The word that adds up to 0 with `a`, modulo 2^32.
pub fn neg(a: u32) -> u32
    ensures { result ≡ negated a }
{
    a.wrapping_neg()
}

/// `a` shifted left by the low five bits of `count`. Bits past the top are lost.
pub fn shl(a: u32, count: u32) -> u32
    ensures { result ≡ shifted_left a count }
{
    a.wrapping_shl(count)
}

/// `a` shifted right by the low five bits of `count`, with zeros from the left.
pub fn shr(a: u32, count: u32) -> u32
    ensures { result ≡ shifted_right a count }
{
    a.wrapping_shr(count)
}

/// `a` shifted right by the low five bits of `count`, with copies of the sign bit from the left.
pub fn sar(a: u32, count: u32) -> u32
    ensures { result ≡ shifted_signed a count }
{
    a.cast_signed().wrapping_shr(count).cast_unsigned()
}

/// Whether `a` is below `b`, both read as two's complement.
pub fn less_signed(a: u32, b: u32) -> bool
    ensures { result ≡ is_less_signed a b }
{
    a.cast_signed() < b.cast_signed()
}

/// The low byte of `a`, with its sign copied into the other 24 bits.
pub fn sign8(a: u32) -> u32
    ensures { result ≡ sign_extended_8 a }
{
    let low = a % 256;
    if low < 128 {
        low
    } else {
        low + (u32::MAX - 255)
    }
}

/// The low half word of `a`, with its sign copied into the other 16 bits.
pub fn sign16(a: u32) -> u32
    ensures { result ≡ sign_extended_16 a }
{
    let low = a % 65536;
    if low < 32768 {
        low
    } else {
        low + (u32::MAX - 65535)
    }
}

/// The quotient of `a` by `b`, both read as two's complement, cut toward zero. The condition leaves
/// out the two cases that have no quotient: a divisor of 0, and the least number by minus one.
pub fn div_signed(a: u32, b: u32) -> u32
    requires nonzero { b ≢ 0 }
    requires fits { (a ≢ 2 ^ 31) ⊎ (b ≢ 2 ^ 32 - 1) }
    ensures { result ≡ quotient_signed a b }
{
    a.cast_signed()
        .wrapping_div(b.cast_signed())
        .cast_unsigned()
}

/// The remainder of `a` by `b`, both read as two's complement. It has the sign of `a`, or is 0. The
/// condition is that of [`div_signed`].
pub fn rem_signed(a: u32, b: u32) -> u32
    requires nonzero { b ≢ 0 }
    requires fits { (a ≢ 2 ^ 31) ⊎ (b ≢ 2 ^ 32 - 1) }
    ensures { result ≡ remainder_signed a b }
{
    a.cast_signed()
        .wrapping_rem(b.cast_signed())
        .cast_unsigned()
}

#[cfg(test)]
mod tests {
    use super::*;

    #[test]
    fn words(rt: HostRuntime) {
        let minus_one = u32::MAX;
        let least = 1 << 31;
        for (name, got, want) in [
            ("add", add(minus_one, 2), 1),
            ("sub", sub(1, 3), minus_one - 1),
            ("mul", mul(minus_one, 5), minus_one - 4),
            ("neg", neg(1), minus_one),
            ("neg of the least", neg(least), least),
            ("shl", shl(3, 33), 6),
            ("shr", shr(least, 63), 1),
            ("sar", sar(least, 31), minus_one),
            ("sar of none", sar(least, 32), least),
            ("sign8", sign8(0x1280), minus_one - 127),
            ("sign8 of a positive", sign8(0x1_017f), 127),
            ("sign16", sign16(0x7_8000), minus_one - 32767),
            ("sign16 of a positive", sign16(0x8_7fff), 32767),
            ("div", div_signed(neg(7), 2), neg(3)),
            ("div by -1", div_signed(7, minus_one), neg(7)),
            ("rem", rem_signed(neg(7), 2), minus_one),
            ("rem of the least", rem_signed(least, 3), neg(2)),
            ("less", less_signed(minus_one, 0) as u32, 1),
            ("not less", less_signed(0, minus_one) as u32, 0),
        ] {
            assert_eq!(rt; got, want, "{name}");
        }
    }
}
