//! Conversions between integer types (ANSI C X3.159-1989, 3.2.1).
//!
//! A value is held as a word: a negative one as the word that stands so far below 2^32.
ghost use Rattle.std.specs.Prelude.{◌≡◌, ℕ, IsTrue};
ghost use Rattle.c_conv.specs.Conversions as spec;

use c_type::kind::IntKind;
use qv_base::word::{sign8, sign16};

/// The type that a value has after promotion: `int` for the types that are narrower.
pub fn promote(k: IntKind) -> IntKind
    ensures exact { result ≡ spec.promote k }
    ensures keeps { (v : ℕ) → IsTrue (spec.is_value k v) → IsTrue (spec.is_value result v) }
{
    match k {
        IntKind::UnsignedInt => IntKind::UnsignedInt,
        IntKind::Long => IntKind::Long,
        IntKind::UnsignedLong => IntKind::UnsignedLong,
        IntKind::Char
        | IntKind::SignedChar
        | IntKind::UnsignedChar
        | IntKind::Short
        | IntKind::UnsignedShort
        | IntKind::Int => IntKind::Int,
    }
}

/// The type to which both operands of an operator are converted.
pub fn usual(a: IntKind, b: IntKind) -> IntKind
    ensures exact { result ≡ spec.usual a b }
    ensures either_order { result ≡ spec.usual b a }
    ensures promoted { result ≡ spec.promote result }
{
    match (promote(a), promote(b)) {
        (IntKind::UnsignedLong, _) | (_, IntKind::UnsignedLong) => IntKind::UnsignedLong,
        (IntKind::Long, IntKind::UnsignedInt) | (IntKind::UnsignedInt, IntKind::Long) => {
            IntKind::UnsignedLong
        }
        (IntKind::Long, _) | (_, IntKind::Long) => IntKind::Long,
        (IntKind::UnsignedInt, _) | (_, IntKind::UnsignedInt) => IntKind::UnsignedInt,
        _ => IntKind::Int,
    }
}

/// A word as a value of a type: the type's low bytes, with their sign.
pub fn convert(v: u32, k: IntKind) -> u32
    ensures exact { result ≡ spec.convert v k }
    ensures value { IsTrue (spec.is_value k result) }
    ensures kept { IsTrue (spec.is_value k v) → result ≡ v }
{
    match k {
        IntKind::Char | IntKind::SignedChar => sign8(v),
        IntKind::UnsignedChar => v % 256,
        IntKind::Short => sign16(v),
        IntKind::UnsignedShort => v % 65_536,
        IntKind::Int | IntKind::UnsignedInt | IntKind::Long | IntKind::UnsignedLong => v,
    }
}
