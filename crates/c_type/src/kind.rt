//! The integer types.
ghost use Rattle.std.specs.Prelude.{◌≡◌};
ghost use Rattle.c_type.specs.Kinds as spec;

/// An integer type (ANSI C X3.159-1989, 3.1.2.5). Those with the same range are types apart.
#[derive(Clone, Copy, Debug, PartialEq, Eq)]
pub enum IntKind {
    /// `char`, a byte with a sign.
    Char,
    /// `signed char`, a byte.
    SignedChar,
    /// `unsigned char`, a byte.
    UnsignedChar,
    /// `short`, 2 bytes.
    Short,
    /// `unsigned short`, 2 bytes.
    UnsignedShort,
    /// `int`, 4 bytes.
    Int,
    /// `unsigned int`, 4 bytes.
    UnsignedInt,
    /// `long`, 4 bytes.
    Long,
    /// `unsigned long`, 4 bytes.
    UnsignedLong,
}

/// The greatest number of the type.
pub fn greatest(kind: IntKind) -> u32
    ensures { result ≡ spec.greatest kind }
{
    match kind {
        IntKind::Char | IntKind::SignedChar => 127,
        IntKind::UnsignedChar => 255,
        IntKind::Short => 32_767,
        IntKind::UnsignedShort => 65_535,
        IntKind::Int | IntKind::Long => 2_147_483_647,
        IntKind::UnsignedInt | IntKind::UnsignedLong => 4_294_967_295,
    }
}

/// How many bytes a value of the type has. It stands at a multiple of as many.
pub fn bytes(kind: IntKind) -> u32
    ensures { result ≡ spec.bytes kind }
{
    match kind {
        IntKind::Char | IntKind::SignedChar | IntKind::UnsignedChar => 1,
        IntKind::Short | IntKind::UnsignedShort => 2,
        IntKind::Int | IntKind::UnsignedInt | IntKind::Long | IntKind::UnsignedLong => 4,
    }
}

/// Whether the type has negative values.
pub fn is_signed(kind: IntKind) -> bool
    ensures { result ≡ spec.is_signed kind }
{
    match kind {
        IntKind::Char | IntKind::SignedChar | IntKind::Short | IntKind::Int | IntKind::Long => true,
        IntKind::UnsignedChar
        | IntKind::UnsignedShort
        | IntKind::UnsignedInt
        | IntKind::UnsignedLong => false,
    }
}
