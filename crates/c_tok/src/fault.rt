//! What keeps tokens from being C tokens.

use qv_base::NoMemory;
use qv_base::place::Place;
use std::alloc::AllocError;

/// What is wrong with a token, and its place.
#[derive(Clone, Copy, Debug, PartialEq, Eq)]
pub enum TokFault {
    /// The token belongs to none of the classes of C.
    StrayByte(Place),
    /// A quote has no end on its line.
    OpenQuote(Place),
    /// A wide character constant or string.
    LeftOut(Place),
    /// A number or character constant has another form, or an escape of a constant or string is none.
    BadConstant(Place),
    /// A floating constant.
    FloatConstant(Place),
    /// No type holds the number.
    ConstantTooLarge(Place),
    /// An identifier has more than 127 bytes.
    NameTooLong(Place),
    /// Memory was refused.
    NoMemory,
}

impl From<NoMemory> for TokFault {
    ghost use Rattle.std.specs.Prelude.{◌≡◌};
    ghost use Rattle.c_tok.specs.declared.fault.TokFault.TheVariants as fault;

    ghost from_gives = { λ _ e. e ≡ fault.NoMemory };

    fn from(_: NoMemory) -> Self {
        TokFault::NoMemory
    }
}

impl From<AllocError> for TokFault {
    ghost use Rattle.std.specs.Prelude.{◌≡◌};
    ghost use Rattle.c_tok.specs.declared.fault.TokFault.TheVariants as fault;

    ghost from_gives = { λ _ e. e ≡ fault.NoMemory };

    fn from(_: AllocError) -> Self {
        TokFault::NoMemory
    }
}
