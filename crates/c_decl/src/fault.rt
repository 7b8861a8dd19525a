//! Why tokens aren't read.

use crate::marking::Marked;
use qv_base::NoMemory;
use qv_base::place::Place;
use std::alloc::AllocError;

/// Why tokens aren't of the grammar that is read.
#[derive(Clone, Copy, Debug, PartialEq, Eq)]
pub enum ParseFault {
    /// The first `float` or `double`.
    FloatType(Place),
    /// A syntax fault.
    Syntax(Place),
    /// The first construct that is left out.
    LeftOut(Marked, Place),
    /// Memory was refused.
    NoMemory,
}

/// Why a rule doesn't read on.
#[derive(Clone, Copy, Debug, PartialEq, Eq)]
pub enum Halt {
    /// So many tokens are left where the text goes wrong.
    Syntax(usize),
    /// Memory was refused.
    NoMemory,
}

impl From<NoMemory> for Halt {
    ghost use Rattle.std.specs.Prelude.{◌≡◌};
    ghost use Rattle.c_decl.specs.declared.fault.Halt.TheVariants.{NoMemory};

    ghost from_gives = { λ _ halt. halt ≡ NoMemory };

    fn from(_: NoMemory) -> Self {
        Halt::NoMemory
    }
}

impl From<AllocError> for Halt {
    ghost use Rattle.std.specs.Prelude.{◌≡◌};
    ghost use Rattle.c_decl.specs.declared.fault.Halt.TheVariants.{NoMemory};

    ghost from_gives = { λ _ halt. halt ≡ NoMemory };

    fn from(_: AllocError) -> Self {
        Halt::NoMemory
    }
}
