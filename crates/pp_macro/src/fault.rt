//! What keeps tokens from being expanded.
use qv_base::NoMemory;
use qv_base::place::Place;
use std::alloc::AllocError;

/// What keeps tokens from being expanded, each with the place of the name with which the outermost
/// replacement around it began.
#[derive(Clone, Copy, Debug, PartialEq, Eq)]
pub enum ExpandFault {
    /// A call has another number of arguments than its macro has parameters.
    ArgCount(Place),
    /// A call has no closing parenthesis.
    OpenCall(Place),
    /// What a `##` joins isn't one token.
    BadPaste(Place),
    /// Too many replacements, or arguments too deep in arguments.
    MacroLimit(Place),
    /// Memory was refused.
    NoMemory,
}

impl From<NoMemory> for ExpandFault {
    ghost use Rattle.std.specs.Prelude.{◌≡◌};
    ghost use Rattle.pp_macro.specs.declared.fault.ExpandFault.TheVariants as fault;

    ghost from_gives = { λ _ e. e ≡ fault.NoMemory };

    fn from(_: NoMemory) -> Self {
        ExpandFault::NoMemory
    }
}

impl From<AllocError> for ExpandFault {
    ghost use Rattle.std.specs.Prelude.{◌≡◌};
    ghost use Rattle.pp_macro.specs.declared.fault.ExpandFault.TheVariants as fault;

    ghost from_gives = { λ _ e. e ≡ fault.NoMemory };

    fn from(_: AllocError) -> Self {
        ExpandFault::NoMemory
    }
}
