//! Files of assembly, and why they aren't linked.
use asm_line::line::LineFault;
use qv_base::NoMemory;
use qv_base::name::Name;
use std::alloc::AllocError;

/// A file of assembly.
#[derive(Debug, Drop)]
pub struct AsmFile {
    /// The file's name.
    pub name: Name,
    /// Its text.
    pub text: Vec<u8>,
}

/// Why files aren't linked. On one line the first in this order counts.
#[derive(Debug, Drop)]
pub enum AsmKind {
    /// The line can't be read.
    Line(LineFault),
    /// The line defines a name that an earlier line defines.
    Redefined(Name),
    /// The bytes behind this label would fall into both data and literals.
    MixedSegments(Name),
    /// Zero bytes in the code.
    WrongSegment,
    /// The line has to stand in a procedure, and none is open.
    OutsideProc,
    /// The procedure's frame takes 32,767 bytes or more.
    FrameTooLarge,
    /// The argument's place is at byte 256 or behind.
    ArgTooFar,
    /// No line defines this name.
    UndefinedName(Name),
    /// The branch goes to no instruction.
    BranchFar,
    /// With this line the code takes more than 2^27 bytes.
    CodeTooLarge,
    /// There is no instruction.
    EmptyCode,
    /// Data, literals and zero bytes take this many bytes together, more than 2^26.
    DataTooLarge(u128),
    /// The list of files can't be read. The linker itself never answers it.
    BadList,
    /// Memory was refused.
    NoMemory,
}

/// Why files aren't linked, and where.
///
/// A fault behind all lines has the number of files and line 0, and `NoMemory` has file 0 and line 0.
#[derive(Debug, Drop)]
pub struct AsmFault {
    /// The file's number, from 0.
    pub file: u32,
    /// The line's number, from 1. A number that would pass 2^32 - 1 stays there.
    pub line: u32,
    /// Why.
    pub kind: AsmKind,
}

impl From<NoMemory> for AsmFault {
    ghost use Rattle.std.specs.Prelude.{◌≡◌};
    ghost use Rattle.asm_link.specs.declared.fault.AsmKind.TheVariants.{NoMemory};

    ghost from_gives = { λ _ fault. fault.kind ≡ NoMemory };

    fn from(_: NoMemory) -> Self {
        AsmFault {
            file: 0,
            line: 0,
            kind: AsmKind::NoMemory,
        }
    }
}

impl From<AllocError> for AsmFault {
    ghost use Rattle.std.specs.Prelude.{◌≡◌};
    ghost use Rattle.asm_link.specs.declared.fault.AsmKind.TheVariants.{NoMemory};

    ghost from_gives = { λ _ fault. fault.kind ≡ NoMemory };

    fn from(_: AllocError) -> Self {
        AsmFault::from(qv_base::NoMemory)
    }
}
