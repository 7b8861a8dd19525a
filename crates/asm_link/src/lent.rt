// Faults with names that are lent.
ghost use Rattle.std.specs.Prelude.{◌≡◌, ◌⊎◌, IfOk};
ghost use Rattle.asm_link.specs.declared.fault.AsmKind.{AsmKind};
ghost use Rattle.asm_link.specs.Shown.{fault_of, kind_of};

use crate::fault::{AsmFault, AsmKind};
use asm_line::line::LineFault;
use qv_base::NoMemory;
use qv_base::name::Name;
use std::alloc::Global;

/// The faults of `AsmKind` that linking finds, each as there.
#[derive(Clone, Copy)]
pub enum LentKind<'a> {
    Line(LineFault),
    Redefined(&'a [u8]),
    MixedSegments(&'a [u8]),
    WrongSegment,
    OutsideProc,
    FrameTooLarge,
    ArgTooFar,
    UndefinedName(&'a [u8]),
    BranchFar,
    CodeTooLarge,
    EmptyCode,
    DataTooLarge(u128),
}

/// A fault and its place.
#[derive(Clone, Copy)]
pub struct LentFault<'a> {
    /// The file's number, from 0.
    pub file: u32,
    /// The line's number, from 1.
    pub line: u32,
    /// Why.
    pub kind: LentKind<'a>,
}

// The kind with names of its own.
fn owned(alloc: Global, kind: LentKind<'_>) -> Result<AsmKind, NoMemory>
    ensures { IfOk result (λ owned. owned ≡ kind_of kind.entry) }
{
    Ok(match kind {
        LentKind::Line(fault) => AsmKind::Line(fault),
        LentKind::Redefined(name) => AsmKind::Redefined(Name::from_bytes(alloc, name)?),
        LentKind::MixedSegments(name) => AsmKind::MixedSegments(Name::from_bytes(alloc, name)?),
        LentKind::WrongSegment => AsmKind::WrongSegment,
        LentKind::OutsideProc => AsmKind::OutsideProc,
        LentKind::FrameTooLarge => AsmKind::FrameTooLarge,
        LentKind::ArgTooFar => AsmKind::ArgTooFar,
        LentKind::UndefinedName(name) => AsmKind::UndefinedName(Name::from_bytes(alloc, name)?),
        LentKind::BranchFar => AsmKind::BranchFar,
        LentKind::CodeTooLarge => AsmKind::CodeTooLarge,
        LentKind::EmptyCode => AsmKind::EmptyCode,
        LentKind::DataTooLarge(size) => AsmKind::DataTooLarge(size),
    })
}

/// A fault with names of its own.
pub fn refuse(alloc: Global, fault: LentFault<'_>) -> AsmFault
    ensures { (result.kind ≡ AsmKind.NoMemory) ⊎ (result ≡ fault_of fault.entry) }
{
    match owned(alloc, fault.kind) {
        Ok(kind) => AsmFault {
            file: fault.file,
            line: fault.line,
            kind,
        },
        Err(refused) => AsmFault::from(refused),
    }
}
