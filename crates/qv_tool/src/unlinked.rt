// Reports of faults in assembly.
ghost use Rattle.std.specs.Prelude.{◌≡◌, IfOk};
ghost use Rattle.asm_link.specs.declared.fault.AsmKind.{AsmKind};
ghost use Rattle.qv_tool.specs.Assembly.{fault_text, is_behind, kind_words, line_text, object_text, place_text};
ghost use Rattle.qv_tool.specs.Ending.{line};
ghost use Rattle.qv_tool.specs.Work.{Says};

use crate::report::Report;
use crate::status::Status;
use asm_line::line::LineFault;
use asm_link::fault::AsmKind;
use qv_base::NoMemory;
use std::alloc::Global;

/// The assembly file of this name isn't linked, for this fault at this line.
pub fn unlinked(alloc: Global, name: &str, number: u32, kind: &AsmKind) -> Result<Report, NoMemory>
    ensures { IfOk result (λ report. Says Status.Assembly (line (fault_text name.now number kind.now)) report) }
{
    let mut line = place_text(alloc, name, number, is_behind(kind))?;
    line.extend_from_slice(b": ")?;
    line.extend_from_slice(kind_words(kind).as_bytes())?;
    line.extend_from_slice(&object_text(alloc, kind)?)?;
    line.push(b'\n')?;
    Ok(Report {
        status: Status::Assembly,
        line,
    })
}

/// The list of this name is at fault on this line.
pub fn bad_list(alloc: Global, list: &str, number: u32) -> Result<Report, NoMemory>
    ensures { IfOk result (λ report. Says Status.Assembly (line (fault_text list.now number AsmKind.BadList)) report) }
{
    unlinked(alloc, list, number, &AsmKind::BadList)
}

// Where a fault stands: at a line, or behind all lines.
fn place_text(alloc: Global, name: &str, number: u32, behind: bool) -> Result<Vec<u8>, NoMemory>
    ensures { IfOk result (λ text. text.items ≡ place_text name.now number behind) }
{
    let text = if behind {
        format!(in alloc; "link")?
    } else {
        format!(in alloc; "{name}:{number}")?
    };
    Ok(text.into_bytes())
}

fn is_behind(kind: &AsmKind) -> bool
    ensures { result ≡ is_behind kind.now }
{
    matches!(kind, AsmKind::EmptyCode | AsmKind::DataTooLarge(_))
}

// What is wrong.
fn kind_words(kind: &AsmKind) -> &'static str
    ensures { result.now ≡ kind_words kind.now }
{
    match kind {
        AsmKind::Line(fault) => line_text(*fault),
        AsmKind::Redefined(_) => "redefined ",
        AsmKind::MixedSegments(_) => "mixed segments ",
        AsmKind::WrongSegment => "wrong segment",
        AsmKind::OutsideProc => "outside proc",
        AsmKind::FrameTooLarge => "frame too large",
        AsmKind::ArgTooFar => "argument too far",
        AsmKind::UndefinedName(_) => "undefined ",
        AsmKind::BranchFar => "branch too far",
        AsmKind::CodeTooLarge => "code too large",
        AsmKind::EmptyCode => "empty code",
        AsmKind::DataTooLarge(_) => "data too large ",
        AsmKind::BadList => "bad name",
        AsmKind::NoMemory => "no memory",
    }
}

// The name or the size that it is wrong with.
fn object_text(alloc: Global, kind: &AsmKind) -> Result<Vec<u8>, NoMemory>
    ensures { IfOk result (λ text. text.items ≡ object_text kind.now) }
{
    let text = match kind {
        AsmKind::Redefined(name) | AsmKind::MixedSegments(name) | AsmKind::UndefinedName(name) => {
            name.bytes().to_vec(alloc)?
        }
        AsmKind::DataTooLarge(size) => format!(in alloc; "{size}")?.into_bytes(),
        _ => Vec::new(alloc),
    };
    Ok(text)
}

fn line_text(fault: LineFault) -> &'static str
    ensures { result.now ≡ line_text fault }
{
    match fault {
        LineFault::UnknownWord => "unknown word",
        LineFault::Float => "float",
        LineFault::Byte2 => "byte 2",
        LineFault::MissingOperand => "missing operand",
        LineFault::BadNumber => "bad number",
        LineFault::ExtraWord => "extra word",
    }
}
