// Reports of faults in images.
ghost use Rattle.std.specs.Prelude.{◌≡◌, IfOk, string_bytes};
ghost use Rattle.qv_tool.specs.Damage.{code_text, damage_text};
ghost use Rattle.qv_tool.specs.Work.{SaysDamaged};

use crate::report::{Report, copied};
use crate::status::Status;
use qv_base::NoMemory;
use qv_image::fault::ImageFault;
use qv_ops::decode::CodeFault;
use std::alloc::Global;

/// The image's file has this fault.
pub fn damaged(alloc: Global, fault: ImageFault) -> Result<Report, NoMemory>
    ensures { IfOk result (λ report. SaysDamaged fault report) }
{
    let text = match fault {
        ImageFault::NoMemory => return Err(NoMemory),
        _ => damage_text(alloc, fault)?,
    };
    let line = format!(in alloc; "image: {text}\n")?;
    Ok(Report {
        status: Status::Image,
        line: line.into_bytes(),
    })
}

fn damage_text(alloc: Global, fault: ImageFault) -> Result<String, NoMemory>
    ensures { IfOk result (λ text. string_bytes text ≡ damage_text fault) }
{
    match fault {
        ImageFault::HeaderShort(len) => Ok(format!(in alloc; "header short {len}")?),
        ImageFault::BadMagic(word) => Ok(format!(in alloc; "bad magic {word}")?),
        ImageFault::NegativeLength(field) => Ok(format!(in alloc; "negative length {field}")?),
        ImageFault::NoCode => copied(alloc, "no code"),
        ImageFault::CodeTooLarge(len) => Ok(format!(in alloc; "code too large {len}")?),
        ImageFault::CodeOutside => copied(alloc, "code outside"),
        ImageFault::DataOutside => copied(alloc, "data outside"),
        ImageFault::DataTooLarge(size) => Ok(format!(in alloc; "data too large {size}")?),
        ImageFault::Code(fault) => code_text(alloc, fault),
        ImageFault::NoMemory => copied(alloc, "no memory"),
    }
}

fn code_text(alloc: Global, fault: CodeFault) -> Result<String, NoMemory>
    ensures { IfOk result (λ text. string_bytes text ≡ code_text fault) }
{
    match fault {
        CodeFault::CodeShort { at } => Ok(format!(in alloc; "code short at {at}")?),
        CodeFault::BadOpcode { at, op } => Ok(format!(in alloc; "bad opcode {op} at {at}")?),
        CodeFault::FloatOpcode { at, op } => Ok(format!(in alloc; "float opcode {op} at {at}")?),
        CodeFault::BranchOut { at } => Ok(format!(in alloc; "branch out at {at}")?),
        CodeFault::TailLong { left } => Ok(format!(in alloc; "tail {left}")?),
        CodeFault::NoMemory => copied(alloc, "no memory"),
    }
}
