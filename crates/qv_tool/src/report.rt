// Reports: a status and the line that tells it.
ghost use Rattle.std.specs.Prelude.{◌≡◌, ◌++◌, IfOk, codes, string_bytes};
ghost use Rattle.qv_tool.specs.Ending.{Tells, line, stop_status, stop_text};
ghost use Rattle.qv_tool.specs.Work.{Says, SaysUnread};

use crate::status::Status;
use qv_base::NoMemory;
use qv_outside::files::FileFault;
use std::alloc::Global;
use vm_core::stop::Stop;

/// A status, and the line for the error stream that tells it, with its line feed.
#[derive(Drop)]
pub struct Report {
    pub status: Status,
    pub line: Vec<u8>,
}

/// The command's file is written.
pub fn done(alloc: Global) -> Result<Report, NoMemory>
    ensures { IfOk result (λ report. Says Status.Done (line (codes "done")) report) }
{
    say(alloc, Status::Done, "done")
}

/// The words stand for no command.
pub fn usage(alloc: Global) -> Result<Report, NoMemory>
    ensures { IfOk result (λ report. Says Status.Usage (line (codes "usage")) report) }
{
    say(alloc, Status::Usage, "usage")
}

/// The command or the file is of a form that isn't served yet.
pub fn not_yet(alloc: Global) -> Result<Report, NoMemory>
    ensures { IfOk result (λ report. Says Status.NotYet (line (codes "not yet")) report) }
{
    say(alloc, Status::NotYet, "not yet")
}

// The status, told by this text.
fn say(alloc: Global, status: Status, text: &str) -> Result<Report, NoMemory>
    ensures { IfOk result (λ report. Says status (line text.now) report) }
{
    let line = format!(in alloc; "{text}\n")?;
    Ok(Report {
        status,
        line: line.into_bytes(),
    })
}

/// A read of the file of this name answered this fault.
pub fn unread(alloc: Global, name: &str, fault: FileFault) -> Result<Report, NoMemory>
    ensures { IfOk result (λ report. SaysUnread name.now report fault) }
{
    let (status, line) = match fault {
        FileFault::Absent => (Status::Missing, format!(in alloc; "absent: {name}\n")?),
        FileFault::TooLong => (Status::Missing, format!(in alloc; "too long: {name}\n")?),
        FileFault::Failed => (
            Status::ReadFault,
            format!(in alloc; "read fault: {name}\n")?,
        ),
        FileFault::NoMemory => return Err(NoMemory),
    };
    Ok(Report {
        status,
        line: line.into_bytes(),
    })
}

/// The write of this file failed.
pub fn write_fault(alloc: Global, name: &str) -> Result<Report, NoMemory>
    ensures { IfOk result (λ report. Says Status.WriteFault (line (codes "write fault: " ++ name.now)) report) }
{
    let line = format!(in alloc; "write fault: {name}\n")?;
    Ok(Report {
        status: Status::WriteFault,
        line: line.into_bytes(),
    })
}

/// The calls came to their end by this stop.
pub fn calls_ended(alloc: Global, stop: Stop) -> Result<Report, NoMemory>
    ensures { IfOk result (λ report. Tells stop report.status report.line.items) }
{
    let text = stop_text(alloc, stop)?;
    say(alloc, stop_status(stop), text.as_str())
}

fn stop_status(stop: Stop) -> Status
    ensures { result ≡ stop_status stop }
{
    match stop {
        Stop::Returned(_) => Status::Done,
        Stop::Budget => Status::Budget,
        Stop::HostFault => Status::HostFault,
        Stop::OutFault => Status::WriteFault,
        _ => Status::Stopped,
    }
}

fn stop_text(alloc: Global, stop: Stop) -> Result<String, NoMemory>
    ensures { IfOk result (λ text. string_bytes text ≡ stop_text stop) }
{
    match stop {
        Stop::Returned(word) => Ok(format!(in alloc; "returned {}", word.cast_signed())?),
        Stop::Budget => copied(alloc, "budget used"),
        Stop::ModuleError => copied(alloc, "stopped: module error"),
        Stop::OperandOver => copied(alloc, "stopped: operand stack over"),
        Stop::OperandUnder => copied(alloc, "stopped: operand stack under"),
        Stop::StackOver => copied(alloc, "stopped: program stack over"),
        Stop::StackUnder => copied(alloc, "stopped: program stack under"),
        Stop::JumpOut(number) => Ok(format!(in alloc; "stopped: jump out {number}")?),
        Stop::FellOff => copied(alloc, "stopped: fell off"),
        Stop::DivideZero => copied(alloc, "stopped: divide zero"),
        Stop::DivideOver => copied(alloc, "stopped: divide over"),
        Stop::CopyRange => copied(alloc, "stopped: copy range"),
        Stop::UnknownTrap(number) => Ok(format!(in alloc; "stopped: unknown trap {number}")?),
        Stop::TrapRange { number, argument } => {
            Ok(format!(in alloc; "stopped: trap {number} argument {argument} outside")?)
        }
        Stop::HostFault => copied(alloc, "host fault"),
        Stop::OutFault => copied(alloc, "write fault: out"),
    }
}

/// A text of its own.
pub fn copied(alloc: Global, text: &str) -> Result<String, NoMemory>
    ensures { IfOk result (λ copy. string_bytes copy ≡ text.now) }
{
    Ok(String::from_str(alloc, text)?)
}
