// Statuses.
ghost use Rattle.std.specs.Prelude.{◌≡◌};
ghost use Rattle.qv_tool.specs.Status.{code_of};

/// How a call of the tool ends.
#[derive(Clone, Copy, Debug, PartialEq, Eq)]
pub enum Status {
    /// The file was written, or the module's call returned.
    Done,
    /// The words stand for no command.
    Usage,
    /// A source has a fault.
    Source,
    /// The assembly isn't linked.
    Assembly,
    /// The file is no image.
    Image,
    /// The module's call was stopped.
    Stopped,
    /// The module's call used all its steps.
    Budget,
    /// A file that is needed is absent or too long.
    Missing,
    /// A read of a file failed.
    ReadFault,
    /// A write of a file, or a put to the output or of the line that ends the call, failed.
    WriteFault,
    /// The host failed to answer a call.
    HostFault,
    /// Memory was refused.
    NoMemory,
    /// The command or the file is of a form that isn't served yet.
    NotYet,
}

/// The status's number, with which the program exits.
pub fn status_code(status: &Status) -> u8
    ensures { result ≡ code_of status.now }
{
    match status {
        Status::Done => 0,
        Status::Usage => 1,
        Status::Source => 2,
        Status::Assembly => 3,
        Status::Image => 4,
        Status::Stopped => 5,
        Status::Budget => 6,
        Status::Missing => 7,
        Status::ReadFault => 8,
        Status::WriteFault => 9,
        Status::HostFault => 10,
        Status::NoMemory => 11,
        Status::NotYet => 12,
    }
}
