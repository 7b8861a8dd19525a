// What keeps units from being compiled.
ghost use Rattle.std.specs.Prelude.{◌≡◌};
ghost use Rattle.qcc_front.specs.Accepted.{kind_from, stop_from};

use pp_dir::fault::{PpFaultKind, PpStop};
use qv_base::NoMemory;
use qv_base::name::Name;
use qv_outside::files::FileFault;

/// What is wrong with a source (ANSI C X3.159-1989).
#[derive(Debug, Drop)]
pub enum SourceKind {
    /// A comment has no end.
    OpenComment,
    /// A call of a macro has another number of arguments than the macro has parameters.
    ArgumentCount,
    /// A call of a macro has no closing parenthesis.
    OpenCall,
    /// What a `##` joins isn't one token.
    BadPaste,
    /// More than 1,000,000 replacements, or arguments more than 200 deep in arguments.
    MacroLimit,
    /// No directive has this word or this form, or stands here.
    BadDirective,
    /// A condition is none, or has no value.
    BadCondition,
    /// An `#error` with this text: its tokens with one blank between.
    Error(Name),
    /// No file of this name is found.
    NoInclude(Name),
    /// More than 64 files would be open at once.
    IncludeDepth,
    /// The name stands for another macro already.
    Redefinition(Name),
    /// What has this name is left out of the language.
    LeftOut(Name),
    /// A conditional has no `#endif`.
    OpenIf,
    /// A unit has more than 2^22 tokens after preprocessing.
    TokenLimit,
    /// A byte belongs to no token.
    StrayByte,
    /// A quote has no end on its line.
    OpenQuote,
    /// A constant isn't written as one.
    BadConstant,
    /// A constant is one of floating point.
    FloatConstant,
    /// A constant has no type that can hold it.
    ConstantTooLarge,
    /// An identifier has more than 127 bytes.
    NameTooLong,
    /// A type is one of floating point.
    FloatType,
    /// The tokens aren't in the grammar.
    Syntax,
    /// A rule of the language, from 1 to 48, is broken.
    Rule(u8),
    /// A line of the binds is none.
    BadBind,
    /// The name has a second definition.
    Redefined(Name),
    /// Declarations of the name aren't compatible.
    Disagree(Name),
    /// The name is used and has no definition.
    Undefined(Name),
    /// vmMain isn't the first function of the first unit.
    EntryNotFirst,
    /// vmMain can't be called with words.
    EntryShape,
    /// The name vmMain is used other than as the called name.
    EntryAddress,
    /// The frame of a function would be too large.
    Frame {
        /// The function's name.
        name: Name,
        /// What its frame costs, in bytes.
        cost: u64,
    },
    /// There is no function vmMain.
    NoEntry,
    /// The units have too many tokens: how many.
    Tokens(u64),
    /// The objects are too large: how many bytes they take.
    Data(u64),
}

/// What is wrong, and where. A fault without a place has the empty name and line 0.
#[derive(Debug, Drop)]
pub struct SourceFault {
    /// What is wrong.
    pub kind: SourceKind,
    /// The name under which the file was read.
    pub file: Name,
    /// The line, from 1.
    pub line: u32,
}

/// Why units are not compiled.
#[derive(Debug, Drop)]
pub enum CompileStop {
    /// A source has a fault.
    Source(SourceFault),
    /// No file has this name.
    Absent(Name),
    /// The file of this name has more than 2^31 - 1 bytes.
    TooLong(Name),
    /// The read of the file of this name failed.
    ReadFault(Name),
    /// The job or a unit is of a form that isn't served yet.
    NotYet,
    /// Memory was refused.
    NoMemory,
}

impl From<NoMemory> for CompileStop {
    ghost use Rattle.qcc_front.specs.declared.fault.CompileStop.TheVariants as stop;

    ghost from_gives = { λ _ r. r ≡ stop.NoMemory };

    fn from(_: NoMemory) -> Self {
        CompileStop::NoMemory
    }
}

/// Why a unit that isn't preprocessed isn't compiled.
pub fn stop_from(stop: PpStop) -> CompileStop
    ensures { result ≡ stop_from stop }
{
    match stop {
        PpStop::Fault(fault) => CompileStop::Source(SourceFault {
            kind: kind_from(fault.kind),
            file: fault.file,
            line: fault.line,
        }),
        PpStop::File { name, fault } => match fault {
            FileFault::Absent => CompileStop::Absent(name),
            FileFault::TooLong => CompileStop::TooLong(name),
            FileFault::Failed => CompileStop::ReadFault(name),
            FileFault::NoMemory => CompileStop::NoMemory,
        },
        PpStop::NoMemory => CompileStop::NoMemory,
    }
}

fn kind_from(kind: PpFaultKind) -> SourceKind
    ensures { result ≡ kind_from kind }
{
    match kind {
        PpFaultKind::OpenComment => SourceKind::OpenComment,
        PpFaultKind::Redefinition(name) => SourceKind::Redefinition(name),
        PpFaultKind::ArgCount => SourceKind::ArgumentCount,
        PpFaultKind::OpenCall => SourceKind::OpenCall,
        PpFaultKind::BadPaste => SourceKind::BadPaste,
        PpFaultKind::MacroLimit => SourceKind::MacroLimit,
        PpFaultKind::Directive => SourceKind::BadDirective,
        PpFaultKind::Condition => SourceKind::BadCondition,
        PpFaultKind::ErrorDirective(text) => SourceKind::Error(text),
        PpFaultKind::NoInclude(name) => SourceKind::NoInclude(name),
        PpFaultKind::IncludeDepth => SourceKind::IncludeDepth,
        PpFaultKind::LeftOut(name) => SourceKind::LeftOut(name),
        PpFaultKind::OpenIf => SourceKind::OpenIf,
        PpFaultKind::TokenLimit => SourceKind::TokenLimit,
    }
}
