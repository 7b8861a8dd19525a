//! What keeps a unit from being preprocessed.
use qv_base::NoMemory;
use qv_base::name::Name;
use qv_outside::files::FileFault;

/// What is wrong with a line.
#[derive(Debug, Drop)]
pub enum PpFaultKind {
    /// A comment has no end.
    OpenComment,
    /// The name stands for another macro already.
    Redefinition(Name),
    /// A call of a macro has another number of arguments than the macro has parameters.
    ArgCount,
    /// A call of a macro has no closing parenthesis.
    OpenCall,
    /// What a `##` joins isn't one token.
    BadPaste,
    /// Too many replacements, or arguments too deep in arguments.
    MacroLimit,
    /// No directive has this word or this form, or stands here.
    Directive,
    /// A condition is none, or has no value.
    Condition,
    /// An `#error` with this text.
    ErrorDirective(Name),
    /// No file of this name is found.
    NoInclude(Name),
    /// Too many files would be open at once.
    IncludeDepth,
    /// What has this name is left out here.
    LeftOut(Name),
    /// A conditional has no `#endif`.
    OpenIf,
    /// The unit has too many tokens.
    TokenLimit,
}

/// What is wrong, with the file's name and the line.
#[derive(Debug, Drop)]
pub struct PpFault {
    /// What is wrong.
    pub kind: PpFaultKind,
    /// The name under which the file was read.
    pub file: Name,
    /// The line.
    pub line: u32,
}

/// What is wrong with a line of a file.
#[derive(Debug, Drop)]
pub struct Wrong {
    /// What is wrong.
    pub kind: PpFaultKind,
    /// The line.
    pub line: u32,
}

/// Why a line was not read.
#[derive(Debug, Drop)]
pub enum LineStop {
    /// It is wrong.
    Wrong(Wrong),
    /// Memory was refused.
    NoMemory,
}

impl From<NoMemory> for LineStop {
    ghost use Rattle.std.specs.Prelude.{◌≡◌};
    ghost use Rattle.pp_dir.specs.declared.fault.LineStop.TheVariants as stop;

    ghost from_gives = { λ _ r. r ≡ stop.NoMemory };

    fn from(_: NoMemory) -> Self {
        LineStop::NoMemory
    }
}

/// Why a unit was not preprocessed.
#[derive(Debug, Drop)]
pub enum PpStop {
    /// A line of the unit or of a file that it includes is wrong.
    Fault(PpFault),
    /// The file of this name was not read.
    File {
        /// The name.
        name: Name,
        /// Why.
        fault: FileFault,
    },
    /// Memory was refused.
    NoMemory,
}

impl From<NoMemory> for PpStop {
    ghost use Rattle.std.specs.Prelude.{◌≡◌};
    ghost use Rattle.pp_dir.specs.declared.fault.PpStop.TheVariants as stop;

    ghost from_gives = { λ _ r. r ≡ stop.NoMemory };

    fn from(_: NoMemory) -> Self {
        PpStop::NoMemory
    }
}
