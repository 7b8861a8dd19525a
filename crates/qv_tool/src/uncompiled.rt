// Reports of why units aren't compiled.
ghost use Rattle.std.specs.Prelude.{◌≡◌, ◌++◌, IfOk, codes};
ghost use Rattle.std.specs.Fmt.{decimal};
ghost use Rattle.qv_tool.specs.Ending.{line};
ghost use Rattle.qv_tool.specs.Faulty.{is_of_all, source_object, source_place, source_text, source_words};
ghost use Rattle.qv_tool.specs.Work.{Says, SaysUncompiled};

use crate::report::{Report, not_yet};
use crate::status::Status;
use qcc_front::fault::{CompileStop, SourceFault, SourceKind};
use qv_base::NoMemory;
use qv_base::name::Name;
use std::alloc::Global;

/// The units aren't compiled, for this reason.
pub fn uncompiled(alloc: Global, stop: &CompileStop) -> Result<Report, NoMemory>
    ensures { IfOk result (λ report. SaysUncompiled stop.now report) }
{
    match stop {
        CompileStop::Source(fault) => faulty(alloc, fault),
        CompileStop::Absent(name) => unread(alloc, Status::Missing, b"absent: ", name),
        CompileStop::TooLong(name) => unread(alloc, Status::Missing, b"too long: ", name),
        CompileStop::ReadFault(name) => unread(alloc, Status::ReadFault, b"read fault: ", name),
        CompileStop::NotYet => not_yet(alloc),
        CompileStop::NoMemory => Err(NoMemory),
    }
}

// A file of this name wasn't read.
fn unread(alloc: Global, status: Status, words: &[u8], name: &Name) -> Result<Report, NoMemory>
    ensures { IfOk result (λ report. Says status (line (words.now ++ name.now)) report) }
{
    let mut line = words.to_vec(alloc)?;
    line.extend_from_slice(name.bytes())?;
    line.push(b'\n')?;
    Ok(Report { status, line })
}

// A source has this fault.
fn faulty(alloc: Global, fault: &SourceFault) -> Result<Report, NoMemory>
    ensures { IfOk result (λ report. Says Status.Source (line (source_text fault.now)) report) }
{
    let mut line = place_text(alloc, fault)?;
    line.extend_from_slice(b": ")?;
    line.extend_from_slice(words_of(&fault.kind).as_bytes())?;
    line.extend_from_slice(&object_text(alloc, &fault.kind)?)?;
    line.push(b'\n')?;
    Ok(Report {
        status: Status::Source,
        line,
    })
}

// Where a fault stands: at a line, or where the units are joined.
fn place_text(alloc: Global, fault: &SourceFault) -> Result<Vec<u8>, NoMemory>
    ensures { IfOk result (λ text. text.items ≡ source_place fault.now) }
{
    if is_of_all(&fault.kind) {
        return Ok(b"join".to_vec(alloc)?);
    }
    let number = fault.line;
    let mut text = fault.file.bytes().to_vec(alloc)?;
    text.extend_from_slice(format!(in alloc; ":{number}")?.as_bytes())?;
    Ok(text)
}

fn is_of_all(kind: &SourceKind) -> bool
    ensures { result ≡ is_of_all kind.now }
{
    matches!(
        kind,
        SourceKind::NoEntry | SourceKind::Tokens(_) | SourceKind::Data(_)
    )
}

// What is wrong.
fn words_of(kind: &SourceKind) -> &'static str
    ensures { result.now ≡ source_words kind.now }
{
    match kind {
        SourceKind::OpenComment => "open comment",
        SourceKind::ArgumentCount => "argument count",
        SourceKind::OpenCall => "open call",
        SourceKind::BadPaste => "bad paste",
        SourceKind::MacroLimit => "macro limit",
        SourceKind::BadDirective => "bad directive",
        SourceKind::BadCondition => "bad condition",
        SourceKind::Error(_) => "error ",
        SourceKind::NoInclude(_) => "no include ",
        SourceKind::IncludeDepth => "include depth",
        SourceKind::Redefinition(_) => "redefinition ",
        SourceKind::LeftOut(_) => "left out ",
        SourceKind::OpenIf => "open if",
        SourceKind::TokenLimit => "token limit",
        SourceKind::StrayByte => "stray byte",
        SourceKind::OpenQuote => "open quote",
        SourceKind::BadConstant => "bad constant",
        SourceKind::FloatConstant => "float constant",
        SourceKind::ConstantTooLarge => "constant too large",
        SourceKind::NameTooLong => "name too long",
        SourceKind::FloatType => "float type",
        SourceKind::Syntax => "syntax",
        SourceKind::Rule(_) => "rule ",
        SourceKind::BadBind => "bad bind",
        SourceKind::Redefined(_) => "redefined ",
        SourceKind::Disagree(_) => "disagree ",
        SourceKind::Undefined(_) => "undefined ",
        SourceKind::EntryNotFirst => "entry not first",
        SourceKind::EntryShape => "entry shape",
        SourceKind::EntryAddress => "entry address",
        SourceKind::Frame { .. } => "frame ",
        SourceKind::NoEntry => "no entry",
        SourceKind::Tokens(_) => "tokens ",
        SourceKind::Data(_) => "data ",
    }
}

// The name, the text or the number that it is wrong with.
fn object_text(alloc: Global, kind: &SourceKind) -> Result<Vec<u8>, NoMemory>
    ensures { IfOk result (λ text. text.items ≡ source_object kind.now) }
{
    match kind {
        SourceKind::Error(name)
        | SourceKind::NoInclude(name)
        | SourceKind::Redefinition(name)
        | SourceKind::LeftOut(name)
        | SourceKind::Redefined(name)
        | SourceKind::Disagree(name)
        | SourceKind::Undefined(name) => Ok(name.bytes().to_vec(alloc)?),
        SourceKind::Rule(number) => number_text(alloc, u64::from(*number)),
        SourceKind::Tokens(number) | SourceKind::Data(number) => number_text(alloc, *number),
        SourceKind::Frame { name, cost } => frame_text(alloc, name, *cost),
        _ => Ok(Vec::new(alloc)),
    }
}

fn number_text(alloc: Global, number: u64) -> Result<Vec<u8>, NoMemory>
    ensures { IfOk result (λ text. text.items ≡ decimal number) }
{
    Ok(format!(in alloc; "{number}")?.into_bytes())
}

fn frame_text(alloc: Global, name: &Name, cost: u64) -> Result<Vec<u8>, NoMemory>
    ensures { IfOk result (λ text. text.items ≡ name.now ++ codes " " ++ decimal cost) }
{
    let mut text = name.bytes().to_vec(alloc)?;
    text.push(b' ')?;
    text.extend_from_slice(&number_text(alloc, cost)?)?;
    Ok(text)
}
