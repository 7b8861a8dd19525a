// The faults of a line.
ghost use Rattle.std.specs.Prelude.{◌≡◌, ◌<◌, ◌^◌, [], map, option_map};
ghost use Rattle.asm_line.specs.Shown.{bytes_of, row_of};
ghost use Rattle.asm_link.specs.Faults.{unread, redefined, mixed, mixed_in, wrong_segment, outside_proc, too_large, too_far, undefined, undefined_value, branch_far, code_too_large, of_line, of_entry, kind_at};
ghost use Rattle.asm_link.specs.Link.{fault_at};
ghost use Rattle.asm_link.specs.Shown.{entry_of, line_of, before_of, fault_of, kind_of, texts_of};
ghost use Rattle.asm_link.specs.Source.{source_of};
ghost use Rattle.asm_link.specs.State.{weight, step};

use crate::lent::{LentFault, LentKind};
use crate::naming::name_defined;
use crate::source::{Entry, SourceLine};
use crate::state::{State, step};
use crate::tables::Tables;
use crate::values::{known, value_of};
use asm_line::line::{AsmSegment, Line, Value};
use asm_place::size::rounded;
use qv_base::limits::{CODE_BYTES, FRAME_BYTES};
use qv_ops::op::is_branch;

/// The fault of the line with this number, the first in the order of `AsmKind`.
pub fn fault_at<'a>(
    tables: &Tables<'a>,
    at: u64,
    s: &State<'a>,
    line: &SourceLine<'a>,
) -> Option<LentFault<'a>>
    requires { weight (before_of s.now) < 2 ^ 124 }
    ensures { option_map fault_of result ≡ fault_at (source_of (texts_of tables.now.files.now)) (record { at = at; before = before_of s.now; line = line_of line.now }) }
{
    let kind = kind_at(tables, at, s, line)?;
    Some(LentFault {
        file: line.file,
        line: line.line,
        kind,
    })
}

// What the fault is.
fn kind_at<'a>(
    tables: &Tables<'a>,
    at: u64,
    s: &State<'a>,
    line: &SourceLine<'a>,
) -> Option<LentKind<'a>>
    requires { weight (before_of s.now) < 2 ^ 124 }
    ensures { option_map kind_of result ≡ kind_at (source_of (texts_of tables.now.files.now)) (record { at = at; before = before_of s.now; line = line_of line.now }) }
{
    if let Some(kind) = unread(&line.entry) {
        return Some(kind);
    }
    if let Some(kind) = redefined(tables, at, s, line) {
        return Some(kind);
    }
    if let Some(kind) = of_entry(tables, line.file, &line.entry, s) {
        return Some(kind);
    }
    code_too_large(&step(s, line))
}

// A line that can't be read.
fn unread<'a>(entry: &Entry<'a>) -> Option<LentKind<'a>>
    ensures { option_map kind_of result ≡ unread (entry_of entry.now) }
{
    match entry {
        Entry::Unread(fault) => Some(LentKind::Line(*fault)),
        _ => None,
    }
}

// The line defines a name that another line before it defines.
fn redefined<'a>(
    tables: &Tables<'a>,
    at: u64,
    s: &State<'a>,
    line: &SourceLine<'a>,
) -> Option<LentKind<'a>>
    ensures { option_map kind_of result ≡ redefined (source_of (texts_of tables.now.files.now)) (record { at = at; before = before_of s.now; line = line_of line.now }) }
{
    let name = name_defined(&line.entry)?;
    match known(tables, line.file, name) {
        Some(known) if known.at != at => Some(LentKind::Redefined(name)),
        _ => None,
    }
}

// The last label's bytes would go on in another segment.
fn mixed_in<'a>(target: AsmSegment, s: &State<'a>) -> Option<LentKind<'a>>
    ensures { option_map kind_of result ≡ mixed_in target (before_of s.now) (option_map bytes_of s.now.last) }
{
    let name = s.last?;
    if target != s.segment && !s.waits {
        return Some(LentKind::MixedSegments(name));
    }
    None
}

// The bytes behind a label would fall into two segments.
fn mixed<'a>(line: &Line<'a>, s: &State<'a>) -> Option<LentKind<'a>>
    ensures { option_map kind_of result ≡ mixed (row_of line.now) (before_of s.now) }
{
    match line {
        Line::Word(_) => mixed_in(AsmSegment::Data, s),
        Line::LitByte(_) => mixed_in(AsmSegment::Lit, s),
        _ => None,
    }
}

// Zero bytes in the code.
fn wrong_segment<'a>(line: &Line<'a>, s: &State<'a>) -> Option<LentKind<'a>>
    ensures { option_map kind_of result ≡ wrong_segment (row_of line.now) (before_of s.now) }
{
    match line {
        Line::Skip(_) | Line::Align(_) if s.segment == AsmSegment::Code => {
            Some(LentKind::WrongSegment)
        }
        _ => None,
    }
}

// The line has to stand in a procedure, and none is open.
fn outside_proc<'a>(line: &Line<'a>, s: &State<'a>) -> Option<LentKind<'a>>
    ensures { option_map kind_of result ≡ outside_proc (row_of line.now) (before_of s.now) }
{
    match line {
        Line::EndProc | Line::Ret | Line::LocalAt(_) | Line::ParamAt(_) if s.procedure.is_none() =>
            { Some(LentKind::OutsideProc) }
        _ => None,
    }
}

// The procedure's frame is too large.
fn too_large<'a>(line: &Line<'a>) -> Option<LentKind<'a>>
    ensures { option_map kind_of result ≡ too_large (row_of line.now) }
{
    match line {
        Line::Proc { locals, args, .. }
            if 8 + rounded(u128::from(*locals)) + rounded(u128::from(*args))
                >= u128::from(FRAME_BYTES) => { Some(LentKind::FrameTooLarge) }
        _ => None,
    }
}

// The argument stands too far from the program stack.
fn too_far<'a>(line: &Line<'a>, s: &State<'a>) -> Option<LentKind<'a>>
    requires { weight (before_of s.now) < 2 ^ 124 }
    ensures { option_map kind_of result ≡ too_far (row_of line.now) (before_of s.now) }
{
    match line {
        Line::Arg if 8 + 4 * s.arg_words >= 256 => Some(LentKind::ArgTooFar),
        _ => None,
    }
}

// The expression has a name that no line defines.
fn undefined_value<'a>(tables: &Tables<'a>, file: u32, value: &Value<'a>) -> Option<LentKind<'a>>
    ensures { option_map kind_of result ≡ undefined_value (source_of (texts_of tables.now.files.now)) file (option_map bytes_of value.now.name) }
{
    let name = value.name?;
    match known(tables, file, name) {
        Some(_) => None,
        None => Some(LentKind::UndefinedName(name)),
    }
}

// The line uses a name that no line defines.
fn undefined<'a>(tables: &Tables<'a>, file: u32, line: &Line<'a>) -> Option<LentKind<'a>>
    ensures { option_map kind_of result ≡ undefined (source_of (texts_of tables.now.files.now)) file (row_of line.now) }
{
    match line {
        Line::One { operand: value, .. } => undefined_value(tables, file, value),
        Line::LocalAt(value) | Line::ParamAt(value) | Line::Word(value) => undefined_value(
            tables, file, value,
        ),
        _ => None,
    }
}

// The branch goes to no instruction.
fn branch_far<'a>(tables: &Tables<'a>, file: u32, line: &Line<'a>) -> Option<LentKind<'a>>
    ensures { option_map kind_of result ≡ branch_far (source_of (texts_of tables.now.files.now)) file (row_of line.now) }
{
    let Line::One { op, operand } = line else {
        return None;
    };
    if !is_branch(*op) {
        return None;
    }
    match value_of(tables, file, operand) {
        Some(n) if u128::from(n) >= tables.last.count => Some(LentKind::BranchFar),
        _ => None,
    }
}

// The fault of a line that can be read.
fn of_line<'a>(
    tables: &Tables<'a>,
    file: u32,
    line: &Line<'a>,
    s: &State<'a>,
) -> Option<LentKind<'a>>
    requires { weight (before_of s.now) < 2 ^ 124 }
    ensures { option_map kind_of result ≡ of_line (source_of (texts_of tables.now.files.now)) file (row_of line.now) (before_of s.now) }
{
    if let Some(kind) = mixed(line, s) {
        return Some(kind);
    }
    if let Some(kind) = wrong_segment(line, s) {
        return Some(kind);
    }
    if let Some(kind) = outside_proc(line, s) {
        return Some(kind);
    }
    if let Some(kind) = too_large(line) {
        return Some(kind);
    }
    if let Some(kind) = too_far(line, s) {
        return Some(kind);
    }
    if let Some(kind) = undefined(tables, file, line) {
        return Some(kind);
    }
    branch_far(tables, file, line)
}

// The fault of an entry that can be read.
fn of_entry<'a>(
    tables: &Tables<'a>,
    file: u32,
    entry: &Entry<'a>,
    s: &State<'a>,
) -> Option<LentKind<'a>>
    requires { weight (before_of s.now) < 2 ^ 124 }
    ensures { option_map kind_of result ≡ of_entry (source_of (texts_of tables.now.files.now)) file (entry_of entry.now) (before_of s.now) }
{
    match entry {
        Entry::Read(line) => of_line(tables, file, line, s),
        _ => None,
    }
}

// The code behind a line takes too many bytes.
fn code_too_large<'a>(s: &State<'a>) -> Option<LentKind<'a>>
    ensures { option_map kind_of result ≡ code_too_large (before_of s.now) }
{
    if s.code_bytes > u128::from(CODE_BYTES) {
        return Some(LentKind::CodeTooLarge);
    }
    None
}
