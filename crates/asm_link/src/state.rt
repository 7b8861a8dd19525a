// What the lines before a place come to.
ghost use Rattle.std.specs.Prelude.{◌≡◌, ◌+◌, ◌<◌, ◌≤◌, ◌^◌, ℕ, Option, length, option_map};
ghost use Rattle.asm_line.specs.Shown.{bytes_of, row_of};
ghost use Rattle.asm_line.specs.Stands.{code_of, code_size};
ghost use Rattle.asm_line.specs.declared.frame.FrameSizes.{FrameSizes};
ghost use Rattle.asm_link.specs.Shown.{addition_shown, before_of, line_of};
ghost use Rattle.asm_link.specs.State.{added_to, frame_weight, next_arg_words, next_last, next_procedure, next_segment, next_waits, row_addition, size_in, start, step, step_row, weight};

use crate::addition::{Addition, added_by};
use crate::source::{Entry, SourceLine};
use asm_line::frame::FrameSizes;
use asm_line::line::{AsmSegment, Line};
use asm_place::size::rounded;
use qv_ops::op::width;

/// What the lines before a place come to.
#[derive(Clone, Copy)]
pub struct State<'a> {
    /// The current segment.
    pub segment: AsmSegment,
    /// The open procedure.
    pub procedure: Option<FrameSizes>,
    /// Arguments since the last call, procedure or start of a file.
    pub arg_words: u128,
    /// The last label outside code since a segment's word or the file's start.
    pub last: Option<&'a [u8]>,
    /// Whether that label isn't settled yet.
    pub waits: bool,
    /// Instructions.
    pub count: u128,
    /// Their bytes.
    pub code_bytes: u128,
    /// Bytes of the data.
    pub data_size: u128,
    /// Bytes of the literals.
    pub lit_size: u128,
    /// Bytes that are zero at first.
    pub bss_size: u128,
}

/// The state before the first line.
pub fn start<'a>() -> State<'a>
    ensures { before_of result ≡ start }
{
    State {
        segment: AsmSegment::Code,
        procedure: None,
        arg_words: 0,
        last: None,
        waits: false,
        count: 0,
        code_bytes: 0,
        data_size: 4,
        lit_size: 0,
        bss_size: 0,
    }
}

/// The bytes in a segment.
pub fn size_in(state: &State<'_>, segment: AsmSegment) -> u128
    ensures { result ≡ size_in segment (before_of state.now) }
{
    match segment {
        AsmSegment::Code => 0,
        AsmSegment::Data => state.data_size,
        AsmSegment::Lit => state.lit_size,
        AsmSegment::Bss => state.bss_size,
    }
}

// The segment behind a line.
fn next_segment(current: AsmSegment, line: &Line<'_>) -> AsmSegment
    ensures { result ≡ next_segment current (row_of line.now) }
{
    match *line {
        Line::Into(segment) => segment,
        Line::Word(_) => AsmSegment::Data,
        Line::LitByte(_) => AsmSegment::Lit,
        _ => current,
    }
}

// The open procedure behind a line.
fn next_procedure(procedure: Option<FrameSizes>, line: &Line<'_>) -> Option<FrameSizes>
    ensures is { result ≡ next_procedure procedure (row_of line.now) }
    ensures bound { frame_weight result ≤ frame_weight procedure + 2 ^ 33 + 8 }
{
    match *line {
        Line::Proc { locals, args, .. } => Some(FrameSizes {
            locals: rounded(u128::from(locals)),
            args: rounded(u128::from(args)),
        }),
        Line::EndProc => None,
        _ => procedure,
    }
}

// The arguments since the last call, behind a line.
fn next_arg_words(arg_words: u128, line: &Line<'_>) -> u128
    requires { arg_words < 2 ^ 127 }
    ensures is { result ≡ next_arg_words arg_words (row_of line.now) }
    ensures bound { result ≤ arg_words + 1 }
{
    match line {
        Line::Proc { .. } | Line::Call => 0,
        Line::Arg => arg_words + 1,
        _ => arg_words,
    }
}

// The last label outside code, behind a line.
fn next_last<'a>(current: AsmSegment, last: Option<&'a [u8]>, line: &Line<'a>) -> Option<&'a [u8]>
    ensures { option_map bytes_of result ≡ next_last current (option_map bytes_of last.entry) (row_of line.now) }
{
    match *line {
        Line::Into(_) => None,
        Line::Label(name) => match current {
            AsmSegment::Code => last,
            _ => Some(name),
        },
        _ => last,
    }
}

// Whether a label waits behind a line.
fn next_waits(current: AsmSegment, waits: bool, line: &Line<'_>) -> bool
    ensures { result ≡ next_waits current waits (row_of line.now) }
{
    match line {
        Line::Into(_) | Line::Word(_) | Line::LitByte(_) | Line::Skip(_) | Line::Align(_) => false,
        Line::Label(_) => match current {
            AsmSegment::Code => waits,
            _ => true,
        },
        _ => waits,
    }
}

// How many instructions a line stands for.
fn code_count(line: &Line<'_>) -> u128
    ensures is { (procedure : Option FrameSizes) (arg_words : ℕ) → length (code_of procedure arg_words (row_of line.now)) ≡ result }
    ensures bound { result ≤ 2 }
{
    match line {
        Line::EndProc => 2,
        Line::Proc { .. }
        | Line::One { .. }
        | Line::Call
        | Line::Arg
        | Line::Ret
        | Line::LocalAt(_)
        | Line::ParamAt(_) => 1,
        _ => 0,
    }
}

// How many bytes they take.
fn code_size(line: &Line<'_>) -> u128
    ensures is { (procedure : Option FrameSizes) (arg_words : ℕ) → code_size (code_of procedure arg_words (row_of line.now)) ≡ result }
    ensures bound { result ≤ 6 }
{
    match line {
        Line::EndProc => 6,
        Line::Proc { .. } | Line::Ret | Line::LocalAt(_) | Line::ParamAt(_) => 5,
        Line::One { op, .. } => 1 + u128::from(width(*op)),
        Line::Call => 1,
        Line::Arg => 2,
        _ => 0,
    }
}

// The bytes that are added to a segment.
fn added_to(segment: AsmSegment, added: Option<(AsmSegment, Addition<'_>)>) -> u128
    ensures is { result ≡ added_to segment (option_map addition_shown added.entry) }
    ensures bound { result < 2 ^ 32 }
{
    match added {
        Some((into, addition)) if into == segment => u128::from(addition.size()),
        _ => 0,
    }
}

// The state behind a line that can be read.
fn step_line<'a>(s: &State<'a>, line: &Line<'a>) -> State<'a>
    requires { weight (before_of s.now) < 2 ^ 126 }
    ensures is { before_of result ≡ step_row (row_of line.now) (before_of s.now) }
    ensures bound { weight (before_of result) ≤ weight (before_of s.now) + 2 ^ 35 }
{
    let added = added_by(s, line);
    State {
        segment: next_segment(s.segment, line),
        procedure: next_procedure(s.procedure, line),
        arg_words: next_arg_words(s.arg_words, line),
        last: next_last(s.segment, s.last, line),
        waits: next_waits(s.segment, s.waits, line),
        count: s.count + code_count(line),
        code_bytes: s.code_bytes + code_size(line),
        data_size: s.data_size + added_to(AsmSegment::Data, added),
        lit_size: s.lit_size + added_to(AsmSegment::Lit, added),
        bss_size: s.bss_size + added_to(AsmSegment::Bss, added),
    }
}

/// The state behind an entry.
pub fn step<'a>(s: &State<'a>, line: &SourceLine<'a>) -> State<'a>
    requires { weight (before_of s.now) < 2 ^ 126 }
    ensures is { before_of result ≡ step (before_of s.now) (line_of line.now) }
    ensures bound { weight (before_of result) ≤ weight (before_of s.now) + 2 ^ 35 }
{
    match &line.entry {
        Entry::Read(line) => step_line(s, line),
        Entry::Unread(_) => *s,
        // A file begins as the first one does; counts and sizes go on.
        Entry::FileEnd => State {
            count: s.count,
            code_bytes: s.code_bytes,
            data_size: s.data_size,
            lit_size: s.lit_size,
            bss_size: s.bss_size,
            ..start()
        },
    }
}

/// Goes on behind an entry.
pub fn advance<'a>(s: &mut State<'a>, line: &SourceLine<'a>)
    requires { weight (before_of s.old) < 2 ^ 126 }
    ensures is { (before_of s.new) ≡ step (before_of s.old) (line_of line.now) }
    ensures bound { weight (before_of s.new) ≤ weight (before_of s.old) + 2 ^ 35 }
{
    *s = step(s, line);
}
