// The instructions and bytes of one line.
ghost use Rattle.std.specs.Prelude.{◌≡◌, ◌+◌, ◌%◌, ◌<◌, ◌≤◌, ◌^◌, ◌++◌, OnOk, map};
ghost use Rattle.asm_line.specs.Shown.{expression_of, row_of};
ghost use Rattle.asm_line.specs.Stands.{addition_bytes, frame_bytes, offset_by, only, open_sizes, resolved};
ghost use Rattle.asm_line.specs.Row.{constant};
ghost use Rattle.asm_link.specs.Image.{bytes_in, entry_addition, entry_code, word};
ghost use Rattle.asm_link.specs.Shown.{added_shown, before_of, entry_of, texts_of};
ghost use Rattle.asm_link.specs.Source.{source_of};
ghost use Rattle.asm_link.specs.State.{row_addition, row_code, weight};
ghost use Rattle.asm_line.specs.declared.line.AsmSegment.TheVariants.{Data, Lit};

use crate::addition::{Addition, added_by};
use crate::source::{Entry, SourceLine};
use crate::state::State;
use crate::tables::Tables;
use crate::values::value_of;
use asm_line::frame::FrameSizes;
use asm_line::line::{AsmSegment, Line, Value};
use asm_place::size::rounded;
use qv_base::NoMemory;
use qv_ops::instr::Instr;
use qv_ops::op::Op;

/// What lines stand for.
#[derive(Drop)]
pub struct Parts {
    /// The instructions.
    pub code: Vec<Instr>,
    /// The data, which begin with four zero bytes.
    pub data_part: Vec<u8>,
    /// The literals.
    pub lit: Vec<u8>,
}

/// Appends what a line stands for.
pub fn append_line(
    parts: &mut Parts,
    tables: &Tables<'_>,
    s: &State<'_>,
    line: &SourceLine<'_>,
) -> Result<(), NoMemory>
    requires { weight (before_of s.now) < 2 ^ 124 }
    ensures code { OnOk result (parts.new.code.items ≡ parts.old.code.items ++ map (resolved (word (source_of (texts_of tables.now.files.now)) line.now.file)) (entry_code (entry_of line.now.entry) (before_of s.now))) }
    ensures data_part { OnOk result (parts.new.data_part.items ≡ parts.old.data_part.items ++ bytes_in (source_of (texts_of tables.now.files.now)) line.now.file Data (entry_addition (entry_of line.now.entry) (before_of s.now))) }
    ensures lit { OnOk result (parts.new.lit.items ≡ parts.old.lit.items ++ bytes_in (source_of (texts_of tables.now.files.now)) line.now.file Lit (entry_addition (entry_of line.now.entry) (before_of s.now))) }
{
    let Entry::Read(row) = line.entry else {
        return Ok(());
    };
    append_code(&mut parts.code, tables, line.file, s, &row)?;
    match added_by(s, &row) {
        Some((AsmSegment::Data, added)) => append_bytes(
            &mut parts.data_part,
            tables,
            line.file,
            added,
        ),
        Some((AsmSegment::Lit, added)) => append_bytes(&mut parts.lit, tables, line.file, added),
        _ => Ok(()),
    }
}

// Appends the instructions of a line.
fn append_code(
    code: &mut Vec<Instr>,
    tables: &Tables<'_>,
    file: u32,
    s: &State<'_>,
    line: &Line<'_>,
) -> Result<(), NoMemory>
    requires { weight (before_of s.now) < 2 ^ 124 }
    ensures { OnOk result (code.new.items ≡ code.old.items ++ map (resolved (word (source_of (texts_of tables.now.files.now)) file)) (row_code (row_of line.now) (before_of s.now))) }
{
    match *line {
        Line::Proc { locals, args, .. } => {
            let sizes = FrameSizes {
                locals: rounded(u128::from(locals)),
                args: rounded(u128::from(args)),
            };
            put(code, Op::Enter, frame_bytes(sizes))
        }
        Line::EndProc => {
            put(code, Op::Push, 0)?;
            put(code, Op::Leave, frame_bytes(open_sizes(s)))
        }
        Line::One { op, operand } => put(code, op, u128::from(word(tables, file, &operand))),
        Line::Call => put(code, Op::Call, 0),
        Line::Arg => put(code, Op::Arg, 8 + 4 * s.arg_words),
        Line::Ret => put(code, Op::Leave, frame_bytes(open_sizes(s))),
        Line::LocalAt(value) => put_address(code, tables, file, 8 + open_sizes(s).args, &value),
        Line::ParamAt(value) => {
            let offset = 8 + frame_bytes(open_sizes(s));
            put_address(code, tables, file, offset, &value)
        }
        _ => Ok(()),
    }
}

// Appends one instruction, with its operand mod 2^32.
fn put(code: &mut Vec<Instr>, op: Op, operand: u128) -> Result<(), NoMemory>
    ensures { OnOk result (code.new.items ≡ code.old.items ++ map (resolved (λ e. e.add)) (only op (constant operand))) }
{
    code.push(Instr {
        op,
        operand: (operand % (1 << 32)) as u32,
    })?;
    Ok(())
}

// Appends the address of what stands at this offset and an expression from the program stack.
fn put_address(
    code: &mut Vec<Instr>,
    tables: &Tables<'_>,
    file: u32,
    offset: u128,
    value: &Value<'_>,
) -> Result<(), NoMemory>
    requires { offset < 2 ^ 127 }
    ensures { OnOk result (code.new.items ≡ code.old.items ++ map (resolved (word (source_of (texts_of tables.now.files.now)) file)) (only Op.Local (offset_by offset (expression_of value.now)))) }
{
    let operand = match value_of(tables, file, value) {
        Some(word) => offset + u128::from(word),
        None => 0,
    };
    put(code, Op::Local, operand)
}

// The sizes of the open procedure, or 0 for both.
fn open_sizes(s: &State<'_>) -> FrameSizes
    ensures is { result ≡ open_sizes (before_of s.now).procedure }
    ensures bound { result.locals + result.args ≤ weight (before_of s.now) }
{
    match s.procedure {
        Some(sizes) => sizes,
        None => FrameSizes { locals: 0, args: 0 },
    }
}

// The bytes of a frame.
fn frame_bytes(sizes: FrameSizes) -> u128
    requires { sizes.locals + sizes.args < 2 ^ 126 }
    ensures { result ≡ frame_bytes sizes }
{
    8 + sizes.locals + sizes.args
}

// The value of an expression, or 0 where its name is not defined.
fn word(tables: &Tables<'_>, file: u32, value: &Value<'_>) -> u32
    ensures { result ≡ word (source_of (texts_of tables.now.files.now)) file (expression_of value.now) }
{
    value_of(tables, file, value).unwrap_or(0)
}

// Appends what a line adds to a segment. A word has its lowest byte first.
fn append_bytes(
    bytes: &mut Vec<u8>,
    tables: &Tables<'_>,
    file: u32,
    added: Addition<'_>,
) -> Result<(), NoMemory>
    ensures { OnOk result (bytes.new.items ≡ bytes.old.items ++ addition_bytes (word (source_of (texts_of tables.now.files.now)) file) (added_shown added.entry)) }
{
    match added {
        Addition::Word(value) => {
            bytes.extend_from_slice(&word(tables, file, &value).to_le_bytes())?;
        }
        Addition::Byte(byte) => bytes.push(byte)?,
        Addition::Zeros(n) => bytes.resize(bytes.len() + n as usize, 0)?,
    }
    Ok(())
}
