//! Reads a line.
ghost use Rattle.std.specs.Prelude.{◌≡◌, ◌∷◌, [], IfOk, IfSome, IsTrue, MatchResult, option_map, if◌then◌else◌};
ghost use Rattle.std.specs.Option.{option_and_then};
ghost use Rattle.qv_ops.specs.Code.{fits_width};
ghost use Rattle.qv_ops.specs.Table.{width_of_op};
ghost use Rattle.asm_line.specs.Operand.{expression, name_of, number_of};
ghost use Rattle.asm_line.specs.Read.{sole_operand, bytes, bytes_row, end_of_line, equation, extension, checked, is_alignment, is_two, maybe_number, number_that, procedure, raw, read_row, round_up, row_as, sized_bytes, with_ok};
ghost use Rattle.asm_line.specs.Row.{Align, One, constant, is_carried};
ghost use Rattle.asm_line.specs.Shown.{bytes_of, expression_of, row_of};
ghost use Rattle.asm_line.specs.Text.{words_of};
ghost use Rattle.asm_line.specs.Words.{is_float_name, suits};
ghost use Rattle.asm_line.specs.declared.line.LineFault.TheVariants.{Float, MissingOperand, UnknownWord};

use crate::line::{Line, LineFault, Value};
use crate::operand::{expression, is_name, number};
use crate::scan::next_word;
use crate::words::{Meaning, is_float_name, meaning_of};
use qv_ops::op::{Op, op_named, width};

/// What a line stands for, or why it can't be read.
///
/// # Errors
///
/// The first that stands of: `UnknownWord`, `Float`, `Byte2`, `MissingOperand`, `BadNumber`, `ExtraWord`.
pub fn read_line(line: &[u8]) -> Result<Line<'_>, LineFault>
    ensures row { with_ok row_of result ≡ read_row (words_of line.now) }
    // Its operand fits the opcode.
    ensures carried { IfOk result (λ line. IsTrue (is_carried (row_of line))) }
{
    let Some((word, rest)) = next_word(line) else {
        return Ok(Line::Nothing);
    };
    let Some(meaning) = meaning_of(word) else {
        return Err(LineFault::UnknownWord);
    };
    line_as(meaning, rest)
}

// What a line stands for by its first word's meaning and the rest.
fn line_as(meaning: Meaning, rest: &[u8]) -> Result<Line<'_>, LineFault>
    requires { IsTrue (suits meaning) }
    ensures row { with_ok row_of result ≡ row_as meaning (words_of rest.now) }
    ensures carried { IfOk result (λ line. IsTrue (is_carried (row_of line))) }
{
    match meaning {
        Meaning::Plain(op) => end_of_line(one(op, constant(0)), rest),
        Meaning::WithExpression(op) => Ok(one(op, only_expression(rest)?)),
        Meaning::LocalAddress => Ok(Line::LocalAt(only_expression(rest)?)),
        Meaning::ParamAddress => Ok(Line::ParamAt(only_expression(rest)?)),
        Meaning::CopiesBlock => Ok(one(Op::BlockCopy, constant(round_up(only_number(rest)?)))),
        Meaning::Extends => Ok(one(only_extension(rest)?, constant(0))),
        Meaning::MaybeNumber => maybe_number(rest),
        Meaning::Argument => end_of_line(Line::Arg, rest),
        Meaning::Calls => end_of_line(Line::Call, rest),
        Meaning::Returns => end_of_line(Line::Ret, rest),
        Meaning::Opens => procedure(rest),
        Meaning::Closes => {
            procedure(rest)?;
            Ok(Line::EndProc)
        }
        Meaning::Segment(segment) => end_of_line(Line::Into(segment), rest),
        Meaning::Labels => Ok(Line::Label(only_name(rest)?)),
        Meaning::Equates => equation(rest),
        Meaning::Addresses => Ok(Line::Word(only_expression(rest)?)),
        Meaning::Bytes => bytes(rest),
        Meaning::Skips => Ok(Line::Skip(only_number(rest)?)),
        Meaning::Aligns => Ok(Line::Align(only_alignment(rest)?)),
        Meaning::PassRest => Ok(Line::Nothing),
        Meaning::Raw => raw(rest),
        Meaning::Floating => Err(LineFault::Float),
    }
}

// Nothing, with a number or without.
fn maybe_number<'a>(rest: &[u8]) -> Result<Line<'a>, LineFault>
    ensures row { with_ok row_of result ≡ maybe_number (words_of rest.now) }
    ensures carried { IfOk result (λ line. IsTrue (is_carried (row_of line))) }
{
    if next_word(rest).is_some() {
        only_number(rest)?;
    }
    Ok(Line::Nothing)
}

// The procedure that a name and two sizes open.
fn procedure(rest: &[u8]) -> Result<Line<'_>, LineFault>
    ensures row { with_ok row_of result ≡ procedure (words_of rest.now) }
    ensures carried { IfOk result (λ line. IsTrue (is_carried (row_of line))) }
{
    let (name, rest) = operand(rest)?;
    let (locals, rest) = operand(rest)?;
    let (args, rest) = operand(rest)?;
    let (true, Some(locals), Some(args)) = (is_name(name), number(locals), number(args)) else {
        return Err(LineFault::BadNumber);
    };
    end_of_line(Line::Proc { name, locals, args }, rest)
}

// A name and its number.
fn equation(rest: &[u8]) -> Result<Line<'_>, LineFault>
    ensures row { with_ok row_of result ≡ equation (words_of rest.now) }
    ensures carried { IfOk result (λ line. IsTrue (is_carried (row_of line))) }
{
    let (name, rest) = operand(rest)?;
    let (value, rest) = operand(rest)?;
    let (true, Some(value)) = (is_name(name), number(value)) else {
        return Err(LineFault::BadNumber);
    };
    end_of_line(Line::Equ { name, value }, rest)
}

// A number of 1 or 4 bytes.
fn bytes<'a>(rest: &[u8]) -> Result<Line<'a>, LineFault>
    ensures row { with_ok row_of result ≡ bytes (words_of rest.now) }
    ensures carried { IfOk result (λ line. IsTrue (is_carried (row_of line))) }
{
    let (size, rest) = operand(rest)?;
    let size = number(size);
    if size == Some(2) {
        return Err(LineFault::Byte2);
    }
    let (value, rest) = operand(rest)?;
    match (size, number(value)) {
        (Some(1), Some(value)) => end_of_line(Line::LitByte((value % 256) as u8), rest),
        (Some(4), Some(value)) => end_of_line(Line::Word(constant(value)), rest),
        _ => Err(LineFault::BadNumber),
    }
}

// The instruction whose opcode has the name that follows, with the number that it carries.
fn raw<'a>(rest: &[u8]) -> Result<Line<'a>, LineFault>
    ensures row { with_ok row_of result ≡ raw (words_of rest.now) }
    ensures carried { IfOk result (λ line. IsTrue (is_carried (row_of line))) }
{
    let (name, rest) = operand(rest)?;
    let Some(op) = op_named(name) else {
        return Err(unknown_opcode(name));
    };
    if width(op) == 0 {
        return end_of_line(one(op, constant(0)), rest);
    }
    Ok(one(op, constant(only_of_width(width(op), rest)?)))
}

fn unknown_opcode(name: &[u8]) -> LineFault
    ensures { result ≡ (if is_float_name name.now then Float else UnknownWord) }
{
    if is_float_name(name) {
        LineFault::Float
    } else {
        LineFault::UnknownWord
    }
}

// The number that the only word left writes, where so many bytes hold it.
fn only_of_width(width: u32, rest: &[u8]) -> Result<u32, LineFault>
    ensures number { result ≡ sole_operand (number_that (fits_width width)) (words_of rest.now) }
    ensures fits { IfOk result (λ n. IsTrue (fits_width width n)) }
{
    let (word, rest) = operand(rest)?;
    checked(number_of_width(width, word), rest)
}

// The number that a word writes, where so many bytes hold it.
fn number_of_width(width: u32, word: &[u8]) -> Option<u32>
    ensures number { result ≡ number_that (fits_width width) word.now }
    ensures fits { IfSome result (λ n. IsTrue (fits_width width n)) }
{
    let n = number(word)?;
    if !fits_width(width, n) {
        return None;
    }
    Some(n)
}

fn fits_width(width: u32, n: u32) -> bool
    ensures { result ≡ fits_width width n }
{
    match width {
        0 => n == 0,
        1 => n < 256,
        _ => true,
    }
}

// The instruction that extends the sign of as many bytes as the only word left says.
fn only_extension(rest: &[u8]) -> Result<Op, LineFault>
    ensures { result ≡ sole_operand (λ w. option_and_then extension (number_of w)) (words_of rest.now) }
{
    let (word, rest) = operand(rest)?;
    checked(extension(word), rest)
}

fn extension(word: &[u8]) -> Option<Op>
    ensures { result ≡ option_and_then extension (number_of word.now) }
{
    match number(word)? {
        1 => Some(Op::Sex8),
        2 => Some(Op::Sex16),
        _ => None,
    }
}

// The number that the only word left writes, where it is one that places are aligned to.
fn only_alignment(rest: &[u8]) -> Result<u32, LineFault>
    ensures { result ≡ sole_operand (number_that is_alignment) (words_of rest.now) }
{
    let (word, rest) = operand(rest)?;
    checked(alignment(word), rest)
}

fn alignment(word: &[u8]) -> Option<u32>
    ensures { result ≡ number_that is_alignment word.now }
{
    let n = number(word)?;
    if !matches!(n, 1 | 2 | 4 | 8 | 16) {
        return None;
    }
    Some(n)
}

// The number that the only word left writes.
fn only_number(rest: &[u8]) -> Result<u32, LineFault>
    ensures { result ≡ sole_operand number_of (words_of rest.now) }
{
    let (word, rest) = operand(rest)?;
    checked(number(word), rest)
}

// The name that is the only word left.
#[tactic(auto, using(crate::proofs::Operands::with_ok_checked))]
fn only_name(rest: &[u8]) -> Result<&[u8], LineFault>
    ensures { with_ok bytes_of result ≡ sole_operand name_of (words_of rest.now) }
{
    let (word, rest) = operand(rest)?;
    checked(is_name(word).then_some(word), rest)
}

// The expression that the only word left writes.
#[tactic(auto, using(crate::proofs::Operands::with_ok_checked))]
fn only_expression(rest: &[u8]) -> Result<Value<'_>, LineFault>
    ensures { with_ok expression_of result ≡ sole_operand expression (words_of rest.now) }
{
    let (word, rest) = operand(rest)?;
    checked(expression(word), rest)
}

// The next word, and the line behind it.
fn operand(rest: &[u8]) -> Result<(&[u8], &[u8]), LineFault>
    ensures { MatchResult result (λ p. words_of rest.now ≡ p.0.now ∷ words_of p.1.now) (λ fault. (words_of rest.now ≡ []) × (fault ≡ MissingOperand)) }
{
    next_word(rest).ok_or(LineFault::MissingOperand)
}

// What the operands come to, where they are as they are due and no word is left behind them.
fn checked<T: Copy>(operands: Option<T>, rest: &[u8]) -> Result<T, LineFault>
    ensures { result ≡ checked operands (words_of rest.now) }
{
    let Some(value) = operands else {
        return Err(LineFault::BadNumber);
    };
    if next_word(rest).is_some() {
        return Err(LineFault::ExtraWord);
    }
    Ok(value)
}

// The line, where no word is left.
fn end_of_line<'a>(line: Line<'a>, rest: &[u8]) -> Result<Line<'a>, LineFault>
    requires { IsTrue (is_carried (row_of line)) }
    ensures row { with_ok row_of result ≡ end_of_line (row_of line.entry) (words_of rest.now) }
    ensures carried { IfOk result (λ line. IsTrue (is_carried (row_of line))) }
{
    if next_word(rest).is_some() {
        return Err(LineFault::ExtraWord);
    }
    Ok(line)
}

// Rounded up to a multiple of 4, mod 2^32.
fn round_up(n: u32) -> u32
    ensures { result ≡ round_up n }
{
    ((u64::from(n) + 3) / 4 * 4 % (1 << 32)) as u32
}

fn one(op: Op, operand: Value<'_>) -> Line<'_>
    ensures { row_of result ≡ One op (expression_of operand.entry) }
{
    Line::One { op, operand }
}

fn constant<'a>(add: u32) -> Value<'a>
    ensures { expression_of result ≡ constant add }
{
    Value { name: None, add }
}

#[cfg(test)]
mod tests {
    use super::*;
    use crate::line::AsmSegment;

    #[test]
    fn reads_lines(rt: HostRuntime) {
        let number = |add| Value { name: None, add };
        let named = |name| Value {
            name: Some(name),
            add: 7,
        };
        let table: [(&[u8], Line); 31] = [
            (b" \t\r", Line::Nothing),
            (b"ADDU4 ; 1", one(Op::Add, number(0))),
            (b"CNSTI4 -1;1", one(Op::Const, number(u32::MAX))),
            (b"ADDRGP4 $a_1+10--1-4", one(Op::Const, named(b"$a_1"))),
            (
                b"EQU4 4294967295+-2147483648",
                one(Op::Eq, number(0x7fff_ffff)),
            ),
            (b"ADDRLP4 x+7", Line::LocalAt(named(b"x"))),
            (b"ADDRFP4\t007", Line::ParamAt(number(7))),
            (b"ASGNB 13", one(Op::BlockCopy, number(16))),
            (b"ASGNB -3", one(Op::BlockCopy, number(0))),
            (b"CVII4 1", one(Op::Sex8, number(0))),
            (b"CVII4 02", one(Op::Sex16, number(0))),
            (b"CVUI1", Line::Nothing),
            (b"INDIRB 12", Line::Nothing),
            (b"ARGP4", Line::Arg),
            (b"CALLV", Line::Call),
            (b"RETU4", Line::Ret),
            (
                b"proc f 10 -1",
                Line::Proc {
                    name: b"f",
                    locals: 10,
                    args: u32::MAX,
                },
            ),
            (b"endproc g 1 2", Line::EndProc),
            (b"bss", Line::Into(AsmSegment::Bss)),
            (b"LABELV $3", Line::Label(b"$3")),
            (
                b"equ a 3",
                Line::Equ {
                    name: b"a",
                    value: 3,
                },
            ),
            (b"address x+7", Line::Word(named(b"x"))),
            (b"byte 04 -2", Line::Word(number(u32::MAX - 1))),
            (b"byte 1 257", Line::LitByte(1)),
            (b"skip 5", Line::Skip(5)),
            (b"align 16", Line::Align(16)),
            (b"file \"a b\" 1 2", Line::Nothing),
            (
                b"op BLOCK_COPY -4",
                one(Op::BlockCopy, number(u32::MAX - 3)),
            ),
            (b"op ARG 255", one(Op::Arg, number(255))),
            (b"op ADD", one(Op::Add, number(0))),
            (b"pop", one(Op::Pop, number(0))),
        ];
        for (line, expected) in table {
            assert_eq!(rt; read_line(line), Ok(expected));
        }
    }

    #[test]
    fn faults_of_lines(rt: HostRuntime) {
        let table: [(&[u8], LineFault); 32] = [
            (b"addi4 1 2", LineFault::UnknownWord),
            (b"op UNDEF 1 2", LineFault::UnknownWord),
            (b"ADDF4 1 2", LineFault::Float),
            (b"op CVIF 1 2", LineFault::Float),
            (b"byte 2", LineFault::Byte2),
            (b"byte 02 x y", LineFault::Byte2),
            (b"byte", LineFault::MissingOperand),
            (b"byte x", LineFault::MissingOperand),
            (b"byte 3", LineFault::MissingOperand),
            (b"op", LineFault::MissingOperand),
            (b"op ARG", LineFault::MissingOperand),
            (b"proc 1 x", LineFault::MissingOperand),
            (b"equ 1", LineFault::MissingOperand),
            (b"CNSTI4 ;1", LineFault::MissingOperand),
            (b"byte 3 1 1", LineFault::BadNumber),
            (b"byte 4 x 1", LineFault::BadNumber),
            (b"op ARG 256 1", LineFault::BadNumber),
            (b"op CONST x", LineFault::BadNumber),
            (b"proc 1 2 3 4", LineFault::BadNumber),
            (b"equ a b c", LineFault::BadNumber),
            (b"LABELV 1a", LineFault::BadNumber),
            (b"align 3 1", LineFault::BadNumber),
            (b"CVII4 3", LineFault::BadNumber),
            (b"CVPU4 x 1", LineFault::BadNumber),
            (b"skip 4294967296", LineFault::BadNumber),
            (b"CNSTI4 -2147483649", LineFault::BadNumber),
            (b"CNSTI4 x- 1", LineFault::BadNumber),
            (b"CNSTI4 +1", LineFault::BadNumber),
            (b"CNSTI4 1+x", LineFault::BadNumber),
            (b"ADDI4 1", LineFault::ExtraWord),
            (b"op ADD 1", LineFault::ExtraWord),
            (b"INDIRB 1 1", LineFault::ExtraWord),
        ];
        for (line, expected) in table {
            assert_eq!(rt; read_line(line), Err(expected));
        }
    }
}
