//! What a line of assembly says.
use qv_ops::op::Op;

/// One of the four segments of an image.
#[derive(Clone, Copy, Debug, PartialEq, Eq)]
pub enum AsmSegment {
    /// The instructions.
    Code,
    /// The initialized words.
    Data,
    /// The literals, byte by byte.
    Lit,
    /// The bytes that are zero at first.
    Bss,
}

/// A number, or a name's number plus a number. Sums wrap at 2^32.
#[derive(Clone, Copy, Debug, PartialEq, Eq)]
pub struct Value<'a> {
    /// The name whose number is added.
    pub name: Option<&'a [u8]>,
    /// The number.
    pub add: u32,
}

/// What a line that can be read stands for.
#[derive(Clone, Copy, Debug, PartialEq, Eq)]
pub enum Line<'a> {
    /// Nothing: the line has no word, or one that is passed.
    Nothing,
    /// `proc`: opens a procedure with this name and these sizes in bytes.
    Proc {
        /// The procedure's name, which stands for its first instruction.
        name: &'a [u8],
        /// Bytes of local variables.
        locals: u32,
        /// Bytes of the arguments that it passes.
        args: u32,
    },
    /// `endproc`: returns 0 and closes the procedure.
    EndProc,
    /// One instruction. The operand is 0 where the opcode carries none.
    One {
        /// The opcode.
        op: Op,
        /// The operand.
        operand: Value<'a>,
    },
    /// A call of the function whose number is on top of the operand stack.
    Call,
    /// The next argument of the next call.
    Arg,
    /// A return from the open procedure.
    Ret,
    /// The address of a local variable.
    LocalAt(Value<'a>),
    /// The address of a parameter.
    ParamAt(Value<'a>),
    /// Makes a segment the current one.
    Into(AsmSegment),
    /// Defines a name as the current place.
    Label(&'a [u8]),
    /// Defines a name as a number.
    Equ {
        /// The name.
        name: &'a [u8],
        /// Its number.
        value: u32,
    },
    /// A word of the data.
    Word(Value<'a>),
    /// A byte of the literals.
    LitByte(u8),
    /// This many zero bytes.
    Skip(u32),
    /// Zero bytes up to a multiple of this number.
    Align(u32),
}

/// Why a line can't be read.
#[derive(Clone, Copy, Debug, PartialEq, Eq)]
pub enum LineFault {
    /// The first word, or the opcode's name behind `op`, isn't known.
    UnknownWord,
    /// The line is one of floating-point arithmetic.
    Float,
    /// `byte 2`: half words aren't served.
    Byte2,
    /// An operand is missing.
    MissingOperand,
    /// An operand isn't a name, a number or an expression as it is due.
    BadNumber,
    /// A word is left.
    ExtraWord,
}
