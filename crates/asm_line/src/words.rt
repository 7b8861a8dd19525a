//! The words that begin lines.
ghost use Rattle.std.specs.Prelude.{◌≡◌, map};
ghost use Rattle.asm_line.specs.Shown.{bytes_of, word_of};
ghost use Rattle.asm_line.specs.Words.{float_names, is_float_name, meaning_of, words_table};

use crate::line::AsmSegment;
use qv_ops::op::Op;

/// What the first word says of a line.
#[derive(Clone, Copy, Debug, PartialEq, Eq)]
pub enum Meaning {
    /// One instruction, which carries no operand.
    Plain(Op),
    /// One instruction, which carries the expression that follows.
    WithExpression(Op),
    /// The address of the local variable at the expression that follows.
    LocalAddress,
    /// The address of the parameter at the expression that follows.
    ParamAddress,
    /// Copies as many bytes as the number that follows says, rounded up to 4.
    CopiesBlock,
    /// Extends the sign of as many bytes as the number that follows says.
    Extends,
    /// Nothing. A number may follow.
    MaybeNumber,
    /// The next argument of the next call.
    Argument,
    /// A call.
    Calls,
    /// A return from the open procedure.
    Returns,
    /// Opens a procedure.
    Opens,
    /// Closes the open procedure.
    Closes,
    /// Makes a segment the current one.
    Segment(AsmSegment),
    /// Defines the name that follows as the current place.
    Labels,
    /// Defines the name that follows as the number behind it.
    Equates,
    /// A word of the data, which is the expression that follows.
    Addresses,
    /// A number of 1 or 4 bytes.
    Bytes,
    /// As many zero bytes as the number that follows says.
    Skips,
    /// Zero bytes up to a multiple of the number that follows.
    Aligns,
    /// Nothing. The rest of the line is passed.
    PassRest,
    /// The instruction whose opcode has the name that follows.
    Raw,
    /// Floating-point arithmetic, which is refused.
    Floating,
}

// Each word and its meaning.
static WORDS: [(&str, Meaning); 128] = [
    ("proc", Meaning::Opens),
    ("endproc", Meaning::Closes),
    ("CNSTI1", Meaning::WithExpression(Op::Const)),
    ("CNSTU1", Meaning::WithExpression(Op::Const)),
    ("CNSTI2", Meaning::WithExpression(Op::Const)),
    ("CNSTU2", Meaning::WithExpression(Op::Const)),
    ("CNSTI4", Meaning::WithExpression(Op::Const)),
    ("CNSTU4", Meaning::WithExpression(Op::Const)),
    ("CNSTP4", Meaning::WithExpression(Op::Const)),
    ("ADDRGP4", Meaning::WithExpression(Op::Const)),
    ("ADDRLP4", Meaning::LocalAddress),
    ("ADDRFP4", Meaning::ParamAddress),
    ("INDIRI1", Meaning::Plain(Op::Load1)),
    ("INDIRU1", Meaning::Plain(Op::Load1)),
    ("INDIRI2", Meaning::Plain(Op::Load2)),
    ("INDIRU2", Meaning::Plain(Op::Load2)),
    ("INDIRI4", Meaning::Plain(Op::Load4)),
    ("INDIRU4", Meaning::Plain(Op::Load4)),
    ("INDIRP4", Meaning::Plain(Op::Load4)),
    ("ASGNI1", Meaning::Plain(Op::Store1)),
    ("ASGNU1", Meaning::Plain(Op::Store1)),
    ("ASGNI2", Meaning::Plain(Op::Store2)),
    ("ASGNU2", Meaning::Plain(Op::Store2)),
    ("ASGNI4", Meaning::Plain(Op::Store4)),
    ("ASGNU4", Meaning::Plain(Op::Store4)),
    ("ASGNP4", Meaning::Plain(Op::Store4)),
    ("ASGNB", Meaning::CopiesBlock),
    ("INDIRB", Meaning::MaybeNumber),
    ("ARGI4", Meaning::Argument),
    ("ARGU4", Meaning::Argument),
    ("ARGP4", Meaning::Argument),
    ("CALLI4", Meaning::Calls),
    ("CALLU4", Meaning::Calls),
    ("CALLP4", Meaning::Calls),
    ("CALLV", Meaning::Calls),
    ("RETI4", Meaning::Returns),
    ("RETU4", Meaning::Returns),
    ("RETP4", Meaning::Returns),
    ("RETV", Meaning::Returns),
    ("ADDI4", Meaning::Plain(Op::Add)),
    ("ADDU4", Meaning::Plain(Op::Add)),
    ("ADDP4", Meaning::Plain(Op::Add)),
    ("SUBI4", Meaning::Plain(Op::Sub)),
    ("SUBU4", Meaning::Plain(Op::Sub)),
    ("SUBP4", Meaning::Plain(Op::Sub)),
    ("MULI4", Meaning::Plain(Op::Muli)),
    ("MULU4", Meaning::Plain(Op::Mulu)),
    ("DIVI4", Meaning::Plain(Op::Divi)),
    ("DIVU4", Meaning::Plain(Op::Divu)),
    ("MODI4", Meaning::Plain(Op::Modi)),
    ("MODU4", Meaning::Plain(Op::Modu)),
    ("RSHI4", Meaning::Plain(Op::Rshi)),
    ("RSHU4", Meaning::Plain(Op::Rshu)),
    ("BANDI4", Meaning::Plain(Op::Band)),
    ("BANDU4", Meaning::Plain(Op::Band)),
    ("BORI4", Meaning::Plain(Op::Bor)),
    ("BORU4", Meaning::Plain(Op::Bor)),
    ("BXORI4", Meaning::Plain(Op::Bxor)),
    ("BXORU4", Meaning::Plain(Op::Bxor)),
    ("BCOMI4", Meaning::Plain(Op::Bcom)),
    ("BCOMU4", Meaning::Plain(Op::Bcom)),
    ("LSHI4", Meaning::Plain(Op::Lsh)),
    ("LSHU4", Meaning::Plain(Op::Lsh)),
    ("NEGI4", Meaning::Plain(Op::Negi)),
    ("JUMPV", Meaning::Plain(Op::Jump)),
    ("pop", Meaning::Plain(Op::Pop)),
    ("EQI4", Meaning::WithExpression(Op::Eq)),
    ("EQU4", Meaning::WithExpression(Op::Eq)),
    ("NEI4", Meaning::WithExpression(Op::Ne)),
    ("NEU4", Meaning::WithExpression(Op::Ne)),
    ("LTI4", Meaning::WithExpression(Op::Lti)),
    ("LEI4", Meaning::WithExpression(Op::Lei)),
    ("GTI4", Meaning::WithExpression(Op::Gti)),
    ("GEI4", Meaning::WithExpression(Op::Gei)),
    ("LTU4", Meaning::WithExpression(Op::Ltu)),
    ("LEU4", Meaning::WithExpression(Op::Leu)),
    ("GTU4", Meaning::WithExpression(Op::Gtu)),
    ("GEU4", Meaning::WithExpression(Op::Geu)),
    ("CVII4", Meaning::Extends),
    ("CVII1", Meaning::MaybeNumber),
    ("CVII2", Meaning::MaybeNumber),
    ("CVIU1", Meaning::MaybeNumber),
    ("CVIU2", Meaning::MaybeNumber),
    ("CVIU4", Meaning::MaybeNumber),
    ("CVUI1", Meaning::MaybeNumber),
    ("CVUI2", Meaning::MaybeNumber),
    ("CVUI4", Meaning::MaybeNumber),
    ("CVUU1", Meaning::MaybeNumber),
    ("CVUU2", Meaning::MaybeNumber),
    ("CVUU4", Meaning::MaybeNumber),
    ("CVPU4", Meaning::MaybeNumber),
    ("CVPP4", Meaning::MaybeNumber),
    ("CVUP4", Meaning::MaybeNumber),
    ("code", Meaning::Segment(AsmSegment::Code)),
    ("data", Meaning::Segment(AsmSegment::Data)),
    ("lit", Meaning::Segment(AsmSegment::Lit)),
    ("bss", Meaning::Segment(AsmSegment::Bss)),
    ("LABELV", Meaning::Labels),
    ("equ", Meaning::Equates),
    ("address", Meaning::Addresses),
    ("byte", Meaning::Bytes),
    ("skip", Meaning::Skips),
    ("align", Meaning::Aligns),
    ("export", Meaning::PassRest),
    ("import", Meaning::PassRest),
    ("file", Meaning::PassRest),
    ("line", Meaning::PassRest),
    ("op", Meaning::Raw),
    ("ADDF4", Meaning::Floating),
    ("SUBF4", Meaning::Floating),
    ("MULF4", Meaning::Floating),
    ("DIVF4", Meaning::Floating),
    ("NEGF4", Meaning::Floating),
    ("CNSTF4", Meaning::Floating),
    ("INDIRF4", Meaning::Floating),
    ("ASGNF4", Meaning::Floating),
    ("ARGF4", Meaning::Floating),
    ("CALLF4", Meaning::Floating),
    ("RETF4", Meaning::Floating),
    ("EQF4", Meaning::Floating),
    ("NEF4", Meaning::Floating),
    ("LTF4", Meaning::Floating),
    ("LEF4", Meaning::Floating),
    ("GTF4", Meaning::Floating),
    ("GEF4", Meaning::Floating),
    ("CVFI4", Meaning::Floating),
    ("CVIF4", Meaning::Floating),
    ("CVFF4", Meaning::Floating),
];

// The names of the opcodes of floating-point arithmetic.
static FLOAT_NAMES: [&[u8]; 13] = [
    b"EQF", b"NEF", b"LTF", b"LEF", b"GTF", b"GEF", b"NEGF", b"ADDF", b"SUBF", b"DIVF", b"MULF",
    b"CVIF", b"CVFI",
];

/// All words and their meanings.
pub fn words() -> &'static [(&'static str, Meaning)]
    ensures { map word_of result.now ≡ words_table }
{
    &WORDS
}

/// What a word says of the line that it begins. None where it isn't known.
pub fn meaning_of(word: &[u8]) -> Option<Meaning>
    ensures { result ≡ meaning_of word.now }
{
    let table = words();
    for (name, meaning) in table {
        if word == name.as_bytes() {
            return Some(*meaning);
        }
    }
    None
}

fn float_names() -> &'static [&'static [u8]]
    ensures { map bytes_of result.now ≡ float_names }
{
    &FLOAT_NAMES
}

/// Whether an opcode of floating-point arithmetic has this name.
pub fn is_float_name(name: &[u8]) -> bool
    ensures { result ≡ is_float_name name.now }
{
    let table = float_names();
    for float in table {
        if name == *float {
            return true;
        }
    }
    false
}
