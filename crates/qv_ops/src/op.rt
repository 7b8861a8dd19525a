//! Opcodes of the virtual machine.
ghost use Rattle.std.specs.Prelude.{◌≡◌, IfSome, Some};
ghost use Rattle.qv_ops.specs.Table.{all_ops, is_branch, is_float_number, name_of_op, number_of_op, op_numbered, op_with_name, width_of_op};

/// An integer opcode of the Quake III 1.32 interpreter, with its number.
///
/// 0 (UNDEF) and the opcodes of floating-point arithmetic (21 to 26 and 53 to 59) have no variant.
/// The words that an opcode pops stand on the operand stack, the lower one its left operand. The
/// operand is the number that the instruction carries, and a branch goes to the instruction that
/// its operand numbers.
#[derive(Clone, Copy, Debug, PartialEq, Eq)]
pub enum Op {
    /// Does nothing.
    Ignore = 1,
    /// Does nothing.
    Break = 2,
    /// Opens a frame: lowers the program stack by the operand.
    Enter = 3,
    /// Closes a frame: raises the program stack by the operand and returns to the caller.
    Leave = 4,
    /// Pops an address and calls the function or the trap there.
    Call = 5,
    /// Pushes 0.
    Push = 6,
    /// Drops the top word.
    Pop = 7,
    /// Pushes the operand.
    Const = 8,
    /// Pushes the address at the operand's offset from the program stack.
    Local = 9,
    /// Pops the number of an instruction and goes there.
    Jump = 10,
    /// Pops two words and branches if they are equal.
    Eq = 11,
    /// Pops two words and branches if they differ.
    Ne = 12,
    /// Pops two words and branches if the lower is less, as signed words.
    Lti = 13,
    /// Pops two words and branches if the lower is less or equal, as signed words.
    Lei = 14,
    /// Pops two words and branches if the lower is greater, as signed words.
    Gti = 15,
    /// Pops two words and branches if the lower is greater or equal, as signed words.
    Gei = 16,
    /// Pops two words and branches if the lower is less, as unsigned words.
    Ltu = 17,
    /// Pops two words and branches if the lower is less or equal, as unsigned words.
    Leu = 18,
    /// Pops two words and branches if the lower is greater, as unsigned words.
    Gtu = 19,
    /// Pops two words and branches if the lower is greater or equal, as unsigned words.
    Geu = 20,
    /// Replaces an address by the byte there.
    Load1 = 27,
    /// Replaces an address by the half word there.
    Load2 = 28,
    /// Replaces an address by the word there.
    Load4 = 29,
    /// Pops a word and an address, and stores the word's low byte.
    Store1 = 30,
    /// Pops a word and an address, and stores the word's low half.
    Store2 = 31,
    /// Pops a word and an address, and stores the word.
    Store4 = 32,
    /// Pops a word and stores it at the operand's offset from the program stack.
    Arg = 33,
    /// Pops two addresses and copies as many bytes as the operand says.
    BlockCopy = 34,
    /// Extends the sign of the low byte.
    Sex8 = 35,
    /// Extends the sign of the low half word.
    Sex16 = 36,
    /// Negates.
    Negi = 37,
    /// Adds.
    Add = 38,
    /// Subtracts.
    Sub = 39,
    /// Divides, as signed words.
    Divi = 40,
    /// Divides, as unsigned words.
    Divu = 41,
    /// Takes the remainder, as signed words.
    Modi = 42,
    /// Takes the remainder, as unsigned words.
    Modu = 43,
    /// Multiplies, as signed words.
    Muli = 44,
    /// Multiplies, as unsigned words.
    Mulu = 45,
    /// Bitwise and.
    Band = 46,
    /// Bitwise or.
    Bor = 47,
    /// Bitwise exclusive or.
    Bxor = 48,
    /// Bitwise complement.
    Bcom = 49,
    /// Shifts left.
    Lsh = 50,
    /// Shifts right, and keeps the sign.
    Rshi = 51,
    /// Shifts right, and brings in zeros.
    Rshu = 52,
}

/// The opcode's number: its byte in an image's code.
pub fn number_of(op: Op) -> u8
    ensures number { result ≡ number_of_op op }

    // No other opcode has this number.
    ensures back { op_numbered result ≡ Some op }
{
    op as u8
}

/// The integer opcode with this number, and `None` for 0, for the numbers of floating-point opcodes
/// and above 59.
pub fn op_at(number: u8) -> Option<Op>
    ensures op { result ≡ op_numbered number }

    // The opcode has this number.
    ensures back { IfSome result (λ op. number_of_op op ≡ number) }
{
    let op = match number {
        1 => Op::Ignore,
        2 => Op::Break,
        3 => Op::Enter,
        4 => Op::Leave,
        5 => Op::Call,
        6 => Op::Push,
        7 => Op::Pop,
        8 => Op::Const,
        9 => Op::Local,
        10 => Op::Jump,
        11 => Op::Eq,
        12 => Op::Ne,
        13 => Op::Lti,
        14 => Op::Lei,
        15 => Op::Gti,
        16 => Op::Gei,
        17 => Op::Ltu,
        18 => Op::Leu,
        19 => Op::Gtu,
        20 => Op::Geu,
        27 => Op::Load1,
        28 => Op::Load2,
        29 => Op::Load4,
        30 => Op::Store1,
        31 => Op::Store2,
        32 => Op::Store4,
        33 => Op::Arg,
        34 => Op::BlockCopy,
        35 => Op::Sex8,
        36 => Op::Sex16,
        37 => Op::Negi,
        38 => Op::Add,
        39 => Op::Sub,
        40 => Op::Divi,
        41 => Op::Divu,
        42 => Op::Modi,
        43 => Op::Modu,
        44 => Op::Muli,
        45 => Op::Mulu,
        46 => Op::Band,
        47 => Op::Bor,
        48 => Op::Bxor,
        49 => Op::Bcom,
        50 => Op::Lsh,
        51 => Op::Rshi,
        52 => Op::Rshu,
        _ => return None,
    };
    Some(op)
}

/// The opcode's name in the table of the Quake III 1.32 interpreter, as `BLOCK_COPY`.
pub fn name_of(op: Op) -> &'static str
    ensures name { result.now ≡ name_of_op op }

    // No other opcode has this name.
    ensures back { op_with_name result.now ≡ Some op }
{
    match op {
        Op::Ignore => "IGNORE",
        Op::Break => "BREAK",
        Op::Enter => "ENTER",
        Op::Leave => "LEAVE",
        Op::Call => "CALL",
        Op::Push => "PUSH",
        Op::Pop => "POP",
        Op::Const => "CONST",
        Op::Local => "LOCAL",
        Op::Jump => "JUMP",
        Op::Eq => "EQ",
        Op::Ne => "NE",
        Op::Lti => "LTI",
        Op::Lei => "LEI",
        Op::Gti => "GTI",
        Op::Gei => "GEI",
        Op::Ltu => "LTU",
        Op::Leu => "LEU",
        Op::Gtu => "GTU",
        Op::Geu => "GEU",
        Op::Load1 => "LOAD1",
        Op::Load2 => "LOAD2",
        Op::Load4 => "LOAD4",
        Op::Store1 => "STORE1",
        Op::Store2 => "STORE2",
        Op::Store4 => "STORE4",
        Op::Arg => "ARG",
        Op::BlockCopy => "BLOCK_COPY",
        Op::Sex8 => "SEX8",
        Op::Sex16 => "SEX16",
        Op::Negi => "NEGI",
        Op::Add => "ADD",
        Op::Sub => "SUB",
        Op::Divi => "DIVI",
        Op::Divu => "DIVU",
        Op::Modi => "MODI",
        Op::Modu => "MODU",
        Op::Muli => "MULI",
        Op::Mulu => "MULU",
        Op::Band => "BAND",
        Op::Bor => "BOR",
        Op::Bxor => "BXOR",
        Op::Bcom => "BCOM",
        Op::Lsh => "LSH",
        Op::Rshi => "RSHI",
        Op::Rshu => "RSHU",
    }
}

// All opcodes, in the order of their numbers.
static ALL_OPS: [Op; 46] = [
    Op::Ignore,
    Op::Break,
    Op::Enter,
    Op::Leave,
    Op::Call,
    Op::Push,
    Op::Pop,
    Op::Const,
    Op::Local,
    Op::Jump,
    Op::Eq,
    Op::Ne,
    Op::Lti,
    Op::Lei,
    Op::Gti,
    Op::Gei,
    Op::Ltu,
    Op::Leu,
    Op::Gtu,
    Op::Geu,
    Op::Load1,
    Op::Load2,
    Op::Load4,
    Op::Store1,
    Op::Store2,
    Op::Store4,
    Op::Arg,
    Op::BlockCopy,
    Op::Sex8,
    Op::Sex16,
    Op::Negi,
    Op::Add,
    Op::Sub,
    Op::Divi,
    Op::Divu,
    Op::Modi,
    Op::Modu,
    Op::Muli,
    Op::Mulu,
    Op::Band,
    Op::Bor,
    Op::Bxor,
    Op::Bcom,
    Op::Lsh,
    Op::Rshi,
    Op::Rshu,
];

fn all_ops() -> &'static [Op]
    ensures { result.now ≡ all_ops }
{
    &ALL_OPS
}

/// The integer opcode with this name, and `None` where none has it.
pub fn op_named(name: &[u8]) -> Option<Op>
    ensures op { result ≡ op_with_name name.now }

    // The opcode has this name.
    ensures back { IfSome result (λ op. name_of_op op ≡ name.now) }
{
    let table = all_ops();
    for &op in table {
        if name == name_of(op).as_bytes() {
            return Some(op);
        }
    }
    None
}

// Whether an opcode with this number computes with floating-point numbers.
pub(crate) fn is_float(number: u8) -> bool
    ensures { result ≡ is_float_number number }
{
    matches!(number, 21..=26 | 53..=59)
}

/// Whether the opcode is a branch, which carries the number of an instruction.
pub fn is_branch(op: Op) -> bool
    ensures { result ≡ is_branch op }
{
    matches!(
        op,
        Op::Eq
            | Op::Ne
            | Op::Lti
            | Op::Lei
            | Op::Gti
            | Op::Gei
            | Op::Ltu
            | Op::Leu
            | Op::Gtu
            | Op::Geu
    )
}

/// How many bytes of operand an instruction with this opcode carries: 0, 1 or 4.
pub fn width(op: Op) -> u32
    ensures { result ≡ width_of_op op }
{
    match op {
        Op::Enter
        | Op::Leave
        | Op::Const
        | Op::Local
        | Op::Eq
        | Op::Ne
        | Op::Lti
        | Op::Lei
        | Op::Gti
        | Op::Gei
        | Op::Ltu
        | Op::Leu
        | Op::Gtu
        | Op::Geu
        | Op::BlockCopy => 4,
        Op::Arg => 1,
        _ => 0,
    }
}

#[cfg(test)]
mod tests {
    use super::*;

    // Each opcode with its number, the bytes of its operand and its name.
    const TABLE: [(Op, u8, u32, &[u8]); 46] = [
        (Op::Ignore, 1, 0, b"IGNORE"),
        (Op::Break, 2, 0, b"BREAK"),
        (Op::Enter, 3, 4, b"ENTER"),
        (Op::Leave, 4, 4, b"LEAVE"),
        (Op::Call, 5, 0, b"CALL"),
        (Op::Push, 6, 0, b"PUSH"),
        (Op::Pop, 7, 0, b"POP"),
        (Op::Const, 8, 4, b"CONST"),
        (Op::Local, 9, 4, b"LOCAL"),
        (Op::Jump, 10, 0, b"JUMP"),
        (Op::Eq, 11, 4, b"EQ"),
        (Op::Ne, 12, 4, b"NE"),
        (Op::Lti, 13, 4, b"LTI"),
        (Op::Lei, 14, 4, b"LEI"),
        (Op::Gti, 15, 4, b"GTI"),
        (Op::Gei, 16, 4, b"GEI"),
        (Op::Ltu, 17, 4, b"LTU"),
        (Op::Leu, 18, 4, b"LEU"),
        (Op::Gtu, 19, 4, b"GTU"),
        (Op::Geu, 20, 4, b"GEU"),
        (Op::Load1, 27, 0, b"LOAD1"),
        (Op::Load2, 28, 0, b"LOAD2"),
        (Op::Load4, 29, 0, b"LOAD4"),
        (Op::Store1, 30, 0, b"STORE1"),
        (Op::Store2, 31, 0, b"STORE2"),
        (Op::Store4, 32, 0, b"STORE4"),
        (Op::Arg, 33, 1, b"ARG"),
        (Op::BlockCopy, 34, 4, b"BLOCK_COPY"),
        (Op::Sex8, 35, 0, b"SEX8"),
        (Op::Sex16, 36, 0, b"SEX16"),
        (Op::Negi, 37, 0, b"NEGI"),
        (Op::Add, 38, 0, b"ADD"),
        (Op::Sub, 39, 0, b"SUB"),
        (Op::Divi, 40, 0, b"DIVI"),
        (Op::Divu, 41, 0, b"DIVU"),
        (Op::Modi, 42, 0, b"MODI"),
        (Op::Modu, 43, 0, b"MODU"),
        (Op::Muli, 44, 0, b"MULI"),
        (Op::Mulu, 45, 0, b"MULU"),
        (Op::Band, 46, 0, b"BAND"),
        (Op::Bor, 47, 0, b"BOR"),
        (Op::Bxor, 48, 0, b"BXOR"),
        (Op::Bcom, 49, 0, b"BCOM"),
        (Op::Lsh, 50, 0, b"LSH"),
        (Op::Rshi, 51, 0, b"RSHI"),
        (Op::Rshu, 52, 0, b"RSHU"),
    ];

    // No names, or names of opcodes that have no variant.
    const OTHERS: [&[u8]; 7] = [b"UNDEF", b"ADDF", b"EQF", b"add", b"ADD ", b"SEX", b""];

    #[test]
    fn follows_the_table(rt: HostRuntime) {
        for &(op, number, bytes, name) in &TABLE {
            assert!(rt; number_of(op) == number, "number of {op:?}");
            assert!(rt; op_at(number) == Some(op), "opcode {number}");
            assert!(rt; width(op) == bytes, "width of {op:?}");
            assert!(rt; name_of(op).as_bytes() == name, "name of {op:?}");
            assert!(rt; op_named(name) == Some(op), "opcode of {op:?}");
        }
    }

    #[test]
    fn has_no_other_names(rt: HostRuntime) {
        for name in &OTHERS {
            assert!(rt; op_named(name).is_none(), "{name:?}");
        }
    }
}
