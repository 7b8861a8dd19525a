//! Instructions cut from the code of an image.
ghost use Rattle.std.specs.Prelude.{◌≡◌, ◌&&◌, ◌+◌, ◌≤◌, nat_le, IfOk, IfSome, IsTrue, length};
ghost use Rattle.std.specs.List.{list_all};
ghost use Rattle.qv_ops.specs.Code.{code_bytes, operand_bytes, fits_width, is_encodable, stays_within};
ghost use Rattle.qv_ops.specs.Cut.{CutsOne, IsCut, IsCutOff, ReadsOperand, cut_code};
ghost use Rattle.qv_ops.specs.Table.{is_branch, width_of_op};

use crate::instr::Instr;
use crate::op::{Op, is_branch, is_float, op_at, width};
use byteorder::{ByteOrder, LittleEndian};
use std::alloc::{AllocError, AllocFailed, Global};

// How many zero bytes may follow the instructions, up to a multiple of 4.
const MAX_PADDING: usize = 3;

/// Why code is refused. Each fault but the last two names an instruction by its number, from 0 on.
#[derive(Clone, Copy, Debug, PartialEq, Eq)]
pub enum CodeFault {
    /// The bytes end before or within the instruction.
    CodeShort { at: u32 },
    /// The instruction's opcode is 0 or above 59.
    BadOpcode { at: u32, op: u8 },
    /// The instruction computes with floating-point numbers.
    FloatOpcode { at: u32, op: u8 },
    /// The branch goes to no instruction of the code.
    BranchOut { at: u32 },
    /// More than three bytes are left behind the instructions: how many, and 2^32 - 1 where they are
    /// more than that.
    TailLong { left: u32 },
    /// There was no room for the instructions.
    NoMemory,
}

impl From<AllocError> for CodeFault {
    ghost use Rattle.qv_ops.specs.declared.decode.CodeFault.TheVariants.{NoMemory};

    ghost from_gives = { λ _ fault. fault ≡ NoMemory };

    fn from(_: AllocError) -> Self {
        CodeFault::NoMemory
    }
}

impl<T: Drop> From<AllocFailed<T>> for CodeFault {
    ghost use Rattle.qv_ops.specs.declared.decode.CodeFault.TheVariants.{NoMemory};

    ghost from_gives = { λ _ fault. fault ≡ NoMemory };

    fn from(_: AllocFailed<T>) -> Self {
        CodeFault::NoMemory
    }
}

/// Cuts `count` instructions from the front of code, as the Quake III 1.32 interpreter reads it.
///
/// At most three bytes may be left behind them, since an image fills its code up to a multiple of 4.
///
/// # Errors
///
/// The first fault of the code, where the instructions are read in order and each is tested for
/// its opcode, its length and its branch in this order; the bytes left behind them are tested last.
/// `NoMemory` where there is no room for the instructions.
pub fn decode_all(alloc: Global, code: &[u8], count: u32) -> Result<Vec<Instr>, CodeFault>
    ensures cut { IsCut (cut_code count code.now) result }

    // What is cut is code of its own, and no longer than the bytes that it is cut from.
    ensures count { IfOk result (λ instrs. length instrs.items ≡ count) }
    ensures encodable { IfOk result (λ instrs. IsTrue (list_all is_encodable instrs.items)) }
    ensures within { IfOk result (λ instrs. IsTrue (list_all (stays_within count) instrs.items)) }
    ensures length { IfOk result (λ instrs. length (code_bytes instrs.items) ≤ length code.now) }
{
    let mut instrs = Vec::new(alloc);
    let mut rest = code;
    for at in 0..count {
        let (instr, behind) = decode_one(rest, at, count)?;
        instrs.push(instr)?;
        rest = behind;
    }
    if rest.len() > MAX_PADDING {
        let left = u32::try_from(rest.len()).unwrap_or(u32::MAX);
        return Err(CodeFault::TailLong { left });
    }
    Ok(instrs)
}

// The instruction that stands first, with the number `at` of `count`, and the bytes behind it.
fn decode_one(bytes: &[u8], at: u32, count: u32) -> Result<(Instr, &[u8]), CodeFault>
    ensures cut { CutsOne count at bytes.now result }
    ensures instr { IfOk result (λ p. IsCutOff count bytes.now p.0 p.1.now) }
{
    let [number, rest @ ..] = bytes else {
        return Err(CodeFault::CodeShort { at });
    };
    let Some(op) = op_at(*number) else {
        if is_float(*number) {
            return Err(CodeFault::FloatOpcode { at, op: *number });
        }
        return Err(CodeFault::BadOpcode { at, op: *number });
    };
    let Some((operand, behind)) = read_operand(op, rest) else {
        return Err(CodeFault::CodeShort { at });
    };
    if leaves(op, operand, count) {
        return Err(CodeFault::BranchOut { at });
    }
    Ok((Instr { op, operand }, behind))
}

// Whether the opcode is a branch out of `count` instructions.
fn leaves(op: Op, operand: u32, count: u32) -> bool
    ensures { result ≡ (is_branch op && nat_le count operand) }
{
    is_branch(op) && operand >= count
}

// The opcode's operand and the bytes behind it, and `None` where bytes are missing.
fn read_operand(op: Op, bytes: &[u8]) -> Option<(u32, &[u8])>
    ensures operand { ReadsOperand (width_of_op op) bytes.now result }
    ensures fits { IfSome result (λ p. IsTrue (fits_width (width_of_op op) p.0)) }
    ensures lengths { IfSome result (λ p. length (operand_bytes (width_of_op op) p.0) + length p.1.now ≡ length bytes.now) }
{
    match width(op) {
        0 => Some((0, bytes)),
        1 => match bytes {
            [byte, rest @ ..] => Some((u32::from(*byte), rest)),
            _ => None,
        },
        _ => {
            if bytes.len() < 4 {
                return None;
            }
            Some((LittleEndian::read_u32(bytes), &bytes[4..]))
        }
    }
}

#[cfg(test)]
mod tests {
    use super::*;
    use crate::instr::encode;
    use std::test::Fail;

    const INSTRS: [Instr; 3] = [
        Instr {
            op: Op::Const,
            operand: 0x0102_0304,
        },
        Instr {
            op: Op::Arg,
            operand: 12,
        },
        Instr {
            op: Op::Jump,
            operand: 0,
        },
    ];

    // Code, how many instructions it should have, and its first fault.
    const FAULTS: [(&[u8], u32, Option<CodeFault>); 11] = [
        (&[], 1, Some(CodeFault::CodeShort { at: 0 })),
        (&[6, 8, 1, 0, 0], 2, Some(CodeFault::CodeShort { at: 1 })),
        (&[6, 33], 2, Some(CodeFault::CodeShort { at: 1 })),
        (&[0], 1, Some(CodeFault::BadOpcode { at: 0, op: 0 })),
        (&[6, 60], 2, Some(CodeFault::BadOpcode { at: 1, op: 60 })),
        (&[26], 1, Some(CodeFault::FloatOpcode { at: 0, op: 26 })),
        (
            &[6, 11, 2, 0, 0, 0],
            2,
            Some(CodeFault::BranchOut { at: 1 }),
        ),
        (&[6, 11, 1, 0, 0, 0], 2, None),
        (&[6, 6, 6, 6], 1, None),
        (&[6, 6, 6, 6, 6], 1, Some(CodeFault::TailLong { left: 4 })),
        (
            &[6, 6, 6, 6, 56],
            5,
            Some(CodeFault::FloatOpcode { at: 4, op: 56 }),
        ),
    ];

    #[test]
    fn cuts_what_was_encoded(rt: HostRuntime) -> Result<(), Fail> {
        let mut code = Vec::new(rt.alloc());
        for instr in INSTRS {
            encode(instr, &mut code)?;
        }
        let instrs = decode_all(rt.alloc(), &code, 3)?;
        assert!(rt; instrs.as_slice() == INSTRS.as_slice(), "{instrs:?}");
        Ok(())
    }

    #[test]
    fn tells_the_first_fault(rt: HostRuntime) {
        for (code, count, fault) in &FAULTS {
            let found = decode_all(rt.alloc(), code, *count).err();
            assert!(rt; found == *fault, "{code:?}");
        }
    }
}
