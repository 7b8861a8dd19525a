//! Instructions and their bytes.
ghost use Rattle.std.specs.Prelude.{◌≡◌, ◌++◌, OnOk, OnErr, IsTrue, drop, length};
ghost use Rattle.qv_ops.specs.Code.{instr_bytes, is_encodable};
ghost use Rattle.qv_ops.specs.Cut.{CutsBack};

use crate::op::{Op, number_of, width};
use byteorder::{ByteOrder, LittleEndian};
use qv_base::NoMemory;

/// An instruction.
#[derive(Clone, Copy, Debug, PartialEq, Eq)]
pub struct Instr {
    /// What it does.
    pub op: Op,
    /// Its operand, and 0 where none is carried.
    pub operand: u32,
}

/// Appends the instruction's bytes: its opcode's number, then its operand, the lowest byte first.
///
/// The operand has to be 0 where none is carried, and below 256 where one byte is.
///
/// # Errors
///
/// `NoMemory` where there is no room, and then `out` is as it was.
pub fn encode(instr: Instr, out: &mut Vec<u8>) -> Result<(), NoMemory>
    requires { IsTrue (is_encodable instr) }
    ensures ok { OnOk result (out.new.items ≡ out.old.items ++ instr_bytes instr) }
    ensures err { OnErr result (out.new.items ≡ out.old.items) }

    // What was appended is cut back into the instruction.
    ensures back { OnOk result (CutsBack instr (drop (length out.old.items) out.new.items)) }
{
    let number = number_of(instr.op);
    match width(instr.op) {
        0 => out.push(number)?,
        1 => out.extend_from_slice(&[number, instr.operand as u8])?,
        _ => {
            let mut bytes = [number, 0, 0, 0, 0];
            LittleEndian::write_u32(&mut bytes[1..], instr.operand);
            out.extend_from_slice(&bytes)?;
        }
    }
    Ok(())
}

#[cfg(test)]
mod tests {
    use super::*;
    use std::test::Fail;

    #[test]
    fn encodes_behind_what_is_there(rt: HostRuntime) -> Result<(), Fail> {
        let mut out = Vec::new(rt.alloc());
        for (op, operand) in [(Op::Const, 0x0102_0304), (Op::Arg, 12), (Op::Add, 0)] {
            encode(Instr { op, operand }, &mut out)?;
        }
        assert!(rt;
            out.as_slice() == [8, 4, 3, 2, 1, 33, 12, 38].as_slice(),
            "{out:?}"
        );
        Ok(())
    }
}
