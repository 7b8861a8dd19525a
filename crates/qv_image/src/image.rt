//! Images of modules.
ghost use Rattle.std.specs.Prelude.{◌+◌, ◌^◌, ◌<◌, ◌≤◌, IsTrue, length};
ghost use Rattle.std.specs.List.{list_all};
ghost use Rattle.qv_base.specs.declared.limits.TheConstants.{BLOCK_BYTES, CODE_BYTES};
ghost use Rattle.qv_ops.specs.Code.{is_encodable, stays_within};
ghost use Rattle.qv_image.specs.Image.{padded_code};

use qv_ops::instr::Instr;

/// A module's image: its code, and what its block of memory holds at first.
///
/// The data stand at the front of the block, then come the literals and the zero bytes. An image
/// has an instruction or more. Its code takes at most 2^27 bytes with the zero bytes that fill it
/// up to a multiple of 4, each operand fits its opcode, and each branch goes to an instruction of
/// the image. Data, literals and zero bytes are at most 2^26 together.
#[derive(Debug, Drop)]
pub struct Image {
    /// The instructions. Code addresses are their places, counted from 0.
    pub code: Vec<Instr>,
    /// The initialized data.
    pub data_part: Vec<u8>,
    /// The literals.
    pub lit: Vec<u8>,
    /// How many zero bytes follow the literals.
    pub bss: u32,
    ghost some_code: { 0 < length code.items },
    // It follows from the next fact, since each instruction has a byte or more.
    ghost count_fits: { length code.items ≤ CODE_BYTES },
    ghost code_fits: { length (padded_code code.items) ≤ CODE_BYTES },
    ghost encodable: { IsTrue (list_all is_encodable code.items) },
    ghost branches_within: { IsTrue (list_all (stays_within (length code.items)) code.items) },
    ghost block_fits: { length data_part.items + length lit.items + bss ≤ BLOCK_BYTES },
}
