// A module: an image that runs.
ghost use Rattle.std.specs.Prelude.{◌≤◌, ◌<◌, ◌^◌, length, vec_len, vec_capacity};

use masked_mem::block::Block;
use qv_ops::instr::Instr;

/// The words of the operand stack: those from its top on.
pub(crate) type Words = [u32; 256];

/// What changes at every step: the operand stack's top, the program stack's place, and the number of
/// the next instruction.
#[derive(Clone, Copy)]
pub(crate) struct Registers {
    pub(crate) top: usize,
    pub(crate) program_stack: u32,
    pub(crate) next: usize,
    ghost top_fits: { top ≤ 256 },
}

/// A module: the instructions of an image, its block and its stacks. It runs while it is ready.
#[derive(Drop)]
pub struct Module {
    pub(crate) code: Vec<Instr>,
    pub(crate) block: Block,
    // Room for as many bytes as the block has: it takes those of a host's reply, before they are put.
    pub(crate) room: Vec<u8>,
    pub(crate) words: Words,
    pub(crate) registers: Registers,
    pub(crate) ready: bool,
    ghost code_fits: { vec_len code < 2 ^ 31 },
    ghost room_fits: { length block ≤ vec_capacity room },
}
