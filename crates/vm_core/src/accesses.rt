//! Stores and copies.
ghost use Rattle.std.specs.Prelude.{◌≡◌, ◌<◌, ◌^◌, ℕ, List, length};
ghost use Rattle.masked_mem.specs.Memory.{IsSize};
ghost use Rattle.vm_core.specs.Machine.{stored, argued, copied};
ghost use Rattle.vm_core.specs.Module.{state_at, operands_at, IsStep, KeepsSize, Stores};

use crate::halt::Halt;
use crate::module::{Registers, Words};
use crate::stack::{holds, word_at};
use crate::stop::Stop;
use masked_mem::block::Block;
use qv_base::word;

/// Stores the top word at the address below it, by `store`, which takes the address and then the word.
pub fn store<F: FnOnce(&mut Block, u32, u32)>(
    block: &mut Block,
    words: &Words,
    r: &mut Registers,
    store: F,
) -> Option<Halt>
    requires next { r.old.next < 2 ^ 31 }
    requires callable { F.IsAlwaysCallable store }
    requires size { IsSize (length block.old) }
    ensures step { (g : List ℕ → ℕ → ℕ → List ℕ) → Stores (F.post store) g → IsStep (stored (state_at block.old words.now r.old) (operands_at words.now r.old) (g block.old)) block.new words.now r.new result }
    ensures size { KeepsSize (F.post store) → length block.new ≡ length block.old }
{
    if !holds(words, r.top, 2) {
        return Some(Halt::Stop(Stop::OperandUnder));
    }
    let t = word_at(words, r.top);
    let s = word_at(words, r.top + 1);
    r.top += 2;
    store(block, s, t);
    r.next += 1;
    None
}

/// ARG: stores the top word at `offset` from the program stack's place.
pub fn argument(block: &mut Block, words: &Words, r: &mut Registers, offset: u32) -> Option<Halt>
    requires next { r.old.next < 2 ^ 31 }
    requires size { IsSize (length block.old) }
    ensures step { IsStep (argued offset (state_at block.old words.now r.old) (operands_at words.now r.old)) block.new words.now r.new result }
    ensures size { length block.new ≡ length block.old }
{
    if !holds(words, r.top, 1) {
        return Some(Halt::Stop(Stop::OperandUnder));
    }
    let t = word_at(words, r.top);
    r.top += 1;
    block.store4(word::add(r.program_stack, offset), t);
    r.next += 1;
    None
}

/// BLOCK_COPY: copies `len` bytes from the top word `t` to the word `s` below it.
pub fn block_copy(block: &mut Block, words: &Words, r: &mut Registers, len: u32) -> Option<Halt>
    requires { r.old.next < 2 ^ 31 }
    ensures step { IsStep (copied len (state_at block.old words.now r.old) (operands_at words.now r.old)) block.new words.now r.new result }
    ensures size { length block.new ≡ length block.old }
{
    if !holds(words, r.top, 2) {
        return Some(Halt::Stop(Stop::OperandUnder));
    }
    let t = word_at(words, r.top);
    let s = word_at(words, r.top + 1);
    if s % 4 != 0 || t % 4 != 0 || len % 4 != 0 || !block.fits(s, len) || !block.fits(t, len) {
        return Some(Halt::Stop(Stop::CopyRange));
    }
    r.top += 2;
    block.copy(s, t, len);
    r.next += 1;
    None
}
