//! Frames, calls and jumps among `count` instructions, and what only moves the operand stack.
ghost use Rattle.std.specs.Prelude.{ℕ, List, ◌≡◌, ◌<◌, ◌^◌, length};
ghost use Rattle.masked_mem.specs.Memory.{IsSize};
ghost use Rattle.qv_base.specs.Word.{plus};
ghost use Rattle.qv_outside.specs.Hosts.{Table};
ghost use Rattle.vm_core.specs.Machine.{entered, left, called, jumped, pushed, popped};
ghost use Rattle.vm_core.specs.Module.{state_at, operands_at, IsStep, IsRow, Leads};

use crate::halt::Halt;
use crate::module::{Registers, Words};
use crate::stack::{holds, is_full, push_at, word_at};
use crate::stop::Stop;
use masked_mem::block::Block;
use qv_base::limits::STACK_BYTES;
use qv_base::word;

// The return place of the entry frame, which ends a run.
const RETURN: u32 = u32::MAX;

// The first word that is negative where it is signed: calls from here on are traps.
const FIRST_NEGATIVE: u32 = 1 << 31;

/// ENTER: takes a frame of `size` bytes.
pub fn enter(block: &Block, r: &mut Registers, size: u32) -> Option<Halt>
    requires { r.old.next < 2 ^ 31 }
    ensures { (words : List ℕ) → IsStep (entered size (state_at block.now words r.old)) block.now words r.new result }
{
    let bottom = block.size().saturating_sub(STACK_BYTES);
    if u64::from(r.program_stack) < u64::from(bottom) + u64::from(size) {
        return Some(Halt::Stop(Stop::StackOver));
    }
    r.program_stack -= size;
    r.next += 1;
    None
}

/// LEAVE: gives a frame of `size` bytes back, and goes to the return place above it.
pub fn leave(
    block: &Block,
    words: &Words,
    r: &mut Registers,
    count: usize,
    size: u32,
) -> Option<Halt>
    requires { r.old.next < 2 ^ 31 }
    ensures { IsStep (left count size (state_at block.now words.now r.old)) block.now words.now r.new result }
{
    let top = block.size() - 64;
    if u64::from(top) < u64::from(r.program_stack) + u64::from(size) {
        return Some(Halt::Stop(Stop::StackUnder));
    }
    let place = r.program_stack + size;
    let back = block.load4(place);
    if back == RETURN {
        if !holds(words, r.top, 1) {
            return Some(Halt::Stop(Stop::OperandUnder));
        }
        return Some(Halt::Stop(Stop::Returned(word_at(words, r.top))));
    }
    if back as usize >= count {
        return Some(Halt::Stop(Stop::JumpOut(back)));
    }
    r.program_stack = place;
    r.next = back as usize;
    None
}

/// CALL: stores the next instruction's number, and goes to the instruction whose number is the top
/// word. A negative one calls a trap, whose number is stored behind.
pub fn call(block: &mut Block, words: &Words, r: &mut Registers, count: usize) -> Option<Halt>
    requires next { r.old.next < 2 ^ 31 }
    requires size { IsSize (length block.old) }
    ensures leads { (table : Table) → Leads table (called table count (state_at block.old words.now r.old) (operands_at words.now r.old)) (state_at block.new words.now r.new) result }
    ensures size { length block.new ≡ length block.old }
{
    if !holds(words, r.top, 1) {
        return Some(Halt::Stop(Stop::OperandUnder));
    }
    let t = word_at(words, r.top);
    r.top += 1;
    r.next += 1;
    block.store4(r.program_stack, r.next as u32);
    if t >= FIRST_NEGATIVE {
        let number = u32::MAX - t;
        block.store4(word::add(r.program_stack, 4), number);
        return Some(Halt::Trap(number));
    }
    if t as usize >= count {
        return Some(Halt::Stop(Stop::JumpOut(t)));
    }
    r.next = t as usize;
    None
}

/// JUMP: goes to the instruction whose number is the top word.
pub fn jump(words: &Words, r: &mut Registers, count: usize) -> Option<Halt>
    requires { r.old.next < 2 ^ 31 }
    ensures { IsRow (λ s. jumped count s s.operands) words.now r.old words.now r.new result }
{
    if !holds(words, r.top, 1) {
        return Some(Halt::Stop(Stop::OperandUnder));
    }
    let place = word_at(words, r.top);
    if place as usize >= count {
        return Some(Halt::Stop(Stop::JumpOut(place)));
    }
    r.top += 1;
    r.next = place as usize;
    None
}

/// PUSH and CONST: pushes a word.
pub fn push(words: &mut Words, r: &mut Registers, word: u32) -> Option<Halt>
    requires { r.old.next < 2 ^ 31 }
    ensures { IsRow (λ s. pushed s s.operands word) words.old r.old words.new r.new result }
{
    if is_full(words, r.top) {
        return Some(Halt::Stop(Stop::OperandOver));
    }
    r.top = push_at(words, r.top, word);
    r.next += 1;
    None
}

/// LOCAL: pushes the address at `offset` from the program stack's place.
pub fn push_local(words: &mut Words, r: &mut Registers, offset: u32) -> Option<Halt>
    requires { r.old.next < 2 ^ 31 }
    ensures { IsRow (λ s. pushed s s.operands (plus s.program_stack offset)) words.old r.old words.new r.new result }
{
    push(words, r, word::add(r.program_stack, offset))
}

/// POP: drops the top word.
pub fn pop(words: &Words, r: &mut Registers) -> Option<Halt>
    requires { r.old.next < 2 ^ 31 }
    ensures { IsRow (λ s. popped s s.operands) words.now r.old words.now r.new result }
{
    if !holds(words, r.top, 1) {
        return Some(Halt::Stop(Stop::OperandUnder));
    }
    // It is read for what is known of the stack then.
    let _ = word_at(words, r.top);
    r.top += 1;
    r.next += 1;
    None
}
