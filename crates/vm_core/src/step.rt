//! One instruction of a module, up to the service of a trap.
ghost use Rattle.std.specs.Prelude.{◌≡◌, ◌<◌, ◌≤◌, ◌^◌, length};
ghost use Rattle.masked_mem.specs.Memory.{IsSize};
ghost use Rattle.qv_outside.specs.Hosts.{Table};
ghost use Rattle.vm_core.specs.Machine.{step, act};
ghost use Rattle.vm_core.specs.Module.{state_at, Leads};

use crate::accesses::{argument, block_copy, store};
use crate::arithmetic::{divided, divided_signed, on_top, on_two};
use crate::branches::branch;
use crate::frames::{call, enter, jump, leave, pop, push, push_local};
use crate::halt::Halt;
use crate::module::{Registers, Words};
use crate::stop::Stop;
use masked_mem::block::Block;
use qv_base::word;
use qv_ops::instr::Instr;
use qv_ops::op::Op;

/// One instruction: nothing where the run goes on, else the stop, or the trap that it calls.
pub fn advance(
    code: &[Instr],
    block: &mut Block,
    words: &mut Words,
    r: &mut Registers,
) -> Option<Halt>
    requires code { length code.now < 2 ^ 31 }
    requires size { IsSize (length block.old) }
    ensures leads { (table : Table) → Leads table (step code.now table (state_at block.old words.old r.old)) (state_at block.new words.new r.new) result }
    ensures size { length block.new ≡ length block.old }
{
    let Some(instr) = code.get(r.next) else {
        return Some(Halt::Stop(Stop::FellOff));
    };
    act(block, words, r, code.len(), *instr)
}

// Does what the instruction says, among `count`.
fn act(
    block: &mut Block,
    words: &mut Words,
    r: &mut Registers,
    count: usize,
    instr: Instr,
) -> Option<Halt>
    requires here { r.old.next < 2 ^ 31 }
    requires fits { count < 2 ^ 31 }
    requires size { IsSize (length block.old) }
    ensures leads { (table : Table) → Leads table (act table count instr.op instr.operand (state_at block.old words.old r.old)) (state_at block.new words.new r.new) result }
    ensures size { length block.new ≡ length block.old }
{
    let operand = instr.operand;
    match instr.op {
        Op::Ignore | Op::Break => {
            r.next += 1;
            None
        }
        Op::Enter => enter(block, r, operand),
        Op::Leave => leave(block, words, r, count, operand),
        Op::Call => call(block, words, r, count),
        Op::Push => push(words, r, 0),
        Op::Pop => pop(words, r),
        Op::Const => push(words, r, operand),
        Op::Local => push_local(words, r, operand),
        Op::Jump => jump(words, r, count),
        Op::Eq => branch(words, r, operand, |s, t| s == t),
        Op::Ne => branch(words, r, operand, |s, t| s != t),
        Op::Lti => branch(words, r, operand, |s, t| word::less_signed(s, t)),
        Op::Lei => branch(words, r, operand, |s, t| !word::less_signed(t, s)),
        Op::Gti => branch(words, r, operand, |s, t| word::less_signed(t, s)),
        Op::Gei => branch(words, r, operand, |s, t| !word::less_signed(s, t)),
        Op::Ltu => branch(words, r, operand, |s, t| s < t),
        Op::Leu => branch(words, r, operand, |s, t| s <= t),
        Op::Gtu => branch(words, r, operand, |s, t| s > t),
        Op::Geu => branch(words, r, operand, |s, t| s >= t),
        Op::Load1 => on_top(words, r, |at| block.load1(at)),
        Op::Load2 => on_top(words, r, |at| block.load2(at)),
        Op::Load4 => on_top(words, r, |at| block.load4(at)),
        Op::Store1 => store(block, words, r, Block::store1),
        Op::Store2 => store(block, words, r, Block::store2),
        Op::Store4 => store(block, words, r, Block::store4),
        Op::Arg => argument(block, words, r, operand),
        Op::BlockCopy => block_copy(block, words, r, operand),
        Op::Sex8 => on_top(words, r, word::sign8),
        Op::Sex16 => on_top(words, r, word::sign16),
        Op::Negi => on_top(words, r, word::neg),
        Op::Add => on_two(words, r, word::add),
        Op::Sub => on_two(words, r, word::sub),
        Op::Divi => divided_signed(words, r, word::div_signed),
        Op::Divu => divided(words, r, |s, t| s / t),
        Op::Modi => divided_signed(words, r, word::rem_signed),
        Op::Modu => divided(words, r, |s, t| s % t),
        Op::Muli | Op::Mulu => on_two(words, r, word::mul),
        Op::Band => on_two(words, r, |s, t| s & t),
        Op::Bor => on_two(words, r, |s, t| s | t),
        Op::Bxor => on_two(words, r, |s, t| s ^ t),
        Op::Bcom => on_top(words, r, |t| !t),
        Op::Lsh => on_two(words, r, word::shl),
        Op::Rshi => on_two(words, r, word::sar),
        Op::Rshu => on_two(words, r, word::shr),
    }
}
