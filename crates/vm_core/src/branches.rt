//! Branches.
ghost use Rattle.std.specs.Prelude.{◌≡◌, ◌<◌, ◌^◌, ℕ, Bool};
ghost use Rattle.vm_core.specs.Machine.{branched};
ghost use Rattle.vm_core.specs.Module.{Computes, IsRow};

use crate::halt::Halt;
use crate::module::{Registers, Words};
use crate::stack::{holds, word_at};
use crate::stop::Stop;

/// Takes the top word `t` and the word `s` below it, and goes to `place` where `is_taken(s, t)`, else on
/// to the next instruction.
pub fn branch<F: Fn(u32, u32) -> bool>(
    words: &Words,
    r: &mut Registers,
    place: u32,
    is_taken: F,
) -> Option<Halt>
    requires next { r.old.next < 2 ^ 31 }
    requires callable { F.IsAlwaysCallable is_taken }
    ensures { (f : ℕ → ℕ → Bool) → Computes (F.post is_taken) f → IsRow (λ s. branched place s s.operands f) words.now r.old words.now r.new result }
{
    if !holds(words, r.top, 2) {
        return Some(Halt::Stop(Stop::OperandUnder));
    }
    let t = word_at(words, r.top);
    let s = word_at(words, r.top + 1);
    r.top += 2;
    r.next = if is_taken(s, t) {
        place as usize
    } else {
        r.next + 1
    };
    None
}
