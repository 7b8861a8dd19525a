//! What becomes of the top words: `t` is the top word, and `s` the one below.
ghost use Rattle.std.specs.Prelude.{◌≡◌, ◌≢◌, ◌<◌, ◌-◌, ◌^◌, ◌⊎◌, ℕ};
ghost use Rattle.vm_core.specs.Machine.{divided, divided_signed, on_top, on_two};
ghost use Rattle.vm_core.specs.Module.{Computes, ComputesOne, IsRow};

use crate::halt::Halt;
use crate::module::{Registers, Words};
use crate::stack::{holds, push_at, word_at};
use crate::stop::Stop;

// The least signed number, as a word.
const LEAST: u32 = 1 << 31;

// Minus one, as a word.
const MINUS_ONE: u32 = u32::MAX;

/// `t` becomes `f(t)`.
pub fn on_top<F: Fn(u32) -> u32>(words: &mut Words, r: &mut Registers, f: F) -> Option<Halt>
    requires next { r.old.next < 2 ^ 31 }
    requires callable { F.IsAlwaysCallable f }
    ensures { (g : ℕ → ℕ) → ComputesOne (F.post f) g → IsRow (λ s. on_top s s.operands g) words.old r.old words.new r.new result }
{
    if !holds(words, r.top, 1) {
        return Some(Halt::Stop(Stop::OperandUnder));
    }
    let t = word_at(words, r.top);
    r.top = push_at(words, r.top + 1, f(t));
    r.next += 1;
    None
}

/// `s` and `t` become `f(s, t)`.
pub fn on_two<F: Fn(u32, u32) -> u32>(words: &mut Words, r: &mut Registers, f: F) -> Option<Halt>
    requires next { r.old.next < 2 ^ 31 }
    requires callable { F.IsAlwaysCallable f }
    ensures { (g : ℕ → ℕ → ℕ) → Computes (F.post f) g → IsRow (λ s. on_two s s.operands g) words.old r.old words.new r.new result }
{
    if !holds(words, r.top, 2) {
        return Some(Halt::Stop(Stop::OperandUnder));
    }
    let t = word_at(words, r.top);
    let s = word_at(words, r.top + 1);
    r.top = push_at(words, r.top + 2, f(s, t));
    r.next += 1;
    None
}

/// `s` and `t` become `f(s, t)`, a quotient or a remainder by `t`.
pub fn divided<F: Fn(u32, u32) -> u32>(words: &mut Words, r: &mut Registers, f: F) -> Option<Halt>
    requires next { r.old.next < 2 ^ 31 }
    requires callable { (s t : ℕ) → s < 2 ^ 32 → t < 2 ^ 32 → t ≢ 0 → F.pre f s t }
    ensures { (g : ℕ → ℕ → ℕ) → Computes (F.post f) g → IsRow (λ s. divided s s.operands g) words.old r.old words.new r.new result }
{
    if !holds(words, r.top, 2) {
        return Some(Halt::Stop(Stop::OperandUnder));
    }
    let t = word_at(words, r.top);
    let s = word_at(words, r.top + 1);
    if t == 0 {
        return Some(Halt::Stop(Stop::DivideZero));
    }
    r.top = push_at(words, r.top + 2, f(s, t));
    r.next += 1;
    None
}

/// The same for signed words, where the least number isn't divided by -1.
pub fn divided_signed<F: Fn(u32, u32) -> u32>(
    words: &mut Words,
    r: &mut Registers,
    f: F,
) -> Option<Halt>
    requires next { r.old.next < 2 ^ 31 }
    requires callable { (s t : ℕ) → s < 2 ^ 32 → t < 2 ^ 32 → t ≢ 0 → (s ≢ 2 ^ 31) ⊎ (t ≢ 2 ^ 32 - 1) → F.pre f s t }
    ensures { (g : ℕ → ℕ → ℕ) → Computes (F.post f) g → IsRow (λ s. divided_signed s s.operands g) words.old r.old words.new r.new result }
{
    if !holds(words, r.top, 2) {
        return Some(Halt::Stop(Stop::OperandUnder));
    }
    let t = word_at(words, r.top);
    let s = word_at(words, r.top + 1);
    if t == 0 {
        return Some(Halt::Stop(Stop::DivideZero));
    }
    if s == LEAST && t == MINUS_ONE {
        return Some(Halt::Stop(Stop::DivideOver));
    }
    r.top = push_at(words, r.top + 2, f(s, t));
    r.next += 1;
    None
}
