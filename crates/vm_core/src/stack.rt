// The operand stack: the words from a top on, which moves down as words are pushed.
ghost use Rattle.std.specs.Prelude.{[], IsTrue, IsFalse, nat_le, ◌≡◌, ◌∷◌, ◌<◌, ◌≤◌, ◌+◌, length, drop};

use crate::module::Words;

/// Whether at least `count` words stand on the stack.
pub fn holds(words: &Words, top: usize, count: usize) -> bool
    requires fits { top ≤ 256 }
    requires count { count ≤ 256 }
    ensures test { result ≡ nat_le count (length (drop top words.now)) }
    ensures room { IsTrue result → top + count ≤ 256 }
{
    top <= words.len() - count
}

/// Whether there is no room for another word.
pub fn is_full(words: &Words, top: usize) -> bool
    requires { top ≤ 256 }
    ensures test { result ≡ nat_le 256 (length (drop top words.now)) }
    ensures room { IsFalse result → 0 < top }
{
    words[top..].len() == words.len()
}

/// The word that stands at `top`.
pub fn word_at(words: &Words, top: usize) -> u32
    requires { top < 256 }
    ensures { drop top words.now ≡ result ∷ drop (top + 1) words.now }
{
    words[top]
}

/// Pushes a word, and gives the new top.
pub fn push_at(words: &mut Words, top: usize, word: u32) -> usize
    requires some { 0 < top }
    requires fits { top ≤ 256 }
    ensures words { drop result words.new ≡ word ∷ drop top words.old }
    ensures less { result + 1 ≡ top }
{
    words[top - 1] = word;
    top - 1
}

/// The top of the empty stack.
pub fn empty(words: &Words) -> usize
    ensures none { drop result words.now ≡ [] }
    ensures top { result ≡ 256 }
{
    words.len()
}
