//! Constants that have no end on their line, so that it is looked for once.
ghost use Rattle.std.specs.Prelude.{◌≡◌, ◌+◌, ◌<◌, ◌≤◌, ◌==◌, ℕ, IsTrue, IfSome, List, length, drop, slice_index, nat_lt, false, if◌then◌else◌};
ghost use Rattle.pp_tok.specs.Lengths.{is_quote, constant_length};
ghost use Rattle.pp_tok.specs.Unclosed.{AreUnclosed};

use crate::length::{constant_len, line_len};

/// The places of a text before which constants are known to have no end on their lines.
#[derive(Clone, Copy, Debug)]
pub(crate) struct Unclosed {
    /// Strings.
    pub double: usize,
    /// Character constants.
    pub single: usize,
}

impl Unclosed {
    ghost use Rattle.pp_tok.specs.Unclosed.{until};

    /// Nothing is known.
    #[tactic(auto, using(crate::proofs::Open::nothing_known))]
    pub(crate) fn new() -> Unclosed
        ensures { (at : ℕ) → (text : List ℕ) → AreUnclosed result at text }
    {
        Unclosed {
            double: 0,
            single: 0,
        }
    }

    fn has(&self, quote: u8, at: usize) -> bool
        requires { IsTrue (is_quote quote) }
        ensures { result ≡ nat_lt at (until self.now quote) }
    {
        if quote == b'"' {
            at < self.double
        } else {
            at < self.single
        }
    }

    fn set(&mut self, quote: u8, place: usize)
        requires { IsTrue (is_quote quote) }
        ensures { (q : ℕ) → until self.new q ≡ (if q == quote then place else until self.old q) }
    {
        if quote == b'"' {
            self.double = place;
        } else {
            self.single = place;
        }
    }
}

/// How many bytes behind this quote belong to its constant. None where it has no end on its line.
pub(crate) fn constant_rest(text: &[u8], at: usize, unclosed: &mut Unclosed) -> Option<usize>
    requires in_text { at < length text.now }
    requires quote { IsTrue (is_quote (slice_index text.now at)) }
    requires known { AreUnclosed unclosed.old at text.now }
    ensures known { AreUnclosed unclosed.new at text.now }
    ensures value { result ≡ constant_length (slice_index text.now at) false (drop (at + 1) text.now) }
    ensures within { IfSome result (λ n. at + 1 + n ≤ length text.now) }
{
    let quote = text[at];
    if unclosed.has(quote, at) {
        return None;
    }
    let rest = &text[at + 1..];
    match constant_len(quote, rest) {
        Some(behind) => Some(behind),
        None => {
            unclosed.set(quote, at + 1 + line_len(rest));
            None
        }
    }
}
