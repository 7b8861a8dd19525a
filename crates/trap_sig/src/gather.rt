//! A trap call as a host is to see it.
ghost use Rattle.std.specs.Prelude.{◌≡◌, ◌≤◌, ◌+◌, ◌∷◌, [], length, take, IfOk, IsTrue};
ghost use Rattle.qv_outside.specs.Signature.{fits};
ghost use Rattle.qv_outside.specs.Hosts.{HasShape, kinds_of, event_of};
ghost use Rattle.qv_outside.specs.declared.signature.Sig.{Sig};
ghost use Rattle.trap_sig.specs.Gather.{asked_by, asked_of, leaving};
ghost use Rattle.trap_sig.specs.Gathered.{answer_of};
ghost use Rattle.trap_sig.specs.Inputs.{texts_of, with_absent};

use crate::arguments::load_arguments;
use crate::inputs::{Inputs, gather_inputs};
use crate::words::{Ints, int_words, room};
use masked_mem::block::Block;
use qv_base::limits::CALL_WORDS;
use qv_outside::host::TrapCall;
use qv_outside::signature::{Kind, Sig};

/// A call gathered from the block.
#[derive(Clone, Copy, Debug)]
pub struct Gathered<'b> {
    /// The call, whose bytes are lent from the block.
    pub call: TrapCall<'b>,
    /// Where the bytes of its reply go, or 0 where it asks for none.
    pub out_at: u32,
}

/// The first argument of a call whose range leaves the block.
#[derive(Clone, Copy, Debug, PartialEq, Eq)]
pub struct TrapRange {
    /// Its place, from 0.
    pub argument: u8,
}

/// Gathers a call of the trap of this number, whose arguments stand in the block from `at` on.
///
/// # Errors
///
/// The first argument whose range leaves the block.
pub fn gather<'b>(
    block: &'b Block,
    sig: &Sig,
    number: u32,
    at: u32,
) -> Result<Gathered<'b>, TrapRange>
    ensures gathered { answer_of result ≡ asked_by block.now (kinds_of sig.now) number at }
    ensures shape { IfOk result (λ g. HasShape g.call sig.now) }
    ensures number { IfOk result (λ g. g.call.number ≡ number) }
    ensures fits { IfOk result (λ g. g.out_at + g.call.out_len ≤ length block.now) }
{
    let kinds = &sig.kinds[..sig.count as usize];
    let mut room = [0; CALL_WORDS];
    let words = &mut room[..kinds.len()];
    load_arguments(block, at, words);
    gather_from(block, kinds, words, number)
}

// Gathers a call of the trap of this number, whose arguments have these kinds and words.
fn gather_from<'b>(
    block: &'b Block,
    kinds: &[Kind],
    words: &[u32],
    number: u32,
) -> Result<Gathered<'b>, TrapRange>
    requires fits { IsTrue (fits kinds.now) }
    requires same { length words.now ≡ length kinds.now }
    ensures gathered { answer_of result ≡ asked_of block.now kinds.now number words.now (leaving block.now kinds.now words.now) }
    ensures shape { IfOk result (λ g. (sig : Sig) → kinds_of sig ≡ kinds.now → HasShape g.call sig) }
    ensures number { IfOk result (λ g. g.call.number ≡ number) }
    ensures room { IfOk result (λ g. g.out_at + g.call.out_len ≤ length block.now) }
{
    match gather_inputs(block, kinds, words) {
        Ok(inputs) => {
            let ints = int_words(kinds, words);
            let (out_at, out_len) = room(kinds, words);
            let call = call_of(number, &ints, inputs, out_len);
            Ok(Gathered { call, out_at })
        }
        Err(range) => Err(range),
    }
}

// The call of these parts.
fn call_of<'b>(number: u32, ints: &Ints, inputs: Inputs<'b>, out_len: u32) -> TrapCall<'b>
    ensures event { event_of result ≡ record { number = number; ints = take ints.now.count ints.now.words; inputs = texts_of inputs.entry; out_len = out_len } }
    ensures ints { result.ints ≡ ints.now.words }
    ensures int_count { result.int_count ≡ ints.now.count }
    ensures texts { result.first.now ∷ result.second.now ∷ [] ≡ with_absent (texts_of inputs.entry) }
    ensures count { result.input_count ≡ length (texts_of inputs.entry) }
{
    let (first, second, input_count): (&[u8], &[u8], u8) = match inputs {
        Inputs::Nothing => (&[], &[], 0),
        Inputs::One(first) => (first, &[], 1),
        Inputs::Two(first, second) => (first, second, 2),
    };
    TrapCall {
        number,
        ints: ints.words,
        int_count: ints.count,
        first,
        second,
        input_count,
        out_len,
    }
}
