//! The bytes that a call lends.
ghost use Rattle.std.specs.Prelude.{◌≡◌, ◌≤◌, ◌<◌, ◌++◌, ◌∷◌, [], length, IsTrue, if◌then◌else◌, true, None, Some, IfOk, IfErr, count_by, take};
ghost use Rattle.std.specs.List.{list_all, zip};
ghost use Rattle.qv_outside.specs.Signature.{is_input, length_is_int};
ghost use Rattle.trap_sig.specs.Gather.{inputs_of, leaving};
ghost use Rattle.trap_sig.specs.Inputs.{texts_of};

use crate::arguments::reach;
use crate::gather::TrapRange;
use masked_mem::block::Block;
use qv_outside::signature::Kind;

/// The bytes of the Text and InBytes arguments in order.
#[derive(Clone, Copy, Debug)]
pub enum Inputs<'b> {
    Nothing,
    One(&'b [u8]),
    Two(&'b [u8], &'b [u8]),
}

impl<'b> Inputs<'b> {
    /// These, and behind them the bytes of an argument of this kind, if it lends them.
    pub fn with(self, kind: Kind, bytes: &'b [u8]) -> Inputs<'b>
        requires { is_input kind ≡ true → length (texts_of self) < 2 }
        ensures { texts_of result ≡ (if is_input kind then texts_of self.entry ++ bytes.now ∷ [] else texts_of self.entry) }
    {
        if !is_input(kind) {
            return self;
        }
        match self {
            Inputs::Nothing => Inputs::One(bytes),
            Inputs::One(first) => Inputs::Two(first, bytes),
            Inputs::Two(first, second) => Inputs::Two(first, second),
        }
    }
}

fn is_input(kind: Kind) -> bool
    ensures { result ≡ is_input kind }
{
    matches!(kind, Kind::Text | Kind::InBytes(_))
}

/// The bytes that the arguments of these kinds and words lend.
///
/// # Errors
///
/// The first argument whose range leaves the block.
pub fn gather_inputs<'b>(
    block: &'b Block,
    kinds: &[Kind],
    words: &[u32],
) -> Result<Inputs<'b>, TrapRange>
    requires few { length kinds.now ≤ 14 }
    requires same { length words.now ≡ length kinds.now }
    requires lengths { IsTrue (list_all (length_is_int kinds.now) kinds.now) }
    requires two { count_by is_input kinds.now ≤ 2 }
    ensures within { IfOk result (λ _. leaving block.now kinds.now words.now ≡ None) }
    ensures texts { IfOk result (λ inputs. texts_of inputs ≡ inputs_of block.now words.now (zip kinds.now words.now)) }
    ensures err { IfErr result (λ range. leaving block.now kinds.now words.now ≡ Some range.argument) }
{
    let mut inputs = Inputs::Nothing;
    for i in 0..kinds.len() {
        match reach(block, words, kinds[i], words[i]) {
            Some(bytes) => inputs = inputs.with(kinds[i], bytes),
            None => return Err(TrapRange { argument: i as u8 }),
        }
    }
    Ok(inputs)
}
