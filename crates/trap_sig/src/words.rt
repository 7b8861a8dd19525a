//! The words of a trap's arguments.
ghost use Rattle.std.specs.Prelude.{◌≡◌, ◌≤◌, ◌-◌, length, take, drop, replicate, IsTrue};
ghost use Rattle.std.specs.List.{list_all, zip};
ghost use Rattle.qv_outside.specs.Signature.{is_int, length_is_int};
ghost use Rattle.trap_sig.specs.Gather.{ints_of, output_of, length_asked, room_asked};

use qv_base::limits::CALL_WORDS;
use qv_outside::signature::Kind;

/// The words of the Int arguments in order, with zeros behind them.
#[derive(Clone, Copy, Debug)]
pub struct Ints {
    pub words: [u32; 14],
    pub count: u8,
}

/// The words of the Int arguments.
pub fn int_words(kinds: &[Kind], words: &[u32]) -> Ints
    requires few { length kinds.now ≤ 14 }
    requires same { length words.now ≡ length kinds.now }
    ensures taken { take result.count result.words ≡ ints_of (zip kinds.now words.now) }
    ensures zeros { drop result.count result.words ≡ replicate (14 - result.count) 0 }
    ensures within { result.count ≤ length result.words }
{
    let mut ints = [0; CALL_WORDS];
    let mut count = 0;
    for i in 0..kinds.len() {
        if is_int(kinds[i]) {
            ints[count] = words[i];
            count += 1;
        }
    }
    Ints {
        words: ints,
        count: count as u8,
    }
}

/// The room that a call asks for: its address and its length, both 0 where it asks for none.
pub fn room(kinds: &[Kind], words: &[u32]) -> (u32, u32)
    requires same { length words.now ≡ length kinds.now }
    requires lengths { IsTrue (list_all (length_is_int kinds.now) kinds.now) }
    ensures at { result.0 ≡ room_asked (output_of (zip kinds.now words.now)) }
    ensures len { result.1 ≡ length_asked words.now (output_of (zip kinds.now words.now)) }
{
    for i in 0..kinds.len() {
        if let Kind::OutBytes(place) = kinds[i] {
            return (words[i], words[place as usize]);
        }
    }
    (0, 0)
}

fn is_int(kind: Kind) -> bool
    ensures { result ≡ is_int kind }
{
    matches!(kind, Kind::Int)
}
