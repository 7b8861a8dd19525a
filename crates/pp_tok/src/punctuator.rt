//! The 48 punctuators of C (ANSI C X3.159-1989, 3.1.5 and 3.1.6).
ghost use Rattle.std.specs.Prelude.{◌≡◌, ◌≤◌, length, take};
ghost use Rattle.pp_tok.specs.Lengths.{punctuator_length, is_among, ones, twos, threes};

const ONES: [u8; 25] = *b"[](){}.&*+-~!/%<>^|?:;=,#";

const TWOS: [[u8; 2]; 20] = [
    *b"->", *b"++", *b"--", *b"<<", *b">>", *b"<=", *b">=", *b"==", *b"!=", *b"&&", *b"||", *b"*=",
    *b"/=", *b"%=", *b"+=", *b"-=", *b"&=", *b"^=", *b"|=", *b"##",
];

const THREES: [[u8; 3]; 3] = [*b"...", *b"<<=", *b">>="];

/// The bytes of the longest punctuator that stands first; none where none does.
#[tactic(auto, unfolding(crate::specs::Lengths::punctuator_length))]
pub(crate) fn punctuator_len(text: &[u8]) -> usize
    ensures value { result ≡ punctuator_length text.now }
    ensures within { result ≤ length text.now }
{
    if has_three(text) {
        3
    } else if has_two(text) {
        2
    } else if has_one(text) {
        1
    } else {
        0
    }
}

fn has_three(text: &[u8]) -> bool
    ensures { result ≡ is_among threes (take 3 text.now) }
{
    matches!(text, [a, b, c, ..] if THREES.contains(&[*a, *b, *c]))
}

fn has_two(text: &[u8]) -> bool
    ensures { result ≡ is_among twos (take 2 text.now) }
{
    matches!(text, [a, b, ..] if TWOS.contains(&[*a, *b]))
}

fn has_one(text: &[u8]) -> bool
    ensures { result ≡ is_among ones (take 1 text.now) }
{
    matches!(text, [a, ..] if ONES.contains(a))
}
