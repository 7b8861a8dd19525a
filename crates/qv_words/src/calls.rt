//! The calls of vmMain, as their words are read.
ghost use Rattle.std.specs.Prelude.{◌≡◌, ◌-◌, ◌≤◌, IsTrue, drop, length, replicate};
ghost use Rattle.std.specs.List.{list_all};
ghost use Rattle.qv_words.specs.Calls.{is_call};

/// The words of the calls read so far.
#[derive(Debug, Drop)]
pub struct Calls {
    /// The words of the calls before the last one.
    pub earlier: Vec<[u32; 14]>,
    /// The words of the last call, and zeros behind them.
    pub last: [u32; 14],
    /// How many words of the last call were given.
    pub count: usize,
    ghost at_most: { length earlier.items ≤ 4095 },
    ghost are_calls: { IsTrue (list_all is_call earlier.items) },
    ghost within: { count ≤ 14 },
    ghost zeros: { drop count last ≡ replicate (14 - count) 0 },
    ghost is_last: { IsTrue (is_call last) },
}
