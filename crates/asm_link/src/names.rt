// Names with what is known of them, while the lines are read.
ghost use Rattle.std.specs.Prelude.{◌≡◌, ℕ, ◌<◌, ◌≤◌, Some, IsTrue, length, take};
ghost use Rattle.std.specs.List.{list_all};
ghost use Rattle.std.specs.FinMap as map;
ghost use Rattle.asm_place.specs.Symbols.{Key};
ghost use Rattle.asm_link.specs.Held.{is_settled};

use crate::noted::Noted;
use asm_place::symbols::Symbols;

/// Names with what is known of them.
#[derive(Drop)]
pub struct Names {
    /// Each name with the number of its definition.
    pub symbols: Symbols,
    /// The definitions in their order.
    pub notes: Vec<Noted>,
    /// The number of the first definition that may wait: those before it are settled.
    pub first_waiting: usize,
    ghost numbered: { (key : Key) (n : ℕ) → map.get symbols key ≡ Some n → n < length notes.items },
    ghost settled: { IsTrue (list_all is_settled (take first_waiting notes.items)) },
    ghost within: { first_waiting ≤ length notes.items },
}
