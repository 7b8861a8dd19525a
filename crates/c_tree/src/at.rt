//! Where a node begins.

use qv_base::place::Place;

/// Where a node begins: its first token.
#[derive(Clone, Copy, Debug, PartialEq, Eq)]
pub struct At {
    /// The token's place.
    pub place: Place,
    /// How many tokens of the unit stand before it.
    pub number: usize,
}
