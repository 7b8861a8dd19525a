// Units of the first form.
ghost use Rattle.std.specs.Prelude.{◌<◌, length};

use crate::sum::{SignedTerm, Term};

/// The most terms of a sum.
pub const MOST_TERMS: usize = 200;

/// A unit of the first form, `int vmMain(int command) { return E; }`, by the terms of E.
#[derive(Drop)]
pub struct Unit {
    /// The first term.
    pub first: Term,
    /// The terms behind it, at most 199.
    pub rest: Vec<SignedTerm>,
    ghost few: { length rest.items < 200 },
}
