//! C tokens.

use crate::constant::Constant;
use crate::mark::Mark;
use qv_base::name::Name;
use qv_base::place::Place;
use sqlite_items::Items;

/// What a C token is (ANSI C X3.159-1989, 3.1).
#[derive(Debug, Drop)]
pub enum CTokKind {
    /// A keyword or a punctuator.
    Mark(Mark),
    /// An identifier, which is no keyword.
    Ident(Name),
    /// An integer or character constant.
    Constant(Constant),
    /// A string: its bytes, without the NUL behind them.
    Text(Items<u8>),
}

/// A C token.
#[derive(Debug, Drop)]
pub struct CTok {
    /// What it is.
    pub kind: CTokKind,
    /// The place of its first byte.
    pub place: Place,
}
