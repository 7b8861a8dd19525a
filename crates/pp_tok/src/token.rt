//! Preprocessing tokens and the lines that they stand on.
ghost use Rattle.std.specs.Prelude.{◌≡◌, ◌++◌, List, take, drop, map, length, IfOk};

use qv_base::NoMemory;
use qv_base::name::Name;
use qv_base::place::Place;
use sqlite_items::Items;
use std::alloc::{AllocError, Global};

/// The classes of preprocessing tokens (ANSI C X3.159-1989, 3.1).
#[derive(Clone, Copy, Debug, PartialEq, Eq)]
pub enum PpKind {
    /// A letter or `_`, and then letters, `_` and digits.
    Ident,
    /// A digit, or a dot and a digit, and what may follow them in a number.
    Number,
    /// A character constant, with an `L` that stands before it.
    Char,
    /// A string, with an `L` that stands before it.
    Text,
    /// One of the 48 punctuators.
    Punct,
    /// The name of a header, behind `#` `include`.
    Header,
    /// A byte that belongs to no other token.
    Byte,
}

/// A preprocessing token.
#[derive(Debug, Drop)]
pub struct PpTok {
    /// Its class.
    pub kind: PpKind,
    /// Its bytes as they stand in the file, without joins of lines.
    pub spelling: Name,
    /// The place of its first byte.
    pub place: Place,
    /// Whether a blank or a comment stands directly before it.
    pub space: bool,
    /// Whether it is the first of its line.
    pub first: bool,
    /// Its hide set: the names by which it isn't replaced any more.
    pub hidden: Items<Name>,
}

impl PpTok {
    /// A copy of the token.
    ///
    /// # Errors
    ///
    /// NoMemory where memory for the copy is refused.
    pub fn copy(&self, alloc: Global) -> Result<PpTok, NoMemory>
        ensures { IfOk result (λ copy. copy ≡ self.now) }
    {
        Ok(PpTok {
            kind: self.kind,
            spelling: Name::from_bytes(alloc, self.spelling.bytes())?,
            place: self.place,
            space: self.space,
            first: self.first,
            hidden: copy_names(alloc, self.hidden.as_slice())?,
        })
    }
}

/// Copies of names.
///
/// # Errors
///
/// NoMemory where memory for the copies is refused.
pub fn copy_names(alloc: Global, names: &[Name]) -> Result<Items<Name>, NoMemory>
    ensures { IfOk result (λ copies. copies ≡ names.now) }
{
    let mut copies = Items::new(alloc);
    for name in names {
        copies.push(Name::from_bytes(alloc, name.bytes())?)?;
    }
    Ok(copies)
}

/// A line of a file as its directives see it: physical lines joined by backslashes and comments.
#[derive(Debug, Drop)]
pub struct PpLine {
    /// The number of its first physical line.
    pub number: u32,
    /// Its tokens.
    pub toks: Items<PpTok>,
}

/// What keeps a file from being cut into tokens.
#[derive(Debug, Drop)]
pub enum PpTokFault {
    /// A comment that begins on this line has no end.
    OpenComment(u32),
    /// Memory was refused.
    NoMemory,
}

impl From<NoMemory> for PpTokFault {
    ghost use Rattle.pp_tok.specs.declared.token.PpTokFault.TheVariants as fault;

    ghost from_gives = { λ _ r. r ≡ fault.NoMemory };

    fn from(_: NoMemory) -> PpTokFault {
        PpTokFault::NoMemory
    }
}

impl From<AllocError> for PpTokFault {
    ghost use Rattle.pp_tok.specs.declared.token.PpTokFault.TheVariants as fault;

    ghost from_gives = { λ _ r. r ≡ fault.NoMemory };

    fn from(_: AllocError) -> PpTokFault {
        PpTokFault::NoMemory
    }
}
