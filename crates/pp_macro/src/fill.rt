//! A body with the arguments in the places of the parameters.
ghost use Rattle.std.specs.Prelude.{◌≡◌, ◌++◌, ◌∷◌, [], IfOk, OnOk, reverse, slice_index_or};
ghost use Rattle.pp_macro.specs.Fill as spec;
ghost use Rattle.pp_macro.specs.declared.pieces.Piece.TheVariants as p;
ghost use Rattle.pp_macro.specs.Nests.{Gives, Stands};

use crate::fault::ExpandFault;
use crate::paste::joined;
use crate::pieces::{Piece, is_paste, stack_of};
use crate::spell::text_of;
use pp_tok::token::PpTok;
use qv_base::NoMemory;
use qv_base::place::Place;
use sqlite_items::Items;
use std::alloc::Global;

/// The arguments of a call, as they stand and expanded.
#[derive(Clone, Copy)]
pub struct Arguments<'a> {
    /// As they stand.
    pub raw: &'a [Items<PpTok>],
    /// Expanded, where the body asks for it.
    pub expanded: &'a [Items<PpTok>],
}

// The tokens of the argument of this number.
fn argument_at(args: &[Items<PpTok>], at: usize) -> &[PpTok]
    ensures { result.now ≡ slice_index_or args.now at [] }
{
    match args.get(at) {
        Some(arg) => arg.as_slice(),
        None => &[],
    }
}

fn copies(alloc: Global, tokens: &[PpTok]) -> Result<Items<PpTok>, NoMemory>
    ensures { IfOk result (λ ts. ts ≡ tokens.now) }
{
    let mut all = Items::new(alloc);
    for token in tokens {
        all.push(token.copy(alloc)?)?;
    }
    Ok(all)
}

fn single(alloc: Global, token: PpTok) -> Result<Items<PpTok>, NoMemory>
    ensures { IfOk result (λ ts. ts ≡ token ∷ []) }
{
    let mut only = Items::new(alloc);
    only.push(token)?;
    Ok(only)
}

impl Arguments<'_> {
    // What a piece brings.
    fn brought(&self, alloc: Global, piece: Piece) -> Result<Items<PpTok>, NoMemory>
        ensures { IfOk result (λ ts. ts ≡ spec.brought self.now.raw.now self.now.expanded.now piece) }
    {
        match piece {
            Piece::Plain(token) => single(alloc, token),
            Piece::Expanded(at) => copies(alloc, argument_at(self.expanded, at)),
            Piece::Standing(at) => copies(alloc, argument_at(self.raw, at)),
            Piece::Spelled(hash, at) => {
                let text = text_of(alloc, &hash, argument_at(self.raw, at))?;
                single(alloc, text)
            }
        }
    }

    /// The tokens that a body brings.
    ///
    /// # Errors
    ///
    /// BadPaste with the place where what a `##` joins isn't one token, NoMemory where memory is
    /// refused.
    pub fn fill(
        &self,
        alloc: Global,
        at: Place,
        pieces: Items<Piece>,
    ) -> Result<Items<PpTok>, ExpandFault>
        ensures { Gives (spec.filled self.now.raw.now self.now.expanded.now at pieces) result }
    {
        let mut pieces = stack_of(alloc, pieces)?;
        let mut out = Items::new(alloc);
        let Some(first) = pieces.pop() else {
            return Ok(out);
        };
        let mut left = self.brought(alloc, first)?;
        while let Some(piece) = pieces.pop() {
            match standing(piece, &mut pieces) {
                Joint::Paste(paste, right) => {
                    let right = self.brought(alloc, right)?;
                    left = joined(alloc, at, &paste, left, right)?;
                }
                Joint::Alone(piece) => {
                    out.append(left)?;
                    left = self.brought(alloc, piece)?;
                }
            }
        }
        out.append(left)?;
        Ok(out)
    }
}

// How a piece stands behind another one.
#[derive(Drop)]
enum Joint {
    // A `##`, with the piece behind it.
    Paste(PpTok, Piece),
    // By itself.
    Alone(Piece),
}

// Takes the piece behind a `##`.
fn standing(piece: Piece, pieces: &mut Items<Piece>) -> Joint
    ensures { Stands piece (reverse pieces.old) result (reverse pieces.new) }
{
    match piece {
        Piece::Plain(token) => plain_standing(token, pieces),
        Piece::Expanded(at) => Joint::Alone(Piece::Expanded(at)),
        Piece::Standing(at) => Joint::Alone(Piece::Standing(at)),
        Piece::Spelled(hash, at) => Joint::Alone(Piece::Spelled(hash, at)),
    }
}

fn plain_standing(token: PpTok, pieces: &mut Items<Piece>) -> Joint
    ensures { Stands (p.Plain token) (reverse pieces.old) result (reverse pieces.new) }
{
    if !is_paste(&token) {
        return Joint::Alone(Piece::Plain(token));
    }
    match pieces.pop() {
        Some(right) => Joint::Paste(token, right),
        None => Joint::Alone(Piece::Plain(token)),
    }
}
