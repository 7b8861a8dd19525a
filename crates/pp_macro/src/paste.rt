//! Tokens that a `##` joins.
ghost use Rattle.std.specs.Prelude.{◌≡◌, ◌++◌, ◌∷◌, [], IfOk, OnOk};
ghost use Rattle.pp_tok.specs.Sole.{sole_kind_of};
ghost use Rattle.pp_macro.specs.Fill as spec;
ghost use Rattle.pp_macro.specs.Nests.{Gives};

use crate::fault::ExpandFault;
use crate::tokens::common;
use pp_tok::sole::sole_kind;
use pp_tok::token::PpTok;
use qv_base::NoMemory;
use qv_base::name::Name;
use qv_base::place::Place;
use sqlite_items::Items;
use std::alloc::Global;

// The token that a `##` makes of one and nothing.
fn moved(alloc: Global, paste: &PpTok, token: &PpTok) -> Result<PpTok, NoMemory>
    ensures { IfOk result (λ t. t ≡ spec.moved paste.now token.now) }
{
    let mut made = token.copy(alloc)?;
    made.place = paste.place;
    Ok(made)
}

// The spellings of two tokens, one behind the other.
fn joined_spelling(alloc: Global, left: &PpTok, right: &PpTok) -> Result<Name, NoMemory>
    ensures { IfOk result (λ bytes. bytes ≡ left.now.spelling ++ right.now.spelling) }
{
    let mut bytes = left.spelling.bytes().to_vec(alloc)?;
    bytes.extend_from_slice(right.spelling.bytes())?;
    Name::from_bytes(alloc, &bytes)
}

// The token that a `##` makes of two.
fn joined_token(
    alloc: Global,
    at: Place,
    paste: &PpTok,
    left: &PpTok,
    right: &PpTok,
) -> Result<PpTok, ExpandFault>
    ensures { Gives (spec.joined_one at paste.now left.now right.now (sole_kind_of (left.now.spelling ++ right.now.spelling))) result }
{
    let spelling = joined_spelling(alloc, left, right)?;
    let Some(kind) = sole_kind(spelling.bytes()) else {
        return Err(ExpandFault::BadPaste(at));
    };
    Ok(PpTok {
        kind,
        spelling,
        place: paste.place,
        space: left.space,
        first: left.first,
        hidden: common(alloc, left.hidden.as_slice(), right.hidden.as_slice())?,
    })
}

// The token that a `##` makes at the end of the left part, which was taken from there.
fn made_between(
    alloc: Global,
    at: Place,
    paste: &PpTok,
    last: Option<PpTok>,
    right: &PpTok,
) -> Result<PpTok, ExpandFault>
    ensures { Gives (spec.joined_between at paste.now last right.now) result }
{
    match last {
        Some(last) => joined_token(alloc, at, paste, &last, right),
        None => Ok(moved(alloc, paste, right)?),
    }
}

// The left part of a `##` behind which nothing stands.
fn joined_with_nothing(paste: &PpTok, mut left: Items<PpTok>) -> Result<Items<PpTok>, NoMemory>
    ensures { IfOk result (λ ts. ts ≡ spec.last_moved paste.now (spec.before_last left) (spec.last_of left)) }
{
    let Some(mut last) = left.pop() else {
        return Ok(left);
    };
    last.place = paste.place;
    left.push(last)?;
    Ok(left)
}

/// What a `##` makes of its left and its right part.
///
/// # Errors
///
/// BadPaste with the place where the joined spelling isn't one token, NoMemory where memory is
/// refused.
pub fn joined(
    alloc: Global,
    at: Place,
    paste: &PpTok,
    mut left: Items<PpTok>,
    mut right: Items<PpTok>,
) -> Result<Items<PpTok>, ExpandFault>
    ensures { Gives (spec.joined at paste.now left right) result }
{
    let Some(first) = right.get(0) else {
        return Ok(joined_with_nothing(paste, left)?);
    };
    let made = made_between(alloc, at, paste, left.pop(), first)?;
    right.set(0, made);
    left.append(right)?;
    Ok(left)
}
