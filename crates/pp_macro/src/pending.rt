//! Single tokens that are still to be read, and what replacements bring.
ghost use Rattle.std.specs.Prelude.{◌≡◌, ◌∷◌, ◌++◌, OnOk, IfOk, reverse};
ghost use Rattle.pp_macro.specs.Calls as spec;
ghost use Rattle.pp_macro.specs.Tokens.{hiding};

use pp_tok::token::{PpTok, copy_names};
use qv_base::NoMemory;
use qv_base::name::Name;
use qv_base::place::Place;
use sqlite_items::Items;
use std::alloc::Global;

/// A token that is still to be read.
#[derive(Drop)]
pub struct Pending {
    /// The token.
    pub token: PpTok,
    /// The place of the name with which the outermost replacement around the token began, if a
    /// replacement brought it.
    pub outer: Option<Place>,
}

impl Pending {
    /// The place of the name with which the outermost replacement around the token began, or its own.
    pub fn began(&self) -> Place
        ensures { result ≡ spec.began self.now }
    {
        self.outer.unwrap_or(self.token.place)
    }
}

/// What a body brings, with the names that its tokens are to hide too.
#[derive(Drop)]
pub struct Filling {
    /// The tokens.
    pub tokens: Items<PpTok>,
    /// The names.
    pub names: Items<Name>,
}

// The token, hiding these names too.
fn hiding(alloc: Global, mut token: PpTok, names: &[Name]) -> Result<PpTok, NoMemory>
    ensures { IfOk result (λ t. t ≡ hiding names.now token) }
{
    token.hidden.append(copy_names(alloc, names)?)?;
    Ok(token)
}

// The token, hiding these names too, which are given away.
fn hiding_all(mut token: PpTok, names: Items<Name>) -> Result<PpTok, NoMemory>
    ensures { IfOk result (λ t. t ≡ hiding names token) }
{
    if token.hidden.is_empty() {
        token.hidden = names;
        return Ok(token);
    }
    token.hidden.append(names)?;
    Ok(token)
}

/// Puts what a body brings before the tokens that are still to be read.
///
/// # Errors
///
/// NoMemory where memory for it is refused.
pub fn put_back(
    alloc: Global,
    pending: &mut Items<Pending>,
    place: Place,
    filling: Filling,
) -> Result<(), NoMemory>
    ensures { OnOk result (reverse pending.new ≡ spec.all_from place filling.names filling.tokens ++ reverse pending.old) }
{
    let Filling { mut tokens, names } = filling;
    let Some(last) = tokens.pop() else {
        return Ok(());
    };
    if tokens.is_empty() {
        return put_single(pending, place, names, last);
    }
    tokens.push(last)?;
    put_all(alloc, pending, place, names.as_slice(), tokens)
}

// A single token takes the names, so that a long row of macros that stand for each other copies none.
fn put_single(
    pending: &mut Items<Pending>,
    place: Place,
    names: Items<Name>,
    token: PpTok,
) -> Result<(), NoMemory>
    ensures { OnOk result (reverse pending.new ≡ spec.from_macro place names token ∷ reverse pending.old) }
{
    pending.push(Pending {
        token: hiding_all(token, names)?,
        outer: Some(place),
    })?;
    Ok(())
}

fn put_all(
    alloc: Global,
    pending: &mut Items<Pending>,
    place: Place,
    names: &[Name],
    mut tokens: Items<PpTok>,
) -> Result<(), NoMemory>
    ensures { OnOk result (reverse pending.new ≡ spec.all_from place names.now tokens ++ reverse pending.old) }
{
    while let Some(token) = tokens.pop() {
        pending.push(Pending {
            token: hiding(alloc, token, names)?,
            outer: Some(place),
        })?;
    }
    Ok(())
}
