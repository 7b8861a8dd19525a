//! Tokens, and the names that they hide.
ghost use Rattle.std.specs.Prelude.{◌≡◌, ◌++◌, IfOk, OnOk};
ghost use Rattle.pp_macro.specs.Tokens as spec;

use pp_tok::token::{PpKind, PpTok};
use qv_base::NoMemory;
use qv_base::name::Name;
use sqlite_items::Items;
use std::alloc::Global;

/// Whether a token is this punctuator.
pub fn is_mark(token: &PpTok, mark: &[u8]) -> bool
    ensures { result ≡ spec.is_mark mark.now token.now }
{
    matches!(token.kind, PpKind::Punct) && token.spelling.bytes() == mark
}

/// Whether the name is one of these.
pub fn is_among(name: &[u8], names: &[Name]) -> bool
    ensures { result ≡ spec.is_among name.now names.now }
{
    names.iter().any(|other| other.bytes() == name)
}

// Whether the name is one of these. The one at this index is looked at first.
fn is_among_near(name: &[u8], names: &[Name], at: usize) -> bool
    ensures { result ≡ spec.is_among name.now names.now }
{
    match names.get(at) {
        Some(near) if near.bytes() == name => true,
        _ => is_among(name, names),
    }
}

/// The names that both hide.
///
/// # Errors
///
/// NoMemory where memory for them is refused.
pub fn common(alloc: Global, hidden: &[Name], others: &[Name]) -> Result<Items<Name>, NoMemory>
    ensures { IfOk result (λ names. names ≡ spec.common hidden.now others.now) }
{
    let mut names = Items::new(alloc);
    for name in hidden {
        if is_among_near(name.bytes(), others, names.len()) {
            names.push(Name::from_bytes(alloc, name.bytes())?)?;
        }
    }
    Ok(names)
}

/// A token of this class and spelling with the place and the blanks of another one. It hides nothing.
///
/// # Errors
///
/// NoMemory where memory for it is refused.
pub fn made(alloc: Global, kind: PpKind, spelling: &[u8], like: &PpTok) -> Result<PpTok, NoMemory>
    ensures { IfOk result (λ t. t ≡ spec.made kind spelling.now like.now) }
{
    Ok(PpTok {
        kind,
        spelling: Name::from_bytes(alloc, spelling)?,
        place: like.place,
        space: like.space,
        first: like.first,
        hidden: Items::new(alloc),
    })
}
