//! What a name stands for.
ghost use Rattle.std.specs.Prelude.{◌≡◌, ◌∷◌, [], IfOk, OnOk, None, decimal, slice_index_or, map};
ghost use Rattle.std.specs.Option.{option_copied};
ghost use Rattle.std.specs.Prelude.{◌&&◌, is_some, not, string_bytes};
ghost use Rattle.pp_macro.specs.Macros.{find};
ghost use Rattle.pp_macro.specs.Tokens.{quoted, escaped, hides_itself, is_ident};
ghost use Rattle.pp_macro.specs.Expand as spec;
ghost use Rattle.pp_macro.specs.Nests.{Finds, found_macro, macro_of};

use crate::macros::Macro;
use crate::pending::Pending;
use crate::spell::push_escaped;
use crate::table::MacroTable;
use crate::tokens::{is_among, made};
use crate::unread::Unread;
use pp_tok::token::{PpKind, PpTok};
use qv_base::NoMemory;
use qv_base::name::Name;
use sqlite_items::Items;
use std::alloc::Global;

/// A macro that a name stands for.
#[derive(Drop)]
pub enum Found<'t> {
    /// One made for a predefined name.
    Made(Macro),
    /// One of the table.
    Known(&'t Macro),
}

impl Found<'_> {
    /// The macro.
    pub fn get(&self) -> &Macro
        ensures { result.now ≡ macro_of self.now }
    {
        match self {
            Found::Made(made) => made,
            Found::Known(known) => known,
        }
    }
}

// A macro whose body is one token with the place and the blanks of the name.
fn standing_for(
    alloc: Global,
    name: &PpTok,
    kind: PpKind,
    spelling: &[u8],
) -> Result<Macro, NoMemory>
    ensures { IfOk result (λ m. m ≡ spec.standing_for name.now kind spelling.now) }
{
    let mut body = Items::new(alloc);
    body.push(made(alloc, kind, spelling, name)?)?;
    Ok(Macro {
        name: Name::from_bytes(alloc, name.spelling.bytes())?,
        params: None,
        body,
    })
}

fn file_name(names: &[Name], file: u32) -> &[u8]
    ensures { result.now ≡ spec.file_name names.now file }
{
    match names.get(file as usize) {
        Some(name) => name.bytes(),
        None => b"",
    }
}

// The name of the file in quotes.
fn quoted_name(alloc: Global, name: &[u8]) -> Result<Vec<u8>, NoMemory>
    ensures { IfOk result (λ text. text.items ≡ quoted (escaped name.now)) }
{
    let mut text = Vec::new(alloc);
    text.push(b'"')?;
    push_escaped(&mut text, name)?;
    text.push(b'"')?;
    Ok(text)
}

fn line_digits(alloc: Global, line: u32) -> Result<String, NoMemory>
    ensures { IfOk result (λ text. string_bytes text ≡ decimal line) }
{
    Ok(format!(in alloc; "{line}")?)
}

// The macro that a name stands for, the predefined ones first.
fn meaning_of<'t>(
    alloc: Global,
    table: &'t MacroTable,
    names: &[Name],
    token: &Pending,
) -> Result<Option<Found<'t>>, NoMemory>
    ensures { Finds (spec.meaning_of table.now names.now token.now) result }
{
    let name = &token.token;
    let spelling = name.spelling.bytes();
    let began = token.began();
    if spelling == b"__LINE__".as_slice() {
        let digits = line_digits(alloc, began.line)?;
        let made = standing_for(alloc, name, PpKind::Number, digits.as_bytes())?;
        return Ok(Some(Found::Made(made)));
    }
    if spelling == b"__FILE__".as_slice() {
        let text = quoted_name(alloc, file_name(names, began.file))?;
        let made = standing_for(alloc, name, PpKind::Text, &text)?;
        return Ok(Some(Found::Made(made)));
    }
    if spelling == b"__STDC__".as_slice() {
        let made = standing_for(alloc, name, PpKind::Number, b"1")?;
        return Ok(Some(Found::Made(made)));
    }
    Ok(known(table, spelling))
}

// The macro of the table that a name stands for.
fn known<'t>(table: &'t MacroTable, name: &[u8]) -> Option<Found<'t>>
    ensures { found_macro result ≡ find table.now name.now }
{
    match table.find(name) {
        Some(known) => Some(Found::Known(known)),
        None => None,
    }
}

// Whether a name may be replaced: one that doesn't hide itself.
fn is_free(token: &PpTok) -> bool
    ensures { result ≡ (is_ident token.now.kind && not (hides_itself token.now)) }
{
    matches!(token.kind, PpKind::Ident)
        && !is_among(token.spelling.bytes(), token.hidden.as_slice())
}

// Whether a macro is object-like, or a call of it follows.
fn is_used(found: &Macro, unread: &Unread<'_>) -> bool
    ensures { result ≡ is_some (spec.if_called unread.now found.now found.now.params) }
{
    found.params.is_none() || unread.opens()
}

/// The macro that a token is to be replaced by, before these tokens.
///
/// # Errors
///
/// NoMemory where memory for a predefined one is refused.
#[tactic(auto, unfolding(crate::specs::Expand::due))]
pub fn due<'t>(
    alloc: Global,
    table: &'t MacroTable,
    names: &[Name],
    token: &Pending,
    unread: &Unread<'_>,
) -> Result<Option<Found<'t>>, NoMemory>
    ensures { Finds (spec.due table.now names.now token.now unread.now) result }
{
    if !is_free(&token.token) {
        return Ok(None);
    }
    let Some(found) = meaning_of(alloc, table, names, token)? else {
        return Ok(None);
    };
    if is_used(found.get(), unread) {
        Ok(Some(found))
    } else {
        Ok(None)
    }
}
