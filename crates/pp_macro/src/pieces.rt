//! A body cut into pieces.
ghost use Rattle.std.specs.Prelude.{◌≡◌, ◌&&◌, ◌++◌, IfOk, None, Some, false, is_some, position, reverse};
ghost use Rattle.std.specs.List.{list_any};
ghost use Rattle.std.specs.Str.{bytes_eq};
ghost use Rattle.pp_macro.specs.Nests.{Spells};
ghost use Rattle.pp_macro.specs.Pieces as spec;

use crate::tokens::is_mark;
use pp_tok::token::{PpKind, PpTok};
use qv_base::NoMemory;
use qv_base::name::Name;
use sqlite_items::Items;
use std::alloc::Global;

/// A piece of a body.
#[derive(Drop)]
pub enum Piece {
    /// A token.
    Plain(PpTok),
    /// The argument of this number, expanded.
    Expanded(usize),
    /// The argument of this number as it stands.
    Standing(usize),
    /// A `#`, and the argument of this number.
    Spelled(PpTok, usize),
}

/// Whether a token is a `##`.
pub fn is_paste(token: &PpTok) -> bool
    ensures { result ≡ spec.is_paste token.now }
{
    is_mark(token, b"##")
}

fn is_hash(token: &PpTok) -> bool
    ensures { result ≡ spec.is_hash token.now }
{
    is_mark(token, b"#")
}

fn place_among(params: &[Name], name: &[u8]) -> Option<usize>
    ensures { result ≡ position (bytes_eq name.now) params.now }
{
    params.iter().position(|param| name == param.bytes())
}

// The number of the parameter that a token is.
fn param_of(params: &[Name], token: &PpTok) -> Option<usize>
    ensures { result ≡ spec.param_of params.now token.now }
{
    if matches!(token.kind, PpKind::Ident) {
        place_among(params, token.spelling.bytes())
    } else {
        None
    }
}

// The parameter behind a `#`, and the tokens behind both.
#[tactic(auto, unfolding(crate::specs::Pieces::pieces))]
fn spelled_param<'a>(
    params: &[Name],
    token: &PpTok,
    behind: &'a [PpTok],
) -> Option<(usize, &'a [PpTok])>
    ensures { Spells params.now token.now behind.now result }
{
    if !is_hash(token) {
        return None;
    }
    let (next, after) = behind.split_first()?;
    let at = param_of(params, next)?;
    Some((at, after))
}

fn paste_first(tokens: &[PpTok]) -> bool
    ensures { result ≡ spec.paste_first tokens.now }
{
    match tokens.first() {
        Some(token) => is_paste(token),
        None => false,
    }
}

// The piece that a token is alone. A parameter stands as it is beside a `##`.
fn plain_piece(
    alloc: Global,
    params: &[Name],
    token: &PpTok,
    beside: bool,
) -> Result<Piece, NoMemory>
    ensures { IfOk result (λ piece. piece ≡ spec.plain_piece token.now beside (spec.param_of params.now token.now)) }
{
    match param_of(params, token) {
        Some(at) if beside => Ok(Piece::Standing(at)),
        Some(at) => Ok(Piece::Expanded(at)),
        None => Ok(Piece::Plain(token.copy(alloc)?)),
    }
}

/// The pieces of a body with these parameters.
///
/// # Errors
///
/// NoMemory where memory for them is refused.
pub fn pieces(alloc: Global, params: &[Name], body: &[PpTok]) -> Result<Items<Piece>, NoMemory>
    ensures { IfOk result (λ found. found ≡ spec.pieces params.now None false body.now) }
{
    let mut found = Items::new(alloc);
    let mut pasted = false;
    let mut rest = body;
    while let Some((token, behind)) = rest.split_first() {
        if let Some((at, after)) = spelled_param(params, token, behind) {
            found.push(Piece::Spelled(token.copy(alloc)?, at))?;
            pasted = false;
            rest = after;
            continue;
        }
        found.push(plain_piece(alloc, params, token, pasted || paste_first(behind))?)?;
        pasted = is_paste(token);
        rest = behind;
    }
    Ok(found)
}

/// The pieces as a stack whose top is the first of them.
///
/// # Errors
///
/// NoMemory where memory for them is refused.
pub fn stack_of(alloc: Global, mut pieces: Items<Piece>) -> Result<Items<Piece>, NoMemory>
    ensures { IfOk result (λ stack. reverse stack ≡ pieces) }
{
    let mut stack = Items::new(alloc);
    while let Some(piece) = pieces.pop() {
        stack.push(piece)?;
    }
    Ok(stack)
}

/// Whether a body asks for the argument of this number expanded.
pub fn wants(at: usize, pieces: &[Piece]) -> bool
    ensures { result ≡ spec.wants at pieces.now }
{
    pieces.iter().any(|piece| matches!(piece, Piece::Expanded(other) if at == *other))
}
