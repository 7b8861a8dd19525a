//! The macro that a `#define` defines.
ghost use Rattle.std.specs.Prelude.{◌≡◌, IfOk, is_some, option_map, position, true};
ghost use Rattle.std.specs.Option.{option_copied};
ghost use Rattle.std.specs.Str.{bytes_eq};
ghost use Rattle.pp_macro.specs.Pieces.{param_first};
ghost use Rattle.pp_dir.specs.Forms as spec;
ghost use Rattle.pp_dir.specs.Shown.{params_shown};

use crate::words::{is_ident, is_reserved};
use pp_macro::Macro;
use pp_macro::tokens::{is_among, is_mark};
use pp_tok::token::PpTok;
use qv_base::NoMemory;
use qv_base::name::Name;
use sqlite_items::Items;
use std::alloc::Global;

/// Parameters, and the tokens behind the closing parenthesis.
#[derive(Drop)]
struct Params<'t> {
    names: Items<Name>,
    body: &'t [PpTok],
}

// The parameters behind the opening parenthesis. None where they have another form.
fn params_of<'t>(alloc: Global, toks: &'t [PpTok]) -> Result<Option<Params<'t>>, NoMemory>
    ensures { IfOk result (λ p. option_map params_shown p ≡ spec.params_of toks.now) }
{
    let Some((tok, body)) = toks.split_first() else {
        return Ok(None);
    };
    if is_mark(tok, b")") {
        let names = Items::new(alloc);
        return Ok(Some(Params { names, body }));
    }
    params_from(alloc, toks)
}

// The same, where there is one at least.
#[tactic(auto, using(crate::proofs::Params::with_one_more, crate::proofs::Params::with_none), unfolding(crate::specs::Forms::params_from))]
fn params_from<'t>(alloc: Global, toks: &'t [PpTok]) -> Result<Option<Params<'t>>, NoMemory>
    ensures { IfOk result (λ p. option_map params_shown p ≡ spec.params_from true toks.now) }
{
    let mut names = Items::new(alloc);
    let mut rest = toks;
    let mut due = true;
    while let Some((tok, more)) = rest.split_first() {
        rest = more;
        if due {
            if !is_ident(tok) {
                return Ok(None);
            }
            names.push(Name::from_bytes(alloc, tok.spelling.bytes())?)?;
            due = false;
        } else if is_mark(tok, b")") {
            return Ok(Some(Params { names, body: rest }));
        } else if is_mark(tok, b",") {
            due = true;
        } else {
            return Ok(None);
        }
    }
    Ok(None)
}

// Whether no name stands twice.
#[tactic(auto, unfolding(crate::specs::Forms::are_apart))]
fn are_apart(names: &[Name]) -> bool
    ensures { result ≡ spec.are_apart names.now }
{
    let mut rest = names;
    while let Some((name, more)) = rest.split_first() {
        if is_among(name.bytes(), more) {
            return false;
        }
        rest = more;
    }
    true
}

fn is_paste(tok: Option<&PpTok>) -> bool
    ensures { result ≡ spec.is_paste_in (option_copied tok.entry) }
{
    match tok {
        Some(tok) => is_mark(tok, b"##"),
        None => false,
    }
}

// Whether `##` stands at neither end of a body.
fn is_framed(body: &[PpTok]) -> bool
    ensures { result ≡ spec.is_framed body.now }
{
    !is_paste(body.first()) && !is_paste(body.last())
}

fn place_among(params: &[Name], name: &[u8]) -> Option<usize>
    ensures { result ≡ position (bytes_eq name.now) params.now }
{
    params.iter().position(|param| name == param.bytes())
}

fn begins_with_param(params: &[Name], toks: &[PpTok]) -> bool
    ensures { result ≡ is_some (param_first params.now toks.now) }
{
    match toks.first() {
        Some(tok) => is_ident(tok) && place_among(params, tok.spelling.bytes()).is_some(),
        None => false,
    }
}

// Whether each `#` stands before a parameter.
#[tactic(auto, unfolding(crate::specs::Forms::are_spellings))]
fn are_spellings(params: &[Name], body: &[PpTok]) -> bool
    ensures { result ≡ spec.are_spellings params.now body.now }
{
    let mut rest = body;
    while let Some((tok, more)) = rest.split_first() {
        if is_mark(tok, b"#") && !begins_with_param(params, more) {
            return false;
        }
        rest = more;
    }
    true
}

fn object_macro(alloc: Global, name: &[u8], body: &[PpTok]) -> Result<Option<Macro>, NoMemory>
    ensures { IfOk result (λ m. m ≡ spec.object_macro name.now body.now) }
{
    if !is_framed(body) {
        return Ok(None);
    }
    Ok(Some(Macro {
        name: Name::from_bytes(alloc, name)?,
        params: None,
        body: copy_toks(alloc, body)?,
    }))
}

fn function_macro(alloc: Global, name: &[u8], params: Params<'_>) -> Result<Option<Macro>, NoMemory>
    ensures { IfOk result (λ m. m ≡ spec.function_macro name.now (params_shown params.entry)) }
{
    let Params { names, body } = params;
    if !are_apart(names.as_slice()) || !is_framed(body) || !are_spellings(names.as_slice(), body) {
        return Ok(None);
    }
    Ok(Some(Macro {
        name: Name::from_bytes(alloc, name)?,
        params: Some(names),
        body: copy_toks(alloc, body)?,
    }))
}

// Copies of tokens.
fn copy_toks(alloc: Global, toks: &[PpTok]) -> Result<Items<PpTok>, NoMemory>
    ensures { IfOk result (λ copies. copies ≡ toks.now) }
{
    let mut copies = Items::new(alloc);
    for tok in toks {
        copies.push(tok.copy(alloc)?)?;
    }
    Ok(copies)
}

// The macro of this name, by the tokens behind it.
fn macro_named(alloc: Global, name: &[u8], toks: &[PpTok]) -> Result<Option<Macro>, NoMemory>
    ensures { IfOk result (λ m. m ≡ spec.macro_named name.now toks.now) }
{
    match toks.split_first() {
        Some((tok, rest)) if is_mark(tok, b"(") && !tok.space => match params_of(alloc, rest)? {
            Some(params) => function_macro(alloc, name, params),
            None => Ok(None),
        },
        _ => object_macro(alloc, name, toks),
    }
}

/// The macro that the tokens behind `define` define. None where they have another form.
///
/// # Errors
///
/// NoMemory where memory for the macro is refused.
pub fn macro_of(alloc: Global, toks: &[PpTok]) -> Result<Option<Macro>, NoMemory>
    ensures { IfOk result (λ m. m ≡ spec.macro_of toks.now) }
{
    match toks.split_first() {
        Some((tok, rest)) if is_ident(tok) && !is_reserved(tok.spelling.bytes()) => {
            macro_named(alloc, tok.spelling.bytes(), rest)
        }
        _ => Ok(None),
    }
}
