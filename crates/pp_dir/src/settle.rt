//! `defined` in conditions.
ghost use Rattle.std.specs.Prelude.{◌≡◌, ◌≤◌, IfOk, IfSome, length, option_map};
ghost use Rattle.pp_dir.specs.Forms as spec;
ghost use Rattle.pp_dir.specs.Shown.{asked_shown};

use crate::words::{is_defined, is_ident};
use pp_macro::MacroTable;
use pp_macro::tokens::{is_mark, made};
use pp_tok::token::{PpKind, PpTok};
use qv_base::NoMemory;
use sqlite_items::Items;
use std::alloc::Global;

/// What `defined` asks for.
#[derive(Clone, Copy)]
struct Asked<'t> {
    name: &'t [u8],
    /// How many tokens behind `defined` belong to it.
    taken: usize,
}

// What is asked for behind `defined` and a parenthesis.
fn asked_within(toks: &[PpTok]) -> Option<Asked<'_>>
    ensures { option_map asked_shown result ≡ spec.asked_within toks.now }
{
    match toks {
        [tok, close, ..] if is_ident(tok) && is_mark(close, b")") => Some(Asked {
            name: tok.spelling.bytes(),
            taken: 3,
        }),
        _ => None,
    }
}

fn asked_behind(toks: &[PpTok]) -> Option<Asked<'_>>
    ensures { option_map asked_shown result ≡ spec.asked_behind toks.now }
{
    let (tok, rest) = toks.split_first()?;
    if is_ident(tok) {
        return Some(Asked {
            name: tok.spelling.bytes(),
            taken: 1,
        });
    }
    if is_mark(tok, b"(") {
        return asked_within(rest);
    }
    None
}

// What the token asks for, with those behind it.
fn asked_by<'t>(tok: &PpTok, rest: &'t [PpTok]) -> Option<Asked<'t>>
    ensures { option_map asked_shown result ≡ spec.asked tok.now rest.now }
{
    if is_ident(tok) && tok.spelling.bytes() == b"defined".as_slice() {
        asked_behind(rest)
    } else {
        None
    }
}

fn digit(defined: bool) -> &'static [u8]
    ensures { result.now ≡ spec.digit defined }
{
    if defined { b"1" } else { b"0" }
}

/// The tokens with `defined x` and `defined(x)` as 1 or 0.
///
/// # Errors
///
/// NoMemory where memory for the tokens is refused.
#[tactic(auto, unfolding(crate::specs::Forms::settled_behind))]
pub fn settled(alloc: Global, table: &MacroTable, toks: &[PpTok]) -> Result<Items<PpTok>, NoMemory>
    ensures { IfOk result (λ ts. ts ≡ spec.settled table.now toks.now) }
{
    let mut all = Items::new(alloc);
    let mut rest = toks;
    let mut taken = 0usize;
    while let Some((tok, more)) = rest.split_first() {
        rest = more;
        if taken > 0 {
            taken -= 1;
            continue;
        }
        match asked_by(tok, more) {
            Some(asked) => {
                let spelling = digit(is_defined(table, asked.name));
                all.push(made(alloc, PpKind::Number, spelling, tok)?)?;
                taken = asked.taken;
            }
            None => all.push(tok.copy(alloc)?)?,
        }
    }
    Ok(all)
}
