//! C tokens.
ghost use Rattle.std.specs.Prelude.{◌≡◌, [], ◌∷◌, ◌++◌, Err, OnOk};
ghost use Rattle.pp_tok.specs.declared.token.PpKind.TheVariants as PpKind;
ghost use Rattle.pp_tok.specs.Chars.{starts_with};
ghost use Rattle.c_tok.specs.declared.token.CTokKind.TheVariants as CTokKind;
ghost use Rattle.c_tok.specs.Marks.{keywords, spelled_in};
ghost use Rattle.c_tok.specs.Results.{Answers};
ghost use Rattle.c_tok.specs.Tokens as spec;
ghost use Rattle.c_tok.specs.Joining.{with_token};

use crate::fault::TokFault;
use crate::mark::{keyword, punctuator};
use crate::number::number_constant;
use crate::text::{character_constant, string_bytes};
use crate::token::{CTok, CTokKind};
use pp_tok::token::{PpKind, PpTok};
use qv_base::name::Name;
use qv_base::place::Place;
use sqlite_items::Items;
use std::alloc::{AllocError, Global};

const NAME_BYTES: usize = 127;

fn name_or_keyword(alloc: Global, place: Place, spelling: &[u8]) -> Result<CTokKind, TokFault>
    ensures { Answers (spec.name_or_keyword place spelling.now (spelled_in keywords spelling.now)) result }
{
    if let Some(mark) = keyword(spelling) {
        return Ok(CTokKind::Mark(mark));
    }
    if spelling.len() > NAME_BYTES {
        return Err(TokFault::NameTooLong(place));
    }
    let name = Name::from_bytes(alloc, spelling)?;
    Ok(CTokKind::Ident(name))
}

fn number(place: Place, spelling: &[u8]) -> Result<CTokKind, TokFault>
    ensures { result ≡ spec.kind_by PpKind.Number place spelling.now }
{
    match number_constant(place, spelling) {
        Ok(constant) => Ok(CTokKind::Constant(constant)),
        Err(fault) => Err(fault),
    }
}

fn character(place: Place, spelling: &[u8]) -> Result<CTokKind, TokFault>
    ensures { result ≡ spec.kind_by PpKind.Char place spelling.now }
{
    match character_constant(place, spelling) {
        Ok(constant) => Ok(CTokKind::Constant(constant)),
        Err(fault) => Err(fault),
    }
}

fn string(alloc: Global, place: Place, spelling: &[u8]) -> Result<CTokKind, TokFault>
    ensures { Answers (spec.kind_by PpKind.Text place spelling.now) result }
{
    match string_bytes(alloc, place, spelling) {
        Ok(bytes) => Ok(CTokKind::Text(bytes)),
        Err(fault) => Err(fault),
    }
}

fn begins_with_quote(spelling: &[u8]) -> bool
    ensures { result ≡ spec.begins_with_quote spelling.now }
{
    matches!(spelling, [b'"' | b'\'', ..])
}

fn punctuator_kind(place: Place, spelling: &[u8]) -> Result<CTokKind, TokFault>
    ensures { result ≡ spec.kind_by PpKind.Punct place spelling.now }
{
    match punctuator(spelling) {
        Some(mark) => Ok(CTokKind::Mark(mark)),
        None => Err(TokFault::StrayByte(place)),
    }
}

fn stray(place: Place, spelling: &[u8]) -> TokFault
    ensures { Err result ≡ spec.kind_by PpKind.Byte place spelling.now }
{
    if begins_with_quote(spelling) {
        TokFault::OpenQuote(place)
    } else {
        TokFault::StrayByte(place)
    }
}

#[tactic(auto, unfolding(crate::specs::Tokens::kind_of))]
fn kind_of(alloc: Global, tok: &PpTok) -> Result<CTokKind, TokFault>
    ensures { Answers (spec.kind_of tok.now) result }
{
    let spelling = tok.spelling.bytes();
    match tok.kind {
        PpKind::Ident => name_or_keyword(alloc, tok.place, spelling),
        PpKind::Number => number(tok.place, spelling),
        PpKind::Char => character(tok.place, spelling),
        PpKind::Text => string(alloc, tok.place, spelling),
        PpKind::Punct => punctuator_kind(tok.place, spelling),
        PpKind::Header => Err(TokFault::StrayByte(tok.place)),
        PpKind::Byte => Err(stray(tok.place, spelling)),
    }
}

// Adds a token and a string behind others: as one, where both are strings.
fn push_both(
    tokens: &mut Items<CTok>,
    last: CTok,
    text: Items<u8>,
    place: Place,
) -> Result<(), AllocError>
    ensures { OnOk result (tokens.new ≡ tokens.old ++ spec.onto last (record { kind = CTokKind.Text text; place = place } ∷ [])) }
{
    let CTok { kind, place: first } = last;
    match kind {
        CTokKind::Text(before) => {
            let mut both = before;
            both.append(text)?;
            tokens.push(CTok {
                kind: CTokKind::Text(both),
                place: first,
            })
        }
        kind => {
            tokens.push(CTok { kind, place: first })?;
            tokens.push(CTok {
                kind: CTokKind::Text(text),
                place,
            })
        }
    }
}

// Adds a string behind tokens: to the last one, where it is a string.
#[tactic(auto, using(crate::proofs::Joins::with_last))]
fn add_text(tokens: &mut Items<CTok>, text: Items<u8>, place: Place) -> Result<(), AllocError>
    ensures { OnOk result (tokens.new ≡ with_token tokens.old (record { kind = CTokKind.Text text; place = place })) }
{
    match tokens.pop() {
        Some(last) => push_both(tokens, last, text, place),
        None => tokens.push(CTok {
            kind: CTokKind::Text(text),
            place,
        }),
    }
}

// Adds a token behind others.
#[tactic(auto, using(crate::proofs::Joins::with_plain))]
fn add(tokens: &mut Items<CTok>, kind: CTokKind, place: Place) -> Result<(), AllocError>
    ensures { OnOk result (tokens.new ≡ with_token tokens.old (record { kind = kind; place = place })) }
{
    match kind {
        CTokKind::Text(text) => add_text(tokens, text, place),
        kind => tokens.push(CTok { kind, place }),
    }
}

/// The C tokens of a preprocessed unit's tokens (ANSI C X3.159-1989, 3.1).
///
/// Names are keywords or identifiers. Numbers and character constants have a value and a type;
/// strings are the bytes that their characters stand for, and adjacent ones are one, at the place of
/// the first.
///
/// # Errors
///
/// The first token that is wrong, with its place: StrayByte for a byte that belongs to no token of
/// C, OpenQuote for a quote without its end, LeftOut for a wide character constant or string,
/// BadConstant for a number of no form, an escape that is none or above 255, and a character
/// constant that hasn't one character, FloatConstant for a floating constant, ConstantTooLarge for a
/// number of more than 32 bits, NameTooLong for an identifier of more than 127 bytes. NoMemory where
/// memory is refused.
#[tactic(auto, unfolding(crate::specs::Tokens::c_tokens))]
pub fn c_tokens(alloc: Global, toks: &[PpTok]) -> Result<Items<CTok>, TokFault>
    ensures { Answers (spec.c_tokens toks.now) result }
{
    let mut tokens = Items::new(alloc);
    for tok in toks {
        let kind = kind_of(alloc, tok)?;
        add(&mut tokens, kind, tok.place)?;
    }
    Ok(tokens)
}
