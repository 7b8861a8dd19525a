// Reads a unit of the first form.
ghost use Rattle.std.specs.Prelude.{◌≡◌, ◌∷◌, [], IfOk, MatchOption, option_map, None};
ghost use Rattle.qcc_front.specs.FirstForm.{number_of, term_of, sign_of, rest_of, behind, header, header_end, spellings, closed};

use crate::sum::{Sign, SignedTerm, Term};
use crate::unit::{MOST_TERMS, Unit};
use pp_tok::token::PpTok;
use qv_base::NoMemory;
use qv_base::decimal::decimal_up_to;
use std::alloc::Global;

const INT_MAX: u64 = 2_147_483_647;

impl Unit {
    ghost use Rattle.qcc_front.specs.FirstForm.{unit_of};
    ghost use Rattle.qcc_front.specs.Unit.{sum_of};

    /// The unit that tokens are. None exactly where they aren't of the first form.
    ///
    /// # Errors
    ///
    /// NoMemory where memory for the terms is refused.
    #[tactic(auto, unfolding(crate::specs::FirstForm::unit_of))]
    pub fn parse(alloc: Global, toks: &[PpTok]) -> Result<Option<Unit>, NoMemory>
        ensures unit { IfOk result (λ unit. option_map sum_of unit ≡ unit_of (spellings toks.now)) }
    {
        let Some(toks) = function_body(toks) else {
            return Ok(None);
        };
        let Some((word, toks)) = toks.split_first() else {
            return Ok(None);
        };
        let Some(first) = term(word.spelling.bytes()) else {
            return Ok(None);
        };
        let Some(rest) = signed_terms(alloc, toks)? else {
            return Ok(None);
        };
        if rest.len() >= MOST_TERMS {
            return Ok(None);
        }
        Ok(Some(Unit { first, rest }))
    }
}

// The tokens behind `int vmMain(int command) { return`.
fn function_body(toks: &[PpTok]) -> Option<&[PpTok]>
    ensures { MatchOption result (behind header (spellings toks.now) ≡ None) (λ rest. behind header (spellings toks.now) ≡ Some (spellings rest.now)) }
{
    let toks = parameter(toks)?;
    let toks = expect(toks, b"command")?;
    let toks = expect(toks, b")")?;
    let toks = expect(toks, b"{")?;
    expect(toks, b"return")
}

// The tokens behind `int vmMain(int`.
fn parameter(toks: &[PpTok]) -> Option<&[PpTok]>
    ensures { MatchOption result (behind header (spellings toks.now) ≡ None) (λ rest. behind header (spellings toks.now) ≡ behind header_end (spellings rest.now)) }
{
    let toks = expect(toks, b"int")?;
    let toks = expect(toks, b"vmMain")?;
    let toks = expect(toks, b"(")?;
    expect(toks, b"int")
}

// The tokens behind this one.
fn expect<'a>(toks: &'a [PpTok], word: &[u8]) -> Option<&'a [PpTok]>
    ensures { MatchOption result (behind (word.now ∷ []) (spellings toks.now) ≡ None) (λ rest. spellings toks.now ≡ word.now ∷ spellings rest.now) }
{
    let (first, rest) = toks.split_first()?;
    if first.spelling.bytes() == word {
        Some(rest)
    } else {
        None
    }
}

// The signs and terms behind the first term, to the unit's end.
fn signed_terms(alloc: Global, toks: &[PpTok]) -> Result<Option<Vec<SignedTerm>>, NoMemory>
    ensures { IfOk result (λ r. option_map (λ terms. terms.items) r ≡ rest_of (spellings toks.now)) }
{
    let mut terms = Vec::new(alloc);
    let mut toks = toks;
    loop {
        let Some((first, rest)) = toks.split_first() else {
            return Ok(None);
        };
        let Some((second, rest)) = rest.split_first() else {
            return Ok(None);
        };
        if first.spelling.bytes() == b";".as_slice() {
            let closed = second.spelling.bytes() == b"}".as_slice() && rest.is_empty();
            return Ok(if closed { Some(terms) } else { None });
        }
        let Some(sign) = sign(first.spelling.bytes()) else {
            return Ok(None);
        };
        let Some(term) = term(second.spelling.bytes()) else {
            return Ok(None);
        };
        terms.push(SignedTerm { sign, term })?;
        toks = rest;
    }
}

fn term(token: &[u8]) -> Option<Term>
    ensures { result ≡ term_of token.now }
{
    if token == b"command".as_slice() {
        return Some(Term::Command);
    }
    number(token).map(Term::Number)
}

fn sign(token: &[u8]) -> Option<Sign>
    ensures { result ≡ sign_of token.now }
{
    if token == b"+".as_slice() {
        return Some(Sign::Plus);
    }
    if token == b"-".as_slice() {
        return Some(Sign::Minus);
    }
    None
}

// A decimal constant of int.
fn number(token: &[u8]) -> Option<u32>
    ensures { result ≡ number_of token.now }
{
    if token.len() > 1 && token[0] == b'0' {
        return None;
    }
    let value = decimal_up_to(INT_MAX, token)?;
    Some(value as u32)
}
