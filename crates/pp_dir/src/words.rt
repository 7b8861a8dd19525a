//! The words and names of directives.
ghost use Rattle.std.specs.Prelude.{◌≡◌, IfOk, find, map};
ghost use Rattle.std.specs.Option.{option_copied};
ghost use Rattle.pp_macro.specs.Tokens.{is_among, is_ident};
ghost use Rattle.pp_dir.specs.Forms as spec;
ghost use Rattle.pp_dir.specs.Reading.{named_in};
ghost use Rattle.pp_dir.specs.Shown.{named_op, name_of};

use crate::directive::Directive;
use crate::operator::named_in;
use pp_macro::MacroTable;
use pp_tok::token::{PpKind, PpTok};
use qv_base::NoMemory;
use qv_base::name::Name;
use std::alloc::Global;

static DIRECTIVES: [(&str, Directive); 12] = [
    ("define", Directive::Define),
    ("undef", Directive::Undef),
    ("include", Directive::Include),
    ("if", Directive::If),
    ("ifdef", Directive::Ifdef),
    ("ifndef", Directive::Ifndef),
    ("elif", Directive::Elif),
    ("else", Directive::Else),
    ("endif", Directive::Endif),
    ("error", Directive::Error),
    ("pragma", Directive::Pragma),
    ("line", Directive::Line),
];

// Names that can't be defined or undefined, and count as defined.
static RESERVED: [&str; 4] = ["defined", "__STDC__", "__FILE__", "__LINE__"];

// The names of the day and the hour.
static DATES: [&str; 2] = ["__DATE__", "__TIME__"];

fn directives() -> &'static [(&'static str, Directive)]
    ensures { map named_op result.now ≡ spec.directives }
{
    &DIRECTIVES
}

fn reserved() -> &'static [&'static str]
    ensures { map name_of result.now ≡ spec.reserved }
{
    &RESERVED
}

fn dates() -> &'static [&'static str]
    ensures { map name_of result.now ≡ spec.dates }
{
    &DATES
}

/// Whether the token is a name.
pub fn is_ident(tok: &PpTok) -> bool
    ensures { result ≡ is_ident tok.now.kind }
{
    tok.kind == PpKind::Ident
}

/// What the tokens behind a `#` say.
pub fn directive_of(toks: &[PpTok]) -> Directive
    ensures { result ≡ spec.directive_of toks.now }
{
    match toks.first() {
        None => Directive::Nothing,
        Some(tok) if is_ident(tok) => {
            named_in(directives(), tok.spelling.bytes()).unwrap_or(Directive::Unknown)
        }
        Some(_) => Directive::Unknown,
    }
}

fn is_among(name: &[u8], words: &[&str]) -> bool
    ensures { result ≡ is_among name.now (map name_of words.now) }
{
    for word in words {
        if word.as_bytes() == name {
            return true;
        }
    }
    false
}

/// Whether the name can't be defined or undefined.
pub fn is_reserved(name: &[u8]) -> bool
    ensures { result ≡ is_among name.now spec.reserved }
{
    is_among(name, reserved())
}

/// Whether the name counts as defined.
pub fn is_defined(table: &MacroTable, name: &[u8]) -> bool
    ensures { result ≡ spec.is_defined table.now name.now }
{
    is_reserved(name) || table.find(name).is_some()
}

fn is_date(tok: &PpTok) -> bool
    ensures { result ≡ spec.is_date tok.now }
{
    is_ident(tok) && is_among(tok.spelling.bytes(), dates())
}

/// The first name of the day or the hour.
pub fn date_in(toks: &[PpTok]) -> Option<&PpTok>
    ensures { option_copied result ≡ find spec.is_date toks.now }
{
    toks.iter().find(|tok| is_date(tok))
}

/// The name that a directive has alone.
pub fn only_name(toks: &[PpTok]) -> Option<&[u8]>
    ensures { option_copied result ≡ spec.only_name toks.now }
{
    match toks {
        [tok] if is_ident(tok) => Some(tok.spelling.bytes()),
        _ => None,
    }
}

/// The same, where the name may be undefined.
pub fn free_name(toks: &[PpTok]) -> Option<&[u8]>
    ensures { option_copied result ≡ spec.free_name toks.now }
{
    let name = only_name(toks)?;
    if is_reserved(name) { None } else { Some(name) }
}

#[tactic(auto, unfolding(crate::specs::Forms::error_text))]
/// The spellings of tokens, with a space between.
///
/// # Errors
///
/// NoMemory where memory for them is refused.
pub fn error_text(alloc: Global, toks: &[PpTok]) -> Result<Name, NoMemory>
    ensures { IfOk result (λ text. text ≡ spec.error_text toks.now) }
{
    let mut text = Vec::new(alloc);
    let mut rest = toks;
    while let Some((tok, more)) = rest.split_first() {
        text.extend_from_slice(tok.spelling.bytes())?;
        if !more.is_empty() {
            text.push(b' ')?;
        }
        rest = more;
    }
    Ok(Name::from_bytes(alloc, &text)?)
}
