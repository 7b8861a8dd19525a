//! Macros.
ghost use Rattle.std.specs.Prelude.{◌≡◌};
ghost use Rattle.pp_macro.specs.Macros as spec;

use pp_tok::token::PpTok;
use qv_base::name::Name;
use sqlite_items::Items;

/// A macro.
#[derive(Debug, Drop)]
pub struct Macro {
    /// Its name.
    pub name: Name,
    /// Its parameters, where it is function-like.
    pub params: Option<Items<Name>>,
    /// The tokens that it stands for.
    pub body: Items<PpTok>,
}

impl Macro {
    /// Whether it may be defined again as the other one: the same parameters, spellings and places of
    /// blanks in the body (ANSI C X3.159-1989, 3.8.3).
    pub fn is_same(&self, other: &Macro) -> bool
        ensures { result ≡ spec.same_macro self.now other.now }
    {
        have_same_params(&self.params, &other.params)
            && have_same_body(self.body.as_slice(), other.body.as_slice())
    }
}

fn have_same_params(params: &Option<Items<Name>>, others: &Option<Items<Name>>) -> bool
    ensures { result ≡ spec.same_params params.now others.now }
{
    match (params, others) {
        (None, None) => true,
        (Some(params), Some(others)) => have_same_names(params.as_slice(), others.as_slice()),
        _ => false,
    }
}

fn have_same_names(names: &[Name], others: &[Name]) -> bool
    ensures { result ≡ spec.same_names names.now others.now }
{
    let (mut names, mut others) = (names, others);
    while let Some((name, more)) = names.split_first() {
        let Some((other, other_more)) = others.split_first() else {
            return false;
        };
        if name.bytes() != other.bytes() {
            return false;
        }
        names = more;
        others = other_more;
    }
    others.is_empty()
}

// The blank before the first token doesn't count.
fn have_same_body(body: &[PpTok], other: &[PpTok]) -> bool
    ensures { result ≡ spec.same_body body.now other.now }
{
    let Some((first, more)) = body.split_first() else {
        return other.is_empty();
    };
    let Some((other_first, other_more)) = other.split_first() else {
        return false;
    };
    first.spelling.bytes() == other_first.spelling.bytes() && have_same_tail(more, other_more)
}

fn have_same_tail(toks: &[PpTok], others: &[PpTok]) -> bool
    ensures { result ≡ spec.same_tail toks.now others.now }
{
    let (mut toks, mut others) = (toks, others);
    while let Some((tok, more)) = toks.split_first() {
        let Some((other, other_more)) = others.split_first() else {
            return false;
        };
        if !is_same_token(tok, other) {
            return false;
        }
        toks = more;
        others = other_more;
    }
    others.is_empty()
}

fn is_same_token(tok: &PpTok, other: &PpTok) -> bool
    ensures { result ≡ spec.same_token tok.now other.now }
{
    tok.spelling.bytes() == other.spelling.bytes() && tok.space == other.space
}
