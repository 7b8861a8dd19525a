//! What the parser looks at.

ghost use Rattle.std.specs.Prelude.{◌≡◌, Some, None, true, false};
ghost use Rattle.c_decl.specs.Entries as spec;
ghost use Rattle.c_decl.specs.Input.{next};

use crate::cursor::Cursor;
use crate::kind::{DeclKind, is_abstract};
use crate::marks;
use c_tok::mark::Mark;
use c_tok::token::CTokKind;

#[tactic(auto, unfolding(crate::specs::Entries::spec_comes, crate::specs::Entries::word_comes, crate::specs::Entries::goes_on, crate::specs::Entries::opens_type, crate::specs::Entries::comma_before, crate::specs::Entries::passes, crate::specs::Entries::direct_comes, crate::specs::Entries::declarator_comes, crate::specs::Entries::opens_params, crate::specs::Entries::suffix_comes, crate::specs::Entries::pointer_comes, crate::specs::Entries::label_comes, crate::specs::Entries::body_comes, crate::specs::Input::next))]
impl Cursor<'_> {
    /// Whether a token is a word of specifiers; `typed`: behind a type.
    fn is_word(&self, typed: bool, kind: &CTokKind) -> bool
        ensures { result ≡ spec.word_at self.now.state typed (Some kind.now) }
    {
        match kind {
            CTokKind::Mark(mark) => marks::is_word(*mark),
            CTokKind::Ident(name) => !typed && self.is_type(name),
            _ => false,
        }
    }

    /// Whether a word of specifiers comes next; `typed`: behind a type.
    pub fn spec_comes(&self, typed: bool) -> bool
        ensures { result ≡ spec.spec_comes typed self.now }
    {
        match self.peek() {
            Some(kind) => self.is_word(typed, kind),
            None => false,
        }
    }

    /// Whether a word of specifiers comes next.
    pub fn word_comes(&self) -> bool
        ensures { result ≡ spec.word_comes self.now }
    {
        self.spec_comes(false)
    }

    /// Whether a word of specifiers comes behind the next token.
    pub fn word_second(&self) -> bool
        ensures { result ≡ spec.word_comes (next self.now) }
    {
        match self.peek_second() {
            Some(kind) => self.is_word(false, kind),
            None => false,
        }
    }

    /// Whether an operator comes next that binds at least so tightly.
    pub fn goes_on(&self, least: u8) -> bool
        ensures { result ≡ spec.goes_on least self.now }
    {
        self.tight() >= least
    }

    /// Whether a parenthesis and a type name come next.
    pub fn opens_type(&self) -> bool
        ensures { result ≡ spec.opens_type self.now }
    {
        self.sees(Mark::OpenParen) && self.word_second()
    }

    /// Whether a comma comes next, and behind it not the mark.
    pub fn comma_before(&self, stop: Mark) -> bool
        ensures { result ≡ spec.comma_before stop self.now }
    {
        self.sees(Mark::Comma) && !self.sees_second(stop)
    }

    /// Whether a span goes on here.
    pub fn passes(&self, inside: bool) -> bool
        ensures { result ≡ spec.passes inside self.now }
    {
        match self.peek() {
            Some(CTokKind::Mark(mark)) => {
                marks::passable(inside, *mark) || marks::closer(*mark).is_some()
            }
            Some(_) => true,
            None => false,
        }
    }

    /// Whether a direct declarator of a kind that may have no name comes next.
    pub fn direct_comes(&self, kind: DeclKind, typed: bool) -> bool
        ensures { result ≡ spec.direct_comes kind typed self.now }
    {
        match self.peek() {
            Some(CTokKind::Ident(name)) => { !is_abstract(kind) && (typed || !self.is_type(name)) }
            Some(CTokKind::Mark(Mark::OpenParen | Mark::OpenBracket)) => true,
            _ => false,
        }
    }

    /// Whether a declarator of a kind that may have no name comes next.
    pub fn declarator_comes(&self, kind: DeclKind, typed: bool) -> bool
        ensures { result ≡ spec.declarator_comes kind typed self.now }
    {
        self.sees(Mark::Star) || self.direct_comes(kind, typed)
    }

    /// Whether a list of parameters comes behind the next token.
    pub fn opens_params(&self) -> bool
        ensures { result ≡ spec.opens_params self.now }
    {
        self.word_second() || self.sees_second(Mark::CloseParen)
    }

    /// Whether a size or a list of parameters comes next.
    pub fn suffix_comes(&self) -> bool
        ensures { result ≡ spec.suffix_comes self.now }
    {
        self.sees(Mark::OpenBracket) || self.sees(Mark::OpenParen)
    }

    /// Whether a word of a pointer comes next.
    pub fn pointer_comes(&self) -> bool
        ensures { result ≡ spec.pointer_comes self.now }
    {
        self.pointer().is_some()
    }

    /// Whether a label comes next.
    pub fn label_comes(&self) -> bool
        ensures { result ≡ spec.label_comes self.now }
    {
        match self.peek() {
            Some(CTokKind::Ident(name)) => self.is_type(name) || self.sees_second(Mark::Colon),
            _ => false,
        }
    }

    /// Whether the block goes on.
    pub fn body_comes(&self) -> bool
        ensures { result ≡ spec.body_comes self.now }
    {
        !self.sees(Mark::CloseBrace) && self.left() > 0
    }
}
