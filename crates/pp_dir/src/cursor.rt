//! A place in a list of tokens.
ghost use Rattle.std.specs.Prelude.{◌≡◌, List};
ghost use Rattle.pp_dir.specs.Reading as spec;
ghost use Rattle.pp_dir.specs.Worth.{Eats, Ends, Takes};

use crate::operator::{BinaryOp, binary_op, rank};
use pp_macro::tokens::is_mark;
use pp_tok::token::PpTok;
use std::marker::Model;

/// The tokens that are left.
#[derive(Drop)]
pub struct Cursor<'t> {
    rest: &'t [PpTok],
}

impl<'t> Model for Cursor<'t> {
    ghost use Rattle.std.specs.Prelude.{List};
    ghost use Rattle.pp_tok.specs.declared.token.PpTok.{PpTok};

    ghost Value = { List PpTok };

    ghost view = { λ c. c.rest.now };
}

impl<'t> Cursor<'t> {
    /// The place before the first token.
    pub fn new(toks: &'t [PpTok]) -> Cursor<'t>
        ensures { result ≡ toks.now }
    {
        Cursor { rest: toks }
    }

    /// Whether no token is left.
    pub fn is_at_end(&self) -> bool
        ensures { Ends result self.now }
    {
        self.rest.is_empty()
    }

    /// Takes the next token.
    pub fn take(&mut self) -> Option<&'t PpTok>
        ensures { Takes result self.old self.new }
    {
        let (tok, rest) = self.rest.split_first()?;
        self.rest = rest;
        Some(tok)
    }

    /// Passes this punctuator, where it comes next.
    pub fn eat(&mut self, text: &[u8]) -> bool
        ensures { Eats (spec.behind text.now self.old) result self.old self.new }
    {
        match self.rest.split_first() {
            Some((tok, rest)) if is_mark(tok, text) => {
                self.rest = rest;
                true
            }
            _ => false,
        }
    }

    /// The operator of this rank that comes next.
    pub fn ranked_op(&self, wanted: usize) -> Option<BinaryOp>
        ensures { result ≡ spec.ranked_op wanted self.now }
    {
        let op = binary_op(self.rest.first()?)?;
        if rank(op) == wanted { Some(op) } else { None }
    }

    /// Passes the next token, if there is one.
    pub fn skip(&mut self)
        ensures { self.new ≡ spec.tail_of self.old }
    {
        if let Some((_, rest)) = self.rest.split_first() {
            self.rest = rest;
        }
    }
}
