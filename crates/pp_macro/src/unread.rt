//! The tokens that are still to be read.
ghost use Rattle.std.specs.Prelude.{◌≡◌, ◌∷◌, ◌++◌, [], IfOk, MatchOption, OnOk, length};
ghost use Rattle.pp_macro.specs.Calls as spec;
ghost use Rattle.pp_macro.specs.Expand.{within};

use crate::pending::{Filling, Pending, put_back};
use crate::tokens::is_mark;
use pp_tok::token::PpTok;
use qv_base::NoMemory;
use qv_base::place::Place;
use sqlite_items::Items;
use std::alloc::Global;
use std::marker::Model;

/// The tokens that are still to be read: those that replacements brought, and behind them the rest of
/// a list that is lent, whose tokens are copied one by one when they are taken. Contracts see the list of
/// all of them.
#[derive(Drop)]
pub struct Unread<'t> {
    alloc: Global,
    /// What replacements brought. The next one is the last.
    brought: Items<Pending>,
    /// The tokens behind.
    rest: &'t [PpTok],
    /// The place of the name with which the outermost replacement around the list began.
    outer: Option<Place>,
}

impl<'t> Model for Unread<'t> {
    ghost use Rattle.std.specs.Prelude.{List, ◌++◌, reverse};
    ghost use Rattle.pp_macro.specs.Expand.{within};
    ghost use Rattle.pp_macro.specs.declared.pending.Pending.{Pending};

    ghost Value = { List Pending };

    ghost view = { λ u. reverse u.brought ++ within u.outer u.rest.now };
}

impl<'t> Unread<'t> {
    /// The tokens of a list, which stands within the replacement that began at this place, if there is one.
    pub fn new(alloc: Global, tokens: &'t [PpTok], outer: Option<Place>) -> Unread<'t>
        ensures { result ≡ within outer tokens.now }
    {
        Unread {
            alloc,
            brought: Items::new(alloc),
            rest: tokens,
            outer,
        }
    }

    /// How many there are.
    pub fn len(&self) -> usize
        ensures { result ≡ length self.now }
    {
        self.brought.as_slice().len() + self.rest.len()
    }

    /// Takes the next token.
    ///
    /// # Errors
    ///
    /// NoMemory where memory for it is refused.
    pub fn pop(&mut self) -> Result<Option<Pending>, NoMemory>
        ensures { IfOk result (λ next. MatchOption next ((self.old ≡ []) × (self.new ≡ [])) (λ token. self.old ≡ token ∷ self.new)) }
    {
        if let Some(token) = self.brought.pop() {
            return Ok(Some(token));
        }
        let Some((token, rest)) = self.rest.split_first() else {
            return Ok(None);
        };
        let token = token.copy(self.alloc)?;
        self.rest = rest;
        Ok(Some(Pending {
            token,
            outer: self.outer,
        }))
    }

    /// Whether an opening parenthesis is the next token.
    pub fn opens(&self) -> bool
        ensures { result ≡ spec.opens self.now }
    {
        if let Some(next) = self.brought.as_slice().last() {
            return is_mark(&next.token, b"(");
        }
        match self.rest.first() {
            Some(next) => is_mark(next, b"("),
            None => false,
        }
    }

    /// Passes the next token.
    pub fn skip(&mut self)
        ensures { self.new ≡ spec.tail_of self.old }
    {
        if self.brought.pop().is_some() {
            return;
        }
        if let Some((_, rest)) = self.rest.split_first() {
            self.rest = rest;
        }
    }

    /// Puts what a body brings before them.
    ///
    /// # Errors
    ///
    /// NoMemory where memory for it is refused.
    pub fn put_back(&mut self, place: Place, filling: Filling) -> Result<(), NoMemory>
        ensures { OnOk result (self.new ≡ spec.all_from place filling.names filling.tokens ++ self.old) }
    {
        put_back(self.alloc, &mut self.brought, place, filling)
    }
}
