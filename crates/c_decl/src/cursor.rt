//! The tokens that are left, and what is known before them.

ghost use Rattle.std.specs.Prelude.{◌≡◌, ◌≢◌, ◌≤◌, Some, None, Ok, true, false, length, drop, Option};
ghost use Rattle.std.specs.Option.{option_copied};
ghost use Rattle.c_decl.specs.Input as spec;
ghost use Rattle.c_decl.specs.Input.{Reads};
ghost use Rattle.c_decl.specs.State as state;
ghost use Rattle.c_decl.specs.Tokens as tokens;
ghost use Rattle.c_decl.specs.Made.{Made};
ghost use Rattle.c_decl.specs.Cursor.{kept, started};

use crate::fault::Halt;
use crate::marking::{Marked, Marking};
use c_names::{Declared, Names};
use c_tok::mark::Mark;
use c_tok::token::{CTok, CTokKind};
use c_tree::at::At;
use qv_base::name::Name;
use qv_base::place::Place;
use sqlite_items::Items;
use std::alloc::Global;
use std::marker::Model;

/// The tokens that are left of a unit, and what is known before them.
#[derive(Drop)]
pub struct Cursor<'a> {
    rest: &'a [CTok],
    at: usize,
    names: Names,
    marked: Option<Marking>,
}

impl<'a> Model for Cursor<'a> {
    ghost use Rattle.c_decl.specs.Input.{Input};
    ghost use Rattle.c_decl.specs.Cursor.{input_of, Fits};

    ghost Value = { Input };

    ghost view = { input_of };

    ghost invariant = { Fits };
}

#[tactic(auto, unfolding(crate::specs::Tokens::same_mark))]
fn same_mark(a: Mark, b: Mark) -> bool
    ensures value { result ≡ tokens.same_mark a b }
    ensures same { result ≡ true → a ≡ b }
    ensures other { result ≡ false → a ≢ b }
{
    a == b
}

#[tactic(auto, unfolding(crate::specs::Tokens::numbered, crate::specs::Input::head, crate::specs::Input::here, crate::specs::Input::next, crate::specs::Input::left, crate::specs::Input::refusal, crate::specs::Input::sees, crate::specs::Input::after, crate::specs::Input::expect))]
impl<'a> Cursor<'a> {
    /// The tokens from `at` on.
    pub fn new(toks: &'a [CTok], at: usize, names: Names) -> Cursor<'a>
        requires { at ≤ length toks.now }
        ensures { result ≡ started at toks.now names }
    {
        Cursor {
            rest: &toks[at..],
            at,
            names,
            marked: None,
        }
    }

    /// The names that are declared before what is left.
    pub fn into_names(self) -> Names
        ensures { result ≡ self.entry.state.names }
    {
        self.names
    }

    /// What comes next.
    pub fn peek(&self) -> Option<&'a CTokKind>
        ensures { option_copied result ≡ spec.head self.now }
    {
        match self.rest {
            [first, ..] => Some(&first.kind),
            _ => None,
        }
    }

    /// What comes behind it.
    pub fn peek_second(&self) -> Option<&'a CTokKind>
        ensures { option_copied result ≡ spec.head (spec.next self.now) }
    {
        match self.rest {
            [_, second, ..] => Some(&second.kind),
            _ => None,
        }
    }

    /// How many tokens are left.
    #[tactic(auto, using(crate::proofs::Numbered::numbered_length), unfolding(crate::specs::Input::left))]
    pub fn left(&self) -> usize
        ensures { result ≡ spec.left self.now }
    {
        self.rest.len()
    }

    /// Where the next token stands.
    pub fn here(&self) -> At
        ensures { result ≡ spec.here self.now }
    {
        match self.rest {
            [first, ..] => At {
                place: first.place,
                number: self.at,
            },
            _ => At {
                place: Place { file: 0, line: 1 },
                number: 0,
            },
        }
    }

    /// The tokens go wrong here.
    pub fn refuse(&self) -> Halt
        ensures { result ≡ spec.refusal self.now }
    {
        Halt::Syntax(self.left())
    }

    /// Goes behind the next token.
    pub fn skip(&mut self)
        ensures { self.new ≡ spec.next self.old }
    {
        if let Some((_, rest)) = self.rest.split_first() {
            self.rest = rest;
            self.at += 1;
        }
    }

    /// Whether this mark comes next.
    pub fn sees(&self, mark: Mark) -> bool
        ensures { result ≡ spec.sees mark self.now }
    {
        match self.peek() {
            Some(CTokKind::Mark(found)) => same_mark(*found, mark),
            _ => false,
        }
    }

    /// Whether this mark comes behind the next token.
    pub fn sees_second(&self, mark: Mark) -> bool
        ensures { result ≡ spec.sees mark (spec.next self.now) }
    {
        match self.peek_second() {
            Some(CTokKind::Mark(found)) => same_mark(*found, mark),
            _ => false,
        }
    }

    /// Takes the mark, if it comes next.
    pub fn eat(&mut self, mark: Mark) -> bool
        ensures found { result ≡ spec.sees mark self.old }
        ensures after { self.new ≡ spec.after mark self.old }
    {
        let found = self.sees(mark);
        if found {
            self.skip();
        }
        found
    }

    /// Takes the mark.
    ///
    /// # Errors
    ///
    /// Where another token comes next.
    pub fn expect(&mut self, mark: Mark) -> Result<(), Halt>
        ensures { Reads (spec.expect mark self.old) result self.new }
    {
        if self.eat(mark) {
            Ok(())
        } else {
            Err(self.refuse())
        }
    }

    /// Takes the name that comes next.
    ///
    /// # Errors
    ///
    /// Where another token comes next, and where memory for a copy is refused.
    pub fn a_name(&mut self, alloc: Global) -> Result<Name, Halt>
        ensures { Reads (spec.a_name (spec.head self.old) self.old) result self.new }
    {
        let Some(CTokKind::Ident(name)) = self.peek() else {
            return Err(self.refuse());
        };
        self.skip();
        Ok(Name::from_bytes(alloc, name.bytes())?)
    }
}

#[tactic(auto, unfolding(crate::specs::State::is_type, crate::specs::State::declare, crate::specs::State::enter, crate::specs::State::leave_out, crate::specs::State::leave_out_all))]
impl<'a> Cursor<'a> {
    /// Whether a name is a typedef name here.
    pub fn is_type(&self, name: &Name) -> bool
        ensures { result ≡ state.is_type self.now.state name.now }
    {
        self.names.is_typedef_name(name.bytes())
    }

    /// Declares a name.
    ///
    /// # Errors
    ///
    /// Where memory is refused.
    pub fn declare(&mut self, name: &Name, is_typedef: bool) -> Result<(), Halt>
        ensures { Reads (spec.change (state.declare name.now is_typedef) self.old) result self.new }
    {
        self.names.declare(name.bytes(), is_typedef)?;
        Ok(())
    }

    /// Declares what a declarator names, if it has a name.
    ///
    /// # Errors
    ///
    /// Where memory is refused.
    pub fn declares(&mut self, name: &Option<Name>, is_typedef: bool) -> Result<(), Halt>
        ensures { Reads (spec.change (state.declares name.now is_typedef) self.old) result self.new }
    {
        match name {
            Some(name) => self.declare(name, is_typedef),
            None => Ok(()),
        }
    }

    /// Declares the parameters of a function, for its body.
    ///
    /// # Errors
    ///
    /// Where memory is refused.
    pub fn enter(&mut self, params: &Option<Items<Declared>>) -> Result<(), Halt>
        ensures { Reads (spec.change (state.enter params.now) self.old) result self.new }
    {
        if let Some(params) = params {
            self.names.declare_all(params.as_slice())?;
        }
        Ok(())
    }

    /// How many declarations there are.
    pub fn declared(&self) -> usize
        ensures { result ≡ length self.now.state.names }
    {
        self.names.len()
    }

    /// Declarations beyond the first `count` are gone.
    pub fn leave(&mut self, count: usize)
        ensures { self.new ≡ kept count self.old }
    {
        self.names.truncate(count);
    }

    /// The declarations so far.
    ///
    /// # Errors
    ///
    /// Where memory is refused.
    pub fn names(&self) -> Result<Items<Declared>, Halt>
        ensures { Made self.now.state.names result }
    {
        Ok(self.names.since(0)?)
    }

    /// The declarations beyond the first `count`.
    ///
    /// # Errors
    ///
    /// Where memory is refused.
    pub fn declared_since(&self, count: usize) -> Result<Items<Declared>, Halt>
        ensures { Made (drop count self.now.state.names) result }
    {
        Ok(self.names.since(count)?)
    }

    /// A construct is left out: the one that begins first counts.
    pub fn leave_out(&mut self, kind: Marked, at: At)
        ensures { spec.change (state.leave_out kind at) self.old ≡ Ok (tt, self.new) }
    {
        let marking = Marking { at, kind };
        match self.marked {
            Some(old) if at.number >= old.at.number => {}
            _ => self.marked = Some(marking),
        }
    }

    /// A construct is left out that is met at its first token.
    pub fn leave_out_all(&mut self, kind: Marked, at: At)
        ensures { spec.change (state.leave_out_all kind at) self.old ≡ Ok (tt, self.new) }
    {
        let marking = Marking { at, kind };
        match self.marked {
            Some(old) if at.number > old.at.number => {}
            _ => self.marked = Some(marking),
        }
    }

    /// A construct is left out, where it is one.
    pub fn leave_out_if(&mut self, is: bool, kind: Marked, at: At)
        ensures { spec.change (state.leave_out_if is kind at) self.old ≡ Ok (tt, self.new) }
    {
        if is {
            self.leave_out(kind, at);
        }
    }

    /// The construct that is left out and counts.
    pub fn marked(&self) -> Option<Marking>
        ensures { result ≡ self.now.state.marked }
    {
        self.marked
    }
}
