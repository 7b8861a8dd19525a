//! Specifiers and declarators, read from the midst of a unit's tokens.

ghost use Rattle.std.specs.Prelude.{◌≡◌, ◌≤◌, length};
ghost use Rattle.c_tree.specs.declared.height.Tall.{Tall};
ghost use Rattle.c_decl.specs.Input.{Outcome, Reads};
ghost use Rattle.c_decl.specs.Nests.{Small};
ghost use Rattle.c_decl.specs.Parsed.{place_left};
ghost use Rattle.c_decl.specs.Parts.{ReadsSpecs, ReadsDeclarator};
ghost use Rattle.c_decl.specs.Told.{Tells, place_marked};
ghost use Rattle.c_decl.specs.Tokens.{numbered};
ghost use Rattle.c_decl.specs.Units as units;

use crate::cursor::Cursor;
use crate::fault::{Halt, ParseFault};
use crate::kind::{DeclKind, DeclPart, Mode};
use crate::marking::{Marked, Marking};
use crate::rules::Rules;
use crate::tied::{decl, members, slot};
use c_names::Names;
use c_tok::token::CTok;
use c_tree::declaring::Declaring;
use c_tree::expr::Specs;
use c_tree::height::{Heights, Tall};
use qv_base::place::Place;
use sqlite_items::at;
use std::alloc::Global;
use std::mem;

/// What was read from the midst of tokens.
#[derive(Drop)]
pub struct Read<X> {
    /// What was read.
    pub tree: X,
    /// How many tokens stand before what follows it.
    pub next: usize,
    /// The construct in it that is left out, if there is one: that which begins first.
    pub marked: Option<(Place, Marked)>,
}

/// Constructs of each class nest at most so deep.
const DEPTH: u8 = 200;

/// The room that a unit begins with.
pub fn limits() -> Heights
    ensures value { result ≡ units.limits }
    ensures small { Small result }
{
    Heights {
        expression: DEPTH,
        declarator: DEPTH,
        initializer: DEPTH,
        statement: DEPTH,
        members: DEPTH,
    }
}

/// The place of the token behind which so many are left, it among them; that of the last where none is.
pub fn place_left(toks: &[CTok], left: usize) -> Place
    ensures { result ≡ place_left (numbered 0 toks.now) left }
{
    if let Some(next) = at(toks, toks.len().saturating_sub(left)) {
        return next.place;
    }
    match at(toks, toks.len().saturating_sub(1)) {
        Some(last) => last.place,
        None => Place { file: 0, line: 1 },
    }
}

fn place_marked(marked: Option<Marking>) -> Option<(Place, Marked)>
    ensures { result ≡ place_marked marked }
{
    match marked {
        Some(marking) => Some((marking.at.place, marking.kind)),
        None => None,
    }
}

/// What a read tells; the names are those behind it.
pub fn told<X: Drop>(
    toks: &[CTok],
    cursor: Cursor<'_>,
    outcome: Result<Tall<X>, Halt>,
    names: &mut Names,
) -> Result<Read<X>, ParseFault>
    ensures { (o : Outcome (Tall X)) → Reads o outcome cursor.entry → Tells toks.now o names.new result }
{
    let next = toks.len().saturating_sub(cursor.left());
    let marked = place_marked(cursor.marked());
    *names = cursor.into_names();
    match outcome {
        Ok(found) => Ok(Read {
            tree: found.tree,
            next,
            marked,
        }),
        Err(Halt::Syntax(left)) => Err(ParseFault::Syntax(place_left(toks, left))),
        Err(Halt::NoMemory) => Err(ParseFault::NoMemory),
    }
}

/// Reads specifiers: those that begin at the token `at`, storage classes among them, where `names`
/// are declared. They are the tokens up to `next`, as many as go on with them: no keyword of a
/// specifier comes behind them, and behind a type a typedef name is none.
///
/// Widths, sizes and the values of enumerators are passed over: each is a span of tokens, with the
/// names that are declared before it. Behind the call `names` are those behind the specifiers:
/// enumerators are among them, also where a type name in a span declares them.
///
/// # Errors
///
/// Syntax where the tokens are no specifiers, or nest too deep: at the first token with which
/// specifiers no longer go on as they began, though those before it could still be ended. Where all
/// tokens could be ended it is the last one. A `float` or `double` outside spans is such a token.
/// NoMemory where memory is refused. Nothing is said of the names behind a refusal.
#[tactic(auto, using(crate::proofs::PartsRead::specs_read), unfolding(crate::specs::Reading::read, crate::specs::Cursor::started))]
pub fn read_specs(
    alloc: Global,
    toks: &[CTok],
    at: usize,
    names: &mut Names,
) -> Result<Read<Specs>, ParseFault>
    requires { at ≤ length toks.now }
    ensures part { ReadsSpecs toks.now at names.old names.new result }
{
    let mut cursor = Cursor::new(toks, at, mem::replace(names, Names::new(alloc)));
    let rules = Rules {
        alloc,
        mode: Mode::Spans,
        room: limits(),
        slot,
        decl,
        members,
    };
    let outcome = rules.specs(&mut cursor, true);
    told(toks, cursor, outcome, names)
}

/// Reads a declarator of a kind: the one that begins at the token `at`, where `names` are declared.
/// With `typed` a type stands before it, so that a typedef name is a name to declare. It is the
/// tokens up to `next`: neither `[` nor `(` comes behind it.
///
/// Sizes are passed over: each is a span of tokens, with the names that are declared before it.
/// Behind the call `names` are those behind the declarator: enumerators are among them that a type
/// name in a span declares, but neither its own name nor what its parameters declare. The tree tells
/// these.
///
/// # Errors
///
/// Syntax where the tokens are no such declarator, or nest too deep: at the first token with which
/// one no longer goes on as it began, though those before it could still be ended. Where all tokens
/// could be ended it is the last one. NoMemory where memory is refused. Nothing is said of the names
/// behind a refusal.
#[tactic(auto, using(crate::proofs::PartsRead::declarator_read), unfolding(crate::specs::Reading::read, crate::specs::Cursor::started))]
pub fn read_declarator(
    alloc: Global,
    toks: &[CTok],
    at: usize,
    names: &mut Names,
    kind: DeclKind,
    typed: bool,
) -> Result<Read<Declaring>, ParseFault>
    requires { at ≤ length toks.now }
    ensures part { ReadsDeclarator kind typed toks.now at names.old names.new result }
{
    let mut cursor = Cursor::new(toks, at, mem::replace(names, Names::new(alloc)));
    let part = DeclPart::Declarator(kind, typed);
    let outcome = decl(alloc, &mut cursor, Mode::Spans, limits(), part);
    told(toks, cursor, outcome, names)
}
