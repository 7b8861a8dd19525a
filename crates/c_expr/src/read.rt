//! Expressions and initializers, read from the midst of a unit's tokens.

ghost use Rattle.std.specs.Prelude.{◌≡◌, ◌≤◌, length};
ghost use Rattle.c_decl.specs.Cursor.{started};
ghost use Rattle.c_decl.specs.Told.{Tells};
ghost use Rattle.c_decl.specs.Units as units;
ghost use Rattle.c_expr.specs.Nests.{expr_of, init_of};
ghost use Rattle.c_expr.specs.Read as spec;

use crate::part::ExprPart;
use crate::tied::{expr, init};
use c_decl::cursor::Cursor;
use c_decl::fault::ParseFault;
use c_decl::kind::Mode;
use c_decl::read::{Read, limits, told};
use c_names::Names;
use c_tok::token::CTok;
use c_tree::declaration::Init;
use c_tree::expr::Expr;
use sqlite_items::Boxed;
use std::alloc::Global;
use std::mem;

/// A class of expressions or initializers.
#[derive(Clone, Copy, Debug, PartialEq, Eq)]
pub enum ExprClass {
    /// With commas.
    Expr,
    /// An assignment expression.
    Assignment,
    /// A conditional expression.
    Conditional,
    /// An initializer.
    Init,
}

/// The tree of a class.
#[derive(Drop)]
pub enum ExprTree {
    /// An expression.
    Expr(Boxed<Expr>),
    /// An initializer.
    Init(Boxed<Init>),
}

fn expr_tree(read: Result<Read<Boxed<Expr>>, ParseFault>) -> Result<Read<ExprTree>, ParseFault>
    ensures { result ≡ spec.with_tree ExprTree.Expr read }
{
    match read {
        Ok(found) => Ok(Read {
            tree: ExprTree::Expr(found.tree),
            next: found.next,
            marked: found.marked,
        }),
        Err(fault) => Err(fault),
    }
}

fn init_tree(read: Result<Read<Boxed<Init>>, ParseFault>) -> Result<Read<ExprTree>, ParseFault>
    ensures { result ≡ spec.with_tree ExprTree.Init read }
{
    match read {
        Ok(found) => Ok(Read {
            tree: ExprTree::Init(found.tree),
            next: found.next,
            marked: found.marked,
        }),
        Err(fault) => Err(fault),
    }
}

fn read_part(
    alloc: Global,
    toks: &[CTok],
    at: usize,
    names: &mut Names,
    part: ExprPart,
) -> Result<Read<Boxed<Expr>>, ParseFault>
    requires { at ≤ length toks.now }
    ensures { Tells toks.now (expr_of Mode.Whole units.limits part (started at toks.now names.old)) names.new result }
{
    let mut cursor = Cursor::new(toks, at, mem::replace(names, Names::new(alloc)));
    let outcome = expr(alloc, &mut cursor, Mode::Whole, limits(), part);
    told(toks, cursor, outcome, names)
}

fn read_init(
    alloc: Global,
    toks: &[CTok],
    at: usize,
    names: &mut Names,
) -> Result<Read<Boxed<Init>>, ParseFault>
    requires { at ≤ length toks.now }
    ensures { Tells toks.now (init_of Mode.Whole units.limits tt (started at toks.now names.old)) names.new result }
{
    let mut cursor = Cursor::new(toks, at, mem::replace(names, Names::new(alloc)));
    let outcome = init(alloc, &mut cursor, Mode::Whole, limits(), ());
    told(toks, cursor, outcome, names)
}

/// Reads an expression or an initializer of a class: the one that begins at the token `at`, where
/// `names` are declared. It is the tokens up to `next`. Behind an expression comes no operator that
/// binds tighter than an assignment, and no comma where the class has commas. Whatever comes next
/// ends an initializer in braces.
///
/// Behind the call `names` are those behind the expression: enumerators are among them that a type
/// name in it declares.
///
/// # Errors
///
/// Syntax where the tokens are no such expression, or nest too deep: at the first token with which
/// one no longer goes on as it began, though those before it could still be ended. Where all tokens
/// could be ended it is the last one. NoMemory where memory is refused. Nothing is said of the names
/// behind a refusal.
pub fn read_expr(
    alloc: Global,
    toks: &[CTok],
    at: usize,
    names: &mut Names,
    class: ExprClass,
) -> Result<Read<ExprTree>, ParseFault>
    requires { at ≤ length toks.now }
    ensures part { spec.ReadsExpr class toks.now at names.old names.new result }
{
    match class {
        ExprClass::Expr => expr_tree(read_part(alloc, toks, at, names, ExprPart::Comma)),
        ExprClass::Assignment => expr_tree(read_part(alloc, toks, at, names, ExprPart::Assignment)),
        ExprClass::Conditional => expr_tree(read_part(
            alloc,
            toks,
            at,
            names,
            ExprPart::Conditional,
        )),
        ExprClass::Init => init_tree(read_init(alloc, toks, at, names)),
    }
}
