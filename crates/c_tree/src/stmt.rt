//! Statements and units.

use crate::at::At;
use crate::declaration::Declaration;
use crate::expr::{Declarator, Expr, Specs};
use qv_base::name::Name;
use sqlite_items::{Boxed, Items};

/// A statement (ANSI C X3.159-1989, 3.6).
#[cycle(statement)]
#[derive(Drop)]
pub enum Stmt {
    /// A statement with a label.
    Label(At, Name, Boxed<Stmt>),
    /// A statement with a `case`.
    Case(At, Boxed<Expr>, Boxed<Stmt>),
    /// A statement with a `default`.
    Default(At, Boxed<Stmt>),
    /// A block.
    Block(Boxed<Block>),
    /// An expression, or nothing, and a semicolon.
    Expression(At, Option<Boxed<Expr>>),
    /// `if` with its test, the statement for it, and that behind `else` if there is one.
    If(At, Boxed<Expr>, Boxed<Stmt>, Option<Boxed<Stmt>>),
    /// `switch`
    Switch(At, Boxed<Expr>, Boxed<Stmt>),
    /// `while`
    While(At, Boxed<Expr>, Boxed<Stmt>),
    /// `do`
    Do(At, Boxed<Stmt>, Boxed<Expr>),
    /// `for`
    For(At, Boxed<ForHead>, Boxed<Stmt>),
    /// `goto`
    Goto(At, Name),
    /// `continue`
    Continue(At),
    /// `break`
    Break(At),
    /// `return`, with a value or without.
    Return(At, Option<Boxed<Expr>>),
}

/// What stands between the parentheses of a `for`.
#[derive(Drop)]
pub struct ForHead {
    /// Evaluated first.
    pub start: Option<Boxed<Expr>>,
    /// Tested before each turn.
    pub test: Option<Boxed<Expr>>,
    /// Evaluated behind each turn.
    pub step: Option<Boxed<Expr>>,
}

/// A block: `{`, declarations, statements, `}`.
#[cycle(statement)]
#[derive(Drop)]
pub struct Block {
    /// Where it begins.
    pub at: At,
    /// In order.
    pub declarations: Items<Declaration>,
    /// In order.
    pub statements: Items<Stmt>,
    /// The number of its closing brace.
    pub closing: usize,
}

/// The definition of a function.
#[derive(Drop)]
pub struct Definition {
    /// Its specifiers, where it begins.
    pub specs: Specs,
    /// Its declarator.
    pub declarator: Boxed<Declarator>,
    /// Its body.
    pub body: Boxed<Block>,
}

/// What a unit is made of (ANSI C X3.159-1989, 3.7).
#[derive(Drop)]
pub enum External {
    /// The definition of a function.
    Function(Definition),
    /// A declaration.
    Declaration(Declaration),
}

/// A unit.
#[derive(Drop)]
pub struct Unit {
    /// In order, one or more.
    pub externals: Items<External>,
    /// How many tokens the unit has.
    pub tokens: usize,
}
