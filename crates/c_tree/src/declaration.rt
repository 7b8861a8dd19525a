//! Declarations.

use crate::at::At;
use crate::expr::{Declarator, Expr, Specs};
use sqlite_items::{Boxed, Items};

/// An initializer (ANSI C X3.159-1989, 3.5.7).
#[cycle(initializer)]
#[derive(Drop)]
pub enum Init {
    /// One value.
    Value(Boxed<Expr>),
    /// Initializers in braces, one or more, and whether a comma stands behind them.
    Braces(At, Items<Init>, bool),
}

/// A declarator, with an initializer if it has one.
#[derive(Drop)]
pub struct InitDeclarator {
    /// The declarator.
    pub declarator: Boxed<Declarator>,
    /// The initializer.
    pub init: Option<Boxed<Init>>,
}

/// A declaration (ANSI C X3.159-1989, 3.5).
#[derive(Drop)]
pub struct Declaration {
    /// Its specifiers, where it begins.
    pub specs: Specs,
    /// Its declarators, none or more.
    pub declarators: Items<InitDeclarator>,
}
