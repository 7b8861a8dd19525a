//! Kinds of phrases.

ghost use Rattle.std.specs.Prelude.{◌≡◌};
ghost use Rattle.c_decl.specs.Grammar as grammar;

/// Whether a declarator has a name.
#[derive(Clone, Copy, Debug, PartialEq, Eq)]
pub enum DeclKind {
    /// It has one.
    Named,
    /// That of a parameter, which may have one.
    Param,
    /// It has none.
    Abstract,
}

/// What is done with sizes, widths and the values of enumerators.
#[derive(Clone, Copy, Debug, PartialEq, Eq)]
pub enum Mode {
    /// They are read.
    Whole,
    /// They are passed over.
    Spans,
}

/// A statement that begins with a keyword and an expression in parentheses.
#[derive(Clone, Copy, Debug, PartialEq, Eq)]
pub enum Control {
    /// `switch`
    Switch,
    /// `while`
    While,
}

/// A statement that is a keyword.
#[derive(Clone, Copy, Debug, PartialEq, Eq)]
pub enum Jump {
    /// `continue`
    Continue,
    /// `break`
    Break,
}

/// What a declarator may be read as.
#[derive(Clone, Copy, Debug, PartialEq, Eq)]
pub enum DeclPart {
    /// A declarator, of a kind, behind a type or not.
    Declarator(DeclKind, bool),
    /// A direct declarator.
    Direct(DeclKind, bool),
}

/// Whether it has a name.
pub fn is_named(kind: DeclKind) -> bool
    ensures { result ≡ grammar.is_named kind }
{
    matches!(kind, DeclKind::Named)
}

/// Whether it has none.
pub fn is_abstract(kind: DeclKind) -> bool
    ensures { result ≡ grammar.is_abstract kind }
{
    matches!(kind, DeclKind::Abstract)
}
