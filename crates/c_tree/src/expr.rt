//! Expressions, and what stands in them: types with their sizes and values.

use crate::at::At;
use crate::operator::{Access, Infix, PointerWord, RecordKind, SpecWord, Step, UnaryOp};
use c_names::Declared;
use c_type::kind::IntKind;
use c_type::operator::BinOp;
use qv_base::name::Name;
use sqlite_items::{Boxed, Items};

/// An expression (ANSI C X3.159-1989, 3.3).
#[cycle(expression)]
#[derive(Drop)]
pub enum Expr {
    /// An identifier.
    Ident(At, Name),
    /// An integer or character constant: its word and its type.
    Constant(At, u32, IntKind),
    /// A string: its bytes, without the NUL behind them.
    Text(At, Items<u8>),
    /// An expression in parentheses.
    Paren(At, Boxed<Expr>),
    /// An array and its subscript.
    Subscript(At, Boxed<Expr>, Boxed<Expr>),
    /// What is called, and the arguments.
    Call(At, Boxed<Expr>, Items<Expr>),
    /// A member of a record.
    Member(At, Access, Boxed<Expr>, Name),
    /// `++` or `--` behind its operand.
    Postfix(At, Step, Boxed<Expr>),
    /// `++` or `--` before its operand.
    Prefix(At, Step, Boxed<Expr>),
    /// A unary operator and its operand.
    Unary(At, UnaryOp, Boxed<Expr>),
    /// `sizeof` of an expression.
    SizeofExpr(At, Boxed<Expr>),
    /// `sizeof` of a type.
    SizeofType(At, Boxed<TypeName>),
    /// A cast.
    Cast(At, Boxed<TypeName>, Boxed<Expr>),
    /// Two operands with the operator between them.
    Binary(At, Infix, Boxed<Expr>, Boxed<Expr>),
    /// `? :` with its three operands.
    Conditional(At, Boxed<Expr>, Boxed<Expr>, Boxed<Expr>),
    /// An assignment: the operator before its `=`, if it is a compound one, the place and the value.
    Assign(At, Option<BinOp>, Boxed<Expr>, Boxed<Expr>),
    /// Two expressions with a comma between them.
    Comma(At, Boxed<Expr>, Boxed<Expr>),
}

/// A constant expression in a declarator, an enumerator or a bit-field.
#[cycle(expression)]
#[derive(Drop)]
pub enum Slot {
    /// Read.
    Read(Boxed<Expr>),
    /// Passed over.
    Span(Span),
}

/// An expression that was passed over: its tokens, and the names that are declared where it begins.
#[derive(Drop)]
pub struct Span {
    /// The number of its first token.
    pub first: usize,
    /// How many tokens it has, at least one.
    pub count: usize,
    /// The names, the latest last.
    pub names: Items<Declared>,
}

/// A specifier of a declaration (ANSI C X3.159-1989, 3.5.1 to 3.5.3).
#[cycle(expression)]
#[derive(Drop)]
pub enum Spec {
    /// A keyword.
    Word(At, SpecWord),
    /// `struct` or `union` with its tag, if it has one, and its members.
    Record(At, RecordKind, Option<Name>, Items<Member>),
    /// `struct` or `union` with a tag alone.
    RecordTag(At, RecordKind, Name),
    /// `enum` with its tag, if it has one, its enumerators, and whether a comma stands behind them.
    Enum(At, Option<Name>, Items<Enumerator>, bool),
    /// `enum` with a tag alone.
    EnumTag(At, Name),
    /// A typedef name.
    Alias(At, Name),
}

/// The specifiers of a declaration.
#[cycle(expression)]
#[derive(Drop)]
pub struct Specs {
    /// Where they begin.
    pub at: At,
    /// In order.
    pub items: Items<Spec>,
    /// Whether `typedef` stands among them.
    pub is_typedef: bool,
    /// Whether one of them names a type.
    pub is_typed: bool,
}

/// The members that a record declares with the same specifiers.
#[cycle(expression)]
#[derive(Drop)]
pub struct Member {
    /// Its specifiers, where it begins.
    pub specs: Specs,
    /// Its declarators, one or more.
    pub declarators: Items<Declarator>,
}

/// An enumerator.
#[cycle(expression)]
#[derive(Drop)]
pub struct Enumerator {
    /// Where it begins.
    pub at: At,
    /// Its name.
    pub name: Name,
    /// Its value, if it is given.
    pub value: Option<Boxed<Slot>>,
}

/// A declarator (ANSI C X3.159-1989, 3.5.4 and 3.5.5).
#[cycle(expression)]
#[derive(Drop)]
pub enum Declarator {
    /// Nothing, where an abstract declarator would have its name.
    Nothing,
    /// The name.
    Name(At, Name),
    /// A declarator in parentheses.
    Grouped(At, Boxed<Declarator>),
    /// A star, the stars, `const` and `volatile` behind it, and what stands behind them.
    Pointer(At, Items<PointerWord>, Boxed<Declarator>),
    /// An array of a size, if it is given.
    Array(At, Boxed<Declarator>, Option<Boxed<Slot>>),
    /// A function, its parameters, and whether `...` stands behind them.
    Function(At, Boxed<Declarator>, Items<Param>, bool),
}

/// A parameter of a function.
#[cycle(expression)]
#[derive(Drop)]
pub struct Param {
    /// Its specifiers, where it begins.
    pub specs: Specs,
    /// Its declarator, `Nothing` where it has none.
    pub declarator: Boxed<Declarator>,
}

/// The name of a type (ANSI C X3.159-1989, 3.5.5).
#[cycle(expression)]
#[derive(Drop)]
pub struct TypeName {
    /// Its specifiers, where it begins.
    pub specs: Specs,
    /// Its abstract declarator, `Nothing` where it has none.
    pub declarator: Boxed<Declarator>,
}
