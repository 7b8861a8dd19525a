//! The operators of expressions and the words of declarations.

use c_type::operator::BinOp;

/// An operator between two operands, other than assignment and the comma (ANSI C X3.159-1989, 3.3.5
/// to 3.3.14).
#[derive(Clone, Copy, Debug, PartialEq, Eq)]
pub enum Infix {
    /// One that evaluates both operands.
    Plain(BinOp),
    /// `&&`
    LogicalAnd,
    /// `||`
    LogicalOr,
}

/// A unary operator before a cast expression (ANSI C X3.159-1989, 3.3.3).
#[derive(Clone, Copy, Debug, PartialEq, Eq)]
pub enum UnaryOp {
    /// `&`
    Address,
    /// `*`
    Indirection,
    /// `+`
    Plus,
    /// `-`
    Negate,
    /// `~`
    Complement,
    /// `!`
    Not,
}

/// `++` or `--`.
#[derive(Clone, Copy, Debug, PartialEq, Eq)]
pub enum Step {
    /// `++`
    Increment,
    /// `--`
    Decrement,
}

/// How a member is reached.
#[derive(Clone, Copy, Debug, PartialEq, Eq)]
pub enum Access {
    /// `.`
    Dot,
    /// `->`
    Arrow,
}

/// A keyword among the specifiers of a declaration (ANSI C X3.159-1989, 3.5.1 to 3.5.3).
#[derive(Clone, Copy, Debug, PartialEq, Eq)]
pub enum SpecWord {
    /// `typedef`
    Typedef,
    /// `extern`
    Extern,
    /// `static`
    Static,
    /// `auto`
    Auto,
    /// `register`
    Register,
    /// `const`
    Const,
    /// `volatile`
    Volatile,
    /// `void`
    Void,
    /// `char`
    Char,
    /// `short`
    Short,
    /// `int`
    Int,
    /// `long`
    Long,
    /// `signed`
    Signed,
    /// `unsigned`
    Unsigned,
}

/// `struct` or `union`.
#[derive(Clone, Copy, Debug, PartialEq, Eq)]
pub enum RecordKind {
    /// `struct`
    Struct,
    /// `union`
    Union,
}

/// A word of a pointer.
#[derive(Clone, Copy, Debug, PartialEq, Eq)]
pub enum PointerWord {
    /// `*`
    Star,
    /// `const`
    Const,
    /// `volatile`
    Volatile,
}
