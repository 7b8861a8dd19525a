// Sums of terms.

/// A term of a sum.
#[derive(Clone, Copy, Debug, PartialEq, Eq)]
pub enum Term {
    /// The parameter of vmMain.
    Command,
    /// A constant of int, from 0 to 2,147,483,647.
    Number(u32),
}

/// How a term joins those before it.
#[derive(Clone, Copy, Debug, PartialEq, Eq)]
pub enum Sign {
    /// It is added.
    Plus,
    /// It is taken away.
    Minus,
}

/// A term that is added or taken away.
#[derive(Clone, Copy, Debug, PartialEq, Eq)]
pub struct SignedTerm {
    /// Whether it is added or taken away.
    pub sign: Sign,
    /// The term.
    pub term: Term,
}
