//! How deep constructs nest.

/// How deep constructs of each class nest.
///
/// In each class a node counts one more than its deepest part, and 1 where it has none. In an expression a type counts as
/// the deepest expression in it.
#[derive(Clone, Copy, Debug, PartialEq, Eq)]
pub struct Heights {
    /// Expressions.
    pub expression: u8,
    /// Declarators.
    pub declarator: u8,
    /// Initializers.
    pub initializer: u8,
    /// Statements.
    pub statement: u8,
    /// Records with members.
    pub members: u8,
}

/// What was read, and how deep it nests.
#[derive(Drop)]
pub struct Tall<T> {
    /// What was read.
    pub tree: T,
    /// How deep it nests.
    pub height: Heights,
}
