//! Types.

use crate::kind::IntKind;
use sqlite_items::{Boxed, Items};

/// A type (ANSI C X3.159-1989, 3.1.2.5). `const` and `volatile` change nothing, so they are no part
/// of it.
///
/// Records and enumerations are the numbers of their tags, so a type is finite also where a record
/// points to itself.
#[cycle(types)]
#[derive(Debug, Drop)]
pub enum CType {
    /// `void`
    Void,
    /// An integer type.
    Int(IntKind),
    /// A pointer to a type.
    Pointer(Boxed<CType>),
    /// An array of elements; None where their count isn't known.
    Array(Boxed<CType>, Option<u32>),
    /// A function.
    Function(Boxed<Shape>),
    /// A structure or union, by its tag.
    Record(u32),
    /// An enumeration, by its tag.
    Enum(u32),
}

/// What a function takes and gives.
#[cycle(types)]
#[derive(Debug, Drop)]
pub struct Shape {
    /// The type of its result.
    pub result: CType,
    /// The types of its parameters, in order.
    pub params: Items<CType>,
    /// Whether more arguments may follow.
    pub variadic: bool,
}
