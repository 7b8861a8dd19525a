//! Where nodes begin, and what specifiers say.

ghost use Rattle.std.specs.Prelude.{◌≡◌};
ghost use Rattle.c_tree.specs.Begins as places;
ghost use Rattle.c_tree.specs.Specs as specs;
ghost use Rattle.c_decl.specs.Entries as entries;
ghost use Rattle.c_decl.specs.Grammar as grammar;

use c_tree::at::At;
use c_tree::declaring::Declaring;
use c_tree::expr::{Declarator, Expr, Spec};
use c_tree::operator::SpecWord;

/// Where an expression begins.
#[tactic(auto, unfolding(c_tree::specs::Begins::expr_at))]
pub fn expr_at(tree: &Expr) -> At
    ensures { result ≡ places.expr_at tree.now }
{
    match tree {
        Expr::Ident(at, _)
        | Expr::Constant(at, _, _)
        | Expr::Text(at, _)
        | Expr::Paren(at, _)
        | Expr::Subscript(at, _, _)
        | Expr::Call(at, _, _)
        | Expr::Member(at, _, _, _)
        | Expr::Postfix(at, _, _)
        | Expr::Prefix(at, _, _)
        | Expr::Unary(at, _, _)
        | Expr::SizeofExpr(at, _)
        | Expr::SizeofType(at, _)
        | Expr::Cast(at, _, _)
        | Expr::Binary(at, _, _, _)
        | Expr::Conditional(at, _, _, _)
        | Expr::Assign(at, _, _, _)
        | Expr::Comma(at, _, _) => *at,
    }
}

/// Whether an expression may stand left of `=`.
#[tactic(auto, unfolding(crate::specs::Entries::is_unary))]
pub fn is_unary(tree: &Expr) -> bool
    ensures { result ≡ entries.is_unary tree.now }
{
    !matches!(
        tree,
        Expr::Cast(_, _, _)
            | Expr::Binary(_, _, _, _)
            | Expr::Conditional(_, _, _, _)
            | Expr::Assign(_, _, _, _)
            | Expr::Comma(_, _, _)
    )
}

/// Where a specifier begins.
#[tactic(auto, unfolding(c_tree::specs::Begins::spec_at))]
pub fn spec_at(tree: &Spec) -> At
    ensures { result ≡ places.spec_at tree.now }
{
    match tree {
        Spec::Word(at, _)
        | Spec::Record(at, _, _, _)
        | Spec::RecordTag(at, _, _)
        | Spec::Enum(at, _, _, _)
        | Spec::EnumTag(at, _)
        | Spec::Alias(at, _) => *at,
    }
}

/// Where a declarator begins, if it isn't nothing.
#[tactic(auto, unfolding(c_tree::specs::Begins::declarator_at))]
pub fn declarator_at(tree: &Declarator) -> Option<At>
    ensures { result ≡ places.declarator_at tree.now }
{
    match tree {
        Declarator::Nothing => None,
        Declarator::Name(at, _)
        | Declarator::Grouped(at, _)
        | Declarator::Pointer(at, _, _)
        | Declarator::Array(at, _, _)
        | Declarator::Function(at, _, _, _) => Some(*at),
    }
}

/// Where a declarator begins, or else what stands behind it.
pub fn begins(at: At, found: &Declaring) -> At
    ensures { result ≡ grammar.begins at found.now }
{
    declarator_at(found.tree.get()).unwrap_or(at)
}

/// Whether a keyword is a storage class.
pub fn is_storage(word: SpecWord) -> bool
    ensures { result ≡ specs.is_storage word }
{
    matches!(
        word,
        SpecWord::Typedef
            | SpecWord::Extern
            | SpecWord::Static
            | SpecWord::Auto
            | SpecWord::Register
    )
}

/// Whether a keyword names a type.
fn names_type(word: SpecWord) -> bool
    ensures { result ≡ specs.names_type word }
{
    matches!(
        word,
        SpecWord::Void
            | SpecWord::Char
            | SpecWord::Short
            | SpecWord::Int
            | SpecWord::Long
            | SpecWord::Signed
            | SpecWord::Unsigned
    )
}

/// Whether a specifier names a type.
#[tactic(auto, unfolding(c_tree::specs::Specs::is_type_spec))]
pub fn is_type_spec(tree: &Spec) -> bool
    ensures { result ≡ specs.is_type_spec tree.now }
{
    match tree {
        Spec::Word(_, word) => names_type(*word),
        _ => true,
    }
}

/// Whether a specifier is `typedef`.
#[tactic(auto, unfolding(c_tree::specs::Specs::is_typedef_spec))]
pub fn is_typedef_spec(tree: &Spec) -> bool
    ensures { result ≡ specs.is_typedef_spec tree.now }
{
    matches!(tree, Spec::Word(_, SpecWord::Typedef))
}
