//! What declarations and statements are made of.

ghost use Rattle.std.specs.Prelude.{IfOk, true};
ghost use Rattle.c_tree.specs.Heights.{Below};
ghost use Rattle.c_decl.specs.Declarators as spec;
ghost use Rattle.c_decl.specs.Entries as entry;
ghost use Rattle.c_decl.specs.Input.{Reads};
ghost use Rattle.c_decl.specs.Nests.{Small, parts_of};

use c_decl::cursor::Cursor;
use c_decl::fault::Halt;
use c_decl::kind::{DeclKind, DeclPart, Mode};
use c_expr::part::ExprPart;
use c_expr::tied;
use c_tree::declaration::Init;
use c_tree::declaring::Declaring;
use c_tree::expr::{Expr, Specs};
use c_tree::height::{Heights, Tall};
use sqlite_items::Boxed;
use std::alloc::Global;

/// An expression.
pub fn comma(
    alloc: Global,
    cursor: &mut Cursor<'_>,
    room: Heights,
) -> Result<Tall<Boxed<Expr>>, Halt>
    requires small { Small room }
    ensures reads { Reads (parts_of Mode.Whole room entry.comma cursor.old) result cursor.new }
    ensures low { IfOk result (λ x. Below x.height room) }
{
    tied::expr(alloc, cursor, Mode::Whole, room, ExprPart::Comma)
}

/// A conditional expression.
pub fn conditional(
    alloc: Global,
    cursor: &mut Cursor<'_>,
    room: Heights,
) -> Result<Tall<Boxed<Expr>>, Halt>
    requires small { Small room }
    ensures reads { Reads (parts_of Mode.Whole room entry.conditional cursor.old) result cursor.new }
    ensures low { IfOk result (λ x. Below x.height room) }
{
    tied::expr(alloc, cursor, Mode::Whole, room, ExprPart::Conditional)
}

/// An initializer.
pub fn init(
    alloc: Global,
    cursor: &mut Cursor<'_>,
    room: Heights,
) -> Result<Tall<Boxed<Init>>, Halt>
    requires small { Small room }
    ensures reads { Reads (parts_of Mode.Whole room entry.init cursor.old) result cursor.new }
    ensures low { IfOk result (λ x. Below x.height room) }
{
    tied::init(alloc, cursor, Mode::Whole, room, ())
}

/// A declarator with a name; `typed`: behind a type.
pub fn declarator(
    alloc: Global,
    cursor: &mut Cursor<'_>,
    room: Heights,
    typed: bool,
) -> Result<Tall<Declaring>, Halt>
    requires small { Small room }
    ensures reads { Reads (parts_of Mode.Whole room (entry.declarator DeclKind.Named typed) cursor.old) result cursor.new }
    ensures low { IfOk result (λ x. Below x.height room) }
{
    tied::declarator(
        alloc,
        cursor,
        Mode::Whole,
        room,
        DeclPart::Declarator(DeclKind::Named, typed),
    )
}

/// Specifiers, a storage class among them.
pub fn specs(alloc: Global, cursor: &mut Cursor<'_>, room: Heights) -> Result<Tall<Specs>, Halt>
    requires small { Small room }
    ensures reads { Reads (spec.specs Mode.Whole (parts_of Mode.Whole room) room true cursor.old) result cursor.new }
    ensures low { IfOk result (λ x. Below x.height room) }
{
    tied::specs(alloc, cursor, Mode::Whole, room, true)
}
