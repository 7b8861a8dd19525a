//! The rules take the parsers of their parts as parameters.

ghost use Rattle.std.specs.Prelude.{IfOk};
ghost use Rattle.c_tree.specs.Heights.{Below};
ghost use Rattle.c_decl.specs.Input.{Reads};
ghost use Rattle.c_decl.specs.Nests.{Nests};
ghost use Rattle.c_expr.specs.Nests.{expr_of, type_name_of};

use crate::part::ExprPart;
use c_decl::cursor::Cursor;
use c_decl::fault::Halt;
use c_decl::kind::Mode;
use c_tree::expr::{Expr, TypeName};
use c_tree::height::{Heights, Tall};
use sqlite_items::Boxed;
use std::alloc::Global;

/// The rules of expressions. They take the parsers of their parts as function values, so that each is
/// proved by itself.
#[derive(Clone, Copy)]
pub struct Exprs<E, T> {
    /// What trees are made of.
    pub alloc: Global,
    /// How sizes and values are read.
    pub mode: Mode,
    /// How deep the parts may nest.
    pub room: Heights,
    /// Reads an expression of a class.
    pub expr: E,
    /// Reads the name of a type.
    pub type_name: T,
}

impl<
    E: Fn(Global, &mut Cursor<'_>, Mode, Heights, ExprPart) -> Result<Tall<Boxed<Expr>>, Halt>,
    T,
> Exprs<E, T> {
    /// A part that is an expression.
    pub fn expr(&self, cursor: &mut Cursor<'_>, part: ExprPart) -> Result<Tall<Boxed<Expr>>, Halt>
        requires { Nests (expr_of self.now.mode self.now.room) self.now.mode self.now.room (E.pre self.now.expr) (E.post self.now.expr) }
        ensures reads { Reads (expr_of self.now.mode self.now.room part cursor.old) result cursor.new }
        ensures low { IfOk result (λ x. Below x.height self.now.room) }
    {
        (self.expr)(self.alloc, cursor, self.mode, self.room, part)
    }
}

impl<
    E,
    T: Fn(Global, &mut Cursor<'_>, Mode, Heights, ()) -> Result<Tall<Boxed<TypeName>>, Halt>,
> Exprs<E, T> {
    /// A part that is the name of a type.
    pub fn type_name(&self, cursor: &mut Cursor<'_>) -> Result<Tall<Boxed<TypeName>>, Halt>
        requires { Nests (type_name_of self.now.mode self.now.room) self.now.mode self.now.room (T.pre self.now.type_name) (T.post self.now.type_name) }
        ensures reads { Reads (type_name_of self.now.mode self.now.room tt cursor.old) result cursor.new }
        ensures low { IfOk result (λ x. Below x.height self.now.room) }
    {
        (self.type_name)(self.alloc, cursor, self.mode, self.room, ())
    }
}
