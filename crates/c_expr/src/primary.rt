//! Primary expressions.

ghost use Rattle.std.specs.Prelude.{IfOk};
ghost use Rattle.c_tree.specs.Heights.{Below};
ghost use Rattle.c_tree.specs.Heights as heights;
ghost use Rattle.c_decl.specs.Expressions as spec;
ghost use Rattle.c_decl.specs.Input.{Reads};
ghost use Rattle.c_decl.specs.Input as input;
ghost use Rattle.c_decl.specs.Nests.{Nests, Small, parts_of};
ghost use Rattle.c_decl.specs.State as state;
ghost use Rattle.c_expr.specs.Nests.{expr_of};

use crate::exprs::Exprs;
use crate::make;
use crate::part::ExprPart;
use c_decl::cursor::Cursor;
use c_decl::fault::Halt;
use c_decl::kind::Mode;
use c_tok::mark::Mark;
use c_tok::token::CTokKind;
use c_tree::at::At;
use c_tree::expr::Expr;
use c_tree::height::{Heights, Tall};
use qv_base::name::Name;
use sqlite_items::Boxed;
use std::alloc::Global;

impl<E, T> Exprs<E, T> {
    /// A name that comes next, unless it is a typedef name.
    fn named(&self, cursor: &mut Cursor<'_>, at: At, name: &Name) -> Result<Tall<Boxed<Expr>>, Halt>
        requires small { Small self.now.room }
        ensures reads { Reads (spec.name_or self.now.mode (parts_of self.now.mode self.now.room) self.now.room at name.now (state.is_type cursor.old.state name.now) cursor.old) result cursor.new }
        ensures low { IfOk result (λ x. Below x.height (heights.raise heights.expression self.now.room)) }
    {
        if cursor.is_type(name) {
            return Err(cursor.refuse());
        }
        cursor.skip();
        make::name(self.alloc, self.room, at, name)
    }
}

impl<
    E: Fn(Global, &mut Cursor<'_>, Mode, Heights, ExprPart) -> Result<Tall<Boxed<Expr>>, Halt>,
    T,
> Exprs<E, T> {
    /// Behind an opening parenthesis: an expression, and the closing one.
    #[tactic(auto, unfolding(c_decl::specs::Expressions::parenthesized))]
    fn parenthesized(&self, cursor: &mut Cursor<'_>, at: At) -> Result<Tall<Boxed<Expr>>, Halt>
        requires small { Small self.now.room }
        requires expr { Nests (expr_of self.now.mode self.now.room) self.now.mode self.now.room (E.pre self.now.expr) (E.post self.now.expr) }
        ensures reads { Reads (spec.parenthesized self.now.mode (parts_of self.now.mode self.now.room) self.now.room at cursor.old) result cursor.new }
        ensures low { IfOk result (λ x. Below x.height (heights.raise heights.expression self.now.room)) }
    {
        let inner = self.expr(cursor, ExprPart::Comma)?;
        cursor.expect(Mark::CloseParen)?;
        make::expression(
            self.alloc,
            self.room,
            Expr::Paren(at, inner.tree),
            inner.height,
        )
    }

    /// A primary expression that begins here.
    fn primary_at(&self, cursor: &mut Cursor<'_>, at: At) -> Result<Tall<Boxed<Expr>>, Halt>
        requires small { Small self.now.room }
        requires expr { Nests (expr_of self.now.mode self.now.room) self.now.mode self.now.room (E.pre self.now.expr) (E.post self.now.expr) }
        ensures reads { Reads (spec.primary_by self.now.mode (parts_of self.now.mode self.now.room) self.now.room at (input.head cursor.old) cursor.old) result cursor.new }
        ensures low { IfOk result (λ x. Below x.height (heights.raise heights.expression self.now.room)) }
    {
        match cursor.peek() {
            Some(CTokKind::Ident(name)) => self.named(cursor, at, name),
            Some(CTokKind::Constant(constant)) => {
                cursor.skip();
                make::constant(self.alloc, self.room, at, *constant)
            }
            Some(CTokKind::Text(bytes)) => {
                cursor.skip();
                make::text(self.alloc, self.room, at, bytes)
            }
            Some(CTokKind::Mark(Mark::OpenParen)) => {
                cursor.skip();
                self.parenthesized(cursor, at)
            }
            _ => Err(cursor.refuse()),
        }
    }

    /// A primary expression (ANSI C X3.159-1989, 3.3.1).
    #[tactic(auto, unfolding(c_decl::specs::Expressions::primary))]
    pub fn primary(&self, cursor: &mut Cursor<'_>) -> Result<Tall<Boxed<Expr>>, Halt>
        requires small { Small self.now.room }
        requires expr { Nests (expr_of self.now.mode self.now.room) self.now.mode self.now.room (E.pre self.now.expr) (E.post self.now.expr) }
        ensures reads { Reads (spec.primary self.now.mode (parts_of self.now.mode self.now.room) self.now.room cursor.old) result cursor.new }
        ensures low { IfOk result (λ x. Below x.height (heights.raise heights.expression self.now.room)) }
    {
        let at = cursor.here();
        self.primary_at(cursor, at)
    }
}
