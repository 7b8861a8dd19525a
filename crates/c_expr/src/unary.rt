//! Operators before an operand.

ghost use Rattle.std.specs.Prelude.{IfOk};
ghost use Rattle.c_tree.specs.Heights.{Below};
ghost use Rattle.c_tree.specs.Heights as heights;
ghost use Rattle.c_decl.specs.Expressions as spec;
ghost use Rattle.c_decl.specs.Input.{Reads};
ghost use Rattle.c_decl.specs.Input as input;
ghost use Rattle.c_decl.specs.Marks as marks;
ghost use Rattle.c_decl.specs.Nests.{Nests, Small, parts_of};
ghost use Rattle.c_expr.specs.Nests.{expr_of, type_name_of};

use crate::exprs::Exprs;
use crate::make;
use crate::part::ExprPart;
use c_decl::cursor::Cursor;
use c_decl::fault::Halt;
use c_decl::kind::Mode;
use c_tok::mark::Mark;
use c_tok::token::CTokKind;
use c_tree::at::At;
use c_tree::expr::{Expr, TypeName};
use c_tree::height::{Heights, Tall};
use c_tree::operator::{Step, UnaryOp};
use sqlite_items::Boxed;
use std::alloc::Global;

impl<
    E,
    T: Fn(Global, &mut Cursor<'_>, Mode, Heights, ()) -> Result<Tall<Boxed<TypeName>>, Halt>,
> Exprs<E, T> {
    /// `sizeof` of a type, behind the parenthesis.
    #[tactic(auto, unfolding(c_decl::specs::Expressions::measured_type))]
    fn measured_type(&self, cursor: &mut Cursor<'_>, at: At) -> Result<Tall<Boxed<Expr>>, Halt>
        requires small { Small self.now.room }
        requires type_name { Nests (type_name_of self.now.mode self.now.room) self.now.mode self.now.room (T.pre self.now.type_name) (T.post self.now.type_name) }
        ensures reads { Reads (spec.measured_type self.now.mode (parts_of self.now.mode self.now.room) self.now.room at cursor.old) result cursor.new }
        ensures low { IfOk result (λ x. Below x.height (heights.raise heights.expression self.now.room)) }
    {
        let inner = self.type_name(cursor)?;
        cursor.expect(Mark::CloseParen)?;
        make::expression(
            self.alloc,
            self.room,
            Expr::SizeofType(at, inner.tree),
            inner.height,
        )
    }
}

impl<
    E: Fn(Global, &mut Cursor<'_>, Mode, Heights, ExprPart) -> Result<Tall<Boxed<Expr>>, Halt>,
    T,
> Exprs<E, T> {
    /// `sizeof` of an expression, behind the word.
    #[tactic(auto, unfolding(c_decl::specs::Expressions::measured_value))]
    fn measured_value(&self, cursor: &mut Cursor<'_>, at: At) -> Result<Tall<Boxed<Expr>>, Halt>
        requires small { Small self.now.room }
        requires expr { Nests (expr_of self.now.mode self.now.room) self.now.mode self.now.room (E.pre self.now.expr) (E.post self.now.expr) }
        ensures reads { Reads (spec.measured_value self.now.mode (parts_of self.now.mode self.now.room) self.now.room at cursor.old) result cursor.new }
        ensures low { IfOk result (λ x. Below x.height (heights.raise heights.expression self.now.room)) }
    {
        let inner = self.expr(cursor, ExprPart::Unary)?;
        make::expression(
            self.alloc,
            self.room,
            Expr::SizeofExpr(at, inner.tree),
            inner.height,
        )
    }

    /// `sizeof` of an expression, behind the word; a parenthesis may begin a type too.
    #[tactic(auto, unfolding(c_decl::specs::Expressions::value_or))]
    fn value_or(&self, cursor: &mut Cursor<'_>, at: At) -> Result<Tall<Boxed<Expr>>, Halt>
        requires small { Small self.now.room }
        requires expr { Nests (expr_of self.now.mode self.now.room) self.now.mode self.now.room (E.pre self.now.expr) (E.post self.now.expr) }
        ensures reads { Reads (spec.value_or self.now.mode (parts_of self.now.mode self.now.room) self.now.room at cursor.old) result cursor.new }
        ensures low { IfOk result (λ x. Below x.height (heights.raise heights.expression self.now.room)) }
    {
        if cursor.sees(Mark::OpenParen) && self.room.expression == 0 {
            cursor.skip();
            return Err(cursor.refuse());
        }
        self.measured_value(cursor, at)
    }

    /// `++` or `--` before its operand, behind it.
    #[tactic(auto, unfolding(c_decl::specs::Expressions::prefix_step))]
    fn prefix_step(
        &self,
        cursor: &mut Cursor<'_>,
        at: At,
        how: Step,
    ) -> Result<Tall<Boxed<Expr>>, Halt>
        requires small { Small self.now.room }
        requires expr { Nests (expr_of self.now.mode self.now.room) self.now.mode self.now.room (E.pre self.now.expr) (E.post self.now.expr) }
        ensures reads { Reads (spec.prefix_step self.now.mode (parts_of self.now.mode self.now.room) self.now.room at how cursor.old) result cursor.new }
        ensures low { IfOk result (λ x. Below x.height (heights.raise heights.expression self.now.room)) }
    {
        let inner = self.expr(cursor, ExprPart::Unary)?;
        make::expression(
            self.alloc,
            self.room,
            Expr::Prefix(at, how, inner.tree),
            inner.height,
        )
    }

    /// An operator before its operand, behind it.
    #[tactic(auto, unfolding(c_decl::specs::Expressions::prefixed))]
    fn prefixed(
        &self,
        cursor: &mut Cursor<'_>,
        at: At,
        op: UnaryOp,
    ) -> Result<Tall<Boxed<Expr>>, Halt>
        requires small { Small self.now.room }
        requires expr { Nests (expr_of self.now.mode self.now.room) self.now.mode self.now.room (E.pre self.now.expr) (E.post self.now.expr) }
        ensures reads { Reads (spec.prefixed self.now.mode (parts_of self.now.mode self.now.room) self.now.room at op cursor.old) result cursor.new }
        ensures low { IfOk result (λ x. Below x.height (heights.raise heights.expression self.now.room)) }
    {
        let inner = self.expr(cursor, ExprPart::Cast)?;
        make::expression(
            self.alloc,
            self.room,
            Expr::Unary(at, op, inner.tree),
            inner.height,
        )
    }

    /// An operator with its operand, or a postfix expression.
    fn unary_or(&self, cursor: &mut Cursor<'_>, at: At) -> Result<Tall<Boxed<Expr>>, Halt>
        requires small { Small self.now.room }
        requires expr { Nests (expr_of self.now.mode self.now.room) self.now.mode self.now.room (E.pre self.now.expr) (E.post self.now.expr) }
        ensures reads { Reads (spec.unary_or self.now.mode (parts_of self.now.mode self.now.room) self.now.room at (marks.unary_of (input.head cursor.old)) cursor.old) result cursor.new }
        ensures low { IfOk result (λ x. Below x.height (heights.raise heights.expression self.now.room)) }
    {
        match cursor.unary() {
            Some(op) => {
                cursor.skip();
                self.prefixed(cursor, at, op)
            }
            None => self.postfix(cursor),
        }
    }

    /// `++` or `--` with its operand, or another expression without `sizeof`.
    fn prefix_or(&self, cursor: &mut Cursor<'_>, at: At) -> Result<Tall<Boxed<Expr>>, Halt>
        requires small { Small self.now.room }
        requires expr { Nests (expr_of self.now.mode self.now.room) self.now.mode self.now.room (E.pre self.now.expr) (E.post self.now.expr) }
        ensures reads { Reads (spec.prefix_or self.now.mode (parts_of self.now.mode self.now.room) self.now.room at (input.head cursor.old) (marks.step_of (input.head cursor.old)) cursor.old) result cursor.new }
        ensures low { IfOk result (λ x. Below x.height (heights.raise heights.expression self.now.room)) }
    {
        match cursor.step() {
            Some(how) => {
                cursor.skip();
                self.prefix_step(cursor, at, how)
            }
            None => self.unary_or(cursor, at),
        }
    }
}

impl<
    E: Fn(Global, &mut Cursor<'_>, Mode, Heights, ExprPart) -> Result<Tall<Boxed<Expr>>, Halt>,
    T: Fn(Global, &mut Cursor<'_>, Mode, Heights, ()) -> Result<Tall<Boxed<TypeName>>, Halt>,
> Exprs<E, T> {
    /// `sizeof`, behind the word.
    #[tactic(auto, unfolding(c_decl::specs::Expressions::measured))]
    fn measured(&self, cursor: &mut Cursor<'_>, at: At) -> Result<Tall<Boxed<Expr>>, Halt>
        requires small { Small self.now.room }
        requires expr { Nests (expr_of self.now.mode self.now.room) self.now.mode self.now.room (E.pre self.now.expr) (E.post self.now.expr) }
        requires type_name { Nests (type_name_of self.now.mode self.now.room) self.now.mode self.now.room (T.pre self.now.type_name) (T.post self.now.type_name) }
        ensures reads { Reads (spec.measured self.now.mode (parts_of self.now.mode self.now.room) self.now.room at cursor.old) result cursor.new }
        ensures low { IfOk result (λ x. Below x.height (heights.raise heights.expression self.now.room)) }
    {
        if cursor.opens_type() {
            cursor.skip();
            self.measured_type(cursor, at)
        } else {
            self.value_or(cursor, at)
        }
    }

    /// A unary expression that begins here.
    fn unary_at(&self, cursor: &mut Cursor<'_>, at: At) -> Result<Tall<Boxed<Expr>>, Halt>
        requires small { Small self.now.room }
        requires expr { Nests (expr_of self.now.mode self.now.room) self.now.mode self.now.room (E.pre self.now.expr) (E.post self.now.expr) }
        requires type_name { Nests (type_name_of self.now.mode self.now.room) self.now.mode self.now.room (T.pre self.now.type_name) (T.post self.now.type_name) }
        ensures reads { Reads (spec.unary_by self.now.mode (parts_of self.now.mode self.now.room) self.now.room at (input.head cursor.old) cursor.old) result cursor.new }
        ensures low { IfOk result (λ x. Below x.height (heights.raise heights.expression self.now.room)) }
    {
        match cursor.peek() {
            Some(CTokKind::Mark(Mark::Sizeof)) => {
                cursor.skip();
                self.measured(cursor, at)
            }
            _ => self.prefix_or(cursor, at),
        }
    }

    /// A unary expression (ANSI C X3.159-1989, 3.3.3).
    #[tactic(auto, unfolding(c_decl::specs::Expressions::unary_rule))]
    pub fn unary_rule(&self, cursor: &mut Cursor<'_>) -> Result<Tall<Boxed<Expr>>, Halt>
        requires small { Small self.now.room }
        requires expr { Nests (expr_of self.now.mode self.now.room) self.now.mode self.now.room (E.pre self.now.expr) (E.post self.now.expr) }
        requires type_name { Nests (type_name_of self.now.mode self.now.room) self.now.mode self.now.room (T.pre self.now.type_name) (T.post self.now.type_name) }
        ensures reads { Reads (spec.unary_rule self.now.mode (parts_of self.now.mode self.now.room) self.now.room cursor.old) result cursor.new }
        ensures low { IfOk result (λ x. Below x.height (heights.raise heights.expression self.now.room)) }
    {
        let at = cursor.here();
        self.unary_at(cursor, at)
    }

    /// A cast, behind the parenthesis.
    #[tactic(auto, unfolding(c_decl::specs::Expressions::converted))]
    fn converted(&self, cursor: &mut Cursor<'_>, at: At) -> Result<Tall<Boxed<Expr>>, Halt>
        requires small { Small self.now.room }
        requires expr { Nests (expr_of self.now.mode self.now.room) self.now.mode self.now.room (E.pre self.now.expr) (E.post self.now.expr) }
        requires type_name { Nests (type_name_of self.now.mode self.now.room) self.now.mode self.now.room (T.pre self.now.type_name) (T.post self.now.type_name) }
        ensures reads { Reads (spec.converted self.now.mode (parts_of self.now.mode self.now.room) self.now.room at cursor.old) result cursor.new }
        ensures low { IfOk result (λ x. Below x.height (heights.raise heights.expression self.now.room)) }
    {
        let to = self.type_name(cursor)?;
        cursor.expect(Mark::CloseParen)?;
        let inner = self.expr(cursor, ExprPart::Cast)?;
        make::over_two(
            self.alloc,
            self.room,
            Expr::Cast(at, to.tree, inner.tree),
            to.height,
            inner.height,
        )
    }

    /// A cast expression (ANSI C X3.159-1989, 3.3.4).
    #[tactic(auto, unfolding(c_decl::specs::Expressions::cast_rule))]
    pub fn cast_rule(&self, cursor: &mut Cursor<'_>) -> Result<Tall<Boxed<Expr>>, Halt>
        requires small { Small self.now.room }
        requires expr { Nests (expr_of self.now.mode self.now.room) self.now.mode self.now.room (E.pre self.now.expr) (E.post self.now.expr) }
        requires type_name { Nests (type_name_of self.now.mode self.now.room) self.now.mode self.now.room (T.pre self.now.type_name) (T.post self.now.type_name) }
        ensures reads { Reads (spec.cast_rule self.now.mode (parts_of self.now.mode self.now.room) self.now.room cursor.old) result cursor.new }
        ensures low { IfOk result (λ x. Below x.height (heights.raise heights.expression self.now.room)) }
    {
        let at = cursor.here();
        if cursor.opens_type() {
            cursor.skip();
            self.converted(cursor, at)
        } else {
            self.unary_rule(cursor)
        }
    }
}
