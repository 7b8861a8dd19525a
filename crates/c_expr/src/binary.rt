//! Operators between operands.

ghost use Rattle.std.specs.Prelude.{◌+◌, IfOk};
ghost use Rattle.c_tree.specs.Heights.{Below};
ghost use Rattle.c_tree.specs.Heights as heights;
ghost use Rattle.c_decl.specs.Entries as entries;
ghost use Rattle.c_decl.specs.Expressions as spec;
ghost use Rattle.c_decl.specs.Input.{Reads};
ghost use Rattle.c_decl.specs.Input as input;
ghost use Rattle.c_decl.specs.Marks as marks;
ghost use Rattle.c_decl.specs.Nests.{Nests, Small, parts_of};
ghost use Rattle.c_expr.specs.Nests.{expr_of, type_name_of, layer_of};

use crate::exprs::Exprs;
use crate::look::goes_above;
use crate::make;
use crate::part::ExprPart;
use c_decl::cursor::Cursor;
use c_decl::fault::Halt;
use c_decl::heights::is_below;
use c_decl::kind::Mode;
use c_decl::nodes::is_unary;
use c_tok::mark::Mark;
use c_tree::expr::{Expr, TypeName};
use c_tree::height::{Heights, Tall};
use c_tree::operator::Infix;
use c_type::operator::BinOp;
use sqlite_items::Boxed;
use std::alloc::Global;

impl<
    E: Fn(Global, &mut Cursor<'_>, Mode, Heights, ExprPart) -> Result<Tall<Boxed<Expr>>, Halt>,
    T,
> Exprs<E, T> {
    /// An operation, behind the operator.
    #[tactic(auto, unfolding(c_decl::specs::Expressions::operated, c_decl::specs::Entries::fits))]
    fn operated(
        &self,
        cursor: &mut Cursor<'_>,
        left: Tall<Boxed<Expr>>,
        level: u8,
        op: Infix,
    ) -> Result<Tall<Boxed<Expr>>, Halt>
        requires small { Small self.now.room }
        requires expr { Nests (expr_of self.now.mode self.now.room) self.now.mode self.now.room (E.pre self.now.expr) (E.post self.now.expr) }
        ensures reads { Reads (spec.operated self.now.mode (parts_of self.now.mode self.now.room) self.now.room left level op cursor.old) result cursor.new }
        ensures low { IfOk result (λ x. Below x.height (heights.raise heights.expression self.now.room)) }
    {
        if !is_below(left.height, self.room) {
            return Err(cursor.refuse());
        }
        let right = self.expr(cursor, ExprPart::Binary(level))?;
        make::binary(self.alloc, self.room, op, left, right)
    }

    /// An operation.
    #[tactic(auto, unfolding(c_decl::specs::Expressions::operation))]
    fn operation(
        &self,
        cursor: &mut Cursor<'_>,
        left: Tall<Boxed<Expr>>,
    ) -> Result<Tall<Boxed<Expr>>, Halt>
        requires small { Small self.now.room }
        requires expr { Nests (expr_of self.now.mode self.now.room) self.now.mode self.now.room (E.pre self.now.expr) (E.post self.now.expr) }
        ensures reads { Reads (spec.operation self.now.mode (parts_of self.now.mode self.now.room) self.now.room left cursor.old) result cursor.new }
        ensures low { IfOk result (λ x. Below x.height (heights.raise heights.expression self.now.room)) }
    {
        let level = cursor.tight();
        match cursor.infix() {
            Some(op) => {
                cursor.skip();
                self.operated(cursor, left, level, op)
            }
            None => Err(cursor.refuse()),
        }
    }

    /// The operations of operators that bind tighter than the number.
    fn operations(
        &self,
        cursor: &mut Cursor<'_>,
        above: u8,
        mut left: Tall<Boxed<Expr>>,
    ) -> Result<Tall<Boxed<Expr>>, Halt>
        requires small { Small self.now.room }
        requires expr { Nests (expr_of self.now.mode self.now.room) self.now.mode self.now.room (E.pre self.now.expr) (E.post self.now.expr) }
        requires left { Below left.height (heights.raise heights.expression self.now.room) }
        ensures reads { Reads (input.looped (λ _. entries.goes_on (above + 1)) (spec.operation self.now.mode (parts_of self.now.mode self.now.room) self.now.room) left cursor.old) result cursor.new }
        ensures low { IfOk result (λ x. Below x.height (heights.raise heights.expression self.now.room)) }
    {
        for _turn in 0..cursor.left() {
            if !goes_above(cursor, above) {
                return Ok(left);
            }
            left = self.operation(cursor, left)?;
        }
        Ok(left)
    }

    /// A conditional expression, behind the question mark.
    #[tactic(auto, unfolding(c_decl::specs::Expressions::chosen, c_decl::specs::Entries::fits))]
    fn chosen(
        &self,
        cursor: &mut Cursor<'_>,
        test: Tall<Boxed<Expr>>,
    ) -> Result<Tall<Boxed<Expr>>, Halt>
        requires small { Small self.now.room }
        requires expr { Nests (expr_of self.now.mode self.now.room) self.now.mode self.now.room (E.pre self.now.expr) (E.post self.now.expr) }
        ensures reads { Reads (spec.chosen self.now.mode (parts_of self.now.mode self.now.room) self.now.room test cursor.old) result cursor.new }
        ensures low { IfOk result (λ x. Below x.height (heights.raise heights.expression self.now.room)) }
    {
        if !is_below(test.height, self.room) {
            return Err(cursor.refuse());
        }
        let yes = self.expr(cursor, ExprPart::Comma)?;
        cursor.expect(Mark::Colon)?;
        let no = self.expr(cursor, ExprPart::Conditional)?;
        make::conditional(self.alloc, self.room, test, yes, no)
    }

    /// An assignment, behind the operator.
    #[tactic(auto, unfolding(c_decl::specs::Expressions::assigned, c_decl::specs::Entries::fits))]
    fn assigned(
        &self,
        cursor: &mut Cursor<'_>,
        to: Tall<Boxed<Expr>>,
        op: Option<BinOp>,
    ) -> Result<Tall<Boxed<Expr>>, Halt>
        requires small { Small self.now.room }
        requires expr { Nests (expr_of self.now.mode self.now.room) self.now.mode self.now.room (E.pre self.now.expr) (E.post self.now.expr) }
        ensures reads { Reads (spec.assigned self.now.mode (parts_of self.now.mode self.now.room) self.now.room to op cursor.old) result cursor.new }
        ensures low { IfOk result (λ x. Below x.height (heights.raise heights.expression self.now.room)) }
    {
        if !is_below(to.height, self.room) {
            return Err(cursor.refuse());
        }
        let value = self.expr(cursor, ExprPart::Assignment)?;
        make::assign(self.alloc, self.room, op, to, value)
    }

    /// An assignment to a unary expression, or that expression.
    fn assign_by(
        &self,
        cursor: &mut Cursor<'_>,
        to: Tall<Boxed<Expr>>,
    ) -> Result<Tall<Boxed<Expr>>, Halt>
        requires small { Small self.now.room }
        requires expr { Nests (expr_of self.now.mode self.now.room) self.now.mode self.now.room (E.pre self.now.expr) (E.post self.now.expr) }
        requires to { Below to.height (heights.raise heights.expression self.now.room) }
        ensures reads { Reads (spec.assign_by self.now.mode (parts_of self.now.mode self.now.room) self.now.room to (marks.assign_of (input.head cursor.old)) cursor.old) result cursor.new }
        ensures low { IfOk result (λ x. Below x.height (heights.raise heights.expression self.now.room)) }
    {
        match cursor.assign() {
            Some(op) => {
                cursor.skip();
                self.assigned(cursor, to, op)
            }
            None => Ok(to),
        }
    }

    /// An assignment, or the expression alone.
    #[tactic(auto, unfolding(c_decl::specs::Expressions::assign_or))]
    fn assign_or(
        &self,
        cursor: &mut Cursor<'_>,
        to: Tall<Boxed<Expr>>,
    ) -> Result<Tall<Boxed<Expr>>, Halt>
        requires small { Small self.now.room }
        requires expr { Nests (expr_of self.now.mode self.now.room) self.now.mode self.now.room (E.pre self.now.expr) (E.post self.now.expr) }
        requires to { Below to.height (heights.raise heights.expression self.now.room) }
        ensures reads { Reads (spec.assign_or self.now.mode (parts_of self.now.mode self.now.room) self.now.room to cursor.old) result cursor.new }
        ensures low { IfOk result (λ x. Below x.height (heights.raise heights.expression self.now.room)) }
    {
        if is_unary(to.tree.get()) {
            self.assign_by(cursor, to)
        } else {
            Ok(to)
        }
    }

    /// The right operand of a comma.
    #[tactic(auto, unfolding(c_decl::specs::Expressions::joined, c_decl::specs::Entries::fits))]
    fn joined(
        &self,
        cursor: &mut Cursor<'_>,
        left: Tall<Boxed<Expr>>,
    ) -> Result<Tall<Boxed<Expr>>, Halt>
        requires small { Small self.now.room }
        requires expr { Nests (expr_of self.now.mode self.now.room) self.now.mode self.now.room (E.pre self.now.expr) (E.post self.now.expr) }
        ensures reads { Reads (spec.joined self.now.mode (parts_of self.now.mode self.now.room) self.now.room left cursor.old) result cursor.new }
        ensures low { IfOk result (λ x. Below x.height (heights.raise heights.expression self.now.room)) }
    {
        if !is_below(left.height, self.room) {
            return Err(cursor.refuse());
        }
        let right = self.expr(cursor, ExprPart::Assignment)?;
        make::comma(self.alloc, self.room, left, right)
    }

    /// A comma and its right operand.
    #[tactic(auto, unfolding(c_decl::specs::Expressions::comma_next))]
    fn comma_next(
        &self,
        cursor: &mut Cursor<'_>,
        left: Tall<Boxed<Expr>>,
    ) -> Result<Tall<Boxed<Expr>>, Halt>
        requires small { Small self.now.room }
        requires expr { Nests (expr_of self.now.mode self.now.room) self.now.mode self.now.room (E.pre self.now.expr) (E.post self.now.expr) }
        ensures reads { Reads (spec.comma_next self.now.mode (parts_of self.now.mode self.now.room) self.now.room left cursor.old) result cursor.new }
        ensures low { IfOk result (λ x. Below x.height (heights.raise heights.expression self.now.room)) }
    {
        cursor.skip();
        self.joined(cursor, left)
    }

    /// Commas with their right operands.
    fn commas(
        &self,
        cursor: &mut Cursor<'_>,
        mut left: Tall<Boxed<Expr>>,
    ) -> Result<Tall<Boxed<Expr>>, Halt>
        requires small { Small self.now.room }
        requires expr { Nests (expr_of self.now.mode self.now.room) self.now.mode self.now.room (E.pre self.now.expr) (E.post self.now.expr) }
        requires left { Below left.height (heights.raise heights.expression self.now.room) }
        ensures reads { Reads (input.looped (λ _. input.sees Mark.Comma) (spec.comma_next self.now.mode (parts_of self.now.mode self.now.room) self.now.room) left cursor.old) result cursor.new }
        ensures low { IfOk result (λ x. Below x.height (heights.raise heights.expression self.now.room)) }
    {
        for _turn in 0..cursor.left() {
            if !cursor.sees(Mark::Comma) {
                return Ok(left);
            }
            left = self.comma_next(cursor, left)?;
        }
        Ok(left)
    }
}

impl<
    E: Fn(Global, &mut Cursor<'_>, Mode, Heights, ExprPart) -> Result<Tall<Boxed<Expr>>, Halt>,
    T: Fn(Global, &mut Cursor<'_>, Mode, Heights, ()) -> Result<Tall<Boxed<TypeName>>, Halt>,
> Exprs<E, T> {
    /// Operators that bind tighter than the number, with their operands (ANSI C X3.159-1989, 3.3.5 to 3.3.14).
    #[tactic(auto, unfolding(c_decl::specs::Expressions::binary_rule))]
    fn binary_rule(&self, cursor: &mut Cursor<'_>, above: u8) -> Result<Tall<Boxed<Expr>>, Halt>
        requires small { Small self.now.room }
        requires expr { Nests (expr_of self.now.mode self.now.room) self.now.mode self.now.room (E.pre self.now.expr) (E.post self.now.expr) }
        requires type_name { Nests (type_name_of self.now.mode self.now.room) self.now.mode self.now.room (T.pre self.now.type_name) (T.post self.now.type_name) }
        ensures reads { Reads (spec.binary_rule self.now.mode (parts_of self.now.mode self.now.room) self.now.room (above + 1) cursor.old) result cursor.new }
        ensures low { IfOk result (λ x. Below x.height (heights.raise heights.expression self.now.room)) }
    {
        let first = self.cast_rule(cursor)?;
        self.operations(cursor, above, first)
    }

    /// A conditional expression (ANSI C X3.159-1989, 3.3.15).
    #[tactic(auto, unfolding(c_decl::specs::Expressions::conditional_rule))]
    fn conditional_rule(&self, cursor: &mut Cursor<'_>) -> Result<Tall<Boxed<Expr>>, Halt>
        requires small { Small self.now.room }
        requires expr { Nests (expr_of self.now.mode self.now.room) self.now.mode self.now.room (E.pre self.now.expr) (E.post self.now.expr) }
        requires type_name { Nests (type_name_of self.now.mode self.now.room) self.now.mode self.now.room (T.pre self.now.type_name) (T.post self.now.type_name) }
        ensures reads { Reads (spec.conditional_rule self.now.mode (parts_of self.now.mode self.now.room) self.now.room cursor.old) result cursor.new }
        ensures low { IfOk result (λ x. Below x.height (heights.raise heights.expression self.now.room)) }
    {
        let test = self.binary_rule(cursor, 3)?;
        if cursor.eat(Mark::Question) {
            self.chosen(cursor, test)
        } else {
            Ok(test)
        }
    }

    /// An assignment expression (ANSI C X3.159-1989, 3.3.16).
    #[tactic(auto, unfolding(c_decl::specs::Expressions::assignment_rule))]
    fn assignment_rule(&self, cursor: &mut Cursor<'_>) -> Result<Tall<Boxed<Expr>>, Halt>
        requires small { Small self.now.room }
        requires expr { Nests (expr_of self.now.mode self.now.room) self.now.mode self.now.room (E.pre self.now.expr) (E.post self.now.expr) }
        requires type_name { Nests (type_name_of self.now.mode self.now.room) self.now.mode self.now.room (T.pre self.now.type_name) (T.post self.now.type_name) }
        ensures reads { Reads (spec.assignment_rule self.now.mode (parts_of self.now.mode self.now.room) self.now.room cursor.old) result cursor.new }
        ensures low { IfOk result (λ x. Below x.height (heights.raise heights.expression self.now.room)) }
    {
        let to = self.conditional_rule(cursor)?;
        self.assign_or(cursor, to)
    }

    /// An expression (ANSI C X3.159-1989, 3.3.17).
    #[tactic(auto, unfolding(c_decl::specs::Expressions::comma_rule))]
    fn comma_rule(&self, cursor: &mut Cursor<'_>) -> Result<Tall<Boxed<Expr>>, Halt>
        requires small { Small self.now.room }
        requires expr { Nests (expr_of self.now.mode self.now.room) self.now.mode self.now.room (E.pre self.now.expr) (E.post self.now.expr) }
        requires type_name { Nests (type_name_of self.now.mode self.now.room) self.now.mode self.now.room (T.pre self.now.type_name) (T.post self.now.type_name) }
        ensures reads { Reads (spec.comma_rule self.now.mode (parts_of self.now.mode self.now.room) self.now.room cursor.old) result cursor.new }
        ensures low { IfOk result (λ x. Below x.height (heights.raise heights.expression self.now.room)) }
    {
        let first = self.assignment_rule(cursor)?;
        self.commas(cursor, first)
    }

    /// An expression of a class, over parts within the room.
    pub fn layer(&self, cursor: &mut Cursor<'_>, part: ExprPart) -> Result<Tall<Boxed<Expr>>, Halt>
        requires small { Small self.now.room }
        requires expr { Nests (expr_of self.now.mode self.now.room) self.now.mode self.now.room (E.pre self.now.expr) (E.post self.now.expr) }
        requires type_name { Nests (type_name_of self.now.mode self.now.room) self.now.mode self.now.room (T.pre self.now.type_name) (T.post self.now.type_name) }
        ensures reads { Reads (layer_of self.now.mode self.now.room part cursor.old) result cursor.new }
        ensures low { IfOk result (λ x. Below x.height (heights.raise heights.expression self.now.room)) }
    {
        match part {
            ExprPart::Comma => self.comma_rule(cursor),
            ExprPart::Assignment => self.assignment_rule(cursor),
            ExprPart::Conditional => self.conditional_rule(cursor),
            ExprPart::Cast => self.cast_rule(cursor),
            ExprPart::Unary => self.unary_rule(cursor),
            ExprPart::Binary(above) => self.binary_rule(cursor, above),
        }
    }
}
