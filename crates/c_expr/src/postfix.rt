//! What stands behind an operand.

ghost use Rattle.std.specs.Prelude.{IfOk};
ghost use Rattle.c_tree.specs.Heights.{Below};
ghost use Rattle.c_tree.specs.Heights as heights;
ghost use Rattle.c_decl.specs.Entries as entries;
ghost use Rattle.c_decl.specs.Expressions as spec;
ghost use Rattle.c_decl.specs.Input.{Reads};
ghost use Rattle.c_decl.specs.Input as input;
ghost use Rattle.c_decl.specs.Marks as marks;
ghost use Rattle.c_decl.specs.Nests.{Nests, Small, parts_of};
ghost use Rattle.c_expr.specs.Nests.{expr_of};

use crate::exprs::Exprs;
use crate::make;
use crate::part::ExprPart;
use c_decl::cursor::Cursor;
use c_decl::fault::Halt;
use c_decl::heights::{is_below, none};
use c_decl::kind::Mode;
use c_tok::mark::Mark;
use c_tok::token::CTokKind;
use c_tree::expr::Expr;
use c_tree::height::{Heights, Tall};
use c_tree::operator::{Access, Step};
use sqlite_items::{Boxed, Items};
use std::alloc::Global;

impl<E, T> Exprs<E, T> {
    /// A member, behind `.` or `->`.
    #[tactic(auto, unfolding(c_decl::specs::Expressions::reached, c_decl::specs::Entries::fits))]
    fn reached(
        &self,
        cursor: &mut Cursor<'_>,
        left: Tall<Boxed<Expr>>,
        how: Access,
    ) -> Result<Tall<Boxed<Expr>>, Halt>
        requires small { Small self.now.room }
        ensures reads { Reads (spec.reached self.now.mode (parts_of self.now.mode self.now.room) self.now.room left how cursor.old) result cursor.new }
        ensures low { IfOk result (λ x. Below x.height (heights.raise heights.expression self.now.room)) }
    {
        if !is_below(left.height, self.room) {
            return Err(cursor.refuse());
        }
        let name = cursor.a_name(self.alloc)?;
        make::member(self.alloc, self.room, left, how, name)
    }

    /// `++` or `--` behind its operand.
    #[tactic(auto, unfolding(c_decl::specs::Expressions::stepped, c_decl::specs::Entries::fits))]
    fn stepped(
        &self,
        cursor: &mut Cursor<'_>,
        left: Tall<Boxed<Expr>>,
        how: Step,
    ) -> Result<Tall<Boxed<Expr>>, Halt>
        requires small { Small self.now.room }
        ensures reads { Reads (spec.stepped self.now.mode (parts_of self.now.mode self.now.room) self.now.room left how cursor.old) result cursor.new }
        ensures low { IfOk result (λ x. Below x.height (heights.raise heights.expression self.now.room)) }
    {
        if !is_below(left.height, self.room) {
            return Err(cursor.refuse());
        }
        make::postfix(self.alloc, self.room, left, how)
    }

    /// `++` or `--`.
    fn step_or(
        &self,
        cursor: &mut Cursor<'_>,
        left: Tall<Boxed<Expr>>,
    ) -> Result<Tall<Boxed<Expr>>, Halt>
        requires small { Small self.now.room }
        ensures reads { Reads (spec.step_or self.now.mode (parts_of self.now.mode self.now.room) self.now.room left (marks.step_of (input.head cursor.old)) cursor.old) result cursor.new }
        ensures low { IfOk result (λ x. Below x.height (heights.raise heights.expression self.now.room)) }
    {
        match cursor.step() {
            Some(how) => {
                cursor.skip();
                self.stepped(cursor, left, how)
            }
            None => Err(cursor.refuse()),
        }
    }

    /// A member, or `++` or `--`.
    fn access_or(
        &self,
        cursor: &mut Cursor<'_>,
        left: Tall<Boxed<Expr>>,
    ) -> Result<Tall<Boxed<Expr>>, Halt>
        requires small { Small self.now.room }
        ensures reads { Reads (spec.access_or self.now.mode (parts_of self.now.mode self.now.room) self.now.room left (input.head cursor.old) (marks.access_of (input.head cursor.old)) cursor.old) result cursor.new }
        ensures low { IfOk result (λ x. Below x.height (heights.raise heights.expression self.now.room)) }
    {
        match cursor.access() {
            Some(how) => {
                cursor.skip();
                self.reached(cursor, left, how)
            }
            None => self.step_or(cursor, left),
        }
    }
}

impl<
    E: Fn(Global, &mut Cursor<'_>, Mode, Heights, ExprPart) -> Result<Tall<Boxed<Expr>>, Halt>,
    T,
> Exprs<E, T> {
    /// One more argument behind a comma.
    #[tactic(auto, unfolding(c_decl::specs::Entries::comma_then))]
    fn argument(
        &self,
        cursor: &mut Cursor<'_>,
        row: Tall<Items<Expr>>,
    ) -> Result<Tall<Items<Expr>>, Halt>
        requires small { Small self.now.room }
        requires expr { Nests (expr_of self.now.mode self.now.room) self.now.mode self.now.room (E.pre self.now.expr) (E.post self.now.expr) }
        requires row { Below row.height self.now.room }
        ensures reads { Reads (entries.comma_then (parts_of self.now.mode self.now.room entries.assignment) row cursor.old) result cursor.new }
        ensures low { IfOk result (λ x. Below x.height self.now.room) }
    {
        cursor.skip();
        let next = self.expr(cursor, ExprPart::Assignment)?;
        make::longer(self.room, row, next)
    }

    /// Arguments behind the first ones.
    fn more_arguments(
        &self,
        cursor: &mut Cursor<'_>,
        mut left: Tall<Items<Expr>>,
    ) -> Result<Tall<Items<Expr>>, Halt>
        requires small { Small self.now.room }
        requires expr { Nests (expr_of self.now.mode self.now.room) self.now.mode self.now.room (E.pre self.now.expr) (E.post self.now.expr) }
        requires left { Below left.height self.now.room }
        ensures reads { Reads (input.looped (λ _. input.sees Mark.Comma) (entries.comma_then (parts_of self.now.mode self.now.room entries.assignment)) left cursor.old) result cursor.new }
        ensures low { IfOk result (λ x. Below x.height self.now.room) }
    {
        for _turn in 0..cursor.left() {
            if !cursor.sees(Mark::Comma) {
                return Ok(left);
            }
            left = self.argument(cursor, left)?;
        }
        Ok(left)
    }

    /// One argument or more.
    #[tactic(auto, unfolding(c_decl::specs::Entries::parted))]
    fn some_arguments(&self, cursor: &mut Cursor<'_>) -> Result<Tall<Items<Expr>>, Halt>
        requires small { Small self.now.room }
        requires expr { Nests (expr_of self.now.mode self.now.room) self.now.mode self.now.room (E.pre self.now.expr) (E.post self.now.expr) }
        ensures reads { Reads (entries.parted (parts_of self.now.mode self.now.room entries.assignment) cursor.old) result cursor.new }
        ensures low { IfOk result (λ x. Below x.height self.now.room) }
    {
        let first = self.expr(cursor, ExprPart::Assignment)?;
        let row = make::one(self.alloc, self.room, first)?;
        self.more_arguments(cursor, row)
    }

    /// Arguments, up to the parenthesis.
    #[tactic(auto, unfolding(c_decl::specs::Expressions::arguments))]
    fn arguments(&self, cursor: &mut Cursor<'_>) -> Result<Tall<Items<Expr>>, Halt>
        requires small { Small self.now.room }
        requires expr { Nests (expr_of self.now.mode self.now.room) self.now.mode self.now.room (E.pre self.now.expr) (E.post self.now.expr) }
        ensures reads { Reads (spec.arguments self.now.mode (parts_of self.now.mode self.now.room) self.now.room cursor.old) result cursor.new }
        ensures low { IfOk result (λ x. Below x.height self.now.room) }
    {
        if cursor.sees(Mark::CloseParen) {
            return Ok(Tall {
                tree: Items::new(self.alloc),
                height: none(),
            });
        }
        self.some_arguments(cursor)
    }

    /// A call, behind the parenthesis.
    #[tactic(auto, unfolding(c_decl::specs::Expressions::call, c_decl::specs::Entries::fits))]
    fn call(
        &self,
        cursor: &mut Cursor<'_>,
        left: Tall<Boxed<Expr>>,
    ) -> Result<Tall<Boxed<Expr>>, Halt>
        requires small { Small self.now.room }
        requires expr { Nests (expr_of self.now.mode self.now.room) self.now.mode self.now.room (E.pre self.now.expr) (E.post self.now.expr) }
        ensures reads { Reads (spec.call self.now.mode (parts_of self.now.mode self.now.room) self.now.room left cursor.old) result cursor.new }
        ensures low { IfOk result (λ x. Below x.height (heights.raise heights.expression self.now.room)) }
    {
        if !is_below(left.height, self.room) {
            return Err(cursor.refuse());
        }
        let row = self.arguments(cursor)?;
        cursor.expect(Mark::CloseParen)?;
        make::call(self.alloc, self.room, left, row)
    }

    /// A subscript, behind the bracket.
    #[tactic(auto, unfolding(c_decl::specs::Expressions::subscript, c_decl::specs::Entries::fits))]
    fn subscript(
        &self,
        cursor: &mut Cursor<'_>,
        left: Tall<Boxed<Expr>>,
    ) -> Result<Tall<Boxed<Expr>>, Halt>
        requires small { Small self.now.room }
        requires expr { Nests (expr_of self.now.mode self.now.room) self.now.mode self.now.room (E.pre self.now.expr) (E.post self.now.expr) }
        ensures reads { Reads (spec.subscript self.now.mode (parts_of self.now.mode self.now.room) self.now.room left cursor.old) result cursor.new }
        ensures low { IfOk result (λ x. Below x.height (heights.raise heights.expression self.now.room)) }
    {
        if !is_below(left.height, self.room) {
            return Err(cursor.refuse());
        }
        let at = self.expr(cursor, ExprPart::Comma)?;
        cursor.expect(Mark::CloseBracket)?;
        make::subscript(self.alloc, self.room, left, at)
    }

    /// What stands behind an operand.
    #[tactic(auto, unfolding(c_decl::specs::Expressions::suffixed))]
    fn suffixed(
        &self,
        cursor: &mut Cursor<'_>,
        left: Tall<Boxed<Expr>>,
    ) -> Result<Tall<Boxed<Expr>>, Halt>
        requires small { Small self.now.room }
        requires expr { Nests (expr_of self.now.mode self.now.room) self.now.mode self.now.room (E.pre self.now.expr) (E.post self.now.expr) }
        ensures reads { Reads (spec.suffixed self.now.mode (parts_of self.now.mode self.now.room) self.now.room left cursor.old) result cursor.new }
        ensures low { IfOk result (λ x. Below x.height (heights.raise heights.expression self.now.room)) }
    {
        match cursor.peek() {
            Some(CTokKind::Mark(Mark::OpenBracket)) => {
                cursor.skip();
                self.subscript(cursor, left)
            }
            Some(CTokKind::Mark(Mark::OpenParen)) => {
                cursor.skip();
                self.call(cursor, left)
            }
            _ => self.access_or(cursor, left),
        }
    }

    /// All that stands behind an operand.
    fn suffixes(
        &self,
        cursor: &mut Cursor<'_>,
        mut left: Tall<Boxed<Expr>>,
    ) -> Result<Tall<Boxed<Expr>>, Halt>
        requires small { Small self.now.room }
        requires expr { Nests (expr_of self.now.mode self.now.room) self.now.mode self.now.room (E.pre self.now.expr) (E.post self.now.expr) }
        requires left { Below left.height (heights.raise heights.expression self.now.room) }
        ensures reads { Reads (input.looped (λ _. entries.goes_on 14) (spec.suffixed self.now.mode (parts_of self.now.mode self.now.room) self.now.room) left cursor.old) result cursor.new }
        ensures low { IfOk result (λ x. Below x.height (heights.raise heights.expression self.now.room)) }
    {
        for _turn in 0..cursor.left() {
            if !cursor.goes_on(14) {
                return Ok(left);
            }
            left = self.suffixed(cursor, left)?;
        }
        Ok(left)
    }

    /// A postfix expression (ANSI C X3.159-1989, 3.3.2).
    #[tactic(auto, unfolding(c_decl::specs::Expressions::postfix))]
    pub fn postfix(&self, cursor: &mut Cursor<'_>) -> Result<Tall<Boxed<Expr>>, Halt>
        requires small { Small self.now.room }
        requires expr { Nests (expr_of self.now.mode self.now.room) self.now.mode self.now.room (E.pre self.now.expr) (E.post self.now.expr) }
        ensures reads { Reads (spec.postfix self.now.mode (parts_of self.now.mode self.now.room) self.now.room cursor.old) result cursor.new }
        ensures low { IfOk result (λ x. Below x.height (heights.raise heights.expression self.now.room)) }
    {
        let first = self.primary(cursor)?;
        self.suffixes(cursor, first)
    }
}
