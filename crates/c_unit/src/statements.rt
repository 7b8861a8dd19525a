//! Statements.

ghost use Rattle.std.specs.Prelude.{IfOk, Some};
ghost use Rattle.c_tree.specs.Heights as heights;
ghost use Rattle.c_tree.specs.Heights.{Below};
ghost use Rattle.c_decl.specs.Input.{Reads, head};
ghost use Rattle.c_decl.specs.Marks as marks;
ghost use Rattle.c_decl.specs.Nests.{Small, parts_of};
ghost use Rattle.c_decl.specs.Statements as spec;
ghost use Rattle.c_unit.specs.Stated.{Stated, stmt_of};

use crate::part::StmtPart;
use crate::{make, parts};
use c_decl::cursor::Cursor;
use c_decl::fault::Halt;
use c_decl::heights;
use c_decl::kind::{Control, Jump, Mode};
use c_tok::mark::Mark;
use c_tok::token::CTokKind;
use c_tree::at::At;
use c_tree::expr::Expr;
use c_tree::height::{Heights, Tall};
use c_tree::stmt::{ForHead, Stmt};
use qv_base::name::Name;
use sqlite_items::Boxed;
use std::alloc::Global;

/// An expression, unless the mark comes.
#[tactic(auto, unfolding(c_decl::specs::Statements::expr_before))]
fn expr_before(
    alloc: Global,
    cursor: &mut Cursor<'_>,
    room: Heights,
    stop: Mark,
) -> Result<Tall<Option<Boxed<Expr>>>, Halt>
    requires small { Small room }
    ensures reads { Reads (spec.expr_before Mode.Whole (parts_of Mode.Whole room) room stop cursor.old) result cursor.new }
    ensures low { IfOk result (λ x. Below x.height room) }
{
    if cursor.sees(stop) {
        return Ok(make::nothing());
    }
    let x = parts::comma(alloc, cursor, room)?;
    Ok(make::something(x))
}

#[tactic(auto, unfolding(c_decl::specs::Statements::expressed))]
fn expressed(
    alloc: Global,
    cursor: &mut Cursor<'_>,
    room: Heights,
) -> Result<Tall<Boxed<Stmt>>, Halt>
    requires small { Small room }
    ensures reads { Reads (spec.expressed Mode.Whole (parts_of Mode.Whole room) room cursor.old) result cursor.new }
    ensures low { IfOk result (λ x. Below x.height (heights.raise heights.statement room)) }
{
    let x = expr_before(alloc, cursor, room, Mark::Semicolon)?;
    let at = cursor.here();
    cursor.expect(Mark::Semicolon)?;
    make::expressed(alloc, room, at, x)
}

/// An expression in parentheses.
#[tactic(auto, unfolding(c_decl::specs::Statements::test))]
fn test(alloc: Global, cursor: &mut Cursor<'_>, room: Heights) -> Result<Tall<Boxed<Expr>>, Halt>
    requires small { Small room }
    ensures reads { Reads (spec.test Mode.Whole (parts_of Mode.Whole room) room cursor.old) result cursor.new }
    ensures low { IfOk result (λ x. Below x.height room) }
{
    cursor.expect(Mark::OpenParen)?;
    let x = parts::comma(alloc, cursor, room)?;
    cursor.expect(Mark::CloseParen)?;
    Ok(x)
}

#[tactic(auto, unfolding(c_decl::specs::Statements::for_head))]
fn for_head(
    alloc: Global,
    cursor: &mut Cursor<'_>,
    room: Heights,
) -> Result<Tall<Boxed<ForHead>>, Halt>
    requires small { Small room }
    ensures reads { Reads (spec.for_head Mode.Whole (parts_of Mode.Whole room) room cursor.old) result cursor.new }
    ensures low { IfOk result (λ x. Below x.height room) }
{
    let start = expr_before(alloc, cursor, room, Mark::Semicolon)?;
    cursor.expect(Mark::Semicolon)?;
    let test = expr_before(alloc, cursor, room, Mark::Semicolon)?;
    cursor.expect(Mark::Semicolon)?;
    let step = expr_before(alloc, cursor, room, Mark::CloseParen)?;
    make::for_head(alloc, room, start, test, step)
}

#[tactic(auto, unfolding(c_decl::specs::Statements::goto_))]
pub fn goto_from(
    alloc: Global,
    cursor: &mut Cursor<'_>,
    room: Heights,
    at: At,
) -> Result<Tall<Boxed<Stmt>>, Halt>
    requires small { Small room }
    ensures reads { Reads (spec.goto_ Mode.Whole (parts_of Mode.Whole room) room at cursor.old) result cursor.new }
    ensures low { IfOk result (λ x. Below x.height (heights.raise heights.statement room)) }
{
    let name = cursor.a_name(alloc)?;
    cursor.expect(Mark::Semicolon)?;
    make::statement(alloc, room, Stmt::Goto(at, name), heights::none())
}

#[tactic(auto, unfolding(c_decl::specs::Statements::jump_))]
fn jump_from(
    alloc: Global,
    cursor: &mut Cursor<'_>,
    room: Heights,
    at: At,
    how: Jump,
) -> Result<Tall<Boxed<Stmt>>, Halt>
    requires small { Small room }
    ensures reads { Reads (spec.jump_ Mode.Whole (parts_of Mode.Whole room) room at how cursor.old) result cursor.new }
    ensures low { IfOk result (λ x. Below x.height (heights.raise heights.statement room)) }
{
    cursor.expect(Mark::Semicolon)?;
    make::jumping(alloc, room, at, how)
}

#[tactic(auto, unfolding(c_decl::specs::Statements::return_))]
pub fn return_from(
    alloc: Global,
    cursor: &mut Cursor<'_>,
    room: Heights,
    at: At,
) -> Result<Tall<Boxed<Stmt>>, Halt>
    requires small { Small room }
    ensures reads { Reads (spec.return_ Mode.Whole (parts_of Mode.Whole room) room at cursor.old) result cursor.new }
    ensures low { IfOk result (λ x. Below x.height (heights.raise heights.statement room)) }
{
    let x = expr_before(alloc, cursor, room, Mark::Semicolon)?;
    cursor.expect(Mark::Semicolon)?;
    make::statement(alloc, room, Stmt::Return(at, x.tree), x.height)
}

pub fn jump_or(
    alloc: Global,
    cursor: &mut Cursor<'_>,
    room: Heights,
    at: At,
) -> Result<Tall<Boxed<Stmt>>, Halt>
    requires small { Small room }
    ensures reads { Reads (spec.jump_or Mode.Whole (parts_of Mode.Whole room) room at (marks.jump_of (head cursor.old)) cursor.old) result cursor.new }
    ensures low { IfOk result (λ x. Below x.height (heights.raise heights.statement room)) }
{
    match cursor.jump() {
        Some(how) => {
            cursor.skip();
            jump_from(alloc, cursor, room, at, how)
        }
        None => expressed(alloc, cursor, room),
    }
}

/// The rules of statements, over what reads the statements in them.
#[derive(Clone, Copy)]
pub struct Statements<T> {
    /// Where trees are kept.
    pub alloc: Global,
    /// How deep the parts may nest.
    pub room: Heights,
    /// Reads a statement.
    pub statement: T,
}

impl<
    T: Fn(Global, &mut Cursor<'_>, Heights, StmtPart) -> Result<Tall<Boxed<Stmt>>, Halt>,
> Statements<T> {
    /// A statement in a statement or a block.
    pub fn part(&self, cursor: &mut Cursor<'_>, part: StmtPart) -> Result<Tall<Boxed<Stmt>>, Halt>
        requires statement { Stated self.now.room (T.pre self.now.statement) (T.post self.now.statement) }
        ensures reads { Reads (stmt_of self.now.room part cursor.old) result cursor.new }
        ensures low { IfOk result (λ x. Below x.height self.now.room) }
    {
        (self.statement)(self.alloc, cursor, self.room, part)
    }

    /// Behind the name of a label.
    #[tactic(auto, unfolding(c_decl::specs::Statements::colon_rule))]
    pub fn colon_rule(
        &self,
        cursor: &mut Cursor<'_>,
        at: At,
        name: Name,
    ) -> Result<Tall<Boxed<Stmt>>, Halt>
        requires small { Small self.now.room }
        requires statement { Stated self.now.room (T.pre self.now.statement) (T.post self.now.statement) }
        ensures reads { Reads (spec.colon_rule Mode.Whole (parts_of Mode.Whole self.now.room) self.now.room at name cursor.old) result cursor.new }
        ensures low { IfOk result (λ x. Below x.height (heights.raise heights.statement self.now.room)) }
    {
        cursor.expect(Mark::Colon)?;
        let x = self.part(cursor, StmtPart::Statement)?;
        make::statement(
            self.alloc,
            self.room,
            Stmt::Label(at, name, x.tree),
            x.height,
        )
    }

    #[tactic(auto, unfolding(c_decl::specs::Statements::case_))]
    pub fn case_from(&self, cursor: &mut Cursor<'_>, at: At) -> Result<Tall<Boxed<Stmt>>, Halt>
        requires small { Small self.now.room }
        requires statement { Stated self.now.room (T.pre self.now.statement) (T.post self.now.statement) }
        ensures reads { Reads (spec.case_ Mode.Whole (parts_of Mode.Whole self.now.room) self.now.room at cursor.old) result cursor.new }
        ensures low { IfOk result (λ x. Below x.height (heights.raise heights.statement self.now.room)) }
    {
        let x = parts::conditional(self.alloc, cursor, self.room)?;
        cursor.expect(Mark::Colon)?;
        let y = self.part(cursor, StmtPart::Statement)?;
        make::over_two(
            self.alloc,
            self.room,
            Stmt::Case(at, x.tree, y.tree),
            x.height,
            y.height,
        )
    }

    #[tactic(auto, unfolding(c_decl::specs::Statements::default_))]
    pub fn default_from(&self, cursor: &mut Cursor<'_>, at: At) -> Result<Tall<Boxed<Stmt>>, Halt>
        requires small { Small self.now.room }
        requires statement { Stated self.now.room (T.pre self.now.statement) (T.post self.now.statement) }
        ensures reads { Reads (spec.default_ Mode.Whole (parts_of Mode.Whole self.now.room) self.now.room at cursor.old) result cursor.new }
        ensures low { IfOk result (λ x. Below x.height (heights.raise heights.statement self.now.room)) }
    {
        cursor.expect(Mark::Colon)?;
        let x = self.part(cursor, StmtPart::Statement)?;
        make::statement(self.alloc, self.room, Stmt::Default(at, x.tree), x.height)
    }

    #[tactic(auto, unfolding(c_decl::specs::Statements::otherwise))]
    fn otherwise(
        &self,
        cursor: &mut Cursor<'_>,
        at: At,
        x: Tall<Boxed<Expr>>,
        y: Tall<Boxed<Stmt>>,
    ) -> Result<Tall<Boxed<Stmt>>, Halt>
        requires small { Small self.now.room }
        requires x { Below x.height self.now.room }
        requires y { Below y.height self.now.room }
        requires statement { Stated self.now.room (T.pre self.now.statement) (T.post self.now.statement) }
        ensures reads { Reads (spec.otherwise Mode.Whole (parts_of Mode.Whole self.now.room) self.now.room at x y cursor.old) result cursor.new }
        ensures low { IfOk result (λ x. Below x.height (heights.raise heights.statement self.now.room)) }
    {
        let z = self.part(cursor, StmtPart::Statement)?;
        let parts = heights::join(self.room, y.height, z.height);
        make::over_two(
            self.alloc,
            self.room,
            Stmt::If(at, x.tree, y.tree, Some(z.tree)),
            x.height,
            parts,
        )
    }

    #[tactic(auto, unfolding(c_decl::specs::Statements::if_))]
    pub fn if_from(&self, cursor: &mut Cursor<'_>, at: At) -> Result<Tall<Boxed<Stmt>>, Halt>
        requires small { Small self.now.room }
        requires statement { Stated self.now.room (T.pre self.now.statement) (T.post self.now.statement) }
        ensures reads { Reads (spec.if_ Mode.Whole (parts_of Mode.Whole self.now.room) self.now.room at cursor.old) result cursor.new }
        ensures low { IfOk result (λ x. Below x.height (heights.raise heights.statement self.now.room)) }
    {
        let x = test(self.alloc, cursor, self.room)?;
        let y = self.part(cursor, StmtPart::Statement)?;
        if cursor.eat(Mark::Else) {
            return self.otherwise(cursor, at, x, y);
        }
        make::over_two(
            self.alloc,
            self.room,
            Stmt::If(at, x.tree, y.tree, None),
            x.height,
            y.height,
        )
    }

    #[tactic(auto, unfolding(c_decl::specs::Statements::control_rule))]
    pub fn control_rule(
        &self,
        cursor: &mut Cursor<'_>,
        at: At,
        how: Control,
    ) -> Result<Tall<Boxed<Stmt>>, Halt>
        requires small { Small self.now.room }
        requires statement { Stated self.now.room (T.pre self.now.statement) (T.post self.now.statement) }
        ensures reads { Reads (spec.control_rule Mode.Whole (parts_of Mode.Whole self.now.room) self.now.room at how cursor.old) result cursor.new }
        ensures low { IfOk result (λ x. Below x.height (heights.raise heights.statement self.now.room)) }
    {
        let x = test(self.alloc, cursor, self.room)?;
        let y = self.part(cursor, StmtPart::Statement)?;
        make::controlled(self.alloc, self.room, at, how, x, y)
    }

    #[tactic(auto, unfolding(c_decl::specs::Statements::do_))]
    pub fn do_from(&self, cursor: &mut Cursor<'_>, at: At) -> Result<Tall<Boxed<Stmt>>, Halt>
        requires small { Small self.now.room }
        requires statement { Stated self.now.room (T.pre self.now.statement) (T.post self.now.statement) }
        ensures reads { Reads (spec.do_ Mode.Whole (parts_of Mode.Whole self.now.room) self.now.room at cursor.old) result cursor.new }
        ensures low { IfOk result (λ x. Below x.height (heights.raise heights.statement self.now.room)) }
    {
        let x = self.part(cursor, StmtPart::Statement)?;
        cursor.expect(Mark::While)?;
        let y = test(self.alloc, cursor, self.room)?;
        cursor.expect(Mark::Semicolon)?;
        make::over_two(
            self.alloc,
            self.room,
            Stmt::Do(at, x.tree, y.tree),
            x.height,
            y.height,
        )
    }

    #[tactic(auto, unfolding(c_decl::specs::Statements::for_))]
    pub fn for_from(&self, cursor: &mut Cursor<'_>, at: At) -> Result<Tall<Boxed<Stmt>>, Halt>
        requires small { Small self.now.room }
        requires statement { Stated self.now.room (T.pre self.now.statement) (T.post self.now.statement) }
        ensures reads { Reads (spec.for_ Mode.Whole (parts_of Mode.Whole self.now.room) self.now.room at cursor.old) result cursor.new }
        ensures low { IfOk result (λ x. Below x.height (heights.raise heights.statement self.now.room)) }
    {
        cursor.expect(Mark::OpenParen)?;
        let x = for_head(self.alloc, cursor, self.room)?;
        cursor.expect(Mark::CloseParen)?;
        let y = self.part(cursor, StmtPart::Statement)?;
        make::over_two(
            self.alloc,
            self.room,
            Stmt::For(at, x.tree, y.tree),
            x.height,
            y.height,
        )
    }
}
