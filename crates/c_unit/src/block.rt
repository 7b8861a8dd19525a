//! Blocks, and statements by what they begin with.

ghost use Rattle.std.specs.Prelude.{◌≡◌, [], IfOk, false};
ghost use Rattle.std.specs.Option.{option_copied};
ghost use Rattle.c_tree.specs.Heights as heights;
ghost use Rattle.c_tree.specs.Heights.{Below, tall};
ghost use Rattle.c_decl.specs.Entries as entry;
ghost use Rattle.c_decl.specs.Input.{Reads, head, looped};
ghost use Rattle.c_decl.specs.Marks as marks;
ghost use Rattle.c_decl.specs.Nests.{Small, parts_of};
ghost use Rattle.c_decl.specs.Statements as spec;
ghost use Rattle.c_unit.specs.Body.{GoesOn, body_of, so_far};
ghost use Rattle.c_unit.specs.Stated.{Stated, layer_of};

use crate::body::SoFar;
use crate::declarations::declaration;
use crate::make;
use crate::part::StmtPart;
use crate::statements::{Statements, goto_from, jump_or, return_from};
use c_decl::cursor::Cursor;
use c_decl::fault::Halt;
use c_decl::kind::Mode;
use c_tok::mark::Mark;
use c_tok::token::CTokKind;
use c_tree::at::At;
use c_tree::height::{Heights, Tall};
use c_tree::stmt::{Block, Stmt};
use qv_base::name::Name;
use sqlite_items::Boxed;
use std::alloc::Global;

/// The name of a type, if one comes next.
fn type_name<'a>(cursor: &Cursor<'a>) -> Option<&'a Name>
    ensures { option_copied result ≡ entry.type_name_at cursor.now.state (head cursor.now) }
{
    match cursor.peek() {
        Some(CTokKind::Ident(name)) => {
            if cursor.is_type(name) {
                Some(name)
            } else {
                None
            }
        }
        _ => None,
    }
}

#[tactic(auto, unfolding(c_decl::specs::Statements::declare_next))]
fn declare_next(
    alloc: Global,
    cursor: &mut Cursor<'_>,
    room: Heights,
    before: SoFar,
) -> Result<SoFar, Halt>
    requires small { Small room }
    requires before { Below before.height room }
    ensures reads { GoesOn (spec.declare_next Mode.Whole (parts_of Mode.Whole room) room (body_of before) cursor.old) result cursor.new }
    ensures low { IfOk result (λ x. Below x.height room) }
{
    let x = declaration(alloc, cursor, room)?;
    before.declare(room, x)
}

impl<
    T: Fn(Global, &mut Cursor<'_>, Heights, StmtPart) -> Result<Tall<Boxed<Stmt>>, Halt>,
> Statements<T> {
    #[tactic(auto, unfolding(c_decl::specs::Statements::do_next))]
    fn do_next(&self, cursor: &mut Cursor<'_>, before: SoFar) -> Result<SoFar, Halt>
        requires before { Below before.height self.now.room }
        requires statement { Stated self.now.room (T.pre self.now.statement) (T.post self.now.statement) }
        ensures reads { GoesOn (spec.do_next Mode.Whole (parts_of Mode.Whole self.now.room) self.now.room (body_of before) cursor.old) result cursor.new }
        ensures low { IfOk result (λ x. Below x.height self.now.room) }
    {
        let x = self.part(cursor, StmtPart::Statement)?;
        before.go_on(self.room, x)
    }

    #[tactic(auto, unfolding(c_decl::specs::Statements::label_next))]
    fn label_next(
        &self,
        cursor: &mut Cursor<'_>,
        before: SoFar,
        at: At,
        name: &Name,
    ) -> Result<SoFar, Halt>
        requires before { Below before.height self.now.room }
        requires statement { Stated self.now.room (T.pre self.now.statement) (T.post self.now.statement) }
        ensures reads { GoesOn (spec.label_next Mode.Whole (parts_of Mode.Whole self.now.room) self.now.room (body_of before) at name.now cursor.old) result cursor.new }
        ensures low { IfOk result (λ x. Below x.height self.now.room) }
    {
        let name = Name::from_bytes(self.alloc, name.bytes())?;
        let x = self.part(cursor, StmtPart::BehindLabel(at, name))?;
        before.go_on(self.room, x)
    }

    #[tactic(auto, unfolding(c_decl::specs::Statements::typed_item))]
    fn typed_item(
        &self,
        cursor: &mut Cursor<'_>,
        before: SoFar,
        at: At,
        name: &Name,
    ) -> Result<SoFar, Halt>
        requires small { Small self.now.room }
        requires before { Below before.height self.now.room }
        requires statement { Stated self.now.room (T.pre self.now.statement) (T.post self.now.statement) }
        ensures reads { GoesOn (spec.typed_item Mode.Whole (parts_of Mode.Whole self.now.room) self.now.room (so_far before) at name.now cursor.old) result cursor.new }
        ensures low { IfOk result (λ x. Below x.height self.now.room) }
    {
        if before.has_begun || cursor.sees_second(Mark::Colon) {
            cursor.skip();
            return self.label_next(cursor, before, at, name);
        }
        declare_next(self.alloc, cursor, self.room, before)
    }

    #[tactic(auto, unfolding(c_decl::specs::Statements::other_item))]
    fn other_item(&self, cursor: &mut Cursor<'_>, before: SoFar) -> Result<SoFar, Halt>
        requires small { Small self.now.room }
        requires before { Below before.height self.now.room }
        requires statement { Stated self.now.room (T.pre self.now.statement) (T.post self.now.statement) }
        ensures reads { GoesOn (spec.other_item Mode.Whole (parts_of Mode.Whole self.now.room) self.now.room (so_far before) cursor.old) result cursor.new }
        ensures low { IfOk result (λ x. Below x.height self.now.room) }
    {
        if cursor.word_comes() && !before.has_begun {
            return declare_next(self.alloc, cursor, self.room, before);
        }
        self.do_next(cursor, before)
    }

    #[tactic(auto, unfolding(c_decl::specs::Statements::item))]
    fn item(&self, cursor: &mut Cursor<'_>, before: SoFar) -> Result<SoFar, Halt>
        requires small { Small self.now.room }
        requires before { Below before.height self.now.room }
        requires statement { Stated self.now.room (T.pre self.now.statement) (T.post self.now.statement) }
        ensures reads { GoesOn (spec.item Mode.Whole (parts_of Mode.Whole self.now.room) self.now.room (so_far before) cursor.old) result cursor.new }
        ensures low { IfOk result (λ x. Below x.height self.now.room) }
    {
        let at = cursor.here();
        match type_name(cursor) {
            Some(name) => self.typed_item(cursor, before, at, name),
            None => self.other_item(cursor, before),
        }
    }

    fn items(&self, cursor: &mut Cursor<'_>, mut before: SoFar) -> Result<SoFar, Halt>
        requires small { Small self.now.room }
        requires before { Below before.height self.now.room }
        requires statement { Stated self.now.room (T.pre self.now.statement) (T.post self.now.statement) }
        ensures reads { GoesOn (looped (λ _. entry.body_comes) (spec.item Mode.Whole (parts_of Mode.Whole self.now.room) self.now.room) (so_far before) cursor.old) result cursor.new }
        ensures low { IfOk result (λ x. Below x.height self.now.room) }
    {
        for _turn in 0..cursor.left() {
            if !cursor.body_comes() {
                return Ok(before);
            }
            before = self.item(cursor, before)?;
        }
        Ok(before)
    }

    fn all_items(&self, cursor: &mut Cursor<'_>) -> Result<SoFar, Halt>
        requires small { Small self.now.room }
        requires statement { Stated self.now.room (T.pre self.now.statement) (T.post self.now.statement) }
        ensures reads { GoesOn (looped (λ _. entry.body_comes) (spec.item Mode.Whole (parts_of Mode.Whole self.now.room) self.now.room) (false, tall (record { declarations = []; statements = [] }) heights.none) cursor.old) result cursor.new }
        ensures low { IfOk result (λ x. Below x.height self.now.room) }
    {
        self.items(cursor, SoFar::new(self.alloc))
    }

    /// A block.
    #[tactic(auto, unfolding(c_decl::specs::Statements::braced, c_decl::specs::State::leave))]
    pub fn braced(&self, cursor: &mut Cursor<'_>) -> Result<Tall<Boxed<Block>>, Halt>
        requires small { Small self.now.room }
        requires statement { Stated self.now.room (T.pre self.now.statement) (T.post self.now.statement) }
        ensures reads { Reads (spec.braced Mode.Whole (parts_of Mode.Whole self.now.room) self.now.room cursor.old) result cursor.new }
        ensures low { IfOk result (λ x. Below x.height (heights.raise heights.statement self.now.room)) }
    {
        let at = cursor.here();
        let declared = cursor.declared();
        cursor.expect(Mark::OpenBrace)?;
        let body = self.all_items(cursor)?;
        let end = cursor.here();
        cursor.expect(Mark::CloseBrace)?;
        cursor.leave(declared);
        body.close(self.alloc, self.room, at, end.number)
    }

    #[tactic(auto, unfolding(c_decl::specs::Statements::compound))]
    fn compound(&self, cursor: &mut Cursor<'_>) -> Result<Tall<Boxed<Stmt>>, Halt>
        requires small { Small self.now.room }
        requires statement { Stated self.now.room (T.pre self.now.statement) (T.post self.now.statement) }
        ensures reads { Reads (spec.compound Mode.Whole (parts_of Mode.Whole self.now.room) self.now.room cursor.old) result cursor.new }
        ensures low { IfOk result (λ x. Below x.height (heights.raise heights.statement self.now.room)) }
    {
        let x = self.braced(cursor)?;
        make::compound(self.alloc, x)
    }

    fn label_by(&self, cursor: &mut Cursor<'_>, at: At) -> Result<Tall<Boxed<Stmt>>, Halt>
        requires small { Small self.now.room }
        requires statement { Stated self.now.room (T.pre self.now.statement) (T.post self.now.statement) }
        ensures reads { Reads (spec.label_by Mode.Whole (parts_of Mode.Whole self.now.room) self.now.room at (head cursor.old) cursor.old) result cursor.new }
        ensures low { IfOk result (λ x. Below x.height (heights.raise heights.statement self.now.room)) }
    {
        let Some(CTokKind::Ident(name)) = cursor.peek() else {
            return Err(cursor.refuse());
        };
        cursor.skip();
        let name = Name::from_bytes(self.alloc, name.bytes())?;
        self.colon_rule(cursor, at, name)
    }

    fn control_or(&self, cursor: &mut Cursor<'_>, at: At) -> Result<Tall<Boxed<Stmt>>, Halt>
        requires small { Small self.now.room }
        requires statement { Stated self.now.room (T.pre self.now.statement) (T.post self.now.statement) }
        ensures reads { Reads (spec.control_or Mode.Whole (parts_of Mode.Whole self.now.room) self.now.room at (head cursor.old) (marks.control_of (head cursor.old)) cursor.old) result cursor.new }
        ensures low { IfOk result (λ x. Below x.height (heights.raise heights.statement self.now.room)) }
    {
        match cursor.control() {
            Some(how) => {
                cursor.skip();
                self.control_rule(cursor, at, how)
            }
            None => jump_or(self.alloc, cursor, self.room, at),
        }
    }

    fn statement_by(&self, cursor: &mut Cursor<'_>, at: At) -> Result<Tall<Boxed<Stmt>>, Halt>
        requires small { Small self.now.room }
        requires statement { Stated self.now.room (T.pre self.now.statement) (T.post self.now.statement) }
        ensures reads { Reads (spec.statement_by Mode.Whole (parts_of Mode.Whole self.now.room) self.now.room at (head cursor.old) cursor.old) result cursor.new }
        ensures low { IfOk result (λ x. Below x.height (heights.raise heights.statement self.now.room)) }
    {
        match cursor.peek() {
            Some(CTokKind::Mark(Mark::OpenBrace)) => self.compound(cursor),
            Some(CTokKind::Mark(Mark::Case)) => {
                cursor.skip();
                self.case_from(cursor, at)
            }
            Some(CTokKind::Mark(Mark::Default)) => {
                cursor.skip();
                self.default_from(cursor, at)
            }
            Some(CTokKind::Mark(Mark::If)) => {
                cursor.skip();
                self.if_from(cursor, at)
            }
            Some(CTokKind::Mark(Mark::Do)) => {
                cursor.skip();
                self.do_from(cursor, at)
            }
            Some(CTokKind::Mark(Mark::For)) => {
                cursor.skip();
                self.for_from(cursor, at)
            }
            Some(CTokKind::Mark(Mark::Goto)) => {
                cursor.skip();
                goto_from(self.alloc, cursor, self.room, at)
            }
            Some(CTokKind::Mark(Mark::Return)) => {
                cursor.skip();
                return_from(self.alloc, cursor, self.room, at)
            }
            _ => self.control_or(cursor, at),
        }
    }

    /// A statement.
    #[tactic(auto, unfolding(c_decl::specs::Statements::statement_rule))]
    pub fn statement_rule(&self, cursor: &mut Cursor<'_>) -> Result<Tall<Boxed<Stmt>>, Halt>
        requires small { Small self.now.room }
        requires statement { Stated self.now.room (T.pre self.now.statement) (T.post self.now.statement) }
        ensures reads { Reads (spec.statement_rule Mode.Whole (parts_of Mode.Whole self.now.room) self.now.room cursor.old) result cursor.new }
        ensures low { IfOk result (λ x. Below x.height (heights.raise heights.statement self.now.room)) }
    {
        let at = cursor.here();
        if cursor.label_comes() {
            return self.label_by(cursor, at);
        }
        self.statement_by(cursor, at)
    }

    /// One layer of the rules.
    pub fn layer(&self, cursor: &mut Cursor<'_>, part: StmtPart) -> Result<Tall<Boxed<Stmt>>, Halt>
        requires small { Small self.now.room }
        requires statement { Stated self.now.room (T.pre self.now.statement) (T.post self.now.statement) }
        ensures reads { Reads (layer_of self.now.room part cursor.old) result cursor.new }
        ensures low { IfOk result (λ x. Below x.height (heights.raise heights.statement self.now.room)) }
    {
        match part {
            StmtPart::Statement => self.statement_rule(cursor),
            StmtPart::BehindLabel(at, name) => self.colon_rule(cursor, at, name),
        }
    }
}
