//! Initializers.

ghost use Rattle.std.specs.Prelude.{IfOk};
ghost use Rattle.c_tree.specs.Heights.{Below};
ghost use Rattle.c_tree.specs.Heights as heights;
ghost use Rattle.c_decl.specs.Entries as entries;
ghost use Rattle.c_decl.specs.Expressions as spec;
ghost use Rattle.c_decl.specs.Input.{Reads};
ghost use Rattle.c_decl.specs.Input as input;
ghost use Rattle.c_decl.specs.Nests.{Nests, Small, parts_of};
ghost use Rattle.c_expr.specs.Nests.{expr_of, init_of};

use crate::make;
use crate::part::ExprPart;
use c_decl::cursor::Cursor;
use c_decl::fault::Halt;
use c_decl::kind::Mode;
use c_tok::mark::Mark;
use c_tree::at::At;
use c_tree::declaration::Init;
use c_tree::expr::Expr;
use c_tree::height::{Heights, Tall};
use sqlite_items::{Boxed, Items};
use std::alloc::Global;

/// The rules of initializers, over the parsers of their parts.
#[derive(Clone, Copy)]
pub struct Inits<E, I> {
    /// What trees are made of.
    pub alloc: Global,
    /// How sizes and values are read.
    pub mode: Mode,
    /// How deep the parts may nest.
    pub room: Heights,
    /// Reads an expression of a class.
    pub expr: E,
    /// Reads an initializer.
    pub init: I,
}

impl<E, I: Fn(Global, &mut Cursor<'_>, Mode, Heights, ()) -> Result<Tall<Boxed<Init>>, Halt>> Inits<
    E,
    I,
> {
    /// A part that is an initializer.
    fn init(&self, cursor: &mut Cursor<'_>) -> Result<Tall<Boxed<Init>>, Halt>
        requires { Nests (init_of self.now.mode self.now.room) self.now.mode self.now.room (I.pre self.now.init) (I.post self.now.init) }
        ensures reads { Reads (init_of self.now.mode self.now.room tt cursor.old) result cursor.new }
        ensures low { IfOk result (λ x. Below x.height self.now.room) }
    {
        (self.init)(self.alloc, cursor, self.mode, self.room, ())
    }

    /// One more initializer behind a comma.
    #[tactic(auto, unfolding(c_decl::specs::Entries::comma_then))]
    fn item(
        &self,
        cursor: &mut Cursor<'_>,
        row: Tall<Items<Init>>,
    ) -> Result<Tall<Items<Init>>, Halt>
        requires small { Small self.now.room }
        requires init { Nests (init_of self.now.mode self.now.room) self.now.mode self.now.room (I.pre self.now.init) (I.post self.now.init) }
        requires row { Below row.height self.now.room }
        ensures reads { Reads (entries.comma_then (parts_of self.now.mode self.now.room entries.init) row cursor.old) result cursor.new }
        ensures low { IfOk result (λ x. Below x.height self.now.room) }
    {
        cursor.skip();
        let next = self.init(cursor)?;
        make::longer_init(self.room, row, next)
    }

    /// Initializers behind the first ones.
    fn more_items(
        &self,
        cursor: &mut Cursor<'_>,
        mut left: Tall<Items<Init>>,
    ) -> Result<Tall<Items<Init>>, Halt>
        requires small { Small self.now.room }
        requires init { Nests (init_of self.now.mode self.now.room) self.now.mode self.now.room (I.pre self.now.init) (I.post self.now.init) }
        requires left { Below left.height self.now.room }
        ensures reads { Reads (input.looped (λ _. entries.comma_before Mark.CloseBrace) (entries.comma_then (parts_of self.now.mode self.now.room entries.init)) left cursor.old) result cursor.new }
        ensures low { IfOk result (λ x. Below x.height self.now.room) }
    {
        for _turn in 0..cursor.left() {
            if !cursor.comma_before(Mark::CloseBrace) {
                return Ok(left);
            }
            left = self.item(cursor, left)?;
        }
        Ok(left)
    }

    /// Initializers, up to a comma that the brace follows.
    #[tactic(auto, unfolding(c_decl::specs::Entries::parted_before))]
    fn items(&self, cursor: &mut Cursor<'_>) -> Result<Tall<Items<Init>>, Halt>
        requires small { Small self.now.room }
        requires init { Nests (init_of self.now.mode self.now.room) self.now.mode self.now.room (I.pre self.now.init) (I.post self.now.init) }
        ensures reads { Reads (entries.parted_before Mark.CloseBrace (parts_of self.now.mode self.now.room entries.init) cursor.old) result cursor.new }
        ensures low { IfOk result (λ x. Below x.height self.now.room) }
    {
        let first = self.init(cursor)?;
        let row = make::one_init(self.alloc, self.room, first)?;
        self.more_items(cursor, row)
    }

    /// Initializers in braces, behind the opening one.
    #[tactic(auto, unfolding(c_decl::specs::Expressions::braces))]
    fn braces(&self, cursor: &mut Cursor<'_>, at: At) -> Result<Tall<Boxed<Init>>, Halt>
        requires small { Small self.now.room }
        requires init { Nests (init_of self.now.mode self.now.room) self.now.mode self.now.room (I.pre self.now.init) (I.post self.now.init) }
        ensures reads { Reads (spec.braces self.now.mode (parts_of self.now.mode self.now.room) self.now.room at cursor.old) result cursor.new }
        ensures low { IfOk result (λ x. Below x.height (heights.raise heights.initializer self.now.room)) }
    {
        let row = self.items(cursor)?;
        let comma_ends = cursor.eat(Mark::Comma);
        cursor.expect(Mark::CloseBrace)?;
        make::braces(self.alloc, self.room, at, row, comma_ends)
    }
}

impl<
    E: Fn(Global, &mut Cursor<'_>, Mode, Heights, ExprPart) -> Result<Tall<Boxed<Expr>>, Halt>,
    I,
> Inits<E, I> {
    /// An initializer that is one value.
    #[tactic(auto, unfolding(c_decl::specs::Expressions::init_value))]
    fn value(&self, cursor: &mut Cursor<'_>) -> Result<Tall<Boxed<Init>>, Halt>
        requires small { Small self.now.room }
        requires expr { Nests (expr_of self.now.mode self.now.room) self.now.mode self.now.room (E.pre self.now.expr) (E.post self.now.expr) }
        ensures reads { Reads (spec.init_value self.now.mode (parts_of self.now.mode self.now.room) self.now.room cursor.old) result cursor.new }
        ensures low { IfOk result (λ x. Below x.height (heights.raise heights.initializer self.now.room)) }
    {
        let inner = (self.expr)(
            self.alloc,
            cursor,
            self.mode,
            self.room,
            ExprPart::Assignment,
        )?;
        make::value(self.alloc, self.room, inner)
    }
}

impl<
    E: Fn(Global, &mut Cursor<'_>, Mode, Heights, ExprPart) -> Result<Tall<Boxed<Expr>>, Halt>,
    I: Fn(Global, &mut Cursor<'_>, Mode, Heights, ()) -> Result<Tall<Boxed<Init>>, Halt>,
> Inits<E, I> {
    /// An initializer (ANSI C X3.159-1989, 3.5.7).
    #[tactic(auto, unfolding(c_decl::specs::Expressions::init_rule))]
    pub fn init_rule(&self, cursor: &mut Cursor<'_>) -> Result<Tall<Boxed<Init>>, Halt>
        requires small { Small self.now.room }
        requires expr { Nests (expr_of self.now.mode self.now.room) self.now.mode self.now.room (E.pre self.now.expr) (E.post self.now.expr) }
        requires init { Nests (init_of self.now.mode self.now.room) self.now.mode self.now.room (I.pre self.now.init) (I.post self.now.init) }
        ensures reads { Reads (spec.init_rule self.now.mode (parts_of self.now.mode self.now.room) self.now.room cursor.old) result cursor.new }
        ensures low { IfOk result (λ x. Below x.height (heights.raise heights.initializer self.now.room)) }
    {
        let at = cursor.here();
        if cursor.eat(Mark::OpenBrace) {
            self.braces(cursor, at)
        } else {
            self.value(cursor)
        }
    }
}
