//! Spans: what is passed over.

ghost use Rattle.std.specs.Prelude.{◌≡◌, IfOk, true, false, Some, None};
ghost use Rattle.c_tree.specs.Heights as heights;
ghost use Rattle.c_tree.specs.Heights.{Below, tall};
ghost use Rattle.c_decl.specs.Declarators as spec;
ghost use Rattle.c_decl.specs.Entries as entries;
ghost use Rattle.c_decl.specs.Input.{Reads, looped};
ghost use Rattle.c_decl.specs.Nests.{Nests, Small, parts_of, slot_of, decl_of, members_of};
ghost use Rattle.c_decl.specs.Grammar as grammar;
ghost use Rattle.c_decl.specs.Marks as marks;
ghost use Rattle.c_decl.specs.Nests.{span_of};

use crate::cursor::Cursor;
use crate::fault::Halt;
use crate::kind::{DeclPart, Mode};
use crate::rules::Rules;
use crate::{heights, make, marks};
use c_tok::mark::Mark;
use c_tok::token::CTokKind;
use c_tree::at::At;
use c_tree::declaring::Declaring;
use c_tree::expr::{Member, Slot};
use c_tree::height::{Heights, Tall};
use sqlite_items::{Boxed, Items};
use std::alloc::Global;

/// The rules of spans, over what passes over a span.
#[derive(Clone, Copy)]
pub struct Spans<L, D, M, S> {
    /// The rules of specifiers and declarators.
    pub rules: Rules<L, D, M>,
    /// Passes over a span.
    pub span: S,
}

impl<L, D, M, S: Fn(Global, &mut Cursor<'_>, Mode, Heights, bool) -> Result<Tall<()>, Halt>> Spans<
    L,
    D,
    M,
    S,
> {
    /// Passes over a span.
    pub fn span(&self, cursor: &mut Cursor<'_>, inside: bool) -> Result<Tall<()>, Halt>
        requires span { Nests (span_of self.now.rules.mode self.now.rules.room) self.now.rules.mode self.now.rules.room (S.pre self.now.span) (S.post self.now.span) }
        ensures reads { Reads (span_of self.now.rules.mode self.now.rules.room inside cursor.old) result cursor.new }
        ensures low { IfOk result (λ x. Below x.height self.now.rules.room) }
    {
        (self.span)(
            self.rules.alloc,
            cursor,
            self.rules.mode,
            self.rules.room,
            inside,
        )
    }

    #[tactic(auto, unfolding(crate::specs::Declarators::span_from))]
    fn span_from(&self, cursor: &mut Cursor<'_>, at: At) -> Result<Tall<Boxed<Slot>>, Halt>
        requires span { Nests (span_of self.now.rules.mode self.now.rules.room) self.now.rules.mode self.now.rules.room (S.pre self.now.span) (S.post self.now.span) }
        ensures reads { Reads (spec.span_from self.now.rules.mode (parts_of self.now.rules.mode self.now.rules.room) self.now.rules.room at cursor.old) result cursor.new }
        ensures low { IfOk result (λ x. Below x.height self.now.rules.room) }
    {
        let names = cursor.names()?;
        let before = cursor.left();
        let passed = self.span(cursor, false)?;
        let count = before.saturating_sub(cursor.left());
        make::span(
            self.rules.alloc,
            self.rules.room,
            at.number,
            count,
            names,
            passed.height,
        )
    }

    #[tactic(auto, unfolding(crate::specs::Declarators::slot))]
    /// A size or a value, passed over.
    pub fn slot(&self, cursor: &mut Cursor<'_>) -> Result<Tall<Boxed<Slot>>, Halt>
        requires mode { self.now.rules.mode ≡ Mode.Spans }
        requires span { Nests (span_of self.now.rules.mode self.now.rules.room) self.now.rules.mode self.now.rules.room (S.pre self.now.span) (S.post self.now.span) }
        ensures reads { Reads (spec.slot self.now.rules.mode (parts_of self.now.rules.mode self.now.rules.room) self.now.rules.room cursor.old) result cursor.new }
        ensures low { IfOk result (λ x. Below x.height self.now.rules.room) }
    {
        if !cursor.passes(false) {
            return Err(cursor.refuse());
        }
        let at = cursor.here();
        self.span_from(cursor, at)
    }

    #[tactic(auto, unfolding(crate::specs::Declarators::bracketed))]
    fn bracketed(
        &self,
        cursor: &mut Cursor<'_>,
        before: Heights,
        close: Mark,
    ) -> Result<Tall<()>, Halt>
        requires span { Nests (span_of self.now.rules.mode self.now.rules.room) self.now.rules.mode self.now.rules.room (S.pre self.now.span) (S.post self.now.span) }
        requires before { Below before self.now.rules.room }
        ensures reads { Reads (spec.bracketed self.now.rules.mode (parts_of self.now.rules.mode self.now.rules.room) self.now.rules.room (tall tt before) close cursor.old) result cursor.new }
        ensures low { IfOk result (λ x. Below x.height self.now.rules.room) }
    {
        let inner = self.span(cursor, true)?;
        cursor.expect(close)?;
        Ok(Tall {
            tree: (),
            height: heights::join(self.rules.room, before, inner.height),
        })
    }
}

impl<
    L: Fn(Global, &mut Cursor<'_>, Mode, Heights, ()) -> Result<Tall<Boxed<Slot>>, Halt>,
    D: Fn(Global, &mut Cursor<'_>, Mode, Heights, DeclPart) -> Result<Tall<Declaring>, Halt>,
    M: Fn(Global, &mut Cursor<'_>, Mode, Heights, ()) -> Result<Tall<Items<Member>>, Halt>,
    S,
> Spans<L, D, M, S> {
    #[tactic(auto, unfolding(crate::specs::Declarators::typed_span))]
    fn typed_span(&self, cursor: &mut Cursor<'_>, before: Heights) -> Result<Tall<()>, Halt>
        requires slot { Nests (slot_of self.now.rules.mode self.now.rules.room) self.now.rules.mode self.now.rules.room (L.pre self.now.rules.slot) (L.post self.now.rules.slot) }
        requires decl { Nests (decl_of self.now.rules.mode self.now.rules.room) self.now.rules.mode self.now.rules.room (D.pre self.now.rules.decl) (D.post self.now.rules.decl) }
        requires members { Nests (members_of self.now.rules.mode self.now.rules.room) self.now.rules.mode self.now.rules.room (M.pre self.now.rules.members) (M.post self.now.rules.members) }
        requires before { Below before self.now.rules.room }
        ensures reads { Reads (spec.typed_span self.now.rules.mode (parts_of self.now.rules.mode self.now.rules.room) self.now.rules.room (tall tt before) cursor.old) result cursor.new }
        ensures low { IfOk result (λ x. Below x.height self.now.rules.room) }
    {
        let name = self.rules.type_name(cursor)?;
        cursor.expect(Mark::CloseParen)?;
        Ok(Tall {
            tree: (),
            height: heights::join(self.rules.room, before, name.height),
        })
    }
}

impl<
    L: Fn(Global, &mut Cursor<'_>, Mode, Heights, ()) -> Result<Tall<Boxed<Slot>>, Halt>,
    D: Fn(Global, &mut Cursor<'_>, Mode, Heights, DeclPart) -> Result<Tall<Declaring>, Halt>,
    M: Fn(Global, &mut Cursor<'_>, Mode, Heights, ()) -> Result<Tall<Items<Member>>, Halt>,
    S: Fn(Global, &mut Cursor<'_>, Mode, Heights, bool) -> Result<Tall<()>, Halt>,
> Spans<L, D, M, S> {
    #[tactic(auto, unfolding(crate::specs::Declarators::opened))]
    fn opened(
        &self,
        cursor: &mut Cursor<'_>,
        before: Heights,
        is_paren: bool,
        close: Mark,
    ) -> Result<Tall<()>, Halt>
        requires slot { Nests (slot_of self.now.rules.mode self.now.rules.room) self.now.rules.mode self.now.rules.room (L.pre self.now.rules.slot) (L.post self.now.rules.slot) }
        requires decl { Nests (decl_of self.now.rules.mode self.now.rules.room) self.now.rules.mode self.now.rules.room (D.pre self.now.rules.decl) (D.post self.now.rules.decl) }
        requires members { Nests (members_of self.now.rules.mode self.now.rules.room) self.now.rules.mode self.now.rules.room (M.pre self.now.rules.members) (M.post self.now.rules.members) }
        requires span { Nests (span_of self.now.rules.mode self.now.rules.room) self.now.rules.mode self.now.rules.room (S.pre self.now.span) (S.post self.now.span) }
        requires before { Below before self.now.rules.room }
        ensures reads { Reads (spec.opened self.now.rules.mode (parts_of self.now.rules.mode self.now.rules.room) self.now.rules.room (tall tt before) is_paren close cursor.old) result cursor.new }
        ensures low { IfOk result (λ x. Below x.height self.now.rules.room) }
    {
        if is_paren && cursor.word_comes() {
            self.typed_span(cursor, before)
        } else {
            self.bracketed(cursor, before, close)
        }
    }

    fn pass_by(
        &self,
        cursor: &mut Cursor<'_>,
        before: Heights,
        is_paren: bool,
        close: Option<Mark>,
    ) -> Result<Tall<()>, Halt>
        requires slot { Nests (slot_of self.now.rules.mode self.now.rules.room) self.now.rules.mode self.now.rules.room (L.pre self.now.rules.slot) (L.post self.now.rules.slot) }
        requires decl { Nests (decl_of self.now.rules.mode self.now.rules.room) self.now.rules.mode self.now.rules.room (D.pre self.now.rules.decl) (D.post self.now.rules.decl) }
        requires members { Nests (members_of self.now.rules.mode self.now.rules.room) self.now.rules.mode self.now.rules.room (M.pre self.now.rules.members) (M.post self.now.rules.members) }
        requires span { Nests (span_of self.now.rules.mode self.now.rules.room) self.now.rules.mode self.now.rules.room (S.pre self.now.span) (S.post self.now.span) }
        requires before { Below before self.now.rules.room }
        ensures reads { Reads (spec.pass_by self.now.rules.mode (parts_of self.now.rules.mode self.now.rules.room) self.now.rules.room (tall tt before) is_paren close cursor.old) result cursor.new }
        ensures low { IfOk result (λ x. Below x.height self.now.rules.room) }
    {
        cursor.skip();
        match close {
            Some(close) => self.opened(cursor, before, is_paren, close),
            None => Ok(Tall {
                tree: (),
                height: before,
            }),
        }
    }

    #[tactic(auto, unfolding(crate::specs::Declarators::pass))]
    fn pass(&self, cursor: &mut Cursor<'_>, before: Tall<()>) -> Result<Tall<()>, Halt>
        requires slot { Nests (slot_of self.now.rules.mode self.now.rules.room) self.now.rules.mode self.now.rules.room (L.pre self.now.rules.slot) (L.post self.now.rules.slot) }
        requires decl { Nests (decl_of self.now.rules.mode self.now.rules.room) self.now.rules.mode self.now.rules.room (D.pre self.now.rules.decl) (D.post self.now.rules.decl) }
        requires members { Nests (members_of self.now.rules.mode self.now.rules.room) self.now.rules.mode self.now.rules.room (M.pre self.now.rules.members) (M.post self.now.rules.members) }
        requires span { Nests (span_of self.now.rules.mode self.now.rules.room) self.now.rules.mode self.now.rules.room (S.pre self.now.span) (S.post self.now.span) }
        requires before { Below before.height self.now.rules.room }
        ensures reads { Reads (spec.pass self.now.rules.mode (parts_of self.now.rules.mode self.now.rules.room) self.now.rules.room before cursor.old) result cursor.new }
        ensures low { IfOk result (λ x. Below x.height self.now.rules.room) }
    {
        let Some(next) = cursor.peek() else {
            return Err(cursor.refuse());
        };
        self.pass_by(cursor, before.height, is_paren(next), closer(next))
    }

    fn passed(
        &self,
        cursor: &mut Cursor<'_>,
        inside: bool,
        mut left: Tall<()>,
    ) -> Result<Tall<()>, Halt>
        requires slot { Nests (slot_of self.now.rules.mode self.now.rules.room) self.now.rules.mode self.now.rules.room (L.pre self.now.rules.slot) (L.post self.now.rules.slot) }
        requires decl { Nests (decl_of self.now.rules.mode self.now.rules.room) self.now.rules.mode self.now.rules.room (D.pre self.now.rules.decl) (D.post self.now.rules.decl) }
        requires members { Nests (members_of self.now.rules.mode self.now.rules.room) self.now.rules.mode self.now.rules.room (M.pre self.now.rules.members) (M.post self.now.rules.members) }
        requires span { Nests (span_of self.now.rules.mode self.now.rules.room) self.now.rules.mode self.now.rules.room (S.pre self.now.span) (S.post self.now.span) }
        requires left { Below left.height self.now.rules.room }
        ensures reads { Reads (looped (λ _. entries.passes inside) (spec.pass self.now.rules.mode (parts_of self.now.rules.mode self.now.rules.room) self.now.rules.room) left cursor.old) result cursor.new }
        ensures low { IfOk result (λ x. Below x.height self.now.rules.room) }
    {
        for _turn in 0..cursor.left() {
            if !cursor.passes(inside) {
                return Ok(left);
            }
            left = self.pass(cursor, left)?;
        }
        Ok(left)
    }

    #[tactic(auto, unfolding(crate::specs::Declarators::spanned))]
    /// A span.
    pub fn spanned(&self, cursor: &mut Cursor<'_>, inside: bool) -> Result<Tall<()>, Halt>
        requires small { Small self.now.rules.room }
        requires slot { Nests (slot_of self.now.rules.mode self.now.rules.room) self.now.rules.mode self.now.rules.room (L.pre self.now.rules.slot) (L.post self.now.rules.slot) }
        requires decl { Nests (decl_of self.now.rules.mode self.now.rules.room) self.now.rules.mode self.now.rules.room (D.pre self.now.rules.decl) (D.post self.now.rules.decl) }
        requires members { Nests (members_of self.now.rules.mode self.now.rules.room) self.now.rules.mode self.now.rules.room (M.pre self.now.rules.members) (M.post self.now.rules.members) }
        requires span { Nests (span_of self.now.rules.mode self.now.rules.room) self.now.rules.mode self.now.rules.room (S.pre self.now.span) (S.post self.now.span) }
        ensures reads { Reads (spec.spanned self.now.rules.mode (parts_of self.now.rules.mode self.now.rules.room) self.now.rules.room inside cursor.old) result cursor.new }
        ensures low { IfOk result (λ x. Below x.height (heights.raise heights.expression self.now.rules.room)) }
    {
        let none = Tall {
            tree: (),
            height: heights::none(),
        };
        let inner = self.passed(cursor, inside, none)?;
        Ok(Tall {
            tree: (),
            height: heights::raise_expression(self.rules.room, inner.height),
        })
    }
}

fn is_paren(kind: &CTokKind) -> bool
    ensures { result ≡ grammar.is_paren kind.now }
{
    matches!(kind, CTokKind::Mark(Mark::OpenParen))
}

fn closer(kind: &CTokKind) -> Option<Mark>
    ensures { result ≡ marks.closer kind.now }
{
    match kind {
        CTokKind::Mark(mark) => marks::closer(*mark),
        _ => None,
    }
}
