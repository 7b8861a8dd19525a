//! Declarators.

ghost use Rattle.std.specs.Prelude.{IfOk, Some, None};
ghost use Rattle.c_tok.specs.declared.mark.Mark.TheVariants as m;
ghost use Rattle.c_tree.specs.Heights as heights;
ghost use Rattle.c_tree.specs.Heights.{Below};
ghost use Rattle.c_decl.specs.Declarators as spec;
ghost use Rattle.c_decl.specs.Entries as entries;
ghost use Rattle.c_decl.specs.Input.{Reads, looped};
ghost use Rattle.c_decl.specs.Nests.{Nests, Small, parts_of, slot_of, decl_of, members_of};

use crate::cursor::Cursor;
use crate::fault::Halt;
use crate::kind::{DeclKind, DeclPart, Mode, is_abstract, is_named};
use crate::rules::Rules;
use crate::{heights, make};
use c_tok::mark::Mark;
use c_tok::token::CTokKind;
use c_tree::at::At;
use c_tree::declaring::Declaring;
use c_tree::expr::{Member, Slot};
use c_tree::height::{Heights, Tall};
use c_tree::operator::PointerWord;
use qv_base::name::Name;
use sqlite_items::{Boxed, Items};
use std::alloc::Global;

impl<L, D, M> Rules<L, D, M> {
    #[tactic(auto, unfolding(crate::specs::Declarators::pointer_word))]
    fn pointer_word(
        &self,
        cursor: &mut Cursor<'_>,
        words: Tall<Items<PointerWord>>,
    ) -> Result<Tall<Items<PointerWord>>, Halt>
        requires words { Below words.height self.now.room }
        ensures reads { Reads (spec.pointer_word self.now.mode (parts_of self.now.mode self.now.room) self.now.room words cursor.old) result cursor.new }
        ensures low { IfOk result (λ x. Below x.height self.now.room) }
    {
        let Some(word) = cursor.pointer() else {
            return Err(cursor.refuse());
        };
        cursor.skip();
        make::more_words(self.room, words, word)
    }

    fn more_words(
        &self,
        cursor: &mut Cursor<'_>,
        mut left: Tall<Items<PointerWord>>,
    ) -> Result<Tall<Items<PointerWord>>, Halt>
        requires left { Below left.height self.now.room }
        ensures reads { Reads (looped (λ _. entries.pointer_comes) (spec.pointer_word self.now.mode (parts_of self.now.mode self.now.room) self.now.room) left cursor.old) result cursor.new }
        ensures low { IfOk result (λ x. Below x.height self.now.room) }
    {
        for _turn in 0..cursor.left() {
            if !cursor.pointer_comes() {
                return Ok(left);
            }
            left = self.pointer_word(cursor, left)?;
        }
        Ok(left)
    }

    #[tactic(auto, unfolding(crate::specs::Declarators::pointer_words))]
    fn pointer_words(&self, cursor: &mut Cursor<'_>) -> Result<Tall<Items<PointerWord>>, Halt>
        ensures reads { Reads (spec.pointer_words self.now.mode (parts_of self.now.mode self.now.room) self.now.room cursor.old) result cursor.new }
        ensures low { IfOk result (λ x. Below x.height self.now.room) }
    {
        let none = make::no_words(self.alloc, self.room);
        self.more_words(cursor, none)
    }

    fn naming(
        &self,
        cursor: &mut Cursor<'_>,
        kind: DeclKind,
        typed: bool,
        at: At,
        name: &Name,
    ) -> Result<Tall<Declaring>, Halt>
        requires small { Small self.now.room }
        ensures reads { Reads (spec.base_by self.now.mode (parts_of self.now.mode self.now.room) self.now.room kind typed at (Some (CTokKind.Ident name.now)) cursor.old) result cursor.new }
        ensures low { IfOk result (λ x. Below x.height (heights.raise heights.declarator self.now.room)) }
    {
        if is_abstract(kind) || (!typed && cursor.is_type(name)) {
            return Err(cursor.refuse());
        }
        cursor.skip();
        make::called(self.alloc, self.room, at, name)
    }

    fn absent(
        &self,
        cursor: &mut Cursor<'_>,
        kind: DeclKind,
        typed: bool,
        at: At,
    ) -> Result<Tall<Declaring>, Halt>
        ensures reads { Reads (spec.base_by self.now.mode (parts_of self.now.mode self.now.room) self.now.room kind typed at (Some (CTokKind.Mark m.OpenBracket)) cursor.old) result cursor.new }
        ensures low { IfOk result (λ x. Below x.height (heights.raise heights.declarator self.now.room)) }
    {
        if is_named(kind) {
            return Err(cursor.refuse());
        }
        make::nothing(self.alloc, self.room)
    }
}

impl<
    L,
    D: Fn(Global, &mut Cursor<'_>, Mode, Heights, DeclPart) -> Result<Tall<Declaring>, Halt>,
    M,
> Rules<L, D, M> {
    #[tactic(auto, unfolding(crate::specs::Declarators::pointed))]
    fn pointed(
        &self,
        cursor: &mut Cursor<'_>,
        kind: DeclKind,
        typed: bool,
        at: At,
        words: Tall<Items<PointerWord>>,
    ) -> Result<Tall<Declaring>, Halt>
        requires small { Small self.now.room }
        requires decl { Nests (decl_of self.now.mode self.now.room) self.now.mode self.now.room (D.pre self.now.decl) (D.post self.now.decl) }
        requires words { Below words.height self.now.room }
        ensures reads { Reads (spec.pointed self.now.mode (parts_of self.now.mode self.now.room) self.now.room kind typed at words cursor.old) result cursor.new }
        ensures low { IfOk result (λ x. Below x.height (heights.raise heights.declarator self.now.room)) }
    {
        let inner = self.decl(cursor, DeclPart::Direct(kind, typed))?;
        make::pointer(self.alloc, self.room, at, words, inner)
    }

    #[tactic(auto, unfolding(crate::specs::Declarators::starred))]
    fn starred(
        &self,
        cursor: &mut Cursor<'_>,
        kind: DeclKind,
        typed: bool,
        at: At,
    ) -> Result<Tall<Declaring>, Halt>
        requires small { Small self.now.room }
        requires decl { Nests (decl_of self.now.mode self.now.room) self.now.mode self.now.room (D.pre self.now.decl) (D.post self.now.decl) }
        ensures reads { Reads (spec.starred self.now.mode (parts_of self.now.mode self.now.room) self.now.room kind typed at cursor.old) result cursor.new }
        ensures low { IfOk result (λ x. Below x.height (heights.raise heights.declarator self.now.room)) }
    {
        let words = self.pointer_words(cursor)?;
        if is_named(kind) || cursor.direct_comes(kind, typed) {
            return self.pointed(cursor, kind, typed, at, words);
        }
        make::bare_pointer(self.alloc, self.room, at, words)
    }

    #[tactic(auto, unfolding(crate::specs::Declarators::grouped))]
    fn grouped(
        &self,
        cursor: &mut Cursor<'_>,
        kind: DeclKind,
        typed: bool,
        at: At,
    ) -> Result<Tall<Declaring>, Halt>
        requires small { Small self.now.room }
        requires decl { Nests (decl_of self.now.mode self.now.room) self.now.mode self.now.room (D.pre self.now.decl) (D.post self.now.decl) }
        ensures reads { Reads (spec.grouped self.now.mode (parts_of self.now.mode self.now.room) self.now.room kind typed at cursor.old) result cursor.new }
        ensures low { IfOk result (λ x. Below x.height (heights.raise heights.declarator self.now.room)) }
    {
        let inner = self.decl(cursor, DeclPart::Declarator(kind, typed))?;
        cursor.expect(Mark::CloseParen)?;
        make::grouped(self.alloc, self.room, at, inner)
    }

    fn opened_base(
        &self,
        cursor: &mut Cursor<'_>,
        kind: DeclKind,
        typed: bool,
        at: At,
    ) -> Result<Tall<Declaring>, Halt>
        requires small { Small self.now.room }
        requires decl { Nests (decl_of self.now.mode self.now.room) self.now.mode self.now.room (D.pre self.now.decl) (D.post self.now.decl) }
        ensures reads { Reads (spec.base_by self.now.mode (parts_of self.now.mode self.now.room) self.now.room kind typed at (Some (CTokKind.Mark m.OpenParen)) cursor.old) result cursor.new }
        ensures low { IfOk result (λ x. Below x.height (heights.raise heights.declarator self.now.room)) }
    {
        if !is_named(kind) && cursor.opens_params() {
            return make::nothing(self.alloc, self.room);
        }
        cursor.skip();
        self.grouped(cursor, kind, typed, at)
    }

    #[tactic(auto, unfolding(crate::specs::Declarators::base))]
    fn base(
        &self,
        cursor: &mut Cursor<'_>,
        kind: DeclKind,
        typed: bool,
    ) -> Result<Tall<Declaring>, Halt>
        requires small { Small self.now.room }
        requires decl { Nests (decl_of self.now.mode self.now.room) self.now.mode self.now.room (D.pre self.now.decl) (D.post self.now.decl) }
        ensures reads { Reads (spec.base self.now.mode (parts_of self.now.mode self.now.room) self.now.room kind typed cursor.old) result cursor.new }
        ensures low { IfOk result (λ x. Below x.height (heights.raise heights.declarator self.now.room)) }
    {
        let at = cursor.here();
        match cursor.peek() {
            Some(CTokKind::Ident(name)) => self.naming(cursor, kind, typed, at, name),
            Some(CTokKind::Mark(Mark::OpenParen)) => self.opened_base(cursor, kind, typed, at),
            Some(CTokKind::Mark(Mark::OpenBracket)) => self.absent(cursor, kind, typed, at),
            _ => Err(cursor.refuse()),
        }
    }

    fn boxed_base(
        &self,
        cursor: &mut Cursor<'_>,
        kind: DeclKind,
        typed: bool,
    ) -> Result<Tall<Boxed<Declaring>>, Halt>
        requires small { Small self.now.room }
        requires decl { Nests (decl_of self.now.mode self.now.room) self.now.mode self.now.room (D.pre self.now.decl) (D.post self.now.decl) }
        ensures reads { Reads (spec.base self.now.mode (parts_of self.now.mode self.now.room) self.now.room kind typed cursor.old) result cursor.new }
        ensures low { IfOk result (λ x. Below x.height (heights.raise heights.declarator self.now.room)) }
    {
        let found = self.base(cursor, kind, typed)?;
        make::boxed(self.alloc, self.room, found)
    }
}

impl<
    L: Fn(Global, &mut Cursor<'_>, Mode, Heights, ()) -> Result<Tall<Boxed<Slot>>, Halt>,
    D,
    M,
> Rules<L, D, M> {
    #[tactic(auto, unfolding(crate::specs::Declarators::size))]
    fn size(&self, cursor: &mut Cursor<'_>) -> Result<Tall<Option<Boxed<Slot>>>, Halt>
        requires slot { Nests (slot_of self.now.mode self.now.room) self.now.mode self.now.room (L.pre self.now.slot) (L.post self.now.slot) }
        ensures reads { Reads (spec.size self.now.mode (parts_of self.now.mode self.now.room) self.now.room cursor.old) result cursor.new }
        ensures low { IfOk result (λ x. Below x.height self.now.room) }
    {
        if cursor.sees(Mark::CloseBracket) {
            return Ok(Tall {
                tree: None,
                height: heights::none(),
            });
        }
        let size = self.slot(cursor)?;
        Ok(Tall {
            tree: Some(size.tree),
            height: size.height,
        })
    }

    #[tactic(auto, unfolding(crate::specs::Declarators::array, crate::specs::Entries::fits))]
    fn array(
        &self,
        cursor: &mut Cursor<'_>,
        found: Tall<Boxed<Declaring>>,
        at: At,
    ) -> Result<Tall<Boxed<Declaring>>, Halt>
        requires small { Small self.now.room }
        requires slot { Nests (slot_of self.now.mode self.now.room) self.now.mode self.now.room (L.pre self.now.slot) (L.post self.now.slot) }
        ensures reads { Reads (spec.array self.now.mode (parts_of self.now.mode self.now.room) self.now.room found at cursor.old) result cursor.new }
        ensures low { IfOk result (λ x. Below x.height (heights.raise heights.declarator self.now.room)) }
    {
        if !heights::is_below(found.height, self.room) {
            return Err(cursor.refuse());
        }
        let size = self.size(cursor)?;
        cursor.expect(Mark::CloseBracket)?;
        make::array(self.alloc, self.room, at, found, size)
    }
}

impl<
    L: Fn(Global, &mut Cursor<'_>, Mode, Heights, ()) -> Result<Tall<Boxed<Slot>>, Halt>,
    D: Fn(Global, &mut Cursor<'_>, Mode, Heights, DeclPart) -> Result<Tall<Declaring>, Halt>,
    M: Fn(Global, &mut Cursor<'_>, Mode, Heights, ()) -> Result<Tall<Items<Member>>, Halt>,
> Rules<L, D, M> {
    #[tactic(auto, unfolding(crate::specs::Declarators::suffix))]
    fn suffix(
        &self,
        cursor: &mut Cursor<'_>,
        found: Tall<Boxed<Declaring>>,
    ) -> Result<Tall<Boxed<Declaring>>, Halt>
        requires small { Small self.now.room }
        requires slot { Nests (slot_of self.now.mode self.now.room) self.now.mode self.now.room (L.pre self.now.slot) (L.post self.now.slot) }
        requires decl { Nests (decl_of self.now.mode self.now.room) self.now.mode self.now.room (D.pre self.now.decl) (D.post self.now.decl) }
        requires members { Nests (members_of self.now.mode self.now.room) self.now.mode self.now.room (M.pre self.now.members) (M.post self.now.members) }
        ensures reads { Reads (spec.suffix self.now.mode (parts_of self.now.mode self.now.room) self.now.room found cursor.old) result cursor.new }
        ensures low { IfOk result (λ x. Below x.height (heights.raise heights.declarator self.now.room)) }
    {
        let at = cursor.here();
        let is_array = cursor.sees(Mark::OpenBracket);
        cursor.skip();
        if is_array {
            self.array(cursor, found, at)
        } else {
            self.list(cursor, found, at)
        }
    }

    fn suffixes(
        &self,
        cursor: &mut Cursor<'_>,
        mut left: Tall<Boxed<Declaring>>,
    ) -> Result<Tall<Boxed<Declaring>>, Halt>
        requires small { Small self.now.room }
        requires slot { Nests (slot_of self.now.mode self.now.room) self.now.mode self.now.room (L.pre self.now.slot) (L.post self.now.slot) }
        requires decl { Nests (decl_of self.now.mode self.now.room) self.now.mode self.now.room (D.pre self.now.decl) (D.post self.now.decl) }
        requires members { Nests (members_of self.now.mode self.now.room) self.now.mode self.now.room (M.pre self.now.members) (M.post self.now.members) }
        requires left { Below left.height (heights.raise heights.declarator self.now.room) }
        ensures reads { Reads (looped (λ _. entries.suffix_comes) (spec.suffix self.now.mode (parts_of self.now.mode self.now.room) self.now.room) left cursor.old) result cursor.new }
        ensures low { IfOk result (λ x. Below x.height (heights.raise heights.declarator self.now.room)) }
    {
        for _turn in 0..cursor.left() {
            if !cursor.suffix_comes() {
                return Ok(left);
            }
            left = self.suffix(cursor, left)?;
        }
        Ok(left)
    }

    #[tactic(auto, unfolding(crate::specs::Declarators::direct_rule))]
    /// A direct declarator.
    pub fn direct(
        &self,
        cursor: &mut Cursor<'_>,
        kind: DeclKind,
        typed: bool,
    ) -> Result<Tall<Declaring>, Halt>
        requires small { Small self.now.room }
        requires slot { Nests (slot_of self.now.mode self.now.room) self.now.mode self.now.room (L.pre self.now.slot) (L.post self.now.slot) }
        requires decl { Nests (decl_of self.now.mode self.now.room) self.now.mode self.now.room (D.pre self.now.decl) (D.post self.now.decl) }
        requires members { Nests (members_of self.now.mode self.now.room) self.now.mode self.now.room (M.pre self.now.members) (M.post self.now.members) }
        ensures reads { Reads (spec.direct_rule self.now.mode (parts_of self.now.mode self.now.room) self.now.room kind typed cursor.old) result cursor.new }
        ensures low { IfOk result (λ x. Below x.height (heights.raise heights.declarator self.now.room)) }
    {
        let first = self.boxed_base(cursor, kind, typed)?;
        let found = self.suffixes(cursor, first)?;
        Ok(make::unboxed(self.room, found))
    }

    #[tactic(auto, unfolding(crate::specs::Declarators::declarator_rule))]
    /// A declarator.
    pub fn declarator(
        &self,
        cursor: &mut Cursor<'_>,
        kind: DeclKind,
        typed: bool,
    ) -> Result<Tall<Declaring>, Halt>
        requires small { Small self.now.room }
        requires slot { Nests (slot_of self.now.mode self.now.room) self.now.mode self.now.room (L.pre self.now.slot) (L.post self.now.slot) }
        requires decl { Nests (decl_of self.now.mode self.now.room) self.now.mode self.now.room (D.pre self.now.decl) (D.post self.now.decl) }
        requires members { Nests (members_of self.now.mode self.now.room) self.now.mode self.now.room (M.pre self.now.members) (M.post self.now.members) }
        ensures reads { Reads (spec.declarator_rule self.now.mode (parts_of self.now.mode self.now.room) self.now.room kind typed cursor.old) result cursor.new }
        ensures low { IfOk result (λ x. Below x.height (heights.raise heights.declarator self.now.room)) }
    {
        let at = cursor.here();
        if cursor.eat(Mark::Star) {
            self.starred(cursor, kind, typed, at)
        } else {
            self.direct(cursor, kind, typed)
        }
    }
}
