//! Specifiers.

ghost use Rattle.std.specs.Prelude.{IfOk, false, Some, None};
ghost use Rattle.c_tree.specs.Heights.{Below};
ghost use Rattle.c_decl.specs.Declarators as spec;
ghost use Rattle.c_decl.specs.Entries as entries;
ghost use Rattle.c_decl.specs.Input.{Reads, head, looped};
ghost use Rattle.c_decl.specs.Nests.{Nests, parts_of, slot_of, members_of};

use crate::cursor::Cursor;
use crate::fault::Halt;
use crate::kind::Mode;
use crate::marking::Marked;
use crate::nodes::is_storage;
use crate::rules::Rules;
use crate::{heights, make, marks};
use c_tok::mark::Mark;
use c_tok::token::CTokKind;
use c_tree::at::At;
use c_tree::expr::{Enumerator, Member, Slot, Spec, Specs};
use c_tree::height::{Heights, Tall};
use c_tree::operator::{RecordKind, SpecWord};
use qv_base::name::Name;
use sqlite_items::{Boxed, Items};
use std::alloc::Global;

impl<L, D, M> Rules<L, D, M> {
    fn tag(&self, cursor: &mut Cursor<'_>) -> Result<Option<Name>, Halt>
        ensures reads { Reads (spec.tag_of self.now.mode (parts_of self.now.mode self.now.room) self.now.room (head cursor.old) cursor.old) result cursor.new }
    {
        let Some(CTokKind::Ident(name)) = cursor.peek() else {
            return Ok(None);
        };
        cursor.skip();
        Ok(Some(Name::from_bytes(self.alloc, name.bytes())?))
    }

    fn word_or(
        &self,
        cursor: &mut Cursor<'_>,
        storage: bool,
        at: At,
        word: Option<SpecWord>,
    ) -> Result<Tall<Boxed<Spec>>, Halt>
        ensures reads { Reads (spec.word_or self.now.mode (parts_of self.now.mode self.now.room) self.now.room storage at word cursor.old) result cursor.new }
        ensures low { IfOk result (λ x. Below x.height self.now.room) }
    {
        let Some(word) = word else {
            return Err(cursor.refuse());
        };
        if !storage && is_storage(word) {
            return Err(cursor.refuse());
        }
        cursor.skip();
        make::spec(self.alloc, self.room, Spec::Word(at, word), heights::none())
    }

    fn alias(
        &self,
        cursor: &mut Cursor<'_>,
        storage: bool,
        typed: bool,
        at: At,
        name: &Name,
    ) -> Result<Tall<Boxed<Spec>>, Halt>
        ensures reads { Reads (spec.spec_by self.now.mode (parts_of self.now.mode self.now.room) self.now.room storage typed at (Some (CTokKind.Ident name.now)) cursor.old) result cursor.new }
        ensures low { IfOk result (λ x. Below x.height self.now.room) }
    {
        if typed || !cursor.is_type(name) {
            return Err(cursor.refuse());
        }
        cursor.skip();
        let name = Name::from_bytes(self.alloc, name.bytes())?;
        make::spec(
            self.alloc,
            self.room,
            Spec::Alias(at, name),
            heights::none(),
        )
    }
}

impl<
    L,
    D,
    M: Fn(Global, &mut Cursor<'_>, Mode, Heights, ()) -> Result<Tall<Items<Member>>, Halt>,
> Rules<L, D, M> {
    #[tactic(auto, unfolding(crate::specs::Declarators::record_body))]
    fn record_body(
        &self,
        cursor: &mut Cursor<'_>,
        at: At,
        kind: RecordKind,
        name: Option<Name>,
    ) -> Result<Tall<Boxed<Spec>>, Halt>
        requires members { Nests (members_of self.now.mode self.now.room) self.now.mode self.now.room (M.pre self.now.members) (M.post self.now.members) }
        ensures reads { Reads (spec.record_body self.now.mode (parts_of self.now.mode self.now.room) self.now.room at kind name cursor.old) result cursor.new }
        ensures low { IfOk result (λ x. Below x.height self.now.room) }
    {
        let row = self.members(cursor)?;
        make::spec(
            self.alloc,
            self.room,
            Spec::Record(at, kind, name, row.tree),
            row.height,
        )
    }

    fn record_by(
        &self,
        cursor: &mut Cursor<'_>,
        at: At,
        kind: RecordKind,
        name: Option<Name>,
        opens: bool,
    ) -> Result<Tall<Boxed<Spec>>, Halt>
        requires members { Nests (members_of self.now.mode self.now.room) self.now.mode self.now.room (M.pre self.now.members) (M.post self.now.members) }
        ensures reads { Reads (spec.record_by self.now.mode (parts_of self.now.mode self.now.room) self.now.room at kind name opens cursor.old) result cursor.new }
        ensures low { IfOk result (λ x. Below x.height self.now.room) }
    {
        if opens {
            return self.record_body(cursor, at, kind, name);
        }
        match name {
            Some(name) => make::spec(
                self.alloc,
                self.room,
                Spec::RecordTag(at, kind, name),
                heights::none(),
            ),
            None => self.record_body(cursor, at, kind, None),
        }
    }

    #[tactic(auto, unfolding(crate::specs::Declarators::record_spec))]
    fn record_spec(
        &self,
        cursor: &mut Cursor<'_>,
        at: At,
        kind: RecordKind,
    ) -> Result<Tall<Boxed<Spec>>, Halt>
        requires members { Nests (members_of self.now.mode self.now.room) self.now.mode self.now.room (M.pre self.now.members) (M.post self.now.members) }
        ensures reads { Reads (spec.record_spec self.now.mode (parts_of self.now.mode self.now.room) self.now.room at kind cursor.old) result cursor.new }
        ensures low { IfOk result (λ x. Below x.height self.now.room) }
    {
        let name = self.tag(cursor)?;
        let opens = cursor.sees(Mark::OpenBrace);
        self.record_by(cursor, at, kind, name, opens)
    }
}

impl<
    L: Fn(Global, &mut Cursor<'_>, Mode, Heights, ()) -> Result<Tall<Boxed<Slot>>, Halt>,
    D,
    M,
> Rules<L, D, M> {
    #[tactic(auto, unfolding(crate::specs::Declarators::counted_from))]
    fn counted_from(
        &self,
        cursor: &mut Cursor<'_>,
        at: At,
        name: Name,
    ) -> Result<Tall<Boxed<Enumerator>>, Halt>
        requires slot { Nests (slot_of self.now.mode self.now.room) self.now.mode self.now.room (L.pre self.now.slot) (L.post self.now.slot) }
        ensures reads { Reads (spec.counted_from self.now.mode (parts_of self.now.mode self.now.room) self.now.room at name cursor.old) result cursor.new }
        ensures low { IfOk result (λ x. Below x.height self.now.room) }
    {
        let value = self.slot(cursor)?;
        cursor.declare(&name, false)?;
        make::enumerator(
            self.alloc,
            self.room,
            at,
            name,
            Some(value.tree),
            value.height,
        )
    }

    #[tactic(auto, unfolding(crate::specs::Declarators::enumerator))]
    fn enumerator(&self, cursor: &mut Cursor<'_>) -> Result<Tall<Boxed<Enumerator>>, Halt>
        requires slot { Nests (slot_of self.now.mode self.now.room) self.now.mode self.now.room (L.pre self.now.slot) (L.post self.now.slot) }
        ensures reads { Reads (spec.enumerator self.now.mode (parts_of self.now.mode self.now.room) self.now.room cursor.old) result cursor.new }
        ensures low { IfOk result (λ x. Below x.height self.now.room) }
    {
        let at = cursor.here();
        let name = cursor.a_name(self.alloc)?;
        if cursor.eat(Mark::Assign) {
            return self.counted_from(cursor, at, name);
        }
        cursor.declare(&name, false)?;
        make::enumerator(self.alloc, self.room, at, name, None, heights::none())
    }

    #[tactic(auto, unfolding(crate::specs::Entries::comma_then))]
    fn next_enumerator(
        &self,
        cursor: &mut Cursor<'_>,
        row: Tall<Items<Enumerator>>,
    ) -> Result<Tall<Items<Enumerator>>, Halt>
        requires slot { Nests (slot_of self.now.mode self.now.room) self.now.mode self.now.room (L.pre self.now.slot) (L.post self.now.slot) }
        requires row { Below row.height self.now.room }
        ensures reads { Reads (entries.comma_then (spec.enumerator self.now.mode (parts_of self.now.mode self.now.room) self.now.room) row cursor.old) result cursor.new }
        ensures low { IfOk result (λ x. Below x.height self.now.room) }
    {
        cursor.skip();
        let next = self.enumerator(cursor)?;
        make::more_enumerators(self.room, row, next)
    }

    fn more_enumerators(
        &self,
        cursor: &mut Cursor<'_>,
        mut left: Tall<Items<Enumerator>>,
    ) -> Result<Tall<Items<Enumerator>>, Halt>
        requires slot { Nests (slot_of self.now.mode self.now.room) self.now.mode self.now.room (L.pre self.now.slot) (L.post self.now.slot) }
        requires left { Below left.height self.now.room }
        ensures reads { Reads (looped (λ _. entries.comma_before Mark.CloseBrace) (entries.comma_then (spec.enumerator self.now.mode (parts_of self.now.mode self.now.room) self.now.room)) left cursor.old) result cursor.new }
        ensures low { IfOk result (λ x. Below x.height self.now.room) }
    {
        for _turn in 0..cursor.left() {
            if !cursor.comma_before(Mark::CloseBrace) {
                return Ok(left);
            }
            left = self.next_enumerator(cursor, left)?;
        }
        Ok(left)
    }

    #[tactic(auto, unfolding(crate::specs::Entries::parted_before))]
    fn enumerators(&self, cursor: &mut Cursor<'_>) -> Result<Tall<Items<Enumerator>>, Halt>
        requires slot { Nests (slot_of self.now.mode self.now.room) self.now.mode self.now.room (L.pre self.now.slot) (L.post self.now.slot) }
        ensures reads { Reads (entries.parted_before Mark.CloseBrace (spec.enumerator self.now.mode (parts_of self.now.mode self.now.room) self.now.room) cursor.old) result cursor.new }
        ensures low { IfOk result (λ x. Below x.height self.now.room) }
    {
        let first = self.enumerator(cursor)?;
        let first = make::one_enumerator(self.alloc, self.room, first)?;
        self.more_enumerators(cursor, first)
    }

    #[tactic(auto, unfolding(crate::specs::Declarators::enum_body))]
    fn enum_body(
        &self,
        cursor: &mut Cursor<'_>,
        at: At,
        name: Option<Name>,
    ) -> Result<Tall<Boxed<Spec>>, Halt>
        requires slot { Nests (slot_of self.now.mode self.now.room) self.now.mode self.now.room (L.pre self.now.slot) (L.post self.now.slot) }
        ensures reads { Reads (spec.enum_body self.now.mode (parts_of self.now.mode self.now.room) self.now.room at name cursor.old) result cursor.new }
        ensures low { IfOk result (λ x. Below x.height self.now.room) }
    {
        cursor.expect(Mark::OpenBrace)?;
        let row = self.enumerators(cursor)?;
        let comma_ends = cursor.eat(Mark::Comma);
        cursor.expect(Mark::CloseBrace)?;
        make::spec(
            self.alloc,
            self.room,
            Spec::Enum(at, name, row.tree, comma_ends),
            row.height,
        )
    }

    fn enum_by(
        &self,
        cursor: &mut Cursor<'_>,
        at: At,
        name: Option<Name>,
        opens: bool,
    ) -> Result<Tall<Boxed<Spec>>, Halt>
        requires slot { Nests (slot_of self.now.mode self.now.room) self.now.mode self.now.room (L.pre self.now.slot) (L.post self.now.slot) }
        ensures reads { Reads (spec.enum_by self.now.mode (parts_of self.now.mode self.now.room) self.now.room at name opens cursor.old) result cursor.new }
        ensures low { IfOk result (λ x. Below x.height self.now.room) }
    {
        if opens {
            return self.enum_body(cursor, at, name);
        }
        match name {
            Some(name) => make::spec(
                self.alloc,
                self.room,
                Spec::EnumTag(at, name),
                heights::none(),
            ),
            None => self.enum_body(cursor, at, None),
        }
    }

    #[tactic(auto, unfolding(crate::specs::Declarators::enum_spec))]
    fn enum_spec(&self, cursor: &mut Cursor<'_>, at: At) -> Result<Tall<Boxed<Spec>>, Halt>
        requires slot { Nests (slot_of self.now.mode self.now.room) self.now.mode self.now.room (L.pre self.now.slot) (L.post self.now.slot) }
        ensures reads { Reads (spec.enum_spec self.now.mode (parts_of self.now.mode self.now.room) self.now.room at cursor.old) result cursor.new }
        ensures low { IfOk result (λ x. Below x.height self.now.room) }
    {
        let name = self.tag(cursor)?;
        let opens = cursor.sees(Mark::OpenBrace);
        self.enum_by(cursor, at, name, opens)
    }
}

impl<
    L: Fn(Global, &mut Cursor<'_>, Mode, Heights, ()) -> Result<Tall<Boxed<Slot>>, Halt>,
    D,
    M: Fn(Global, &mut Cursor<'_>, Mode, Heights, ()) -> Result<Tall<Items<Member>>, Halt>,
> Rules<L, D, M> {
    fn marked_spec(
        &self,
        cursor: &mut Cursor<'_>,
        storage: bool,
        typed: bool,
        at: At,
        mark: Mark,
    ) -> Result<Tall<Boxed<Spec>>, Halt>
        requires slot { Nests (slot_of self.now.mode self.now.room) self.now.mode self.now.room (L.pre self.now.slot) (L.post self.now.slot) }
        requires members { Nests (members_of self.now.mode self.now.room) self.now.mode self.now.room (M.pre self.now.members) (M.post self.now.members) }
        ensures reads { Reads (spec.spec_by self.now.mode (parts_of self.now.mode self.now.room) self.now.room storage typed at (Some (CTokKind.Mark mark)) cursor.old) result cursor.new }
        ensures low { IfOk result (λ x. Below x.height self.now.room) }
    {
        match mark {
            Mark::Struct => {
                cursor.skip();
                self.record_spec(cursor, at, RecordKind::Struct)
            }
            Mark::Union => {
                cursor.skip();
                self.record_spec(cursor, at, RecordKind::Union)
            }
            Mark::Enum => {
                cursor.skip();
                self.enum_spec(cursor, at)
            }
            _ => self.word_or(cursor, storage, at, marks::word(mark)),
        }
    }

    #[tactic(auto, unfolding(crate::specs::Declarators::spec))]
    fn spec(
        &self,
        cursor: &mut Cursor<'_>,
        storage: bool,
        typed: bool,
    ) -> Result<Tall<Boxed<Spec>>, Halt>
        requires slot { Nests (slot_of self.now.mode self.now.room) self.now.mode self.now.room (L.pre self.now.slot) (L.post self.now.slot) }
        requires members { Nests (members_of self.now.mode self.now.room) self.now.mode self.now.room (M.pre self.now.members) (M.post self.now.members) }
        ensures reads { Reads (spec.spec self.now.mode (parts_of self.now.mode self.now.room) self.now.room storage typed cursor.old) result cursor.new }
        ensures low { IfOk result (λ x. Below x.height self.now.room) }
    {
        let at = cursor.here();
        match cursor.peek() {
            Some(CTokKind::Mark(mark)) => self.marked_spec(cursor, storage, typed, at, *mark),
            Some(CTokKind::Ident(name)) => self.alias(cursor, storage, typed, at, name),
            _ => Err(cursor.refuse()),
        }
    }

    #[tactic(auto, unfolding(crate::specs::Declarators::next_spec))]
    fn next_spec(
        &self,
        cursor: &mut Cursor<'_>,
        storage: bool,
        row: Tall<Specs>,
    ) -> Result<Tall<Specs>, Halt>
        requires slot { Nests (slot_of self.now.mode self.now.room) self.now.mode self.now.room (L.pre self.now.slot) (L.post self.now.slot) }
        requires members { Nests (members_of self.now.mode self.now.room) self.now.mode self.now.room (M.pre self.now.members) (M.post self.now.members) }
        requires row { Below row.height self.now.room }
        ensures reads { Reads (spec.next_spec self.now.mode (parts_of self.now.mode self.now.room) self.now.room storage row cursor.old) result cursor.new }
        ensures low { IfOk result (λ x. Below x.height self.now.room) }
    {
        let next = self.spec(cursor, storage, row.tree.is_typed)?;
        make::more_specs(self.room, row, next)
    }

    fn more_specs(
        &self,
        cursor: &mut Cursor<'_>,
        storage: bool,
        mut left: Tall<Specs>,
    ) -> Result<Tall<Specs>, Halt>
        requires slot { Nests (slot_of self.now.mode self.now.room) self.now.mode self.now.room (L.pre self.now.slot) (L.post self.now.slot) }
        requires members { Nests (members_of self.now.mode self.now.room) self.now.mode self.now.room (M.pre self.now.members) (M.post self.now.members) }
        requires left { Below left.height self.now.room }
        ensures reads { Reads (looped (λ xs. entries.spec_comes xs.tree.is_typed) (spec.next_spec self.now.mode (parts_of self.now.mode self.now.room) self.now.room storage) left cursor.old) result cursor.new }
        ensures low { IfOk result (λ x. Below x.height self.now.room) }
    {
        for _turn in 0..cursor.left() {
            if !cursor.spec_comes(left.tree.is_typed) {
                return Ok(left);
            }
            left = self.next_spec(cursor, storage, left)?;
        }
        Ok(left)
    }

    #[tactic(auto, unfolding(crate::specs::Declarators::specs))]
    /// Specifiers; with `storage` a storage class may stand among them.
    pub fn specs(&self, cursor: &mut Cursor<'_>, storage: bool) -> Result<Tall<Specs>, Halt>
        requires slot { Nests (slot_of self.now.mode self.now.room) self.now.mode self.now.room (L.pre self.now.slot) (L.post self.now.slot) }
        requires members { Nests (members_of self.now.mode self.now.room) self.now.mode self.now.room (M.pre self.now.members) (M.post self.now.members) }
        ensures reads { Reads (spec.specs self.now.mode (parts_of self.now.mode self.now.room) self.now.room storage cursor.old) result cursor.new }
        ensures low { IfOk result (λ x. Below x.height self.now.room) }
    {
        let first = self.spec(cursor, storage, false)?;
        let first = make::one_spec(self.alloc, self.room, first)?;
        let row = self.more_specs(cursor, storage, first)?;
        cursor.leave_out_if(!row.tree.is_typed, Marked::ImplicitInt, row.tree.at);
        Ok(row)
    }
}
