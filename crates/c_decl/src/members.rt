//! Members of records.

ghost use Rattle.std.specs.Prelude.{IfOk, not, true, false};
ghost use Rattle.c_tok.specs.declared.mark.Mark.TheVariants as m;
ghost use Rattle.c_tree.specs.Heights as heights;
ghost use Rattle.c_tree.specs.Heights.{Below, tall};
ghost use Rattle.c_decl.specs.Declarators as spec;
ghost use Rattle.c_decl.specs.Entries as entries;
ghost use Rattle.c_decl.specs.Input.{Reads, sees, looped};
ghost use Rattle.c_decl.specs.Nests.{Nests, Small, parts_of, slot_of, decl_of, members_of};

use crate::cursor::Cursor;
use crate::fault::Halt;
use crate::kind::{DeclKind, DeclPart, Mode};
use crate::marking::Marked;
use crate::rules::Rules;
use crate::{heights, make};
use c_tok::mark::Mark;
use c_tree::declaring::Declaring;
use c_tree::expr::{Declarator, Member, Slot};
use c_tree::height::{Heights, Tall};
use sqlite_items::{Boxed, Items};
use std::alloc::Global;

impl<
    L: Fn(Global, &mut Cursor<'_>, Mode, Heights, ()) -> Result<Tall<Boxed<Slot>>, Halt>,
    D,
    M,
> Rules<L, D, M> {
    #[tactic(auto, unfolding(crate::specs::Declarators::width))]
    fn width(
        &self,
        cursor: &mut Cursor<'_>,
        field: Tall<Boxed<Declarator>>,
    ) -> Result<Tall<Boxed<Declarator>>, Halt>
        requires slot { Nests (slot_of self.now.mode self.now.room) self.now.mode self.now.room (L.pre self.now.slot) (L.post self.now.slot) }
        requires field { Below field.height self.now.room }
        ensures reads { Reads (spec.width self.now.mode (parts_of self.now.mode self.now.room) self.now.room field cursor.old) result cursor.new }
        ensures low { IfOk result (λ x. Below x.height self.now.room) }
    {
        let width = self.slot(cursor)?;
        Ok(Tall {
            tree: field.tree,
            height: heights::join(self.room, field.height, width.height),
        })
    }

    // A width without a name, behind its colon.
    fn bare_width(&self, cursor: &mut Cursor<'_>) -> Result<Tall<Boxed<Declarator>>, Halt>
        requires slot { Nests (slot_of self.now.mode self.now.room) self.now.mode self.now.room (L.pre self.now.slot) (L.post self.now.slot) }
        ensures reads { Reads (spec.width self.now.mode (parts_of self.now.mode self.now.room) self.now.room (tall Declarator.Nothing heights.none) cursor.old) result cursor.new }
        ensures low { IfOk result (λ x. Below x.height self.now.room) }
    {
        let field = make::no_declarator(self.alloc, self.room)?;
        self.width(cursor, field)
    }
}

impl<
    L,
    D: Fn(Global, &mut Cursor<'_>, Mode, Heights, DeclPart) -> Result<Tall<Declaring>, Halt>,
    M,
> Rules<L, D, M> {
    #[tactic(auto, unfolding(crate::specs::Declarators::plain_field))]
    fn plain_field(
        &self,
        cursor: &mut Cursor<'_>,
        typed: bool,
    ) -> Result<Tall<Boxed<Declarator>>, Halt>
        requires decl { Nests (decl_of self.now.mode self.now.room) self.now.mode self.now.room (D.pre self.now.decl) (D.post self.now.decl) }
        ensures reads { Reads (spec.plain_field self.now.mode (parts_of self.now.mode self.now.room) self.now.room typed cursor.old) result cursor.new }
        ensures low { IfOk result (λ x. Below x.height self.now.room) }
    {
        let found = self.decl(cursor, DeclPart::Declarator(DeclKind::Named, typed))?;
        Ok(make::only_tree(self.room, found))
    }
}

impl<
    L: Fn(Global, &mut Cursor<'_>, Mode, Heights, ()) -> Result<Tall<Boxed<Slot>>, Halt>,
    D: Fn(Global, &mut Cursor<'_>, Mode, Heights, DeclPart) -> Result<Tall<Declaring>, Halt>,
    M,
> Rules<L, D, M> {
    #[tactic(auto, unfolding(crate::specs::Declarators::named_width))]
    fn named_width(
        &self,
        cursor: &mut Cursor<'_>,
        typed: bool,
    ) -> Result<Tall<Boxed<Declarator>>, Halt>
        requires slot { Nests (slot_of self.now.mode self.now.room) self.now.mode self.now.room (L.pre self.now.slot) (L.post self.now.slot) }
        requires decl { Nests (decl_of self.now.mode self.now.room) self.now.mode self.now.room (D.pre self.now.decl) (D.post self.now.decl) }
        ensures reads { Reads (spec.named_width self.now.mode (parts_of self.now.mode self.now.room) self.now.room typed cursor.old) result cursor.new }
        ensures low { IfOk result (λ x. Below x.height self.now.room) }
    {
        let field = self.plain_field(cursor, typed)?;
        cursor.expect(Mark::Colon)?;
        self.width(cursor, field)
    }

    #[tactic(auto, unfolding(crate::specs::Declarators::field))]
    fn field(
        &self,
        cursor: &mut Cursor<'_>,
        has_width: bool,
        typed: bool,
    ) -> Result<Tall<Boxed<Declarator>>, Halt>
        requires slot { Nests (slot_of self.now.mode self.now.room) self.now.mode self.now.room (L.pre self.now.slot) (L.post self.now.slot) }
        requires decl { Nests (decl_of self.now.mode self.now.room) self.now.mode self.now.room (D.pre self.now.decl) (D.post self.now.decl) }
        ensures reads { Reads (spec.field self.now.mode (parts_of self.now.mode self.now.room) self.now.room has_width typed cursor.old) result cursor.new }
        ensures low { IfOk result (λ x. Below x.height self.now.room) }
    {
        if !has_width {
            return self.plain_field(cursor, typed);
        }
        if !cursor.sees(Mark::Colon) {
            return self.named_width(cursor, typed);
        }
        cursor.skip();
        self.bare_width(cursor)
    }

    #[tactic(auto, unfolding(crate::specs::Declarators::first_named))]
    fn first_named(
        &self,
        cursor: &mut Cursor<'_>,
        typed: bool,
    ) -> Result<(bool, Tall<Boxed<Declarator>>), Halt>
        requires slot { Nests (slot_of self.now.mode self.now.room) self.now.mode self.now.room (L.pre self.now.slot) (L.post self.now.slot) }
        requires decl { Nests (decl_of self.now.mode self.now.room) self.now.mode self.now.room (D.pre self.now.decl) (D.post self.now.decl) }
        ensures reads { Reads (spec.first_named self.now.mode (parts_of self.now.mode self.now.room) self.now.room typed cursor.old) result cursor.new }
        ensures low { IfOk result (λ x. Below x.1.height self.now.room) }
    {
        let field = self.plain_field(cursor, typed)?;
        if !cursor.eat(Mark::Colon) {
            return Ok((false, field));
        }
        let field = self.width(cursor, field)?;
        Ok((true, field))
    }

    #[tactic(auto, unfolding(crate::specs::Declarators::first_field))]
    fn first_field(
        &self,
        cursor: &mut Cursor<'_>,
        typed: bool,
    ) -> Result<(bool, Tall<Boxed<Declarator>>), Halt>
        requires slot { Nests (slot_of self.now.mode self.now.room) self.now.mode self.now.room (L.pre self.now.slot) (L.post self.now.slot) }
        requires decl { Nests (decl_of self.now.mode self.now.room) self.now.mode self.now.room (D.pre self.now.decl) (D.post self.now.decl) }
        ensures reads { Reads (spec.first_field self.now.mode (parts_of self.now.mode self.now.room) self.now.room typed cursor.old) result cursor.new }
        ensures low { IfOk result (λ x. Below x.1.height self.now.room) }
    {
        if !cursor.eat(Mark::Colon) {
            return self.first_named(cursor, typed);
        }
        let field = self.bare_width(cursor)?;
        Ok((true, field))
    }

    #[tactic(auto, unfolding(crate::specs::Entries::comma_then))]
    fn next_field(
        &self,
        cursor: &mut Cursor<'_>,
        has_width: bool,
        typed: bool,
        row: Tall<Items<Declarator>>,
    ) -> Result<Tall<Items<Declarator>>, Halt>
        requires slot { Nests (slot_of self.now.mode self.now.room) self.now.mode self.now.room (L.pre self.now.slot) (L.post self.now.slot) }
        requires decl { Nests (decl_of self.now.mode self.now.room) self.now.mode self.now.room (D.pre self.now.decl) (D.post self.now.decl) }
        requires row { Below row.height self.now.room }
        ensures reads { Reads (entries.comma_then (spec.field self.now.mode (parts_of self.now.mode self.now.room) self.now.room has_width typed) row cursor.old) result cursor.new }
        ensures low { IfOk result (λ x. Below x.height self.now.room) }
    {
        cursor.skip();
        let next = self.field(cursor, has_width, typed)?;
        make::more_fields(self.room, row, next)
    }

    fn more_fields(
        &self,
        cursor: &mut Cursor<'_>,
        has_width: bool,
        typed: bool,
        mut left: Tall<Items<Declarator>>,
    ) -> Result<Tall<Items<Declarator>>, Halt>
        requires slot { Nests (slot_of self.now.mode self.now.room) self.now.mode self.now.room (L.pre self.now.slot) (L.post self.now.slot) }
        requires decl { Nests (decl_of self.now.mode self.now.room) self.now.mode self.now.room (D.pre self.now.decl) (D.post self.now.decl) }
        requires left { Below left.height self.now.room }
        ensures reads { Reads (looped (λ _. sees m.Comma) (entries.comma_then (spec.field self.now.mode (parts_of self.now.mode self.now.room) self.now.room has_width typed)) left cursor.old) result cursor.new }
        ensures low { IfOk result (λ x. Below x.height self.now.room) }
    {
        for _turn in 0..cursor.left() {
            if !cursor.sees(Mark::Comma) {
                return Ok(left);
            }
            left = self.next_field(cursor, has_width, typed, left)?;
        }
        Ok(left)
    }
}

impl<
    L: Fn(Global, &mut Cursor<'_>, Mode, Heights, ()) -> Result<Tall<Boxed<Slot>>, Halt>,
    D: Fn(Global, &mut Cursor<'_>, Mode, Heights, DeclPart) -> Result<Tall<Declaring>, Halt>,
    M: Fn(Global, &mut Cursor<'_>, Mode, Heights, ()) -> Result<Tall<Items<Member>>, Halt>,
> Rules<L, D, M> {
    #[tactic(auto, unfolding(crate::specs::Declarators::member))]
    fn member(&self, cursor: &mut Cursor<'_>) -> Result<Tall<Boxed<Member>>, Halt>
        requires slot { Nests (slot_of self.now.mode self.now.room) self.now.mode self.now.room (L.pre self.now.slot) (L.post self.now.slot) }
        requires decl { Nests (decl_of self.now.mode self.now.room) self.now.mode self.now.room (D.pre self.now.decl) (D.post self.now.decl) }
        requires members { Nests (members_of self.now.mode self.now.room) self.now.mode self.now.room (M.pre self.now.members) (M.post self.now.members) }
        ensures reads { Reads (spec.member self.now.mode (parts_of self.now.mode self.now.room) self.now.room cursor.old) result cursor.new }
        ensures low { IfOk result (λ x. Below x.height self.now.room) }
    {
        let specs = self.specs(cursor, true)?;
        let (has_width, first) = self.first_field(cursor, specs.tree.is_typed)?;
        let first = make::one_field(self.alloc, self.room, first)?;
        let row = self.more_fields(cursor, has_width, specs.tree.is_typed, first)?;
        cursor.expect(Mark::Semicolon)?;
        cursor.leave_out_if(has_width, Marked::BitField, specs.tree.at);
        make::member(self.alloc, self.room, specs, row)
    }

    #[tactic(auto, unfolding(crate::specs::Entries::then_one))]
    fn next_member(
        &self,
        cursor: &mut Cursor<'_>,
        row: Tall<Items<Member>>,
    ) -> Result<Tall<Items<Member>>, Halt>
        requires slot { Nests (slot_of self.now.mode self.now.room) self.now.mode self.now.room (L.pre self.now.slot) (L.post self.now.slot) }
        requires decl { Nests (decl_of self.now.mode self.now.room) self.now.mode self.now.room (D.pre self.now.decl) (D.post self.now.decl) }
        requires members { Nests (members_of self.now.mode self.now.room) self.now.mode self.now.room (M.pre self.now.members) (M.post self.now.members) }
        requires row { Below row.height self.now.room }
        ensures reads { Reads (entries.then_one (spec.member self.now.mode (parts_of self.now.mode self.now.room) self.now.room) row cursor.old) result cursor.new }
        ensures low { IfOk result (λ x. Below x.height self.now.room) }
    {
        let next = self.member(cursor)?;
        make::more_members(self.room, row, next)
    }

    fn more_members(
        &self,
        cursor: &mut Cursor<'_>,
        mut left: Tall<Items<Member>>,
    ) -> Result<Tall<Items<Member>>, Halt>
        requires slot { Nests (slot_of self.now.mode self.now.room) self.now.mode self.now.room (L.pre self.now.slot) (L.post self.now.slot) }
        requires decl { Nests (decl_of self.now.mode self.now.room) self.now.mode self.now.room (D.pre self.now.decl) (D.post self.now.decl) }
        requires members { Nests (members_of self.now.mode self.now.room) self.now.mode self.now.room (M.pre self.now.members) (M.post self.now.members) }
        requires left { Below left.height self.now.room }
        ensures reads { Reads (looped (λ _ i. not (sees m.CloseBrace i)) (entries.then_one (spec.member self.now.mode (parts_of self.now.mode self.now.room) self.now.room)) left cursor.old) result cursor.new }
        ensures low { IfOk result (λ x. Below x.height self.now.room) }
    {
        for _turn in 0..cursor.left() {
            if cursor.sees(Mark::CloseBrace) {
                return Ok(left);
            }
            left = self.next_member(cursor, left)?;
        }
        Ok(left)
    }

    #[tactic(auto, unfolding(crate::specs::Entries::some_while))]
    fn member_row(&self, cursor: &mut Cursor<'_>) -> Result<Tall<Items<Member>>, Halt>
        requires slot { Nests (slot_of self.now.mode self.now.room) self.now.mode self.now.room (L.pre self.now.slot) (L.post self.now.slot) }
        requires decl { Nests (decl_of self.now.mode self.now.room) self.now.mode self.now.room (D.pre self.now.decl) (D.post self.now.decl) }
        requires members { Nests (members_of self.now.mode self.now.room) self.now.mode self.now.room (M.pre self.now.members) (M.post self.now.members) }
        ensures reads { Reads (entries.some_while (λ i. not (sees m.CloseBrace i)) (spec.member self.now.mode (parts_of self.now.mode self.now.room) self.now.room) cursor.old) result cursor.new }
        ensures low { IfOk result (λ x. Below x.height self.now.room) }
    {
        let first = self.member(cursor)?;
        let first = make::one_member(self.alloc, self.room, first)?;
        self.more_members(cursor, first)
    }

    #[tactic(auto, unfolding(crate::specs::Declarators::enclosed))]
    /// The members of a record, with their braces.
    pub fn enclosed(&self, cursor: &mut Cursor<'_>) -> Result<Tall<Items<Member>>, Halt>
        requires small { Small self.now.room }
        requires slot { Nests (slot_of self.now.mode self.now.room) self.now.mode self.now.room (L.pre self.now.slot) (L.post self.now.slot) }
        requires decl { Nests (decl_of self.now.mode self.now.room) self.now.mode self.now.room (D.pre self.now.decl) (D.post self.now.decl) }
        requires members { Nests (members_of self.now.mode self.now.room) self.now.mode self.now.room (M.pre self.now.members) (M.post self.now.members) }
        ensures reads { Reads (spec.enclosed self.now.mode (parts_of self.now.mode self.now.room) self.now.room cursor.old) result cursor.new }
        ensures low { IfOk result (λ x. Below x.height (heights.raise heights.members self.now.room)) }
    {
        cursor.expect(Mark::OpenBrace)?;
        let row = self.member_row(cursor)?;
        cursor.expect(Mark::CloseBrace)?;
        Ok(Tall {
            tree: row.tree,
            height: heights::raise_members(self.room, row.height),
        })
    }
}
