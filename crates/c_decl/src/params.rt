//! Parameters and the names of types.

ghost use Rattle.std.specs.Prelude.{IfOk, true, false, Some};
ghost use Rattle.c_tok.specs.declared.mark.Mark.TheVariants as m;
ghost use Rattle.c_tree.specs.Heights as heights;
ghost use Rattle.c_tree.specs.Heights.{Below};
ghost use Rattle.c_decl.specs.Declarators as spec;
ghost use Rattle.c_decl.specs.Entries as entries;
ghost use Rattle.c_decl.specs.Input.{Reads, sees, looped};
ghost use Rattle.c_decl.specs.Nests.{Nests, Small, parts_of, slot_of, decl_of, members_of};

use crate::cursor::Cursor;
use crate::fault::Halt;
use crate::kind::{DeclKind, DeclPart, Mode};
use crate::marking::Marked;
use crate::rules::Rules;
use crate::{heights, make, nodes};
use c_tok::mark::Mark;
use c_tok::token::CTokKind;
use c_tree::at::At;
use c_tree::declaring::{Declaring, Params};
use c_tree::expr::{Member, Param, Slot, Specs, TypeName};
use c_tree::height::{Heights, Tall};
use sqlite_items::{Boxed, Items};
use std::alloc::Global;

impl<L, D, M> Rules<L, D, M> {
    #[tactic(auto, unfolding(crate::specs::Declarators::identifier))]
    fn identifier(&self, cursor: &mut Cursor<'_>) -> Result<(), Halt>
        ensures reads { Reads (spec.identifier self.now.mode (parts_of self.now.mode self.now.room) self.now.room cursor.old) result cursor.new }
    {
        let Some(CTokKind::Ident(name)) = cursor.peek() else {
            return Err(cursor.refuse());
        };
        if cursor.is_type(name) {
            return Err(cursor.refuse());
        }
        cursor.skip();
        Ok(())
    }

    #[tactic(auto, unfolding(crate::specs::Declarators::next_identifier))]
    fn next_identifier(&self, cursor: &mut Cursor<'_>) -> Result<(), Halt>
        ensures reads { Reads (spec.next_identifier self.now.mode (parts_of self.now.mode self.now.room) self.now.room tt cursor.old) result cursor.new }
    {
        cursor.skip();
        self.identifier(cursor)
    }

    fn more_identifiers(&self, cursor: &mut Cursor<'_>) -> Result<(), Halt>
        ensures reads { Reads (looped (λ _. sees m.Comma) (spec.next_identifier self.now.mode (parts_of self.now.mode self.now.room) self.now.room) tt cursor.old) result cursor.new }
    {
        for _turn in 0..cursor.left() {
            if !cursor.sees(Mark::Comma) {
                return Ok(());
            }
            self.next_identifier(cursor)?;
        }
        Ok(())
    }

    #[tactic(auto, unfolding(crate::specs::Declarators::old_style))]
    fn old_style(
        &self,
        cursor: &mut Cursor<'_>,
        found: Tall<Boxed<Declaring>>,
        at: At,
    ) -> Result<Tall<Boxed<Declaring>>, Halt>
        requires small { Small self.now.room }
        requires found { Below found.height self.now.room }
        ensures reads { Reads (spec.old_style self.now.mode (parts_of self.now.mode self.now.room) self.now.room found at cursor.old) result cursor.new }
        ensures low { IfOk result (λ x. Below x.height (heights.raise heights.declarator self.now.room)) }
    {
        self.identifier(cursor)?;
        self.more_identifiers(cursor)?;
        cursor.expect(Mark::CloseParen)?;
        cursor.leave_out(Marked::OldStyle, nodes::begins(at, found.tree.get()));
        make::bare_function(self.alloc, self.room, at, found)
    }
}

impl<
    L: Fn(Global, &mut Cursor<'_>, Mode, Heights, ()) -> Result<Tall<Boxed<Slot>>, Halt>,
    D: Fn(Global, &mut Cursor<'_>, Mode, Heights, DeclPart) -> Result<Tall<Declaring>, Halt>,
    M: Fn(Global, &mut Cursor<'_>, Mode, Heights, ()) -> Result<Tall<Items<Member>>, Halt>,
> Rules<L, D, M> {
    #[tactic(auto, unfolding(crate::specs::Declarators::declared))]
    fn declared(
        &self,
        cursor: &mut Cursor<'_>,
        specs: Tall<Specs>,
    ) -> Result<Tall<Boxed<Param>>, Halt>
        requires decl { Nests (decl_of self.now.mode self.now.room) self.now.mode self.now.room (D.pre self.now.decl) (D.post self.now.decl) }
        requires specs { Below specs.height self.now.room }
        ensures reads { Reads (spec.declared self.now.mode (parts_of self.now.mode self.now.room) self.now.room specs cursor.old) result cursor.new }
        ensures low { IfOk result (λ x. Below x.height self.now.room) }
    {
        let part = DeclPart::Declarator(DeclKind::Param, specs.tree.is_typed);
        let found = self.decl(cursor, part)?;
        cursor.declares(&found.tree.name, specs.tree.is_typedef)?;
        make::param(self.alloc, self.room, specs, found)
    }

    #[tactic(auto, unfolding(crate::specs::Declarators::param))]
    fn param(&self, cursor: &mut Cursor<'_>) -> Result<Tall<Boxed<Param>>, Halt>
        requires slot { Nests (slot_of self.now.mode self.now.room) self.now.mode self.now.room (L.pre self.now.slot) (L.post self.now.slot) }
        requires decl { Nests (decl_of self.now.mode self.now.room) self.now.mode self.now.room (D.pre self.now.decl) (D.post self.now.decl) }
        requires members { Nests (members_of self.now.mode self.now.room) self.now.mode self.now.room (M.pre self.now.members) (M.post self.now.members) }
        ensures reads { Reads (spec.param self.now.mode (parts_of self.now.mode self.now.room) self.now.room cursor.old) result cursor.new }
        ensures low { IfOk result (λ x. Below x.height self.now.room) }
    {
        let specs = self.specs(cursor, true)?;
        if cursor.declarator_comes(DeclKind::Param, specs.tree.is_typed) {
            return self.declared(cursor, specs);
        }
        make::bare_param(self.alloc, self.room, specs)
    }

    #[tactic(auto, unfolding(crate::specs::Entries::comma_then))]
    fn next_param(
        &self,
        cursor: &mut Cursor<'_>,
        row: Tall<Items<Param>>,
    ) -> Result<Tall<Items<Param>>, Halt>
        requires slot { Nests (slot_of self.now.mode self.now.room) self.now.mode self.now.room (L.pre self.now.slot) (L.post self.now.slot) }
        requires decl { Nests (decl_of self.now.mode self.now.room) self.now.mode self.now.room (D.pre self.now.decl) (D.post self.now.decl) }
        requires members { Nests (members_of self.now.mode self.now.room) self.now.mode self.now.room (M.pre self.now.members) (M.post self.now.members) }
        requires row { Below row.height self.now.room }
        ensures reads { Reads (entries.comma_then (spec.param self.now.mode (parts_of self.now.mode self.now.room) self.now.room) row cursor.old) result cursor.new }
        ensures low { IfOk result (λ x. Below x.height self.now.room) }
    {
        cursor.skip();
        let next = self.param(cursor)?;
        make::more_params(self.room, row, next)
    }

    fn more_params(
        &self,
        cursor: &mut Cursor<'_>,
        mut left: Tall<Items<Param>>,
    ) -> Result<Tall<Items<Param>>, Halt>
        requires slot { Nests (slot_of self.now.mode self.now.room) self.now.mode self.now.room (L.pre self.now.slot) (L.post self.now.slot) }
        requires decl { Nests (decl_of self.now.mode self.now.room) self.now.mode self.now.room (D.pre self.now.decl) (D.post self.now.decl) }
        requires members { Nests (members_of self.now.mode self.now.room) self.now.mode self.now.room (M.pre self.now.members) (M.post self.now.members) }
        requires left { Below left.height self.now.room }
        ensures reads { Reads (looped (λ _. entries.comma_before m.Ellipsis) (entries.comma_then (spec.param self.now.mode (parts_of self.now.mode self.now.room) self.now.room)) left cursor.old) result cursor.new }
        ensures low { IfOk result (λ x. Below x.height self.now.room) }
    {
        for _turn in 0..cursor.left() {
            if !cursor.comma_before(Mark::Ellipsis) {
                return Ok(left);
            }
            left = self.next_param(cursor, left)?;
        }
        Ok(left)
    }

    #[tactic(auto, unfolding(crate::specs::Entries::parted_before))]
    fn param_row(&self, cursor: &mut Cursor<'_>) -> Result<Tall<Items<Param>>, Halt>
        requires slot { Nests (slot_of self.now.mode self.now.room) self.now.mode self.now.room (L.pre self.now.slot) (L.post self.now.slot) }
        requires decl { Nests (decl_of self.now.mode self.now.room) self.now.mode self.now.room (D.pre self.now.decl) (D.post self.now.decl) }
        requires members { Nests (members_of self.now.mode self.now.room) self.now.mode self.now.room (M.pre self.now.members) (M.post self.now.members) }
        ensures reads { Reads (entries.parted_before m.Ellipsis (spec.param self.now.mode (parts_of self.now.mode self.now.room) self.now.room) cursor.old) result cursor.new }
        ensures low { IfOk result (λ x. Below x.height self.now.room) }
    {
        let first = self.param(cursor)?;
        let first = make::one_param(self.alloc, self.room, first)?;
        self.more_params(cursor, first)
    }

    #[tactic(auto, unfolding(crate::specs::Declarators::params))]
    fn params(&self, cursor: &mut Cursor<'_>) -> Result<Tall<Params>, Halt>
        requires slot { Nests (slot_of self.now.mode self.now.room) self.now.mode self.now.room (L.pre self.now.slot) (L.post self.now.slot) }
        requires decl { Nests (decl_of self.now.mode self.now.room) self.now.mode self.now.room (D.pre self.now.decl) (D.post self.now.decl) }
        requires members { Nests (members_of self.now.mode self.now.room) self.now.mode self.now.room (M.pre self.now.members) (M.post self.now.members) }
        ensures reads { Reads (spec.params self.now.mode (parts_of self.now.mode self.now.room) self.now.room cursor.old) result cursor.new }
        ensures low { IfOk result (λ x. Below x.height self.now.room) }
    {
        let row = self.param_row(cursor)?;
        let is_variadic = cursor.eat(Mark::Comma);
        if is_variadic {
            cursor.expect(Mark::Ellipsis)?;
        }
        Ok(Tall {
            tree: Params {
                items: row.tree,
                is_variadic,
            },
            height: row.height,
        })
    }

    #[tactic(auto, unfolding(crate::specs::Declarators::function, crate::specs::State::leave, crate::specs::State::declared_since))]
    fn function(
        &self,
        cursor: &mut Cursor<'_>,
        found: Tall<Boxed<Declaring>>,
        at: At,
    ) -> Result<Tall<Boxed<Declaring>>, Halt>
        requires small { Small self.now.room }
        requires slot { Nests (slot_of self.now.mode self.now.room) self.now.mode self.now.room (L.pre self.now.slot) (L.post self.now.slot) }
        requires decl { Nests (decl_of self.now.mode self.now.room) self.now.mode self.now.room (D.pre self.now.decl) (D.post self.now.decl) }
        requires members { Nests (members_of self.now.mode self.now.room) self.now.mode self.now.room (M.pre self.now.members) (M.post self.now.members) }
        requires found { Below found.height self.now.room }
        ensures reads { Reads (spec.function self.now.mode (parts_of self.now.mode self.now.room) self.now.room found at cursor.old) result cursor.new }
        ensures low { IfOk result (λ x. Below x.height (heights.raise heights.declarator self.now.room)) }
    {
        let before = cursor.declared();
        let params = self.params(cursor)?;
        cursor.expect(Mark::CloseParen)?;
        let declared = cursor.declared_since(before)?;
        cursor.leave(before);
        make::function(self.alloc, self.room, at, found, params, declared)
    }

    fn list_by(
        &self,
        cursor: &mut Cursor<'_>,
        found: Tall<Boxed<Declaring>>,
        at: At,
        word: bool,
        closes: bool,
    ) -> Result<Tall<Boxed<Declaring>>, Halt>
        requires small { Small self.now.room }
        requires slot { Nests (slot_of self.now.mode self.now.room) self.now.mode self.now.room (L.pre self.now.slot) (L.post self.now.slot) }
        requires decl { Nests (decl_of self.now.mode self.now.room) self.now.mode self.now.room (D.pre self.now.decl) (D.post self.now.decl) }
        requires members { Nests (members_of self.now.mode self.now.room) self.now.mode self.now.room (M.pre self.now.members) (M.post self.now.members) }
        requires found { Below found.height self.now.room }
        ensures reads { Reads (spec.list_by self.now.mode (parts_of self.now.mode self.now.room) self.now.room found at word closes cursor.old) result cursor.new }
        ensures low { IfOk result (λ x. Below x.height (heights.raise heights.declarator self.now.room)) }
    {
        if word {
            return self.function(cursor, found, at);
        }
        if closes {
            cursor.skip();
            return make::bare_function(self.alloc, self.room, at, found);
        }
        if found.tree.get().name.is_none() {
            return Err(cursor.refuse());
        }
        self.old_style(cursor, found, at)
    }

    #[tactic(auto, unfolding(crate::specs::Declarators::list, crate::specs::Entries::fits))]
    /// A list of parameters, behind its parenthesis.
    pub fn list(
        &self,
        cursor: &mut Cursor<'_>,
        found: Tall<Boxed<Declaring>>,
        at: At,
    ) -> Result<Tall<Boxed<Declaring>>, Halt>
        requires small { Small self.now.room }
        requires slot { Nests (slot_of self.now.mode self.now.room) self.now.mode self.now.room (L.pre self.now.slot) (L.post self.now.slot) }
        requires decl { Nests (decl_of self.now.mode self.now.room) self.now.mode self.now.room (D.pre self.now.decl) (D.post self.now.decl) }
        requires members { Nests (members_of self.now.mode self.now.room) self.now.mode self.now.room (M.pre self.now.members) (M.post self.now.members) }
        ensures reads { Reads (spec.list self.now.mode (parts_of self.now.mode self.now.room) self.now.room found at cursor.old) result cursor.new }
        ensures low { IfOk result (λ x. Below x.height (heights.raise heights.declarator self.now.room)) }
    {
        if !heights::is_below(found.height, self.room) {
            return Err(cursor.refuse());
        }
        let word = cursor.word_comes();
        let closes = cursor.sees(Mark::CloseParen);
        self.list_by(cursor, found, at, word, closes)
    }

    #[tactic(auto, unfolding(crate::specs::Declarators::typed_name))]
    fn typed_name(
        &self,
        cursor: &mut Cursor<'_>,
        specs: Tall<Specs>,
    ) -> Result<Tall<Boxed<TypeName>>, Halt>
        requires decl { Nests (decl_of self.now.mode self.now.room) self.now.mode self.now.room (D.pre self.now.decl) (D.post self.now.decl) }
        requires specs { Below specs.height self.now.room }
        ensures reads { Reads (spec.typed_name self.now.mode (parts_of self.now.mode self.now.room) self.now.room specs cursor.old) result cursor.new }
        ensures low { IfOk result (λ x. Below x.height self.now.room) }
    {
        let part = DeclPart::Declarator(DeclKind::Abstract, specs.tree.is_typed);
        let found = self.decl(cursor, part)?;
        make::type_name(self.alloc, self.room, specs, found)
    }

    #[tactic(auto, unfolding(crate::specs::Declarators::type_name))]
    /// The name of a type.
    pub fn type_name(&self, cursor: &mut Cursor<'_>) -> Result<Tall<Boxed<TypeName>>, Halt>
        requires slot { Nests (slot_of self.now.mode self.now.room) self.now.mode self.now.room (L.pre self.now.slot) (L.post self.now.slot) }
        requires decl { Nests (decl_of self.now.mode self.now.room) self.now.mode self.now.room (D.pre self.now.decl) (D.post self.now.decl) }
        requires members { Nests (members_of self.now.mode self.now.room) self.now.mode self.now.room (M.pre self.now.members) (M.post self.now.members) }
        ensures reads { Reads (spec.type_name self.now.mode (parts_of self.now.mode self.now.room) self.now.room cursor.old) result cursor.new }
        ensures low { IfOk result (λ x. Below x.height self.now.room) }
    {
        let specs = self.specs(cursor, false)?;
        if cursor.declarator_comes(DeclKind::Abstract, specs.tree.is_typed) {
            return self.typed_name(cursor, specs);
        }
        make::bare_type_name(self.alloc, self.room, specs)
    }
}
