//! The rules take the parsers of their parts as parameters, so that each is proved by itself.

ghost use Rattle.std.specs.Prelude.{IfOk};
ghost use Rattle.c_tree.specs.Heights.{Below};
ghost use Rattle.c_decl.specs.Input.{Reads};
ghost use Rattle.c_decl.specs.Nests.{Nests, slot_of, decl_of, members_of};

use crate::cursor::Cursor;
use crate::fault::Halt;
use crate::kind::{DeclPart, Mode};
use c_tree::declaring::Declaring;
use c_tree::expr::{Member, Slot};
use c_tree::height::{Heights, Tall};
use sqlite_items::{Boxed, Items};
use std::alloc::Global;

/// The rules of specifiers and declarators, over what reads sizes and values, declarators, and the
/// members of records.
#[derive(Clone, Copy)]
pub struct Rules<L, D, M> {
    /// Where trees are kept.
    pub alloc: Global,
    /// What is done with sizes and values.
    pub mode: Mode,
    /// How deep the parts may nest.
    pub room: Heights,
    /// Reads a size or a value.
    pub slot: L,
    /// Reads a declarator.
    pub decl: D,
    /// Reads the members of a record, with their braces.
    pub members: M,
}

impl<
    L: Fn(Global, &mut Cursor<'_>, Mode, Heights, ()) -> Result<Tall<Boxed<Slot>>, Halt>,
    D,
    M,
> Rules<L, D, M> {
    /// A size or a value.
    pub fn slot(&self, cursor: &mut Cursor<'_>) -> Result<Tall<Boxed<Slot>>, Halt>
        requires { Nests (slot_of self.now.mode self.now.room) self.now.mode self.now.room (L.pre self.now.slot) (L.post self.now.slot) }
        ensures reads { Reads (slot_of self.now.mode self.now.room tt cursor.old) result cursor.new }
        ensures low { IfOk result (λ x. Below x.height self.now.room) }
    {
        (self.slot)(self.alloc, cursor, self.mode, self.room, ())
    }
}

impl<
    L,
    D: Fn(Global, &mut Cursor<'_>, Mode, Heights, DeclPart) -> Result<Tall<Declaring>, Halt>,
    M,
> Rules<L, D, M> {
    /// A declarator.
    pub fn decl(&self, cursor: &mut Cursor<'_>, part: DeclPart) -> Result<Tall<Declaring>, Halt>
        requires { Nests (decl_of self.now.mode self.now.room) self.now.mode self.now.room (D.pre self.now.decl) (D.post self.now.decl) }
        ensures reads { Reads (decl_of self.now.mode self.now.room part cursor.old) result cursor.new }
        ensures low { IfOk result (λ x. Below x.height self.now.room) }
    {
        (self.decl)(self.alloc, cursor, self.mode, self.room, part)
    }
}

impl<
    L,
    D,
    M: Fn(Global, &mut Cursor<'_>, Mode, Heights, ()) -> Result<Tall<Items<Member>>, Halt>,
> Rules<L, D, M> {
    /// The members of a record, with their braces.
    pub fn members(&self, cursor: &mut Cursor<'_>) -> Result<Tall<Items<Member>>, Halt>
        requires { Nests (members_of self.now.mode self.now.room) self.now.mode self.now.room (M.pre self.now.members) (M.post self.now.members) }
        ensures reads { Reads (members_of self.now.mode self.now.room tt cursor.old) result cursor.new }
        ensures low { IfOk result (λ x. Below x.height self.now.room) }
    {
        (self.members)(self.alloc, cursor, self.mode, self.room, ())
    }
}
