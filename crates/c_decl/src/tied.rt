//! The readers of a mode in which sizes and values are passed over, each with one layer of the rules
//! over readers with less room.

ghost use Rattle.std.specs.Prelude.{◌≡◌, ◌<◌, IfOk};
ghost use Rattle.c_tree.specs.Heights as class;
ghost use Rattle.c_tree.specs.Heights.{Below};
ghost use Rattle.c_decl.specs.Input.{Reads};
ghost use Rattle.c_decl.specs.Layers.{decl_rule_of};
ghost use Rattle.c_decl.specs.Nests.{Nests, Small, slot_of, decl_of, members_of, span_of};

use crate::cursor::Cursor;
use crate::fault::Halt;
use crate::heights;
use crate::kind::{DeclPart, Mode};
use crate::rules::Rules;
use crate::spans::Spans;
use c_tree::declaring::Declaring;
use c_tree::expr::{Member, Slot};
use c_tree::height::{Heights, Tall};
use sqlite_items::{Boxed, Items};
use std::alloc::Global;

/// A size or a value, passed over.
#[cycle(spans)]
pub fn slot(
    alloc: Global,
    cursor: &mut Cursor<'_>,
    mode: Mode,
    room: Heights,
    _unit: (),
) -> Result<Tall<Boxed<Slot>>, Halt>
    requires small { Small room }
    requires mode { mode ≡ Mode.Spans }
    ensures reads { Reads (slot_of mode room tt cursor.old) result cursor.new }
    ensures low { IfOk result (λ x. Below x.height room) }
{
    Spans {
        rules: Rules {
            alloc,
            mode,
            room,
            slot,
            decl,
            members,
        },
        span,
    }
    .slot(cursor)
}

/// A span.
#[cycle(spans)]
pub fn span(
    alloc: Global,
    cursor: &mut Cursor<'_>,
    mode: Mode,
    room: Heights,
    inside: bool,
) -> Result<Tall<()>, Halt>
    requires small { Small room }
    requires mode { mode ≡ Mode.Spans }
    ensures reads { Reads (span_of mode room inside cursor.old) result cursor.new }
    ensures low { IfOk result (λ x. Below x.height room) }
{
    if room.expression == 0 {
        return Err(cursor.refuse());
    }
    Spans {
        rules: Rules {
            alloc,
            mode,
            room: heights::lower_expression(room),
            slot,
            decl,
            members,
        },
        span,
    }
    .spanned(cursor, inside)
}

/// A declarator.
#[cycle(spans)]
pub fn decl(
    alloc: Global,
    cursor: &mut Cursor<'_>,
    mode: Mode,
    room: Heights,
    part: DeclPart,
) -> Result<Tall<Declaring>, Halt>
    requires small { Small room }
    requires mode { mode ≡ Mode.Spans }
    ensures reads { Reads (decl_of mode room part cursor.old) result cursor.new }
    ensures low { IfOk result (λ x. Below x.height room) }
{
    if room.declarator == 0 {
        return Err(cursor.refuse());
    }
    Rules {
        alloc,
        mode,
        room: heights::lower_declarator(room),
        slot,
        decl,
        members,
    }
    .decl_rule(cursor, part)
}

/// The members of a record, with their braces.
#[cycle(spans)]
pub fn members(
    alloc: Global,
    cursor: &mut Cursor<'_>,
    mode: Mode,
    room: Heights,
    _unit: (),
) -> Result<Tall<Items<Member>>, Halt>
    requires small { Small room }
    requires mode { mode ≡ Mode.Spans }
    ensures reads { Reads (members_of mode room tt cursor.old) result cursor.new }
    ensures low { IfOk result (λ x. Below x.height room) }
{
    if room.members == 0 {
        return Err(cursor.refuse());
    }
    Rules {
        alloc,
        mode,
        room: heights::lower_members(room),
        slot,
        decl,
        members,
    }
    .enclosed(cursor)
}

impl<
    L: Fn(Global, &mut Cursor<'_>, Mode, Heights, ()) -> Result<Tall<Boxed<Slot>>, Halt>,
    D: Fn(Global, &mut Cursor<'_>, Mode, Heights, DeclPart) -> Result<Tall<Declaring>, Halt>,
    M: Fn(Global, &mut Cursor<'_>, Mode, Heights, ()) -> Result<Tall<Items<Member>>, Halt>,
> Rules<L, D, M> {
    /// A declarator or a direct declarator.
    pub fn decl_rule(
        &self,
        cursor: &mut Cursor<'_>,
        part: DeclPart,
    ) -> Result<Tall<Declaring>, Halt>
        requires small { Small self.now.room }
        requires slot { Nests (slot_of self.now.mode self.now.room) self.now.mode self.now.room (L.pre self.now.slot) (L.post self.now.slot) }
        requires decl { Nests (decl_of self.now.mode self.now.room) self.now.mode self.now.room (D.pre self.now.decl) (D.post self.now.decl) }
        requires members { Nests (members_of self.now.mode self.now.room) self.now.mode self.now.room (M.pre self.now.members) (M.post self.now.members) }
        ensures reads { Reads (decl_rule_of self.now.mode self.now.room part cursor.old) result cursor.new }
        ensures low { IfOk result (λ x. Below x.height (class.raise class.declarator self.now.room)) }
    {
        match part {
            DeclPart::Declarator(kind, typed) => self.declarator(cursor, kind, typed),
            DeclPart::Direct(kind, typed) => self.direct(cursor, kind, typed),
        }
    }
}
