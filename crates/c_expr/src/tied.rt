//! The readers, each with one layer of the rules over readers with less room.

ghost use Rattle.std.specs.Prelude.{◌≡◌, IfOk};
ghost use Rattle.c_tree.specs.Heights.{Below};
ghost use Rattle.c_decl.specs.Input.{Reads};
ghost use Rattle.c_decl.specs.Declarators as spec;
ghost use Rattle.c_decl.specs.Nests.{Small, parts_of, slot_of, decl_of, members_of};
ghost use Rattle.c_expr.specs.Nests.{expr_of, init_of, type_name_of};

use crate::exprs::Exprs;
use crate::init::Inits;
use crate::make;
use crate::part::ExprPart;
use c_decl::cursor::Cursor;
use c_decl::fault::Halt;
use c_decl::heights::{lower_declarator, lower_expression, lower_initializer, lower_members};
use c_decl::kind::{DeclPart, Mode};
use c_decl::rules::Rules;
use c_tree::declaration::Init;
use c_tree::declaring::Declaring;
use c_tree::expr::{Expr, Member, Slot, Specs, TypeName};
use c_tree::height::{Heights, Tall};
use sqlite_items::{Boxed, Items};
use std::alloc::Global;

/// Reads an expression of a class.
///
/// # Errors
///
/// Where the tokens go wrong, where they nest deeper than there is room for, and where memory is
/// refused.
#[cycle(rules)]
pub fn expr(
    alloc: Global,
    cursor: &mut Cursor<'_>,
    mode: Mode,
    room: Heights,
    part: ExprPart,
) -> Result<Tall<Boxed<Expr>>, Halt>
    requires small { Small room }
    requires whole { mode ≡ Mode.Whole }
    ensures reads { Reads (expr_of mode room part cursor.old) result cursor.new }
    ensures low { IfOk result (λ x. Below x.height room) }
{
    if room.expression == 0 {
        return Err(cursor.refuse());
    }
    Exprs {
        alloc,
        mode,
        room: lower_expression(room),
        expr,
        type_name,
    }
    .layer(cursor, part)
}

/// Reads an initializer.
///
/// # Errors
///
/// Where the tokens go wrong, where they nest deeper than there is room for, and where memory is
/// refused.
#[cycle(initializers)]
pub fn init(
    alloc: Global,
    cursor: &mut Cursor<'_>,
    mode: Mode,
    room: Heights,
    _unit: (),
) -> Result<Tall<Boxed<Init>>, Halt>
    requires small { Small room }
    requires whole { mode ≡ Mode.Whole }
    ensures reads { Reads (init_of mode room tt cursor.old) result cursor.new }
    ensures low { IfOk result (λ x. Below x.height room) }
{
    if room.initializer == 0 {
        return Err(cursor.refuse());
    }
    Inits {
        alloc,
        mode,
        room: lower_initializer(room),
        expr,
        init,
    }
    .init_rule(cursor)
}

/// Reads a size or a value.
///
/// # Errors
///
/// Where the tokens go wrong, where they nest deeper than there is room for, and where memory is
/// refused.
#[cycle(rules)]
#[tactic(auto, unfolding(c_decl::specs::Declarators::slot))]
fn slot(
    alloc: Global,
    cursor: &mut Cursor<'_>,
    mode: Mode,
    room: Heights,
    _unit: (),
) -> Result<Tall<Boxed<Slot>>, Halt>
    requires small { Small room }
    requires whole { mode ≡ Mode.Whole }
    ensures reads { Reads (slot_of mode room tt cursor.old) result cursor.new }
    ensures low { IfOk result (λ x. Below x.height room) }
{
    let inner = expr(alloc, cursor, mode, room, ExprPart::Conditional)?;
    make::slot(alloc, room, inner)
}

/// Reads the name of a type.
///
/// # Errors
///
/// Where the tokens go wrong, where they nest deeper than there is room for, and where memory is
/// refused.
#[cycle(rules)]
fn type_name(
    alloc: Global,
    cursor: &mut Cursor<'_>,
    mode: Mode,
    room: Heights,
    _unit: (),
) -> Result<Tall<Boxed<TypeName>>, Halt>
    requires small { Small room }
    requires whole { mode ≡ Mode.Whole }
    ensures reads { Reads (type_name_of mode room tt cursor.old) result cursor.new }
    ensures low { IfOk result (λ x. Below x.height room) }
{
    Rules {
        alloc,
        mode,
        room,
        slot,
        decl: declarator,
        members,
    }
    .type_name(cursor)
}

/// Reads a declarator.
///
/// # Errors
///
/// Where the tokens go wrong, where they nest deeper than there is room for, and where memory is
/// refused.
#[cycle(rules)]
pub fn declarator(
    alloc: Global,
    cursor: &mut Cursor<'_>,
    mode: Mode,
    room: Heights,
    part: DeclPart,
) -> Result<Tall<Declaring>, Halt>
    requires small { Small room }
    requires whole { mode ≡ Mode.Whole }
    ensures reads { Reads (decl_of mode room part cursor.old) result cursor.new }
    ensures low { IfOk result (λ x. Below x.height room) }
{
    if room.declarator == 0 {
        return Err(cursor.refuse());
    }
    Rules {
        alloc,
        mode,
        room: lower_declarator(room),
        slot,
        decl: declarator,
        members,
    }
    .decl_rule(cursor, part)
}

/// Reads the members of a record, with their braces.
///
/// # Errors
///
/// Where the tokens go wrong, where they nest deeper than there is room for, and where memory is
/// refused.
#[cycle(rules)]
fn members(
    alloc: Global,
    cursor: &mut Cursor<'_>,
    mode: Mode,
    room: Heights,
    _unit: (),
) -> Result<Tall<Items<Member>>, Halt>
    requires small { Small room }
    requires whole { mode ≡ Mode.Whole }
    ensures reads { Reads (members_of mode room tt cursor.old) result cursor.new }
    ensures low { IfOk result (λ x. Below x.height room) }
{
    if room.members == 0 {
        return Err(cursor.refuse());
    }
    Rules {
        alloc,
        mode,
        room: lower_members(room),
        slot,
        decl: declarator,
        members,
    }
    .enclosed(cursor)
}

/// Reads specifiers; with `storage` a storage class may stand among them.
///
/// # Errors
///
/// Where the tokens go wrong, where they nest deeper than there is room for, and where memory is
/// refused.
pub fn specs(
    alloc: Global,
    cursor: &mut Cursor<'_>,
    mode: Mode,
    room: Heights,
    storage: bool,
) -> Result<Tall<Specs>, Halt>
    requires small { Small room }
    requires whole { mode ≡ Mode.Whole }
    ensures reads { Reads (spec.specs mode (parts_of mode room) room storage cursor.old) result cursor.new }
    ensures low { IfOk result (λ x. Below x.height room) }
{
    Rules {
        alloc,
        mode,
        room,
        slot,
        decl: declarator,
        members,
    }
    .specs(cursor, storage)
}
