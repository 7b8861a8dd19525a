//! Declarations.

ghost use Rattle.std.specs.Prelude.{◌∷◌, IfOk, [], true};
ghost use Rattle.c_tree.specs.Heights.{Below, tall};
ghost use Rattle.c_decl.specs.Entries.{comma_then};
ghost use Rattle.c_decl.specs.Entries as entry;
ghost use Rattle.c_decl.specs.Input.{Reads, looped, sees};
ghost use Rattle.c_decl.specs.Nests.{Small, parts_of};
ghost use Rattle.c_decl.specs.Statements as spec;

use crate::{make, parts};
use c_decl::cursor::Cursor;
use c_decl::fault::Halt;
use c_decl::kind::Mode;
use c_tok::mark::Mark;
use c_tree::declaration::{Declaration, InitDeclarator};
use c_tree::declaring::Declaring;
use c_tree::expr::Specs;
use c_tree::height::{Heights, Tall};
use sqlite_items::Items;
use std::alloc::Global;

#[tactic(auto, unfolding(c_decl::specs::Statements::initialized))]
fn initialized(
    alloc: Global,
    cursor: &mut Cursor<'_>,
    room: Heights,
    x: Tall<Declaring>,
) -> Result<Tall<InitDeclarator>, Halt>
    requires small { Small room }
    requires x { Below x.height room }
    ensures reads { Reads (spec.initialized Mode.Whole (parts_of Mode.Whole room) room x cursor.old) result cursor.new }
    ensures low { IfOk result (λ x. Below x.height room) }
{
    let init = parts::init(alloc, cursor, room)?;
    Ok(make::initialized(room, x, init))
}

/// Behind a declarator: its initializer, if it has one.
#[tactic(auto, unfolding(c_decl::specs::Statements::init_or))]
pub fn init_or(
    alloc: Global,
    cursor: &mut Cursor<'_>,
    room: Heights,
    x: Tall<Declaring>,
) -> Result<Tall<InitDeclarator>, Halt>
    requires small { Small room }
    requires x { Below x.height room }
    ensures reads { Reads (spec.init_or Mode.Whole (parts_of Mode.Whole room) room x cursor.old) result cursor.new }
    ensures low { IfOk result (λ x. Below x.height room) }
{
    if cursor.eat(Mark::Assign) {
        return initialized(alloc, cursor, room, x);
    }
    Ok(make::plain(x))
}

#[tactic(auto, unfolding(c_decl::specs::Statements::init_declarator))]
fn init_declarator(
    alloc: Global,
    cursor: &mut Cursor<'_>,
    room: Heights,
    typed: bool,
    is_typedef: bool,
) -> Result<Tall<InitDeclarator>, Halt>
    requires small { Small room }
    ensures reads { Reads (spec.init_declarator Mode.Whole (parts_of Mode.Whole room) room typed is_typedef cursor.old) result cursor.new }
    ensures low { IfOk result (λ x. Below x.height room) }
{
    let x = parts::declarator(alloc, cursor, room, typed)?;
    cursor.declares(&x.tree.name, is_typedef)?;
    init_or(alloc, cursor, room, x)
}

#[tactic(auto, unfolding(c_decl::specs::Entries::comma_then))]
fn next_declarator(
    alloc: Global,
    cursor: &mut Cursor<'_>,
    room: Heights,
    typed: bool,
    is_typedef: bool,
    row: Tall<Items<InitDeclarator>>,
) -> Result<Tall<Items<InitDeclarator>>, Halt>
    requires small { Small room }
    requires row { Below row.height room }
    ensures reads { Reads (comma_then (spec.init_declarator Mode.Whole (parts_of Mode.Whole room) room typed is_typedef) row cursor.old) result cursor.new }
    ensures low { IfOk result (λ x. Below x.height room) }
{
    cursor.skip();
    let next = init_declarator(alloc, cursor, room, typed, is_typedef)?;
    make::more_declarators(room, row, next)
}

fn more_declarators(
    alloc: Global,
    cursor: &mut Cursor<'_>,
    room: Heights,
    typed: bool,
    is_typedef: bool,
    mut row: Tall<Items<InitDeclarator>>,
) -> Result<Tall<Items<InitDeclarator>>, Halt>
    requires small { Small room }
    requires row { Below row.height room }
    ensures reads { Reads (looped (λ _. sees Mark.Comma) (comma_then (spec.init_declarator Mode.Whole (parts_of Mode.Whole room) room typed is_typedef)) row cursor.old) result cursor.new }
    ensures low { IfOk result (λ x. Below x.height room) }
{
    for _turn in 0..cursor.left() {
        if !cursor.sees(Mark::Comma) {
            return Ok(row);
        }
        row = next_declarator(alloc, cursor, room, typed, is_typedef, row)?;
    }
    Ok(row)
}

/// Behind the first declarator: the others.
pub fn declarators_from(
    alloc: Global,
    cursor: &mut Cursor<'_>,
    room: Heights,
    typed: bool,
    is_typedef: bool,
    first: Tall<InitDeclarator>,
) -> Result<Tall<Items<InitDeclarator>>, Halt>
    requires small { Small room }
    requires first { Below first.height room }
    ensures reads { Reads (looped (λ _. sees Mark.Comma) (comma_then (spec.init_declarator Mode.Whole (parts_of Mode.Whole room) room typed is_typedef)) (tall (first.tree ∷ []) first.height) cursor.old) result cursor.new }
    ensures low { IfOk result (λ x. Below x.height room) }
{
    let row = make::one_declarator(alloc, first)?;
    more_declarators(alloc, cursor, room, typed, is_typedef, row)
}

#[tactic(auto, unfolding(c_decl::specs::Entries::parted))]
fn declarators(
    alloc: Global,
    cursor: &mut Cursor<'_>,
    room: Heights,
    typed: bool,
    is_typedef: bool,
) -> Result<Tall<Items<InitDeclarator>>, Halt>
    requires small { Small room }
    ensures reads { Reads (entry.parted (spec.init_declarator Mode.Whole (parts_of Mode.Whole room) room typed is_typedef) cursor.old) result cursor.new }
    ensures low { IfOk result (λ x. Below x.height room) }
{
    let first = init_declarator(alloc, cursor, room, typed, is_typedef)?;
    declarators_from(alloc, cursor, room, typed, is_typedef, first)
}

#[tactic(auto, unfolding(c_decl::specs::Statements::declared_list))]
fn declared_list(
    alloc: Global,
    cursor: &mut Cursor<'_>,
    room: Heights,
    x: Tall<Specs>,
) -> Result<Tall<Declaration>, Halt>
    requires small { Small room }
    requires x { Below x.height room }
    ensures reads { Reads (spec.declared_list Mode.Whole (parts_of Mode.Whole room) room x cursor.old) result cursor.new }
    ensures low { IfOk result (λ x. Below x.height room) }
{
    let row = declarators(alloc, cursor, room, x.tree.is_typed, x.tree.is_typedef)?;
    cursor.expect(Mark::Semicolon)?;
    Ok(make::declaration(room, x, row))
}

/// A declaration.
#[tactic(auto, unfolding(c_decl::specs::Statements::declaration))]
pub fn declaration(
    alloc: Global,
    cursor: &mut Cursor<'_>,
    room: Heights,
) -> Result<Tall<Declaration>, Halt>
    requires small { Small room }
    ensures reads { Reads (spec.declaration Mode.Whole (parts_of Mode.Whole room) room cursor.old) result cursor.new }
    ensures low { IfOk result (λ x. Below x.height room) }
{
    let x = parts::specs(alloc, cursor, room)?;
    if cursor.eat(Mark::Semicolon) {
        return Ok(make::bare(alloc, x));
    }
    declared_list(alloc, cursor, room, x)
}
