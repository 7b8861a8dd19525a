//! What a unit is made of.

ghost use Rattle.std.specs.Prelude.{◌≡◌, ◌∷◌, IfOk, [], length, nat_lt, true};
ghost use Rattle.c_tree.specs.Heights.{Below, tall};
ghost use Rattle.c_tree.specs.declared.expr.Specs.{Specs as SpecsTree};
ghost use Rattle.c_decl.specs.Entries as entry;
ghost use Rattle.c_decl.specs.Entries.{then_one};
ghost use Rattle.c_decl.specs.Input.{Reads, left, looped};
ghost use Rattle.c_decl.specs.Nests.{Small, parts_of};
ghost use Rattle.c_decl.specs.State.{State};
ghost use Rattle.c_decl.specs.Statements as spec;

use crate::declarations::{declaration, declarators_from, init_or};
use crate::tied::block;
use crate::{make, parts};
use c_decl::cursor::Cursor;
use c_decl::fault::Halt;
use c_decl::kind::Mode;
use c_decl::marking::Marked;
use c_decl::nodes::begins;
use c_tok::mark::Mark;
use c_tree::at::At;
use c_tree::declaration::Declaration;
use c_tree::declaring::Declaring;
use c_tree::expr::Specs;
use c_tree::height::{Heights, Tall};
use c_tree::stmt::External;
use sqlite_items::Items;
use std::alloc::Global;

#[tactic(auto, unfolding(c_decl::specs::Entries::then_one))]
fn next_declaration(
    alloc: Global,
    cursor: &mut Cursor<'_>,
    room: Heights,
    row: Tall<Items<Declaration>>,
) -> Result<Tall<Items<Declaration>>, Halt>
    requires small { Small room }
    requires row { Below row.height room }
    ensures reads { Reads (then_one (spec.declaration Mode.Whole (parts_of Mode.Whole room) room) row cursor.old) result cursor.new }
    ensures low { IfOk result (λ x. Below x.height room) }
{
    let next = declaration(alloc, cursor, room)?;
    make::more_declarations(room, row, next)
}

fn more_declarations(
    alloc: Global,
    cursor: &mut Cursor<'_>,
    room: Heights,
    mut row: Tall<Items<Declaration>>,
) -> Result<Tall<Items<Declaration>>, Halt>
    requires small { Small room }
    requires row { Below row.height room }
    ensures reads { Reads (looped (λ _. entry.word_comes) (then_one (spec.declaration Mode.Whole (parts_of Mode.Whole room) room)) row cursor.old) result cursor.new }
    ensures low { IfOk result (λ x. Below x.height room) }
{
    for _turn in 0..cursor.left() {
        if !cursor.word_comes() {
            return Ok(row);
        }
        row = next_declaration(alloc, cursor, room, row)?;
    }
    Ok(row)
}

#[tactic(auto, unfolding(c_decl::specs::Entries::some_while))]
fn declarations(
    alloc: Global,
    cursor: &mut Cursor<'_>,
    room: Heights,
) -> Result<Tall<Items<Declaration>>, Halt>
    requires small { Small room }
    ensures reads { Reads (entry.some_while entry.word_comes (spec.declaration Mode.Whole (parts_of Mode.Whole room) room) cursor.old) result cursor.new }
    ensures low { IfOk result (λ x. Below x.height room) }
{
    let first = declaration(alloc, cursor, room)?;
    let row = make::one_declaration(alloc, first)?;
    more_declarations(alloc, cursor, room, row)
}

#[tactic(auto, unfolding(c_decl::specs::Statements::old_declarations))]
fn old_declarations(
    alloc: Global,
    cursor: &mut Cursor<'_>,
    room: Heights,
) -> Result<Tall<Option<Items<Declaration>>>, Halt>
    requires small { Small room }
    ensures reads { Reads (spec.old_declarations Mode.Whole (parts_of Mode.Whole room) room cursor.old) result cursor.new }
    ensures low { IfOk result (λ x. Below x.height room) }
{
    if !cursor.word_comes() {
        return Ok(make::no_declarations());
    }
    let row = declarations(alloc, cursor, room)?;
    Ok(make::some_declarations(row))
}

/// In the scope of the parameters; `declared` counts what is declared behind the function.
#[tactic(auto, unfolding(c_decl::specs::Statements::definition, c_decl::specs::State::leave))]
fn definition(
    alloc: Global,
    cursor: &mut Cursor<'_>,
    room: Heights,
    x: Tall<Specs>,
    y: Tall<Declaring>,
    declared: usize,
) -> Result<Tall<External>, Halt>
    requires small { Small room }
    requires x { Below x.height room }
    requires y { Below y.height room }
    ensures reads { (S : State) → declared ≡ length S.names → Reads (spec.definition Mode.Whole (parts_of Mode.Whole room) room x y S cursor.old) result cursor.new }
    ensures low { IfOk result (λ x. Below x.height room) }
{
    let z = old_declarations(alloc, cursor, room)?;
    let body = block(alloc, cursor, room)?;
    cursor.leave(declared);
    cursor.leave_out_if(z.tree.is_some(), Marked::OldStyle, x.tree.at);
    Ok(make::function(room, x, y, z.height, body))
}

/// Behind the first declarator.
#[tactic(auto, unfolding(c_decl::specs::Statements::declared_from))]
fn declared_from(
    alloc: Global,
    cursor: &mut Cursor<'_>,
    room: Heights,
    x: Tall<Specs>,
    y: Tall<Declaring>,
) -> Result<Tall<External>, Halt>
    requires small { Small room }
    requires x { Below x.height room }
    requires y { Below y.height room }
    ensures reads { Reads (spec.declared_from Mode.Whole (parts_of Mode.Whole room) room x y cursor.old) result cursor.new }
    ensures low { IfOk result (λ x. Below x.height room) }
{
    let z = init_or(alloc, cursor, room, y)?;
    let row = declarators_from(alloc, cursor, room, x.tree.is_typed, x.tree.is_typedef, z)?;
    cursor.expect(Mark::Semicolon)?;
    Ok(make::declared(make::declaration(room, x, row)))
}

#[tactic(auto, unfolding(c_decl::specs::Statements::specified_from, c_decl::specs::State::leave))]
fn specified_from(
    alloc: Global,
    cursor: &mut Cursor<'_>,
    room: Heights,
    x: Tall<Specs>,
) -> Result<Tall<External>, Halt>
    requires small { Small room }
    requires x { Below x.height room }
    ensures reads { Reads (spec.specified_from Mode.Whole (parts_of Mode.Whole room) room x cursor.old) result cursor.new }
    ensures low { IfOk result (λ x. Below x.height room) }
{
    let y = parts::declarator(alloc, cursor, room, x.tree.is_typed)?;
    cursor.declares(&y.tree.name, x.tree.is_typedef)?;
    let declared = cursor.declared();
    cursor.enter(&y.tree.params)?;
    if cursor.sees(Mark::OpenBrace) || cursor.word_comes() {
        return definition(alloc, cursor, room, x, y, declared);
    }
    cursor.leave(declared);
    declared_from(alloc, cursor, room, x, y)
}

#[tactic(auto, unfolding(c_decl::specs::Statements::specified))]
fn specified(alloc: Global, cursor: &mut Cursor<'_>, room: Heights) -> Result<Tall<External>, Halt>
    requires small { Small room }
    ensures reads { Reads (spec.specified Mode.Whole (parts_of Mode.Whole room) room cursor.old) result cursor.new }
    ensures low { IfOk result (λ x. Below x.height room) }
{
    let x = parts::specs(alloc, cursor, room)?;
    if cursor.eat(Mark::Semicolon) {
        return Ok(make::declared(make::bare(alloc, x)));
    }
    specified_from(alloc, cursor, room, x)
}

#[tactic(auto, unfolding(c_decl::specs::Statements::implied_function, c_decl::specs::State::leave))]
fn implied_function(
    alloc: Global,
    cursor: &mut Cursor<'_>,
    room: Heights,
    x: Tall<Declaring>,
) -> Result<Tall<External>, Halt>
    requires small { Small room }
    requires x { Below x.height room }
    ensures reads { Reads (spec.implied_function Mode.Whole (parts_of Mode.Whole room) room x cursor.old) result cursor.new }
    ensures low { IfOk result (λ x. Below x.height room) }
{
    let declared = cursor.declared();
    cursor.enter(&x.tree.params)?;
    let body = block(alloc, cursor, room)?;
    cursor.leave(declared);
    let at = begins(body.tree.get().at, &x.tree);
    cursor.leave_out_all(Marked::ImplicitInt, at);
    Ok(make::implied_function(alloc, room, at, x, body))
}

#[tactic(auto, unfolding(c_decl::specs::Statements::implied_declaration))]
fn implied_declaration(
    alloc: Global,
    cursor: &mut Cursor<'_>,
    room: Heights,
    x: Tall<Declaring>,
) -> Result<Tall<External>, Halt>
    requires small { Small room }
    requires x { Below x.height room }
    ensures reads { Reads (spec.implied_declaration Mode.Whole (parts_of Mode.Whole room) room x cursor.old) result cursor.new }
    ensures low { IfOk result (λ x. Below x.height room) }
{
    let y = init_or(alloc, cursor, room, x)?;
    let end = cursor.here();
    cursor.expect(Mark::Semicolon)?;
    let at = make::begins_or(end, &y.tree);
    cursor.leave_out_all(Marked::ImplicitInt, at);
    make::implied_declaration(alloc, at, y)
}

#[tactic(auto, unfolding(c_decl::specs::Statements::implied))]
fn implied(alloc: Global, cursor: &mut Cursor<'_>, room: Heights) -> Result<Tall<External>, Halt>
    requires small { Small room }
    ensures reads { Reads (spec.implied Mode.Whole (parts_of Mode.Whole room) room cursor.old) result cursor.new }
    ensures low { IfOk result (λ x. Below x.height room) }
{
    let x = parts::declarator(alloc, cursor, room, false)?;
    cursor.declares(&x.tree.name, false)?;
    if cursor.sees(Mark::OpenBrace) {
        return implied_function(alloc, cursor, room, x);
    }
    implied_declaration(alloc, cursor, room, x)
}

#[tactic(auto, unfolding(c_decl::specs::Statements::external))]
fn external(alloc: Global, cursor: &mut Cursor<'_>, room: Heights) -> Result<Tall<External>, Halt>
    requires small { Small room }
    ensures reads { Reads (spec.external Mode.Whole (parts_of Mode.Whole room) room cursor.old) result cursor.new }
    ensures low { IfOk result (λ x. Below x.height room) }
{
    if cursor.word_comes() {
        return specified(alloc, cursor, room);
    }
    implied(alloc, cursor, room)
}

#[tactic(auto, unfolding(c_decl::specs::Entries::then_one))]
fn next_external(
    alloc: Global,
    cursor: &mut Cursor<'_>,
    room: Heights,
    row: Tall<Items<External>>,
) -> Result<Tall<Items<External>>, Halt>
    requires small { Small room }
    requires row { Below row.height room }
    ensures reads { Reads (then_one (spec.external Mode.Whole (parts_of Mode.Whole room) room) row cursor.old) result cursor.new }
    ensures low { IfOk result (λ x. Below x.height room) }
{
    let next = external(alloc, cursor, room)?;
    make::more_externals(room, row, next)
}

/// Whether tokens are left.
fn goes_on(cursor: &Cursor<'_>) -> bool
    ensures { result ≡ nat_lt 0 (left cursor.now) }
{
    cursor.left() > 0
}

fn more_externals(
    alloc: Global,
    cursor: &mut Cursor<'_>,
    room: Heights,
    mut row: Tall<Items<External>>,
) -> Result<Tall<Items<External>>, Halt>
    requires small { Small room }
    requires row { Below row.height room }
    ensures reads { Reads (looped (λ _ i. nat_lt 0 (left i)) (then_one (spec.external Mode.Whole (parts_of Mode.Whole room) room)) row cursor.old) result cursor.new }
    ensures low { IfOk result (λ x. Below x.height room) }
{
    for _turn in 0..cursor.left() {
        if !goes_on(cursor) {
            return Ok(row);
        }
        row = next_external(alloc, cursor, room, row)?;
    }
    Ok(row)
}

/// A unit, to the end of the tokens.
#[tactic(auto, unfolding(c_decl::specs::Statements::unit, c_decl::specs::Entries::some_while))]
pub fn externals(
    alloc: Global,
    cursor: &mut Cursor<'_>,
    room: Heights,
) -> Result<Tall<Items<External>>, Halt>
    requires small { Small room }
    ensures reads { Reads (spec.unit Mode.Whole (parts_of Mode.Whole room) room cursor.old) result cursor.new }
    ensures low { IfOk result (λ x. Below x.height room) }
{
    let first = external(alloc, cursor, room)?;
    let row = make::one_external(alloc, first)?;
    more_externals(alloc, cursor, room, row)
}
