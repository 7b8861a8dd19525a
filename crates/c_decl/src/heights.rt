//! How deep nodes nest, over their parts.

ghost use Rattle.std.specs.Prelude.{◌≡◌, ◌<◌, IsTrue, ◌↔◌};
ghost use Rattle.c_tree.specs.Heights as spec;
ghost use Rattle.c_tree.specs.Heights.{Below};
ghost use Rattle.c_decl.specs.Nests.{Small};

use c_tree::height::Heights;

/// Nothing nests.
pub fn none() -> Heights
    ensures { result ≡ spec.none }
{
    Heights {
        expression: 0,
        declarator: 0,
        initializer: 0,
        statement: 0,
        members: 0,
    }
}

/// How deep the deeper of two nests.
#[tactic(auto, unfolding(c_tree::specs::Heights::join))]
pub fn join(room: Heights, a: Heights, b: Heights) -> Heights
    requires a { Below a room }
    requires b { Below b room }
    ensures value { result ≡ spec.join a b }
    ensures low { Below result room }
{
    Heights {
        expression: a.expression.max(b.expression),
        declarator: a.declarator.max(b.declarator),
        initializer: a.initializer.max(b.initializer),
        statement: a.statement.max(b.statement),
        members: a.members.max(b.members),
    }
}

/// Whether there is room.
#[tactic(auto, unfolding(c_tree::specs::Heights::is_below))]
pub fn is_below(a: Heights, room: Heights) -> bool
    ensures value { result ≡ spec.is_below a room }
    ensures low { IsTrue result ↔ Below a room }
{
    a.expression <= room.expression
        && a.declarator <= room.declarator
        && a.initializer <= room.initializer
        && a.statement <= room.statement
        && a.members <= room.members
}

/// One more of this class.
#[tactic(auto, unfolding(c_tree::specs::Heights::raise))]
pub fn raise_expression(room: Heights, a: Heights) -> Heights
    requires small { Small room }
    requires a { Below a room }
    ensures value { result ≡ spec.raise spec.expression a }
    ensures low { Below result (spec.raise spec.expression room) }
{
    let mut a = a;
    a.expression += 1;
    a
}

/// Room for one less of this class.
#[tactic(auto, unfolding(c_tree::specs::Heights::lower, c_tree::specs::Heights::sum))]
pub fn lower_expression(room: Heights) -> Heights
    requires small { Small room }
    requires some { 0 < room.expression }
    ensures value { result ≡ spec.lower spec.expression room }
    ensures small { Small result }
    ensures less { spec.sum result < spec.sum room }
{
    let mut room = room;
    room.expression -= 1;
    room
}

/// One more of this class.
#[tactic(auto, unfolding(c_tree::specs::Heights::raise))]
pub fn raise_declarator(room: Heights, a: Heights) -> Heights
    requires small { Small room }
    requires a { Below a room }
    ensures value { result ≡ spec.raise spec.declarator a }
    ensures low { Below result (spec.raise spec.declarator room) }
{
    let mut a = a;
    a.declarator += 1;
    a
}

/// Room for one less of this class.
#[tactic(auto, unfolding(c_tree::specs::Heights::lower, c_tree::specs::Heights::sum))]
pub fn lower_declarator(room: Heights) -> Heights
    requires small { Small room }
    requires some { 0 < room.declarator }
    ensures value { result ≡ spec.lower spec.declarator room }
    ensures small { Small result }
    ensures less { spec.sum result < spec.sum room }
{
    let mut room = room;
    room.declarator -= 1;
    room
}

/// One more of this class.
#[tactic(auto, unfolding(c_tree::specs::Heights::raise))]
pub fn raise_initializer(room: Heights, a: Heights) -> Heights
    requires small { Small room }
    requires a { Below a room }
    ensures value { result ≡ spec.raise spec.initializer a }
    ensures low { Below result (spec.raise spec.initializer room) }
{
    let mut a = a;
    a.initializer += 1;
    a
}

/// Room for one less of this class.
#[tactic(auto, unfolding(c_tree::specs::Heights::lower, c_tree::specs::Heights::sum))]
pub fn lower_initializer(room: Heights) -> Heights
    requires small { Small room }
    requires some { 0 < room.initializer }
    ensures value { result ≡ spec.lower spec.initializer room }
    ensures small { Small result }
    ensures less { spec.sum result < spec.sum room }
{
    let mut room = room;
    room.initializer -= 1;
    room
}

/// One more of this class.
#[tactic(auto, unfolding(c_tree::specs::Heights::raise))]
pub fn raise_statement(room: Heights, a: Heights) -> Heights
    requires small { Small room }
    requires a { Below a room }
    ensures value { result ≡ spec.raise spec.statement a }
    ensures low { Below result (spec.raise spec.statement room) }
{
    let mut a = a;
    a.statement += 1;
    a
}

/// Room for one less of this class.
#[tactic(auto, unfolding(c_tree::specs::Heights::lower, c_tree::specs::Heights::sum))]
pub fn lower_statement(room: Heights) -> Heights
    requires small { Small room }
    requires some { 0 < room.statement }
    ensures value { result ≡ spec.lower spec.statement room }
    ensures small { Small result }
    ensures less { spec.sum result < spec.sum room }
{
    let mut room = room;
    room.statement -= 1;
    room
}

/// One more of this class.
#[tactic(auto, unfolding(c_tree::specs::Heights::raise))]
pub fn raise_members(room: Heights, a: Heights) -> Heights
    requires small { Small room }
    requires a { Below a room }
    ensures value { result ≡ spec.raise spec.members a }
    ensures low { Below result (spec.raise spec.members room) }
{
    let mut a = a;
    a.members += 1;
    a
}

/// Room for one less of this class.
#[tactic(auto, unfolding(c_tree::specs::Heights::lower, c_tree::specs::Heights::sum))]
pub fn lower_members(room: Heights) -> Heights
    requires small { Small room }
    requires some { 0 < room.members }
    ensures value { result ≡ spec.lower spec.members room }
    ensures small { Small result }
    ensures less { spec.sum result < spec.sum room }
{
    let mut room = room;
    room.members -= 1;
    room
}
