//! The reader of statements, with one layer of the rules over itself with less room.

ghost use Rattle.std.specs.Prelude.{IfOk};
ghost use Rattle.c_tree.specs.Heights.{Below};
ghost use Rattle.c_decl.specs.Entries as entry;
ghost use Rattle.c_decl.specs.Input.{Reads};
ghost use Rattle.c_decl.specs.Nests.{Small, parts_of};
ghost use Rattle.c_unit.specs.Stated.{stmt_of};

use crate::part::StmtPart;
use crate::statements::Statements;
use c_decl::cursor::Cursor;
use c_decl::fault::Halt;
use c_decl::heights;
use c_decl::kind::Mode;
use c_tree::height::{Heights, Tall};
use c_tree::stmt::{Block, Stmt};
use sqlite_items::Boxed;
use std::alloc::Global;

#[cycle(statements)]
fn statement(
    alloc: Global,
    cursor: &mut Cursor<'_>,
    room: Heights,
    part: StmtPart,
) -> Result<Tall<Boxed<Stmt>>, Halt>
    requires small { Small room }
    ensures reads { Reads (stmt_of room part cursor.old) result cursor.new }
    ensures low { IfOk result (λ x. Below x.height room) }
{
    if room.statement == 0 {
        return Err(cursor.refuse());
    }
    Statements {
        alloc,
        room: heights::lower_statement(room),
        statement,
    }
    .layer(cursor, part)
}

/// The body of a function.
pub fn block(
    alloc: Global,
    cursor: &mut Cursor<'_>,
    room: Heights,
) -> Result<Tall<Boxed<Block>>, Halt>
    requires small { Small room }
    ensures reads { Reads (parts_of Mode.Whole room entry.block cursor.old) result cursor.new }
    ensures low { IfOk result (λ x. Below x.height room) }
{
    if room.statement == 0 {
        return Err(cursor.refuse());
    }
    Statements {
        alloc,
        room: heights::lower_statement(room),
        statement,
    }
    .braced(cursor)
}
