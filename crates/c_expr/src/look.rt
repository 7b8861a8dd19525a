//! What is looked at in tokens.

ghost use Rattle.std.specs.Prelude.{◌≡◌, ◌+◌};
ghost use Rattle.c_decl.specs.Entries as entries;

use c_decl::cursor::Cursor;

/// Whether an operator comes next that binds tighter than the number.
#[tactic(auto, unfolding(c_decl::specs::Entries::goes_on))]
pub fn goes_above(cursor: &Cursor<'_>, above: u8) -> bool
    ensures { result ≡ entries.goes_on (above + 1) cursor.now }
{
    cursor.tight() > above
}
