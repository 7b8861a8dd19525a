// What all lines come to, once they have been read.
ghost use Rattle.std.specs.Prelude.{◌≡◌, ℕ, ◌<◌, ◌^◌, IsTrue, List, length};
ghost use Rattle.std.specs.List.{list_all};
ghost use Rattle.asm_link.specs.Definitions.{end_of, known, state_after};
ghost use Rattle.asm_link.specs.Lookup.{lookup};
ghost use Rattle.asm_link.specs.Shown.{before_of, texts_of};
ghost use Rattle.asm_link.specs.Source.{carries, source_of};
ghost use Rattle.asm_link.specs.State.{start, weight};

use crate::fault::AsmFile;
use crate::names::Names;
use crate::state::State;

/// Files with what all their lines come to.
#[derive(Drop)]
pub struct Tables<'a> {
    /// The files.
    pub files: &'a [AsmFile],
    /// The names that the lines define.
    pub names: Names,
    /// The state behind the last line.
    pub last: State<'a>,
    ghost few: { length files.now < 2 ^ 32 },
    ghost named: { (file : ℕ) (name : List ℕ) → lookup (end_of last.segment (before_of last)) names file name ≡ known (source_of (texts_of files.now)) file name },
    ghost counted: { before_of last ≡ state_after start (source_of (texts_of files.now)) },
    ghost small: { weight (before_of last) < 2 ^ 124 },
    ghost countable: { length (source_of (texts_of files.now)) < 2 ^ 64 },
    ghost carried: { IsTrue (list_all carries (source_of (texts_of files.now))) },
}
