//! Units.
ghost use Rattle.std.specs.Prelude.{◌≡◌, IfOk, IfSome, OnOk, Some, map, string_bytes};
ghost use Rattle.qv_outside.specs.FileMap.{FileMap, content};
ghost use Rattle.pp_tok.specs.Lines.{text_of};
ghost use Rattle.pp_dir.specs.Endings.{Ends, Keeps, keeper_of};
ghost use Rattle.pp_dir.specs.Preprocessed as spec;
ghost use Rattle.pp_dir.specs.Units.{IsPreprocessed, definition_of};

use crate::fault::PpStop;
use crate::file::file_in;
use crate::search::read_one;
use crate::state::State;
use pp_macro::{DefineFault, Macro, MacroTable};
use pp_tok::lines::text_tokens;
use pp_tok::token::{PpTok, PpTokFault};
use qv_base::NoMemory;
use qv_base::name::Name;
use qv_outside::files::{FileFault, Files};
use sqlite_items::Items;
use std::alloc::Global;

/// A unit after preprocessing.
#[derive(Drop)]
pub struct Preprocessed {
    /// The names of its files by their numbers.
    pub names: Items<Name>,
    /// Its tokens.
    pub toks: Items<PpTok>,
}

/// How many files may be open at once, the unit counted.
const OPEN_LIMIT: usize = 64;

// The tokens of the text of a definition: none of a text with an open comment.
fn definition_toks(alloc: Global, text: &[u8]) -> Result<Items<PpTok>, NoMemory>
    ensures { IfOk result (λ toks. toks ≡ spec.tokens_or_none (text_of text.now)) }
{
    match text_tokens(alloc, text) {
        Ok(toks) => Ok(toks),
        Err(PpTokFault::OpenComment(_)) => Ok(Items::new(alloc)),
        Err(PpTokFault::NoMemory) => Err(NoMemory),
    }
}

// Defines a name as a text, in place of what it stood for.
fn define(alloc: Global, table: &mut MacroTable, name: &str, text: &str) -> Result<(), NoMemory>
    ensures { OnOk result (table.new ≡ spec.replaced table.old (name.now, text.now)) }
{
    table.undefine(name.as_bytes());
    let new = Macro {
        name: Name::from_bytes(alloc, name.as_bytes())?,
        params: None,
        body: definition_toks(alloc, text.as_bytes())?,
    };
    match table.define(new) {
        Ok(()) | Err(DefineFault::Redefinition) => Ok(()),
        Err(DefineFault::NoMemory) => Err(NoMemory),
    }
}

// The macros of the command line, and that of Q3_VM.
fn predefined(alloc: Global, defs: &[(String, String)]) -> Result<MacroTable, NoMemory>
    ensures { IfOk result (λ table. table ≡ spec.predefined (map definition_of defs.now)) }
{
    let mut table = MacroTable::new(alloc);
    define(alloc, &mut table, "Q3_VM", "1")?;
    for def in defs {
        define(alloc, &mut table, def.0.as_str(), def.1.as_str())?;
    }
    Ok(table)
}

impl State {
    // What is known before a unit is read.
    fn new(alloc: Global, defs: &[(String, String)]) -> Result<State, NoMemory>
        ensures { IfOk result (λ s. s ≡ spec.start (map definition_of defs.now)) }
    {
        Ok(State {
            names: Items::new(alloc),
            tried: Items::new(alloc),
            table: predefined(alloc, defs)?,
            count: 0,
            toks: Items::new(alloc),
        })
    }
}

// Reads the unit and what it includes.
#[tactic(auto, using(crate::proofs::Units::unit_reads, crate::proofs::Units::unit_absent, crate::proofs::Units::unit_stops, crate::proofs::Searching::keeps_then))]
fn read_unit<F: Files>(
    alloc: Global,
    dirs: &[String],
    unit: &str,
    state: &mut State,
    files: &mut F,
) -> Result<(), PpStop>
    ensures told { (m : FileMap) → F.held files.old ≡ Some m → Ends (spec.unit_read (content m) (map string_bytes dirs.now) unit.now state.old) result state.new }
    ensures keeps { Keeps (keeper_of F.Files files.old) (keeper_of F.Files files.new) result }
{
    let name = Name::from_bytes(alloc, unit.as_bytes())?;
    state.trying(alloc, unit)?;
    match read_one(alloc, files, unit) {
        Ok(Some(bytes)) => file_in(
            alloc,
            dirs,
            OPEN_LIMIT - 1,
            unit,
            bytes.as_slice(),
            state,
            files,
        ),
        Ok(None) => Err(PpStop::File {
            name,
            fault: FileFault::Absent,
        }),
        Err(stop) => Err(stop),
    }
}

impl State {
    fn finish(self) -> Preprocessed
        ensures names { result.names ≡ self.names }
        ensures toks { result.toks ≡ self.toks }
    {
        let State { names, toks, .. } = self;
        Preprocessed { names, toks }
    }
}

// The unit, from what is known before.
#[tactic(auto, using(crate::proofs::Units::is_preprocessed, crate::proofs::Units::is_stopped))]
fn preprocess_from<F: Files>(
    alloc: Global,
    files: &mut F,
    dirs: &[String],
    unit: &str,
    state: State,
) -> Result<Preprocessed, PpStop>
    ensures told { (m : FileMap) → F.held files.old ≡ Some m → IsPreprocessed (spec.unit_read (content m) (map string_bytes dirs.now) unit.now state) result }
    ensures keeps { Keeps (keeper_of F.Files files.old) (keeper_of F.Files files.new) result }
{
    let mut state = state;
    match read_unit(alloc, dirs, unit, &mut state, files) {
        Ok(()) => Ok(state.finish()),
        Err(stop) => Err(stop),
    }
}

/// The tokens of a unit after preprocessing (ANSI C X3.159-1989, 2.1.1.2 and 3.8): its directives done, the files
/// that it includes in their places, its macros expanded.
///
/// `dirs` are the directories that are looked in for included files, behind that of the including file;
/// `defs` are macros with their texts, of which a later one of a name counts. No file changes.
///
/// # Errors
///
/// Fault with the first line that is wrong, in the order in which lines are met; File for a file that is absent or
/// too long, or that was not read though the unit needs it; NoMemory where memory is refused.
#[tactic(auto, using(crate::proofs::Units::if_told), unfolding(crate::specs::Preprocessed::preprocessed))]
pub fn preprocess<F: Files>(
    alloc: Global,
    files: &mut F,
    dirs: &[String],
    defs: &[(String, String)],
    unit: &str,
) -> Result<Preprocessed, PpStop>
    ensures told { IfSome (F.held files.old) (λ m. IsPreprocessed (spec.preprocessed (content m) (map string_bytes dirs.now) (map definition_of defs.now) unit.now) result) }
    ensures keeps { Keeps (keeper_of F.Files files.old) (keeper_of F.Files files.new) result }
{
    let state = State::new(alloc, defs)?;
    preprocess_from(alloc, files, dirs, unit, state)
}
