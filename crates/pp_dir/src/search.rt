//! The search for files.
ghost use Rattle.std.specs.Prelude.{◌≡◌, ◌<◌, ◌+◌, ◌^◌, if◌then◌else◌, IfOk, OnOk, Some, map, string_bytes, take};
ghost use Rattle.std.specs.Str.{IsCharBoundary};
ghost use Rattle.qv_outside.specs.FileMap.{FileMap, content};
ghost use Rattle.pp_dir.specs.Endings.{EndsFound, IsRead, Keeps, keeper_of};
ghost use Rattle.pp_dir.specs.Forms as forms;
ghost use Rattle.pp_dir.specs.Preprocessed as spec;
ghost use Rattle.pp_dir.specs.Shown.{wanted_shown};

use crate::fault::PpStop;
use crate::header::Wanted;
use crate::state::State;
use qv_base::NoMemory;
use qv_base::name::Name;
use qv_outside::files::{FileFault, Files};
use std::alloc::Global;

/// A file that was found.
#[derive(Drop)]
pub struct Found<'n> {
    /// Its name.
    pub name: &'n str,
    /// Its bytes.
    pub bytes: Vec<u8>,
}

/// The bytes of the file of this name. None where there is no such file.
///
/// # Errors
///
/// File where the file is too long or was not read, or NoMemory.
pub fn read_one<F: Files>(
    alloc: Global,
    files: &mut F,
    name: &str,
) -> Result<Option<Vec<u8>>, PpStop>
    ensures told { (map : FileMap) → F.held files.old ≡ Some map → IsRead name.now (content map name.now) result }
    ensures keeps { Keeps (keeper_of F.Files files.old) (keeper_of F.Files files.new) result }
{
    let kept = Name::from_bytes(alloc, name.as_bytes())?;
    match files.read(alloc, name) {
        Ok(bytes) => Ok(Some(bytes)),
        Err(FileFault::Absent) => Ok(None),
        Err(FileFault::NoMemory) => Err(PpStop::NoMemory),
        Err(fault) => Err(PpStop::File { name: kept, fault }),
    }
}

impl State {
    /// One more name is tried.
    ///
    /// # Errors
    ///
    /// NoMemory where memory for it is refused.
    pub fn trying(&mut self, alloc: Global, name: &str) -> Result<(), NoMemory>
        ensures { OnOk result (self.new ≡ spec.trying name.now self.old) }
    {
        self.tried.push(Name::from_bytes(alloc, name.as_bytes())?)?;
        Ok(())
    }

    #[tactic(auto, using(crate::proofs::Searching::search_goes, crate::proofs::Searching::search_finds, crate::proofs::Searching::search_stops), unfolding(crate::specs::Preprocessed::searched))]
    /// The first of these names under which there is a file. Those up to it are tried.
    ///
    /// # Errors
    ///
    /// File where a file is too long or was not read, or NoMemory.
    pub fn searched<'n, F: Files>(
        &mut self,
        alloc: Global,
        names: &'n [String],
        files: &mut F,
    ) -> Result<Option<Found<'n>>, PpStop>
        ensures told { (m : FileMap) → F.held files.old ≡ Some m → EndsFound (spec.searched (content m) (map string_bytes names.now) self.old) result self.new }
        ensures keeps { Keeps (keeper_of F.Files files.old) (keeper_of F.Files files.new) result }
    {
        let mut rest = names;
        while let Some((name, more)) = rest.split_first() {
            rest = more;
            self.trying(alloc, name.as_str())?;
            match read_one(alloc, files, name.as_str()) {
                Ok(None) => {}
                Ok(Some(bytes)) => {
                    let name = name.as_str();
                    return Ok(Some(Found { name, bytes }));
                }
                Err(stop) => return Err(stop),
            }
        }
        Ok(None)
    }
}

// That place behind one more byte, at this place.
fn end_behind(end: usize, at: usize, byte: u8) -> usize
    requires { at < 2 ^ 63 }
    ensures { result ≡ (if forms.is_slash byte then at + 1 else end) }
{
    if byte == b'/' { at + 1 } else { end }
}

// The place behind the last `/` of a name, or 0.
#[tactic(auto, using(crate::proofs::Slashes::directory_step, crate::proofs::Slashes::boundary_step), unfolding(crate::specs::Forms::directory_of))]
fn slash_end(name: &str) -> usize
    ensures value { take result name.now ≡ forms.directory_of name.now }
    ensures boundary { 0 < result → IsCharBoundary name.now result }
{
    let mut end = 0;
    for (at, byte) in name.as_bytes().iter().enumerate() {
        end = end_behind(end, at, *byte);
    }
    end
}

fn directory_of(name: &str) -> &str
    ensures { result.now ≡ forms.directory_of name.now }
{
    let end = slash_end(name);
    if end == 0 {
        return "";
    }
    name.split_at(end).0
}

/// The names that are tried in turn.
///
/// # Errors
///
/// NoMemory where memory for them is refused.
pub fn candidates(
    alloc: Global,
    dirs: &[String],
    file: &str,
    wanted: Wanted<'_>,
) -> Result<Vec<String>, NoMemory>
    ensures { IfOk result (λ names. map string_bytes names.items ≡ forms.candidates (map string_bytes dirs.now) file.now (wanted_shown wanted.entry)) }
{
    let mut names = Vec::new(alloc);
    let name = wanted.name;
    if wanted.near {
        let directory = directory_of(file);
        names.push(format!(in alloc; "{directory}{name}")?)?;
    }
    for dir in dirs {
        names.push(format!(in alloc; "{dir}/{name}")?)?;
    }
    Ok(names)
}
