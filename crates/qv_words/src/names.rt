//! Names: files, units and the stems of units.
ghost use Rattle.std.specs.Prelude.{◌≡◌, ◌≤◌, IfOk, IsTrue, length, map, string_bytes};
ghost use Rattle.qv_words.specs.Names.{begins_with_dash, is_name, is_c_ending, is_unit_name, are_some, are_files, are_units, stem_of, have_distinct_stems};

use indexmap::IndexSet;
use qv_base::NoMemory;
use std::alloc::Global;
use std::path::Path;

/// The most units or files of a command.
pub const NAMES: usize = 4096;

/// The stem of a unit: the name of its file without the ending `.c`.
pub fn stem(unit: &str) -> &str
    ensures { result.now ≡ stem_of unit.now }
{
    Path::new(unit).file_stem().unwrap_or("")
}

/// Whether no two units have the same stem.
///
/// # Errors
///
/// NoMemory where memory for the set of stems is refused.
pub fn have_distinct_stems(alloc: Global, units: &[String]) -> Result<bool, NoMemory>
    ensures { IfOk result (λ distinct. distinct ≡ have_distinct_stems (map string_bytes units.now)) }
{
    let mut stems = IndexSet::with_capacity(alloc, units.len())?;
    for unit in units {
        if !stems.insert(stem(unit.as_str()))? {
            return Ok(false);
        }
    }
    Ok(true)
}

/// Whether these are 1 to 4,096 names of files.
pub fn are_files(names: &[String]) -> bool
    ensures test { result ≡ are_files (map string_bytes names.now) }
    ensures most { IsTrue result → length names.now ≤ 4096 }
{
    if !are_some(names) {
        return false;
    }
    for name in names {
        if !is_name(name.as_bytes()) {
            return false;
        }
    }
    true
}

/// Whether these are 1 to 4,096 names of units.
pub fn are_units(names: &[String]) -> bool
    ensures { result ≡ are_units (map string_bytes names.now) }
{
    if !are_some(names) {
        return false;
    }
    for name in names {
        if !is_unit_name(name.as_bytes()) {
            return false;
        }
    }
    true
}

fn are_some(names: &[String]) -> bool
    ensures { result ≡ are_some (map string_bytes names.now) }
{
    !names.is_empty() && names.len() <= NAMES
}

/// Whether the name isn't empty and begins with no dash.
pub fn is_name(name: &[u8]) -> bool
    ensures { result ≡ is_name name.now }
{
    !name.is_empty() && !begins_with_dash(name)
}

// Whether the name ends in `.c` with a character before it that is no slash, and begins with no dash.
fn is_unit_name(name: &[u8]) -> bool
    ensures { result ≡ is_unit_name name.now }
{
    !begins_with_dash(name) && is_c_ending(&name[name.len().saturating_sub(3)..])
}

/// Whether the word begins with a dash.
pub fn begins_with_dash(word: &[u8]) -> bool
    ensures { result ≡ begins_with_dash word.now }
{
    matches!(word, [b'-', ..])
}

fn is_c_ending(bytes: &[u8]) -> bool
    ensures { result ≡ is_c_ending bytes.now }
{
    match bytes {
        [before, dot, c] => *before != b'/' && *dot == b'.' && *c == b'c',
        _ => false,
    }
}
