// Runs of the tool.
use crate::plan::Plan;
use qv_base::NoMemory;
use qv_base::name::Name;
use qv_outside::files::{FileFault, Files};
use qv_outside::fixed_host::FixedHost;
use qv_outside::mem_files::MemFiles;
use qv_outside::mem_sink::MemSink;
use qv_outside::script_host::ScriptHost;
use qv_outside::signature::Sig;
use qv_outside::steady_files::SteadyFiles;
use qv_tool::status::status_code;
use qv_tool::tool::tool;
use std::alloc::Global;
use std::collections::BTreeMap;
use std::path::Path;

// Room for the calls of a host, and for the bytes of their texts.
const ROOM: u32 = 4_096;

/// Files by their names.
pub type Shelf = BTreeMap<String, Vec<u8>>;

/// The traps of a host, each with the kinds of its arguments.
pub type Traps = Vec<(u32, Sig)>;

/// What a run came to.
#[derive(Drop)]
pub struct Outcome {
    /// The status's number.
    pub code: u8,
    /// What the module printed.
    pub out: MemSink,
    /// How the run was told.
    pub err: MemSink,
    /// How many calls the host was asked.
    pub asked: usize,
    /// The files behind the run.
    pub shelf: Shelf,
}

/// Runs the tool by these words.
pub fn run(
    alloc: Global,
    words: &[String],
    shelf: &Shelf,
    traps: &[(u32, Sig)],
    plan: Plan,
) -> Result<Outcome, NoMemory> {
    let entries = entries(alloc, shelf)?;
    let names = names(alloc, words, shelf)?;
    if plan.is_steady {
        run_over(alloc, words, &names, traps, plan, SteadyFiles::new(entries))
    } else {
        let files = MemFiles::new(entries, plan.calls.to_vec(alloc)?);
        run_over(alloc, words, &names, traps, plan, files)
    }
}

/// Runs the tool over these files, and reads those of these names behind the run.
fn run_over<F: Files + Drop>(
    alloc: Global,
    words: &[String],
    names: &[String],
    traps: &[(u32, Sig)],
    plan: Plan,
    mut files: F,
) -> Result<Outcome, NoMemory> {
    let mut out = MemSink::new(alloc, plan.out_room, plan.out_puts.to_vec(alloc)?)?;
    let mut err = MemSink::new(alloc, plan.room, plan.puts.to_vec(alloc)?)?;
    let failing = plan.calls.len();
    let (status, asked) = if traps.is_empty() {
        let mut host = FixedHost::new(Vec::new(alloc), 0);
        let status = tool(alloc, words, &mut files, &mut out, &mut err, &mut host);
        (status, 0)
    } else {
        let mut host = scripted(alloc, traps, plan)?;
        let status = tool(alloc, words, &mut files, &mut out, &mut err, &mut host);
        (status, host.asked_len())
    };
    Ok(Outcome {
        code: status_code(&status),
        out,
        err,
        asked,
        shelf: shelf_of(alloc, &mut files, names, failing)?,
    })
}

/// The host that has these traps and replies as planned.
fn scripted(alloc: Global, traps: &[(u32, Sig)], plan: Plan) -> Result<ScriptHost, NoMemory> {
    ScriptHost::new(alloc, traps.to_vec(alloc)?, plan.replies, plan.asks, ROOM)
}

/// The files of these names behind a run. `failing` calls at most may yet fail.
fn shelf_of<F: Files>(
    alloc: Global,
    files: &mut F,
    names: &[String],
    failing: usize,
) -> Result<Shelf, NoMemory> {
    let mut shelf = BTreeMap::new(alloc);
    for name in names {
        if let Some(bytes) = read_back(alloc, files, name, failing)? {
            shelf.insert(name.clone()?, bytes)?;
        }
    }
    Ok(shelf)
}

/// The files as a list.
fn entries(alloc: Global, shelf: &Shelf) -> Result<Vec<(Name, Vec<u8>)>, NoMemory> {
    let mut entries = Vec::new(alloc);
    for (name, bytes) in shelf {
        let name = Name::from_bytes(alloc, name.as_bytes())?;
        entries.push((name, bytes.clone()?))?;
    }
    Ok(entries)
}

/// The names of the files, and those that a run by these words may write: each word, and the text of each in
/// the folder of `-d`.
fn names(alloc: Global, words: &[String], shelf: &Shelf) -> Result<Vec<String>, NoMemory> {
    let mut names = Vec::new(alloc);
    for name in shelf.keys() {
        names.push(name.clone()?)?;
    }
    let folder = folder(words);
    for word in words {
        let stem = Path::new(word.as_str()).file_stem().unwrap_or("");
        names.push(format!(in alloc; "{folder}/{stem}.asm")?)?;
        names.push(word.clone()?)?;
    }
    Ok(names)
}

/// The word behind the first `-d`, or an empty one.
fn folder(words: &[String]) -> &str {
    let mut is_folder = false;
    for word in words {
        if is_folder {
            return word.as_str();
        }
        is_folder = word.as_str() == "-d";
    }
    ""
}

/// What a file holds behind a run. None where it isn't there. `failing` calls at most may yet fail.
fn read_back<F: Files>(
    alloc: Global,
    files: &mut F,
    name: &str,
    failing: usize,
) -> Result<Option<Vec<u8>>, NoMemory> {
    for _ in 0..=failing {
        match files.read(alloc, name) {
            Ok(bytes) => return Ok(Some(bytes)),
            Err(FileFault::NoMemory) => return Err(NoMemory),
            Err(_) => {}
        }
    }
    Ok(None)
}
