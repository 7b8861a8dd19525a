//! The command of options and the names behind them.
ghost use Rattle.std.specs.Prelude.{◌≡◌, ◌∷◌, ◌++◌, [], IfOk, IfSome, length, take, map, option_map, option_and_then, unwrap_or, string_bytes};
ghost use Rattle.qv_words.specs.Calls.{AreCalls};
ghost use Rattle.qv_words.specs.Words.{command_with, compiles, assembles, disassembles, only_name, runs, builds, generates, padded, calls_in, steps_in, default_steps, all_of};
ghost use Rattle.qv_words.specs.Shown.{command_shown, options_shown, KeepsLimits};

use crate::calls::Calls;
use crate::command::Command;
use crate::names::{are_files, are_units, have_distinct_stems, is_name};
use crate::options::Options;
use crate::verb::{Verb, default_steps};
use indexmap::IndexMap;
use qv_base::NoMemory;
use qv_base::limits::CALL_WORDS;
use std::alloc::Global;

/// The command of the options and the names behind them. None where an option is missing that has to be
/// there, or the names aren't the command's.
///
/// # Errors
///
/// NoMemory where memory for the names is refused.
pub fn command_with(
    alloc: Global,
    verb: Verb,
    options: Options,
    names: &[String],
) -> Result<Option<Command>, NoMemory>
    ensures reading { IfOk result (λ c. option_map command_shown c ≡ command_with verb (options_shown options) (map string_bytes names.now)) }
    ensures limits { IfOk result (λ c. IfSome c KeepsLimits) }
{
    match verb {
        Verb::Compile => compile(alloc, options, names),
        Verb::Assemble => assemble(alloc, options, names),
        Verb::Disassemble => disassemble(names),
        Verb::Run => run(options, names),
        Verb::Build => build(alloc, options, names),
        Verb::Generate => generate(alloc, options, names),
    }
}

fn compile(alloc: Global, options: Options, names: &[String]) -> Result<Option<Command>, NoMemory>
    ensures reading { IfOk result (λ c. option_map command_shown c ≡ compiles (options_shown options) (map string_bytes names.now)) }
    ensures limits { IfOk result (λ c. IfSome c KeepsLimits) }
{
    if !are_units(names) || !have_distinct_stems(alloc, names)? {
        return Ok(None);
    }
    let units = copied(alloc, names)?;
    let Options {
        dirs,
        defs,
        binds,
        folder,
        ..
    } = options;
    let Some(folder) = folder else {
        return Ok(None);
    };
    let defs = macros(alloc, defs)?;
    Ok(Some(Command::Qcc {
        dirs,
        defs,
        binds,
        folder,
        units,
    }))
}

fn assemble(alloc: Global, options: Options, names: &[String]) -> Result<Option<Command>, NoMemory>
    ensures reading { IfOk result (λ c. option_map command_shown c ≡ option_and_then (assembles (options_shown options).list (map string_bytes names.now)) (options_shown options).image) }
    ensures limits { IfOk result (λ c. IfSome c KeepsLimits) }
{
    let Options { image, list, .. } = options;
    let Some(image) = image else {
        return Ok(None);
    };
    match list {
        None => {
            if !are_files(names) {
                return Ok(None);
            }
            let files = copied(alloc, names)?;
            Ok(Some(Command::Q3asm {
                image,
                files,
                list: None,
            }))
        }
        Some(list) => {
            if !names.is_empty() {
                return Ok(None);
            }
            Ok(Some(Command::Q3asm {
                image,
                files: Vec::new(alloc),
                list: Some(list),
            }))
        }
    }
}

fn disassemble(names: &[String]) -> Result<Option<Command>, NoMemory>
    ensures reading { IfOk result (λ c. option_map command_shown c ≡ disassembles (map string_bytes names.now)) }
    ensures limits { IfOk result (λ c. IfSome c KeepsLimits) }
{
    let [image, file] = names else {
        return Ok(None);
    };
    if !is_name(image.as_bytes()) || !is_name(file.as_bytes()) {
        return Ok(None);
    }
    let image = image.clone()?;
    let file = file.clone()?;
    Ok(Some(Command::Qdis { image, file }))
}

fn run(options: Options, names: &[String]) -> Result<Option<Command>, NoMemory>
    ensures reading { IfOk result (λ c. option_map command_shown c ≡ runs (options_shown options) (map string_bytes names.now)) }
    ensures limits { IfOk result (λ c. IfSome c KeepsLimits) }
{
    let Some(image) = only_name(names)? else {
        return Ok(None);
    };
    let steps = steps_in(Verb::Run, options.steps);
    let calls = all_calls(options.calls)?;
    Ok(Some(Command::Qrun {
        steps,
        calls,
        image,
    }))
}

// A copy of the only name, where there is one.
fn only_name(names: &[String]) -> Result<Option<String>, NoMemory>
    ensures { IfOk result (λ name. option_map string_bytes name ≡ only_name (map string_bytes names.now)) }
{
    let [name] = names else {
        return Ok(None);
    };
    if !is_name(name.as_bytes()) {
        return Ok(None);
    }
    let name = name.clone()?;
    Ok(Some(name))
}

fn build(alloc: Global, options: Options, names: &[String]) -> Result<Option<Command>, NoMemory>
    ensures reading { IfOk result (λ c. option_map command_shown c ≡ builds (options_shown options) (map string_bytes names.now)) }
    ensures limits { IfOk result (λ c. IfSome c KeepsLimits) }
{
    if !are_units(names) {
        return Ok(None);
    }
    let units = copied(alloc, names)?;
    all_of(alloc, Verb::Build, options, units)
}

fn generate(alloc: Global, options: Options, names: &[String]) -> Result<Option<Command>, NoMemory>
    ensures reading { IfOk result (λ c. option_map command_shown c ≡ generates (options_shown options) (map string_bytes names.now)) }
    ensures limits { IfOk result (λ c. IfSome c KeepsLimits) }
{
    if !names.is_empty() {
        return Ok(None);
    }
    all_of(alloc, Verb::Generate, options, Vec::new(alloc))
}

// The command `qall` of the options and the units. None where the image is missing.
fn all_of(
    alloc: Global,
    verb: Verb,
    options: Options,
    units: Vec<String>,
) -> Result<Option<Command>, NoMemory>
    ensures reading { IfOk result (λ c. option_map command_shown c ≡ all_of verb (options_shown options) (map string_bytes units.items)) }
    ensures limits { IfOk result (λ c. IfSome c KeepsLimits) }
{
    let Options {
        dirs,
        defs,
        binds,
        image,
        seed_size,
        steps,
        calls,
        ..
    } = options;
    let Some(image) = image else {
        return Ok(None);
    };
    let calls = all_calls(calls)?;
    let defs = macros(alloc, defs)?;
    Ok(Some(Command::Qall {
        dirs,
        defs,
        binds,
        seed_size,
        steps: steps_in(verb, steps),
        calls,
        image,
        units,
    }))
}

// The most steps of each call, where these were given.
fn steps_in(verb: Verb, given: Option<u64>) -> u64
    ensures { result ≡ unwrap_or given (default_steps verb) }
{
    given.unwrap_or(default_steps(verb))
}

// The macros, each with its text, in order.
fn macros(alloc: Global, defs: IndexMap<String, String>) -> Result<Vec<(String, String)>, NoMemory>
    ensures { IfOk result (λ all. all.items ≡ defs.entries) }
{
    let all = defs.into_iter().collect(alloc)?;
    Ok(all)
}

// The words of all calls, the last one among them.
fn all_calls(calls: Calls) -> Result<Vec<[u32; CALL_WORDS]>, NoMemory>
    ensures all { IfOk result (λ all. all.items ≡ calls.earlier.items ++ padded (take calls.count calls.last) ∷ []) }
    ensures calls { IfOk result (λ all. AreCalls all.items) }
{
    let Calls {
        earlier: mut all,
        last,
        count: _,
    } = calls;
    all.push(last)?;
    Ok(all)
}

// Copies of the names.
fn copied(alloc: Global, names: &[String]) -> Result<Vec<String>, NoMemory>
    ensures names { IfOk result (λ copies. map string_bytes copies.items ≡ map string_bytes names.now) }
    ensures len { IfOk result (λ copies. length copies.items ≡ length names.now) }
{
    let mut copies = Vec::new(alloc);
    for name in names {
        copies.push(name.clone()?)?;
    }
    Ok(copies)
}
