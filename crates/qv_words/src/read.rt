//! Reads one option or switch.
ghost use Rattle.std.specs.Prelude.{◌≡◌, ◌∷◌, ◌++◌, ◌<◌, [], take, length, IfOk, OnOk, Some, None, map, option_map, string_bytes, if◌then◌else◌};
ghost use Rattle.qv_words.specs.Words.{no_options, with_option, with_switch, switched, with_value, first_given, non_empty};
ghost use Rattle.qv_words.specs.Shown.{options_shown};

use crate::calls::Calls;
use crate::define::{define, definition};
use crate::number::{steps, word};
use crate::options::Options;
use crate::verb::{OptionName, Switch, Verb, option_named, switch_named, takes, takes_switch};
use indexmap::IndexMap;
use qv_base::NoMemory;
use qv_base::limits::CALL_WORDS;
use std::alloc::Global;

/// The most calls of vmMain of a command.
pub const CALLS: usize = 4096;

/// No options.
pub fn no_options(alloc: Global) -> Options
    ensures { options_shown result ≡ no_options }
{
    Options {
        dirs: Vec::new(alloc),
        defs: IndexMap::new(alloc),
        binds: None,
        folder: None,
        image: None,
        list: None,
        seed_size: None,
        steps: None,
        calls: no_calls(alloc),
    }
}

fn no_calls(alloc: Global) -> Calls
    ensures earlier { result.earlier.items ≡ [] }
    ensures last { result.count ≡ 0 }
{
    Calls {
        earlier: Vec::new(alloc),
        last: [0; CALL_WORDS],
        count: 0,
    }
}

/// Reads an option and its value. False where the command doesn't take the option, where it was given
/// before and comes once, or where the value isn't one of it; the options then count no more.
///
/// # Errors
///
/// NoMemory where memory for the value is refused.
pub fn read_option(
    alloc: Global,
    verb: Verb,
    options: &mut Options,
    word: &str,
    value: &str,
) -> Result<bool, NoMemory>
    ensures { IfOk result (λ read. (if read then Some (options_shown options.new) else None) ≡ with_option verb (options_shown options.old) word.now value.now) }
{
    let Some(option) = option_named(word) else {
        return Ok(false);
    };
    if !takes(verb, option) {
        return Ok(false);
    }
    read_value(alloc, options, option, value)
}

/// Reads a switch. False where the command doesn't take it, or not this often; the options then count no
/// more.
///
/// # Errors
///
/// NoMemory where memory for what it changes is refused.
pub fn read_switch(verb: Verb, options: &mut Options, word: &str) -> Result<bool, NoMemory>
    ensures { IfOk result (λ read. (if read then Some (options_shown options.new) else None) ≡ with_switch verb (options_shown options.old) word.now) }
{
    let Some(switch) = switch_named(word) else {
        return Ok(false);
    };
    if !takes_switch(verb, switch) {
        return Ok(false);
    }
    match switch {
        Switch::NextCall => read_next_call(options),
    }
}

// Reads `-c`. False where there are 4,096 calls already.
fn read_next_call(options: &mut Options) -> Result<bool, NoMemory>
    ensures { IfOk result (λ read. (if read then Some (options_shown options.new) else None) ≡ switched (options_shown options.old) Switch.NextCall) }
{
    if options.calls.earlier.len() + 1 >= CALLS {
        return Ok(false);
    }
    end_call(&mut options.calls)?;
    Ok(true)
}

// Ends a call, and begins one without words.
fn end_call(calls: &mut Calls) -> Result<(), NoMemory>
    requires { length calls.old.earlier.items < 4095 }
    ensures earlier { OnOk result (calls.new.earlier.items ≡ calls.old.earlier.items ++ calls.old.last ∷ []) }
    ensures last { OnOk result (calls.new.count ≡ 0) }
{
    calls.earlier.push(calls.last)?;
    calls.last = [0; CALL_WORDS];
    calls.count = 0;
    Ok(())
}

fn read_value(
    alloc: Global,
    options: &mut Options,
    option: OptionName,
    value: &str,
) -> Result<bool, NoMemory>
    ensures { IfOk result (λ read. (if read then Some (options_shown options.new) else None) ≡ with_value (options_shown options.old) option value.now) }
{
    match option {
        OptionName::IncludeDir => read_dir(alloc, options, value),
        OptionName::Definition => read_definition(alloc, options, value),
        OptionName::Binds => read_name(alloc, &mut options.binds, value),
        OptionName::Folder => read_name(alloc, &mut options.folder, value),
        OptionName::Image => read_name(alloc, &mut options.image, value),
        OptionName::ListFile => read_name(alloc, &mut options.list, value),
        OptionName::Steps => Ok(read_steps(options, value)),
        OptionName::Word => Ok(read_word(options, value)),
    }
}

fn read_dir(alloc: Global, options: &mut Options, value: &str) -> Result<bool, NoMemory>
    ensures { IfOk result (λ read. (if read then Some (options_shown options.new) else None) ≡ with_value (options_shown options.old) OptionName.IncludeDir value.now) }
{
    if value.is_empty() {
        return Ok(false);
    }
    options.dirs.push(String::from_str(alloc, value)?)?;
    Ok(true)
}

fn read_definition(alloc: Global, options: &mut Options, value: &str) -> Result<bool, NoMemory>
    ensures { IfOk result (λ read. (if read then Some (options_shown options.new) else None) ≡ with_value (options_shown options.old) OptionName.Definition value.now) }
{
    let Some((name, text)) = definition(alloc, value)? else {
        return Ok(false);
    };
    define(&mut options.defs, name, text)?;
    Ok(true)
}

// Reads a name that is given once. False where the value is empty, or a name was given before.
fn read_name(alloc: Global, name: &mut Option<String>, value: &str) -> Result<bool, NoMemory>
    ensures { IfOk result (λ read. (if read then Some (option_map string_bytes name.new) else None) ≡ option_map Some (first_given (option_map string_bytes name.old) (non_empty value.now))) }
{
    if name.is_some() || value.is_empty() {
        return Ok(false);
    }
    *name = Some(String::from_str(alloc, value)?);
    Ok(true)
}

fn read_steps(options: &mut Options, value: &str) -> bool
    ensures { (if result then Some (options_shown options.new) else None) ≡ with_value (options_shown options.old) OptionName.Steps value.now }
{
    if options.steps.is_some() {
        return false;
    }
    let Some(n) = steps(value.as_bytes()) else {
        return false;
    };
    options.steps = Some(n);
    true
}

fn read_word(options: &mut Options, value: &str) -> bool
    ensures { (if result then Some (options_shown options.new) else None) ≡ with_value (options_shown options.old) OptionName.Word value.now }
{
    let Some(word) = word(value.as_bytes()) else {
        return false;
    };
    if options.calls.count >= CALL_WORDS {
        return false;
    }
    add_word(&mut options.calls, word);
    true
}

// One more word of the last call.
fn add_word(calls: &mut Calls, word: u32)
    requires { calls.old.count < 14 }
    ensures last { take calls.new.count calls.new.last ≡ take calls.old.count calls.old.last ++ word ∷ [] }
    ensures earlier { calls.new.earlier.items ≡ calls.old.earlier.items }
{
    calls.last[calls.count] = word;
    calls.count += 1;
}
