//! Definitions of macros: `name=text`, or `name` for `name=1`.
ghost use Rattle.std.specs.Prelude.{◌≡◌, IfOk, OnOk, map, option_map, string_bytes};
ghost use Rattle.std.specs.List.{list_any};
ghost use Rattle.std.specs.Str.{bytes_eq};
ghost use Rattle.qv_words.specs.Define.{is_macro_name, reserved, defined_as, definition_of, with_definition};
ghost use Rattle.qv_words.specs.Shown.{define_shown};

use crate::text::is_definition_text;
use indexmap::IndexMap;
use pp_tok::sole::is_identifier;
use qv_base::NoMemory;
use std::alloc::Global;

// Names that can't be defined.
static RESERVED: [&str; 6] = [
    "defined", "__STDC__", "__FILE__", "__LINE__", "__DATE__", "__TIME__",
];

/// The macro that a value of `-D` defines: its name and its text. None where the name can't be
/// defined or the text isn't allowed.
///
/// # Errors
///
/// NoMemory where memory for them is refused.
pub fn definition(alloc: Global, value: &str) -> Result<Option<(String, String)>, NoMemory>
    ensures { IfOk result (λ d. option_map define_shown d ≡ definition_of value.now) }
{
    match value.split_once('=') {
        Some((name, text)) => defined_as(alloc, name, text),
        None => defined_as(alloc, value, "1"),
    }
}

fn defined_as(alloc: Global, name: &str, text: &str) -> Result<Option<(String, String)>, NoMemory>
    ensures { IfOk result (λ d. option_map define_shown d ≡ defined_as name.now text.now) }
{
    if !is_macro_name(name) || !is_definition_text(alloc, text.as_bytes())? {
        return Ok(None);
    }
    let name = String::from_str(alloc, name)?;
    let text = String::from_str(alloc, text)?;
    Ok(Some((name, text)))
}

fn is_macro_name(name: &str) -> bool
    ensures { result ≡ is_macro_name name.now }
{
    is_identifier(name.as_bytes()) && !is_reserved(name)
}

fn is_reserved(name: &str) -> bool
    ensures { result ≡ list_any (bytes_eq name.now) reserved }
{
    for word in &RESERVED {
        if name == *word {
            return true;
        }
    }
    false
}

/// Adds a macro, in the place of an earlier one of its name where there is one.
///
/// # Errors
///
/// NoMemory where memory for it is refused.
pub fn define(
    defs: &mut IndexMap<String, String>,
    name: String,
    text: String,
) -> Result<(), NoMemory>
    ensures { OnOk result (map define_shown defs.new.entries ≡ with_definition (string_bytes name, string_bytes text) (map define_shown defs.old.entries)) }
{
    defs.insert(name, text)?;
    Ok(())
}
