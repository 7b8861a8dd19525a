//! Spellings in quotes.
ghost use Rattle.std.specs.Prelude.{◌≡◌, ◌++◌, IfOk, OnOk, flat_map};
ghost use Rattle.pp_macro.specs.Fill as spec;
ghost use Rattle.pp_macro.specs.Tokens.{escaped, quoted};

use crate::tokens::made;
use pp_tok::token::{PpKind, PpTok};
use qv_base::NoMemory;
use std::alloc::Global;

/// Appends bytes with a `\` before each `\` and `"`.
///
/// # Errors
///
/// NoMemory where memory for them is refused.
pub fn push_escaped(text: &mut Vec<u8>, bytes: &[u8]) -> Result<(), NoMemory>
    ensures { OnOk result (text.new.items ≡ text.old.items ++ escaped bytes.now) }
{
    for byte in bytes {
        if matches!(byte, b'"' | b'\\') {
            text.push(b'\\')?;
        }
        text.push(*byte)?;
    }
    Ok(())
}

fn push_spelling(text: &mut Vec<u8>, token: &PpTok) -> Result<(), NoMemory>
    ensures { OnOk result (text.new.items ≡ text.old.items ++ spec.spelled_token token.now) }
{
    if matches!(token.kind, PpKind::Char | PpKind::Text) {
        return push_escaped(text, token.spelling.bytes());
    }
    text.extend_from_slice(token.spelling.bytes())?;
    Ok(())
}

fn push_behind(text: &mut Vec<u8>, token: &PpTok) -> Result<(), NoMemory>
    ensures { OnOk result (text.new.items ≡ text.old.items ++ spec.spelled_behind token.now) }
{
    if token.space || token.first {
        text.push(b' ')?;
    }
    push_spelling(text, token)
}

fn push_argument(text: &mut Vec<u8>, argument: &[PpTok]) -> Result<(), NoMemory>
    ensures { OnOk result (text.new.items ≡ text.old.items ++ spec.spelling_of argument.now) }
{
    let Some((first, behind)) = argument.split_first() else {
        return Ok(());
    };
    push_spelling(text, first)?;
    push_all_behind(text, behind)
}

fn push_all_behind(text: &mut Vec<u8>, behind: &[PpTok]) -> Result<(), NoMemory>
    ensures { OnOk result (text.new.items ≡ text.old.items ++ flat_map spec.spelled_behind behind.now) }
{
    for token in behind {
        push_behind(text, token)?;
    }
    Ok(())
}

/// The token that a `#` makes of an argument.
///
/// # Errors
///
/// NoMemory where memory for it is refused.
pub fn text_of(alloc: Global, hash: &PpTok, argument: &[PpTok]) -> Result<PpTok, NoMemory>
    ensures { IfOk result (λ t. t ≡ spec.text_of hash.now argument.now) }
{
    let mut text = Vec::new(alloc);
    text.push(b'"')?;
    push_argument(&mut text, argument)?;
    text.push(b'"')?;
    made(alloc, PpKind::Text, &text, hash)
}
