//! The arguments of a call.
ghost use Rattle.std.specs.Prelude.{◌≡◌, ◌∷◌, ◌++◌, [], length, map, IfOk, OnOk, None};
ghost use Rattle.pp_macro.specs.Calls as spec;
ghost use Rattle.pp_macro.specs.Nests.{Takes};

use crate::pending::Pending;
use crate::tokens::is_mark;
use crate::unread::Unread;
use pp_tok::token::PpTok;
use qv_base::NoMemory;
use qv_base::name::Name;
use sqlite_items::Items;
use std::alloc::Global;
use std::mem;

/// A call behind its name and its opening parenthesis.
#[derive(Drop)]
pub struct Call {
    /// Its arguments, parted at the commas outside parentheses.
    pub args: Items<Items<PpTok>>,
    /// Its closing parenthesis.
    pub close: PpTok,
}

/// Takes a call's arguments and its closing parenthesis. None where it has no such parenthesis.
///
/// # Errors
///
/// NoMemory where memory for them is refused.
#[tactic(auto, unfolding(crate::specs::Calls::call_at))]
pub fn take_call(alloc: Global, unread: &mut Unread<'_>) -> Result<Option<Call>, NoMemory>
    ensures { Takes (spec.call_at unread.old 0 [] []) result unread.new }
{
    let all = unread.len();
    let mut args = Items::new(alloc);
    let mut arg = Items::new(alloc);
    let mut depth = 0usize;
    while let Some(Pending { token, .. }) = unread.pop()? {
        if is_mark(&token, b"(") {
            depth += 1;
        } else if is_mark(&token, b")") {
            if depth == 0 {
                args.push(arg)?;
                return Ok(Some(Call { args, close: token }));
            }
            depth -= 1;
        } else if depth == 0 && is_mark(&token, b",") {
            args.push(mem::replace(&mut arg, Items::new(alloc)))?;
            continue;
        }
        arg.push(token)?;
    }
    let _ = all;
    Ok(None)
}

/// Whether a macro of these parameters takes these arguments.
pub fn counts(params: &[Name], args: &[Items<PpTok>]) -> bool
    ensures { result ≡ spec.counts params.now args.now }
{
    match (params, args) {
        ([], [only]) => only.is_empty(),
        _ => params.len() == args.len(),
    }
}
