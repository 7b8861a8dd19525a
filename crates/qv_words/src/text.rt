//! Which texts a definition may have.
ghost use Rattle.std.specs.Prelude.{◌≡◌, ◌==◌, Ok, IfOk, option_copied};
ghost use Rattle.std.specs.List.{list_any};
ghost use Rattle.qv_words.specs.Text.{is_paste, are_framed, is_definition_text};

use pp_tok::lines::text_tokens;
use pp_tok::token::{PpKind, PpTok, PpTokFault};
use qv_base::NoMemory;
use std::alloc::Global;

/// Whether a definition may have this text: it has no line feed and no open comment, and `##` stands
/// at neither end.
///
/// # Errors
///
/// NoMemory where memory for its tokens is refused.
pub fn is_definition_text(alloc: Global, text: &[u8]) -> Result<bool, NoMemory>
    ensures { IfOk result (λ allowed. allowed ≡ is_definition_text text.now) }
{
    if has_line_feed(text) {
        return Ok(false);
    }
    match text_tokens(alloc, text) {
        Ok(tokens) => Ok(are_framed(tokens.as_slice())),
        Err(PpTokFault::OpenComment(_)) => Ok(false),
        Err(PpTokFault::NoMemory) => Err(NoMemory),
    }
}

fn has_line_feed(text: &[u8]) -> bool
    ensures { result ≡ list_any (λ b. b == 10) text.now }
{
    text.contains(&b'\n')
}

// Whether `##` is neither the first token nor the last one.
fn are_framed(tokens: &[PpTok]) -> bool
    ensures { result ≡ are_framed (Ok tokens.now) }
{
    !is_paste(tokens.first()) && !is_paste(tokens.last())
}

fn is_paste(token: Option<&PpTok>) -> bool
    ensures { result ≡ is_paste (option_copied token.entry) }
{
    match token {
        Some(token) => {
            matches!(token.kind, PpKind::Punct) && token.spelling.bytes() == b"##".as_slice()
        }
        None => false,
    }
}
