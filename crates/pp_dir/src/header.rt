//! The names of files to include.
ghost use Rattle.std.specs.Prelude.{◌≡◌, ◌++◌, IfOk, map, option_map, string_bytes};
ghost use Rattle.std.specs.List.{list_all};
ghost use Rattle.pp_dir.specs.Forms as spec;
ghost use Rattle.pp_dir.specs.Shown.{wanted_shown};

use pp_tok::token::{PpKind, PpTok};

/// A file to include.
#[derive(Clone, Copy)]
pub struct Wanted<'t> {
    /// Its name as it is written.
    pub name: &'t str,
    /// Whether the directory of the including file is looked in.
    pub near: bool,
}

// What stands between the first byte and the last one.
fn inner_of(spelling: &[u8]) -> &[u8]
    ensures { result.now ≡ spec.inner_of spelling.now }
{
    if spelling.len() < 2 {
        return &[];
    }
    &spelling[1..spelling.len() - 1]
}

fn begins_with_quote(spelling: &[u8]) -> bool
    ensures { result ≡ spec.begins_with_quote spelling.now }
{
    matches!(spelling, [b'"', ..])
}

fn is_printable(byte: u8) -> bool
    ensures { result ≡ spec.is_printable byte }
{
    (32..=126).contains(&byte)
}

fn are_printable(name: &[u8]) -> bool
    ensures { result ≡ list_all spec.is_printable name.now }
{
    name.iter().all(|byte| is_printable(*byte))
}

// Whether these are printable characters of ASCII, at least one.
fn is_file_name(name: &[u8]) -> bool
    ensures { result ≡ spec.is_file_name name.now }
{
    !name.is_empty() && are_printable(name)
}

#[tactic(auto, using(crate::proofs::Printable::is_utf8))]
fn named(name: &[u8], near: bool) -> Option<Wanted<'_>>
    ensures { option_map wanted_shown result ≡ spec.named name.now near }
{
    if !is_file_name(name) {
        return None;
    }
    match str::from_utf8(name) {
        Ok(name) => Some(Wanted { name, near }),
        Err(_) => None,
    }
}

/// Whether a header name comes first.
pub fn begins_with_header(toks: &[PpTok]) -> bool
    ensures { result ≡ spec.begins_with_header toks.now }
{
    match toks.first() {
        Some(tok) => tok.kind == PpKind::Header,
        None => false,
    }
}

/// The file that `"x"` or `<x>` asks for, where nothing stands behind it.
pub fn header_of(toks: &[PpTok]) -> Option<Wanted<'_>>
    ensures { option_map wanted_shown result ≡ spec.header_of toks.now }
{
    match toks {
        [tok] if tok.kind == PpKind::Header => {
            let spelling = tok.spelling.bytes();
            named(inner_of(spelling), begins_with_quote(spelling))
        }
        _ => None,
    }
}

/// The file that a string asks for which macros give.
pub fn text_of(toks: &[PpTok]) -> Option<Wanted<'_>>
    ensures { option_map wanted_shown result ≡ spec.text_of toks.now }
{
    match toks {
        [tok] if tok.kind == PpKind::Text && begins_with_quote(tok.spelling.bytes()) => {
            named(inner_of(tok.spelling.bytes()), true)
        }
        _ => None,
    }
}
