//! Spellings that are one token.
ghost use Rattle.std.specs.Prelude.{◌≡◌, ◌<◌, length};
ghost use Rattle.std.specs.List.{list_all};
ghost use Rattle.pp_tok.specs.Lengths.{is_name_byte};
ghost use Rattle.pp_tok.specs.Sole.{kind_of, sole_kind_of, is_identifier};

use crate::length::{is_letter, is_name_byte};
use crate::piece::{LineState, What, piece_at};
use crate::token::PpKind;
use crate::unclosed::Unclosed;

/// The class of the token that these bytes are. None where they aren't one token.
///
/// They are cut as in a file (ANSI C X3.159-1989, 3.1), without joins of lines and names of headers.
#[tactic(auto, using(crate::proofs::Soles::sole_kind_of_first), unfolding(crate::specs::Sole::sole_kind_of))]
pub fn sole_kind(bytes: &[u8]) -> Option<PpKind>
    ensures { result ≡ sole_kind_of bytes.now }
{
    if bytes.is_empty() {
        return None;
    }
    let piece = piece_at(LineState::Other, bytes, 0, &mut Unclosed::new())?;
    if piece.length != bytes.len() {
        return None;
    }
    kind_of(piece.what)
}

// The class of a piece that is a token.
fn kind_of(what: What) -> Option<PpKind>
    ensures { result ≡ kind_of what }
{
    match what {
        What::Token(kind) => Some(kind),
        What::Blank | What::LineEnd => None,
    }
}

/// Whether these bytes are an identifier: a letter or `_`, and then letters, `_` and digits (ANSI C
/// X3.159-1989, 3.1.2).
#[tactic(auto, unfolding(crate::specs::Sole::is_identifier))]
pub fn is_identifier(bytes: &[u8]) -> bool
    ensures { result ≡ is_identifier bytes.now }
{
    match bytes {
        [first, rest @ ..] => is_letter(*first) && are_name_bytes(rest),
        [] => false,
    }
}

fn are_name_bytes(bytes: &[u8]) -> bool
    ensures { result ≡ list_all is_name_byte bytes.now }
{
    bytes.iter().all(|byte| is_name_byte(*byte))
}

#[cfg(test)]
mod tests {
    use super::*;

    #[test]
    fn tells_sole_tokens(rt: HostRuntime) {
        let rows: [(&[u8], Option<PpKind>); 12] = [
            (b"", None),
            (b"L", Some(PpKind::Ident)),
            (b"L'a'", Some(PpKind::Char)),
            (b"L\"a\"", Some(PpKind::Text)),
            (b".5e+", Some(PpKind::Number)),
            (b"1+", None),
            (b">>=", Some(PpKind::Punct)),
            (b"->>", None),
            (b"\"", Some(PpKind::Byte)),
            (b"/**/", None),
            (b"/*", None),
            (b"\n", None),
        ];
        for (bytes, want) in rows {
            assert_eq!(rt; sole_kind(bytes), want, "at {bytes:?}");
        }
    }

    #[test]
    fn tells_identifiers(rt: HostRuntime) {
        let rows: [(&[u8], bool); 6] = [
            (b"", false),
            (b"_", true),
            (b"a1_Z", true),
            (b"1a", false),
            (b"a-b", false),
            (b"a$", false),
        ];
        for (bytes, want) in rows {
            assert_eq!(rt; is_identifier(bytes), want, "at {bytes:?}");
        }
    }
}
