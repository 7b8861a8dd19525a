// What a line adds to a segment.
ghost use Rattle.std.specs.Prelude.{◌≡◌, option_map};
ghost use Rattle.asm_line.specs.Shown.{row_of};
ghost use Rattle.asm_line.specs.Stands.{addition_size};
ghost use Rattle.asm_link.specs.Shown.{addition_shown, added_shown, before_of};
ghost use Rattle.asm_link.specs.State.{row_addition};

use crate::state::{State, size_in};
use asm_line::line::{AsmSegment, Line, Value};
use asm_place::size::zeros_to;

/// What a line adds to a segment.
#[derive(Clone, Copy)]
pub enum Addition<'a> {
    /// A word.
    Word(Value<'a>),
    /// A byte.
    Byte(u8),
    /// So many zero bytes.
    Zeros(u32),
}

impl Addition<'_> {
    /// How many bytes these are.
    pub fn size(self) -> u32
        ensures { result ≡ addition_size (added_shown self.entry) }
    {
        match self {
            Addition::Word(_) => 4,
            Addition::Byte(_) => 1,
            Addition::Zeros(n) => n,
        }
    }
}

/// The segment that a line adds to, and what it adds. None where it adds nothing.
pub fn added_by<'a>(s: &State<'a>, line: &Line<'a>) -> Option<(AsmSegment, Addition<'a>)>
    ensures { option_map addition_shown result ≡ row_addition (row_of line.now) (before_of s.now) }
{
    match *line {
        Line::Word(value) => Some((AsmSegment::Data, Addition::Word(value))),
        Line::LitByte(byte) => Some((AsmSegment::Lit, Addition::Byte(byte))),
        Line::Skip(n) => Some((s.segment, Addition::Zeros(n))),
        Line::Align(n) => {
            let zeros = zeros_to(n, size_in(s, s.segment)) as u32;
            Some((s.segment, Addition::Zeros(zeros)))
        }
        _ => None,
    }
}
