// What names and expressions stand for.
ghost use Rattle.std.specs.Prelude.{◌≡◌, ◌+◌, ◌<◌, ◌^◌, ◌%◌};
ghost use Rattle.asm_line.specs.Shown.{expression_of};
ghost use Rattle.asm_link.specs.Definitions.{base, end_of, known, number, value_of};
ghost use Rattle.asm_link.specs.Shown.{before_of, texts_of};
ghost use Rattle.asm_link.specs.Source.{source_of};
ghost use Rattle.asm_link.specs.State.{weight};

use crate::known::Known;
use crate::naming::find;
use crate::state::{State, size_in};
use crate::tables::Tables;
use asm_line::line::{AsmSegment, Value};
use asm_place::address::Address;
use asm_place::size::rounded;

/// What is known of a name in a file. None where no line defines it.
pub fn known(tables: &Tables<'_>, file: u32, name: &[u8]) -> Option<Known>
    ensures { result ≡ known (source_of (texts_of tables.now.files.now)) file name.now }
{
    find(&tables.names, end_of(&tables.last), file, name)
}

// The end of the current segment.
fn end_of(last: &State<'_>) -> Address
    ensures { result ≡ end_of last.now.segment (before_of last.now) }
{
    Address::Relative(last.segment, size_in(last, last.segment))
}

// The length of the segments before one.
fn base(last: &State<'_>, segment: AsmSegment) -> u128
    requires { weight (before_of last.now) < 2 ^ 126 }
    ensures { result ≡ base segment (before_of last.now) }
{
    match segment {
        AsmSegment::Code | AsmSegment::Data => 0,
        AsmSegment::Lit => rounded(last.data_size),
        AsmSegment::Bss => rounded(last.data_size) + rounded(last.lit_size),
    }
}

// An address's number and an addend, as a word.
fn word(last: &State<'_>, address: Address, add: u32) -> u32
    requires { weight (before_of last.now) < 2 ^ 126 }
    ensures { result ≡ (number (before_of last.now) address + add) % 2 ^ 32 }
{
    let at = match address {
        Address::Absolute(n) => n % (1 << 32),
        Address::Relative(segment, at) => base(last, segment) % (1 << 32) + at % (1 << 32),
    };
    ((at + u128::from(add)) % (1 << 32)) as u32
}

/// The value of an expression in a file. None where no line defines its name.
pub fn value_of(tables: &Tables<'_>, file: u32, value: &Value<'_>) -> Option<u32>
    ensures { result ≡ value_of (source_of (texts_of tables.now.files.now)) file (expression_of value.now) }
{
    match value.name {
        None => Some(value.add),
        Some(name) => match known(tables, file, name) {
            None => None,
            Some(known) => Some(word(&tables.last, known.address, value.add)),
        },
    }
}
