// The faults of all lines.
ghost use Rattle.std.specs.Prelude.{◌≡◌, ◌<◌, ◌^◌, option_map};
ghost use Rattle.asm_link.specs.Link.{end_fault, end_kind, first_fault};
ghost use Rattle.asm_link.specs.Shown.{before_of, fault_of, kind_of, texts_of};
ghost use Rattle.asm_link.specs.Source.{source_of};
ghost use Rattle.asm_link.specs.State.{weight};
ghost use Rattle.asm_link.specs.Visits.{visits};

use crate::faults::fault_at;
use crate::lent::{LentFault, LentKind};
use crate::read::read_files;
use crate::state::{State, advance, start};
use crate::tables::Tables;
use asm_place::size::rounded;
use qv_base::limits::{BLOCK_BYTES, STACK_BYTES};

/// The first fault of a line.
pub fn first_fault<'a>(tables: &Tables<'a>) -> Option<LentFault<'a>>
    ensures { option_map fault_of result ≡ first_fault (source_of (texts_of tables.now.files.now)) (visits (source_of (texts_of tables.now.files.now))) }
{
    let mut state = start();
    let mut reader = read_files(tables.files);
    let mut at = 0u64;
    while let Some(line) = reader.next_line() {
        if let Some(fault) = fault_at(tables, at, &state, &line) {
            return Some(fault);
        }
        advance(&mut state, &line);
        at += 1;
    }
    None
}

/// The fault behind all lines of this many files.
pub fn end_fault<'a>(files: u32, last: &State<'a>) -> Option<LentFault<'a>>
    requires { weight (before_of last.now) < 2 ^ 124 }
    ensures { option_map fault_of result ≡ end_fault files (before_of last.now) }
{
    let kind = end_kind(last)?;
    Some(LentFault {
        file: files,
        line: 0,
        kind,
    })
}

// The fault behind all lines.
fn end_kind<'a>(last: &State<'a>) -> Option<LentKind<'a>>
    requires { weight (before_of last.now) < 2 ^ 124 }
    ensures { option_map kind_of result ≡ end_kind (before_of last.now) }
{
    if last.count == 0 {
        return Some(LentKind::EmptyCode);
    }
    let bss = rounded(last.bss_size) + u128::from(STACK_BYTES);
    let size = rounded(last.data_size) + rounded(last.lit_size) + bss;
    if size > u128::from(BLOCK_BYTES) {
        return Some(LentKind::DataTooLarge(size));
    }
    None
}
