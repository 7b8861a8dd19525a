// The first reading of all lines: sizes and names.
ghost use Rattle.std.specs.Prelude.{◌≡◌, ◌<◌, ◌^◌, IfOk, length};

use crate::fault::AsmFile;
use crate::naming::{no_names, note};
use crate::read::read_files;
use crate::state::{advance, start};
use crate::tables::Tables;
use qv_base::NoMemory;
use std::alloc::Global;

/// The names of all lines, and the state behind them.
pub fn gather(alloc: Global, files: &[AsmFile]) -> Result<Tables<'_>, NoMemory>
    requires { length files.now < 2 ^ 32 }
    ensures { IfOk result (λ tables. tables.files.now ≡ files.now) }
{
    let mut names = no_names(alloc);
    let mut state = start();
    let mut reader = read_files(files);
    let mut at = 0u64;
    while let Some(line) = reader.next_line() {
        note(&mut names, at, &state, &line)?;
        advance(&mut state, &line);
        // No memory holds 2^64 lines.
        if at == u64::MAX {
            return Err(NoMemory);
        }
        at += 1;
    }
    Ok(Tables {
        files,
        names,
        last: state,
    })
}
