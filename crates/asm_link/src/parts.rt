// The second reading of all lines: their faults, and the parts of the image.
ghost use Rattle.std.specs.Prelude.{◌≡◌, ◌⊎◌, ◌++◌, IfErr, IfOk, None, Some, flat_map, replicate};
ghost use Rattle.asm_line.specs.declared.line.AsmSegment.TheVariants.{Data, Lit};
ghost use Rattle.asm_link.specs.declared.fault.AsmKind.{AsmKind};
ghost use Rattle.asm_link.specs.Image.{bytes_at, code_at};
ghost use Rattle.asm_link.specs.Link.{first_fault};
ghost use Rattle.asm_link.specs.Shown.{texts_of};
ghost use Rattle.asm_link.specs.Source.{source_of};
ghost use Rattle.asm_link.specs.Visits.{visits};

use crate::emit::{Parts, append_line};
use crate::fault::AsmFault;
use crate::faults::fault_at;
use crate::lent::refuse;
use crate::read::read_files;
use crate::state::{advance, start};
use crate::tables::Tables;
use std::alloc::Global;

/// What all lines stand for.
///
/// # Errors
///
/// The first fault of a line, or `NoMemory` where memory is refused.
pub fn build_parts(alloc: Global, tables: &Tables<'_>) -> Result<Parts, AsmFault>
    ensures well { IfOk result (λ parts. first_fault (source_of (texts_of tables.now.files.now)) (visits (source_of (texts_of tables.now.files.now))) ≡ None) }
    ensures code { IfOk result (λ parts. parts.code.items ≡ flat_map (code_at (source_of (texts_of tables.now.files.now))) (visits (source_of (texts_of tables.now.files.now)))) }
    ensures data_part { IfOk result (λ parts. parts.data_part.items ≡ replicate 4 0 ++ flat_map (bytes_at (source_of (texts_of tables.now.files.now)) Data) (visits (source_of (texts_of tables.now.files.now)))) }
    ensures lit { IfOk result (λ parts. parts.lit.items ≡ flat_map (bytes_at (source_of (texts_of tables.now.files.now)) Lit) (visits (source_of (texts_of tables.now.files.now)))) }
    ensures fault { IfErr result (λ fault. (fault.kind ≡ AsmKind.NoMemory) ⊎ (first_fault (source_of (texts_of tables.now.files.now)) (visits (source_of (texts_of tables.now.files.now))) ≡ Some fault)) }
{
    let mut state = start();
    let mut reader = read_files(tables.files);
    let mut at = 0u64;
    let mut parts = Parts {
        code: Vec::new(alloc),
        data_part: Vec::from_slice(alloc, &[0; 4])?,
        lit: Vec::new(alloc),
    };
    while let Some(line) = reader.next_line() {
        if let Some(fault) = fault_at(tables, at, &state, &line) {
            return Err(refuse(alloc, fault));
        }
        append_line(&mut parts, tables, &state, &line)?;
        advance(&mut state, &line);
        at += 1;
    }
    Ok(parts)
}
