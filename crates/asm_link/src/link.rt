//! Linking.
ghost use Rattle.std.specs.Prelude.{◌≡◌, ◌<◌, ◌^◌, None, IfOk, OnOk, ◌++◌, flat_map, length, replicate};
ghost use Rattle.qv_image.specs.Shown.{qvm_of};
ghost use Rattle.asm_link.specs.Definitions.{state_after};
ghost use Rattle.asm_link.specs.Image.{bytes_at, code_at, image_of, padded};
ghost use Rattle.asm_link.specs.Link.{Answers, end_kind, first_fault, linked};
ghost use Rattle.asm_link.specs.Shown.{texts_of};
ghost use Rattle.asm_link.specs.Source.{source_of};
ghost use Rattle.asm_link.specs.State.{start};
ghost use Rattle.asm_link.specs.Visits.{visits};
ghost use Rattle.asm_line.specs.declared.line.AsmSegment.TheVariants.{Data, Lit};

use crate::check::{end_fault, first_fault};
use crate::emit::Parts;
use crate::fault::{AsmFault, AsmFile};
use crate::gather::gather;
use crate::lent::refuse;
use crate::parts::build_parts;
use crate::tables::Tables;
use asm_place::size::{rounded, zeros_to};
use qv_base::NoMemory;
use qv_base::limits::{CODE_BYTES, STACK_BYTES};
use qv_image::image::Image;
use std::alloc::Global;

/// The image that files of assembly are linked to.
///
/// # Errors
///
/// The first fault in the order of files and lines, or `NoMemory` where memory is refused.
pub fn link(alloc: Global, files: &[AsmFile]) -> Result<Image, AsmFault>
    requires { length files.now < 2 ^ 32 }
    ensures answer { Answers (linked (texts_of files.now)) result }
{
    let tables = gather(alloc, files)?;
    let last = &tables.last;
    // Memory for parts is taken only where they may come to an image.
    if let Some(end) = end_fault(files.len() as u32, last) {
        return Err(refuse(alloc, first_fault(&tables).unwrap_or(end)));
    }
    if last.code_bytes > u128::from(CODE_BYTES)
        && let Some(fault) = first_fault(&tables)
    {
        return Err(refuse(alloc, fault));
    }
    let parts = build_parts(alloc, &tables)?;
    Ok(image(parts, &tables)?)
}

// The image of all lines, once they have no fault.
fn image(parts: Parts, tables: &Tables<'_>) -> Result<Image, NoMemory>
    requires well { first_fault (source_of (texts_of tables.now.files.now)) (visits (source_of (texts_of tables.now.files.now))) ≡ None }
    requires end { end_kind (state_after start (source_of (texts_of tables.now.files.now))) ≡ None }
    requires code { parts.code.items ≡ flat_map (code_at (source_of (texts_of tables.now.files.now))) (visits (source_of (texts_of tables.now.files.now))) }
    requires data_part { parts.data_part.items ≡ replicate 4 0 ++ flat_map (bytes_at (source_of (texts_of tables.now.files.now)) Data) (visits (source_of (texts_of tables.now.files.now))) }
    requires lit { parts.lit.items ≡ flat_map (bytes_at (source_of (texts_of tables.now.files.now)) Lit) (visits (source_of (texts_of tables.now.files.now))) }
    ensures { IfOk result (λ image. qvm_of image ≡ image_of (source_of (texts_of tables.now.files.now))) }
{
    let Parts {
        code,
        mut data_part,
        mut lit,
    } = parts;
    pad(&mut data_part)?;
    pad(&mut lit)?;
    Ok(Image {
        code,
        data_part,
        lit,
        bss: (rounded(tables.last.bss_size) + u128::from(STACK_BYTES)) as u32,
    })
}

// Zero bytes to a multiple of 4.
fn pad(bytes: &mut Vec<u8>) -> Result<(), NoMemory>
    ensures { OnOk result (bytes.new.items ≡ padded bytes.old.items) }
{
    let zeros = zeros_to(4, bytes.len() as u128) as usize;
    bytes.extend_from_slice(&[0, 0, 0][..zeros])?;
    Ok(())
}
