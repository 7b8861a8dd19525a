//! The fresh block of an image.
ghost use Rattle.std.specs.Prelude.{◌≡◌, ◌≤◌, ◌^◌, IfOk};
ghost use Rattle.qv_image.specs.Shown.{qvm_of};
ghost use Rattle.vm_core.specs.Machine.{fresh_memory};
ghost use Rattle.vm_core.specs.Memory.{block_size};

use masked_mem::block::Block;
use qv_base::NoMemory;
use qv_base::limits::BLOCK_BYTES;
use qv_image::image::Image;
use std::alloc::Global;

/// The binary logarithm of a block's size for so many bytes: the size is the least power of two that is
/// at least 64 and at least `need`.
fn log2_for(need: u32) -> u8
    requires { need ≤ BLOCK_BYTES }
    ensures size { 2 ^ result ≡ block_size need }
    ensures low { 6 ≤ result }
    ensures high { result ≤ 26 }
    ensures enough { need ≤ 2 ^ result }
{
    let mut size = 64u32;
    let mut log2 = 6u8;
    for _ in 0..20u32 {
        if size >= need {
            break;
        }
        size *= 2;
        log2 += 1;
    }
    log2
}

/// A block with the data and then the literals of the image at its start, and zero bytes behind.
///
/// # Errors
///
/// NoMemory where memory for it is refused.
pub fn fresh_block(alloc: Global, image: &Image) -> Result<Block, NoMemory>
    ensures { IfOk result (λ block. block ≡ fresh_memory (qvm_of image.now)) }
{
    let data_len = image.data_part.len() as u32;
    let need = data_len + image.lit.len() as u32 + image.bss;
    let mut block = Block::new(alloc, log2_for(need))?;
    block.put(0, &image.data_part);
    block.put(data_len, &image.lit);
    Ok(block)
}
