//! Images read from files.
ghost use Rattle.std.specs.Prelude.{◌≡◌, ◌+◌, ◌<◌, ◌≤◌, All, IfErr, IfOk, OnOk, length};
ghost use Rattle.qv_image.specs.Image.{IsImage};
ghost use Rattle.qv_image.specs.Read.{HasParts, IsOfHeader, IsRead, check_lengths, check_parts, is_negative, part_of, read_bytes};
ghost use Rattle.qv_image.specs.Shown.{qvm_of};

use crate::fault::ImageFault;
use crate::header::{Header, MAGIC};
use crate::image::Image;
use qv_base::NoMemory;
use qv_base::limits::{BLOCK_BYTES, CODE_BYTES};
use qv_ops::decode::decode_all;
use std::alloc::Global;

/// The image in a file's bytes, as the Quake III 1.32 interpreter reads it.
///
/// Bytes that belong to no part are allowed, and parts may overlap.
///
/// # Errors
///
/// The first fault of the file, in the order of `ImageFault`'s variants. `NoMemory` where there is
/// no room for the image.
pub fn read_image(alloc: Global, bytes: &[u8]) -> Result<Image, ImageFault>
    ensures read { IsRead (read_bytes bytes.now) result }

    // What is read is an image within its limits.
    ensures image { IfOk result (λ image. IsImage (qvm_of image)) }
{
    if bytes.len() < 32 {
        return Err(ImageFault::HeaderShort(bytes.len() as u32));
    }
    let header = Header::read(bytes);
    lengths_checked(&header)?;
    parts_checked(bytes.len(), &header)?;
    let code = part(bytes, header.code_offset as usize, header.code_len as usize);
    let code = decode_all(alloc, code, header.count)?;
    let data_offset = header.data_offset as usize;
    let data_len = header.data_len as usize;
    let data_part = copied(alloc, part(bytes, data_offset, data_len))?;
    let lit = copied(
        alloc,
        part(bytes, data_offset + data_len, header.lit_len as usize),
    )?;
    Ok(Image {
        code,
        data_part,
        lit,
        bss: header.bss_len,
    })
}

// The tests of the magic and of the signs of data, literals and zero bytes.
fn lengths_checked(header: &Header) -> Result<(), ImageFault>
    ensures checked { result ≡ check_lengths header.now }
    ensures fault { IfErr result IsOfHeader }
{
    if header.magic != MAGIC {
        return Err(ImageFault::BadMagic(header.magic));
    }
    if negative(header.data_len) {
        return Err(ImageFault::NegativeLength(5));
    }
    if negative(header.lit_len) {
        return Err(ImageFault::NegativeLength(6));
    }
    if negative(header.bss_len) {
        return Err(ImageFault::NegativeLength(7));
    }
    Ok(())
}

// The tests of the parts' sizes and places, in a file of `len` bytes.
fn parts_checked(len: usize, header: &Header) -> Result<(), ImageFault>
    ensures checked { result ≡ check_parts len header.now }
    ensures fault { IfErr result IsOfHeader }
    ensures parts { OnOk result (HasParts len header.now) }
{
    if negative(header.code_len) || header.code_len == 0 || header.count == 0 {
        return Err(ImageFault::NoCode);
    }
    if header.code_len > CODE_BYTES {
        return Err(ImageFault::CodeTooLarge(header.code_len));
    }
    if header.code_offset as usize + header.code_len as usize > len {
        return Err(ImageFault::CodeOutside);
    }
    if header.data_offset as usize + header.data_len as usize + header.lit_len as usize > len {
        return Err(ImageFault::DataOutside);
    }
    let total = u64::from(header.data_len) + u64::from(header.lit_len) + u64::from(header.bss_len);
    if total > u64::from(BLOCK_BYTES) {
        return Err(ImageFault::DataTooLarge(total));
    }
    Ok(())
}

// Whether a word is negative, read as signed.
fn negative(word: u32) -> bool
    ensures { result ≡ is_negative word }
{
    word.cast_signed() < 0
}

// The bytes of a part.
fn part(bytes: &[u8], offset: usize, len: usize) -> &[u8]
    requires { offset + len ≤ length bytes.now }
    ensures part { result.now ≡ part_of bytes.now offset len }
    ensures len { length result.now ≡ len }
{
    &bytes[offset..][..len]
}

// A part's bytes as an image holds them.
fn copied(alloc: Global, part: &[u8]) -> Result<Vec<u8>, NoMemory>
    ensures items { IfOk result (λ copy. copy.items ≡ part.now) }
    ensures bytes { IfOk result (λ copy. All (λ b. b < 256) copy.items) }
{
    Ok(part.to_vec(alloc)?)
}

#[cfg(test)]
mod tests {
    use super::*;
    use crate::sample::FILE;
    use crate::write::write_image;
    use qv_ops::decode::CodeFault;
    use std::test::Fail;

    // A place in the file and the bytes that are put there, and the first fault then.
    const FAULTS: [(usize, &[u8], ImageFault); 18] = [
        (0, &[0x45], ImageFault::BadMagic(309_466_181)),
        (20, &[0xff; 4], ImageFault::NegativeLength(5)),
        (23, &[0x80], ImageFault::NegativeLength(5)),
        (27, &[0x80], ImageFault::NegativeLength(6)),
        (31, &[0xff], ImageFault::NegativeLength(7)),
        (4, &[0], ImageFault::NoCode),
        (12, &[0], ImageFault::NoCode),
        (15, &[0xff], ImageFault::NoCode),
        (15, &[0x10], ImageFault::CodeTooLarge(0x1000_001c)),
        (8, &[0xff; 4], ImageFault::CodeOutside),
        (16, &[61], ImageFault::DataOutside),
        (24, &[1], ImageFault::DataOutside),
        (28, &[0, 0, 0, 4], ImageFault::DataTooLarge(67_108_868)),
        (4, &[9], ImageFault::Code(CodeFault::CodeShort { at: 8 })),
        (4, &[7], ImageFault::Code(CodeFault::TailLong { left: 5 })),
        (
            32,
            &[0],
            ImageFault::Code(CodeFault::BadOpcode { at: 0, op: 0 }),
        ),
        (
            32,
            &[60],
            ImageFault::Code(CodeFault::BadOpcode { at: 0, op: 60 }),
        ),
        (
            48,
            &[56],
            ImageFault::Code(CodeFault::FloatOpcode { at: 4, op: 56 }),
        ),
    ];

    #[test]
    fn reads_what_was_written(rt: HostRuntime) -> Result<(), Fail> {
        let alloc = rt.alloc();
        let mut longer = FILE.as_slice().to_vec(alloc)?;
        longer.extend_from_slice(&[1, 2, 3, 4])?;
        for file in [FILE.as_slice(), &longer] {
            let image = read_image(alloc, file)?;
            assert!(rt; write_image(alloc, &image)?.as_slice() == FILE.as_slice());
        }
        Ok(())
    }

    #[test]
    fn tells_where_the_file_is_cut(rt: HostRuntime) {
        for len in 0..FILE.len() {
            let fault = match len {
                0..=31 => ImageFault::HeaderShort(len as u32),
                32..=59 => ImageFault::CodeOutside,
                _ => ImageFault::DataOutside,
            };
            let found = read_image(rt.alloc(), &FILE[..len]).err();
            assert!(rt; found == Some(fault), "{len}");
        }
    }

    #[test]
    fn tells_the_first_fault(rt: HostRuntime) {
        for (at, bytes, fault) in &FAULTS {
            let found = fault_with(rt.alloc(), *at, bytes);
            assert!(rt; found == Some(*fault), "{bytes:?} at {at}");
        }
    }

    // The first fault of the file with these bytes at a place in it.
    fn fault_with(alloc: Global, at: usize, bytes: &[u8]) -> Option<ImageFault> {
        let mut file = FILE;
        file.get_mut(at..)?
            .get_mut(..bytes.len())?
            .copy_from_slice(bytes);
        read_image(alloc, &file).err()
    }
}
