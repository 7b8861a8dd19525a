//! The file of an image.
ghost use Rattle.std.specs.Prelude.{◌≡◌, IfOk, ◌++◌, OnOk, IsTrue, ◌<◌, All, flat_map};
ghost use Rattle.std.specs.List.{list_all};
ghost use Rattle.qv_ops.specs.Code.{code_bytes, is_encodable, word_bytes};
ghost use Rattle.qv_image.specs.Image.{padding, file_bytes, IsImage};
ghost use Rattle.qv_image.specs.Read.{read_bytes};
ghost use Rattle.qv_image.specs.Shown.{qvm_of};

use crate::header::MAGIC;
use crate::image::Image;
use byteorder::{ByteOrder, LittleEndian};
use qv_base::NoMemory;
use qv_ops::instr::{Instr, encode};
use std::alloc::Global;

// The header's length in bytes, at which the code begins.
const HEADER_LEN: u32 = 32;

/// The bytes of the image's file, as the Quake III 1.32 interpreter reads it.
///
/// The code begins at byte 32, with zero bytes to a multiple of 4, and then come the data and the
/// literals. The header's code length counts these zero bytes.
///
/// # Errors
///
/// `NoMemory` where there is no room for the bytes.
pub fn write_image(alloc: Global, image: &Image) -> Result<Vec<u8>, NoMemory>
    ensures bytes { IfOk result (λ file. file.items ≡ file_bytes (qvm_of image.now)) }

    // The bytes are those of an image within its limits, and are read as this image.
    ensures image { IfOk result (λ _. IsImage (qvm_of image.now)) }
    ensures read { IfOk result (λ file. read_bytes file.items ≡ Ok (qvm_of image.now)) }
{
    let mut code = encode_all(alloc, &image.code)?;
    pad(&mut code)?;
    let code_len = code.len() as u32;
    let header = [
        MAGIC,
        image.code.len() as u32,
        HEADER_LEN,
        code_len,
        HEADER_LEN + code_len,
        image.data_part.len() as u32,
        image.lit.len() as u32,
        image.bss,
    ];
    let mut file = Vec::new(alloc);
    append_words(&mut file, &header)?;
    file.extend_from_slice(&code)?;
    append_data(&mut file, &image.data_part, &image.lit)?;
    Ok(file)
}

// Appends words, each with its lowest byte first.
fn append_words(out: &mut Vec<u8>, words: &[u32]) -> Result<(), NoMemory>
    ensures { OnOk result (out.new.items ≡ out.old.items ++ flat_map word_bytes words.now) }
{
    for &word in words {
        let mut bytes = [0; 4];
        LittleEndian::write_u32(&mut bytes, word);
        out.extend_from_slice(&bytes)?;
    }
    Ok(())
}

// Appends the data and the literals.
fn append_data(out: &mut Vec<u8>, data_part: &[u8], lit: &[u8]) -> Result<(), NoMemory>
    ensures appended { OnOk result (out.new.items ≡ out.old.items ++ data_part.now ++ lit.now) }
    ensures data_bytes { All (λ b. b < 256) data_part.now }
    ensures lit_bytes { All (λ b. b < 256) lit.now }
{
    out.extend_from_slice(data_part)?;
    out.extend_from_slice(lit)?;
    Ok(())
}

// The bytes of the instructions.
fn encode_all(alloc: Global, code: &[Instr]) -> Result<Vec<u8>, NoMemory>
    requires { IsTrue (list_all is_encodable code.now) }
    ensures { IfOk result (λ bytes. bytes.items ≡ code_bytes code.now) }
{
    let mut bytes = Vec::new(alloc);
    for &instr in code {
        encode(instr, &mut bytes)?;
    }
    Ok(bytes)
}

// Appends zero bytes up to a multiple of 4.
fn pad(code: &mut Vec<u8>) -> Result<(), NoMemory>
    ensures { OnOk result (code.new.items ≡ code.old.items ++ padding code.old.items) }
{
    let count = (4 - code.len() % 4) % 4;
    code.extend_from_slice(&[0, 0, 0][..count])?;
    Ok(())
}

#[cfg(test)]
mod tests {
    use super::*;
    use crate::sample::FILE;
    use qv_ops::op::Op;
    use std::test::Fail;

    #[test]
    fn writes_header_code_and_data(rt: HostRuntime) -> Result<(), Fail> {
        let alloc = rt.alloc();
        let instr = |op, operand| Instr { op, operand };
        let code = [
            instr(Op::Enter, 8),
            instr(Op::Local, 16),
            instr(Op::Load4, 0),
            instr(Op::Const, 1),
            instr(Op::Add, 0),
            instr(Op::Leave, 8),
            instr(Op::Push, 0),
            instr(Op::Leave, 8),
        ];
        let image = Image {
            code: Vec::from_array(alloc, code)?,
            data_part: Vec::from_array(alloc, [0; 4])?,
            lit: Vec::new(alloc),
            bss: 65536,
        };
        let file = write_image(alloc, &image)?;
        assert!(rt; file.as_slice() == FILE.as_slice(), "{file:?}");
        Ok(())
    }
}
