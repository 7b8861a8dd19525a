//! The text of an image.
ghost use Rattle.std.specs.Prelude.{◌≡◌, ◌++◌, ◌<◌, All, IfOk, OnOk, [], ◌∷◌, Ok};
ghost use Rattle.std.specs.String.{string_bytes};
ghost use Rattle.asm_line.specs.Text.{text_of};
ghost use Rattle.asm_link.specs.Link.{linked};
ghost use Rattle.qv_image.specs.Image.{IsImage};
ghost use Rattle.qv_image.specs.Shown.{qvm_of};
ghost use Rattle.qv_dis.specs.Back.{GivesCode, IsLinked, LeavesRoom};
ghost use Rattle.qv_dis.specs.Text.{bss_lines, byte_line, code_lines, data_lines, disassembly, instr_line, lines_of_image, lit_lines, word_line};

use byteorder::{ByteOrder, LittleEndian};
use qv_base::NoMemory;
use qv_base::limits::STACK_BYTES;
use qv_image::image::Image;
use qv_ops::instr::Instr;
use qv_ops::op::{name_of, width};
use std::alloc::Global;

/// The image as assembly text, one instruction, word of the data or byte of the literals a line.
///
/// The words of the data are written from byte 4 on, since linking begins the data with four zero
/// bytes, and bytes behind the last whole word are left out. The zero bytes are written without the
/// 65,536 that linking adds for the stack.
///
/// # Errors
///
/// `NoMemory` where there is no room for the text.
pub fn disassemble(alloc: Global, image: &Image) -> Result<Vec<u8>, NoMemory>
    ensures text { IfOk result (λ text. text.items ≡ disassembly (qvm_of image.now)) }

    // Linked alone, the text gives the same instructions.
    ensures code { IfOk result (λ text. LeavesRoom (qvm_of image.now) → GivesCode text.items (qvm_of image.now)) }

    // The text of an image that linking gave is linked to the same image.
    ensures same { IfOk result (λ text. IsLinked (qvm_of image.now) → linked (text.items ∷ []) ≡ Ok (qvm_of image.now)) }
{
    let mut text = String::new(alloc);
    append_image(&mut text, image)?;
    Ok(text.into_bytes())
}

// Appends the text of an image, which is within its limits.
fn append_image(text: &mut String, image: &Image) -> Result<(), NoMemory>
    ensures text { OnOk result (string_bytes text.new ≡ string_bytes text.old ++ text_of (lines_of_image (qvm_of image.now))) }
    ensures image { OnOk result (IsImage (qvm_of image.now)) }
{
    append_code(text, &image.code)?;
    append_data(text, &image.data_part)?;
    append_lit(text, &image.lit)?;
    append_bss(text, image.bss)
}

// Appends the instructions.
fn append_code(text: &mut String, code: &[Instr]) -> Result<(), NoMemory>
    ensures { OnOk result (string_bytes text.new ≡ string_bytes text.old ++ text_of (code_lines code.now)) }
{
    text.push_str("code\n")?;
    for &instr in code {
        append_instr(text, instr)?;
    }
    Ok(())
}

// Appends an instruction. A byte that it carries is written unsigned, a word signed.
fn append_instr(text: &mut String, instr: Instr) -> Result<(), NoMemory>
    ensures { OnOk result (string_bytes text.new ≡ string_bytes text.old ++ text_of (instr_line instr ∷ [])) }
{
    let name = name_of(instr.op);
    let operand = instr.operand;
    match width(instr.op) {
        0 => writeln!(text, "op {name}")?,
        1 => writeln!(text, "op {name} {operand}")?,
        _ => {
            let operand = operand.cast_signed();
            writeln!(text, "op {name} {operand}")?;
        }
    }
    Ok(())
}

// Appends the whole words of the data from byte 4 on.
fn append_data(text: &mut String, data_part: &[u8]) -> Result<(), NoMemory>
    ensures text { OnOk result (string_bytes text.new ≡ string_bytes text.old ++ text_of (data_lines data_part.now)) }
    ensures bytes { All (λ b. b < 256) data_part.now }
{
    text.push_str("data\n")?;
    for i in 1..data_part.len() / 4 {
        let word = LittleEndian::read_u32(&data_part[4 * i..]);
        writeln!(text, "byte 4 {word}")?;
    }
    Ok(())
}

// Appends the bytes of the literals.
fn append_lit(text: &mut String, lit: &[u8]) -> Result<(), NoMemory>
    ensures text { OnOk result (string_bytes text.new ≡ string_bytes text.old ++ text_of (lit_lines lit.now)) }
    ensures bytes { All (λ b. b < 256) lit.now }
{
    text.push_str("lit\n")?;
    for &byte in lit {
        writeln!(text, "byte 1 {byte}")?;
    }
    Ok(())
}

// Appends the zero bytes in front of the stack.
fn append_bss(text: &mut String, bss: u32) -> Result<(), NoMemory>
    ensures { OnOk result (string_bytes text.new ≡ string_bytes text.old ++ text_of (bss_lines bss)) }
{
    text.push_str("bss\n")?;
    if bss >= STACK_BYTES {
        let zeros = bss - STACK_BYTES;
        writeln!(text, "skip {zeros}")?;
    }
    Ok(())
}

#[cfg(test)]
mod tests {
    use super::*;
    use asm_link::fault::{AsmFault, AsmFile};
    use asm_link::link::link;
    use qv_base::name::Name;
    use qv_image::write::write_image;
    use qv_ops::op::Op;
    use std::test::Fail;

    // The text of a module that adds 1 to its first argument.
    const INCREMENT: &[u8] = b"\
code
op ENTER 8
op LOCAL 16
op LOAD4
op CONST 1
op ADD
op LEAVE 8
op PUSH
op LEAVE 8
data
lit
bss
skip 0
";

    // The text of `odd`.
    const ODD: &[u8] = b"\
code
op CONST -3
op ARG 200
op CONST -2147483648
op LOCAL 2147483647
op EQ 0
op BLOCK_COPY 12
op JUMP
data
byte 4 4294967294
byte 4 67305985
lit
byte 1 0
byte 1 200
byte 1 255
bss
skip 5
";

    // The text of `small`.
    const SMALL: &[u8] = b"code\nop PUSH\ndata\nlit\nbss\n";

    // What is linked to an image with data, literals and zero bytes.
    const FILLED: &[u8] = b"\
op ARG 12
address end+-1
byte 4 -2
byte 1 7
byte 1 255
LABELV end
bss
skip 3
";

    fn increment(alloc: Global) -> Result<Image, NoMemory> {
        let instr = |op, operand| Instr { op, operand };
        let code = [
            instr(Op::Enter, 8),
            instr(Op::Local, 16),
            instr(Op::Load4, 0),
            instr(Op::Const, 1),
            instr(Op::Add, 0),
            instr(Op::Leave, 8),
            instr(Op::Push, 0),
            instr(Op::Leave, 8),
        ];
        Ok(Image {
            code: Vec::from_array(alloc, code)?,
            data_part: Vec::from_array(alloc, [0; 4])?,
            lit: Vec::new(alloc),
            bss: 65_536,
        })
    }

    // Odd sizes, and data whose first word isn't zero.
    fn odd(alloc: Global) -> Result<Image, NoMemory> {
        let instr = |op, operand| Instr { op, operand };
        let code = [
            instr(Op::Const, 0xffff_fffd),
            instr(Op::Arg, 200),
            instr(Op::Const, 0x8000_0000),
            instr(Op::Local, 0x7fff_ffff),
            instr(Op::Eq, 0),
            instr(Op::BlockCopy, 12),
            instr(Op::Jump, 0),
        ];
        let data_part = [9, 9, 9, 9, 254, 255, 255, 255, 1, 2, 3, 4, 5, 6, 7];
        Ok(Image {
            code: Vec::from_array(alloc, code)?,
            data_part: Vec::from_array(alloc, data_part)?,
            lit: Vec::from_array(alloc, [0, 200, 255])?,
            bss: 65_541,
        })
    }

    // Data of less than a word, and less zero bytes than a stack has.
    fn small(alloc: Global) -> Result<Image, NoMemory> {
        Ok(Image {
            code: Vec::from_array(
                alloc,
                [Instr {
                    op: Op::Push,
                    operand: 0,
                }],
            )?,
            data_part: Vec::from_array(alloc, [1, 2, 3])?,
            lit: Vec::new(alloc),
            bss: 65_535,
        })
    }

    // What the text alone is linked to.
    fn linked(alloc: Global, text: &[u8]) -> Result<Image, AsmFault> {
        let name = Name::from_bytes(alloc, b"image.asm")?;
        let text = text.to_vec(alloc)?;
        link(alloc, &[AsmFile { name, text }])
    }

    // Whether the image is written as this text, which is linked to its instructions.
    fn is_written(alloc: Global, image: &Image, expected: &[u8]) -> Result<bool, AsmFault> {
        let text = disassemble(alloc, image)?;
        let again = linked(alloc, &text)?;
        Ok(text.as_slice() == expected && again.code.as_slice() == image.code.as_slice())
    }

    #[test]
    fn writes_images(rt: HostRuntime) -> Result<(), Fail> {
        let alloc = rt.alloc();
        assert!(rt; is_written(alloc, &increment(alloc)?, INCREMENT)?);
        assert!(rt; is_written(alloc, &odd(alloc)?, ODD)?);
        assert!(rt; is_written(alloc, &small(alloc)?, SMALL)?);
        Ok(())
    }

    // Whether the image of the text has a text that is linked to the same image.
    fn comes_back(alloc: Global, text: &[u8]) -> Result<bool, AsmFault> {
        let image = linked(alloc, text)?;
        let again = linked(alloc, &disassemble(alloc, &image)?)?;
        let file = write_image(alloc, &image)?;
        Ok(write_image(alloc, &again)?.as_slice() == file.as_slice())
    }

    #[test]
    fn linked_images_come_back(rt: HostRuntime) -> Result<(), Fail> {
        for text in [INCREMENT, ODD, SMALL, FILLED] {
            assert!(rt; comes_back(rt.alloc(), text)?, "{text:?}");
        }
        Ok(())
    }
}
