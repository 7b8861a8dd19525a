// Files of images, also of such as are no images.
use crate::content::hex;
use crate::fault::StepFault;
use crate::words::{number, word};
use qv_ops::op::{number_of, op_named, width};
use std::alloc::Global;

// The word that an image's file begins with.
const MAGIC: u32 = 0x1272_1444;

// The header's length in bytes, at which the code begins.
const HEADER_BYTES: u32 = 32;

/// An image, as far as its lines are read.
#[derive(Drop)]
struct Draft {
    code: Vec<u8>,
    count: u32,
    data_part: Vec<u8>,
    lit: Vec<u8>,
    bss: u32,
}

/// The file of the image that these lines write.
pub fn image_bytes(alloc: Global, texts: &[String]) -> Result<Vec<u8>, StepFault> {
    let mut draft = Draft {
        code: Vec::new(alloc),
        count: 0,
        data_part: Vec::new(alloc),
        lit: Vec::new(alloc),
        bss: 65_536,
    };
    for text in texts {
        draft.read(alloc, text)?;
    }
    draft.pad()?;
    draft.bytes(alloc)
}

impl Draft {
    /// Reads a line: `data HEX`, `lit HEX`, `bss N`, or an instruction.
    fn read(&mut self, alloc: Global, text: &str) -> Result<(), StepFault> {
        match text.split_once(' ') {
            Some(("data", value)) => self.data_part = hex(alloc, value)?,
            Some(("lit", value)) => self.lit = hex(alloc, value)?,
            Some(("bss", value)) => self.bss = number(value)?,
            Some((name, value)) => self.put(name, Some(word(value)?))?,
            None => self.put(text, None)?,
        }
        Ok(())
    }

    /// Puts an instruction: an opcode's name, and an operand where it carries one.
    fn put(&mut self, name: &str, operand: Option<u32>) -> Result<(), StepFault> {
        let op = op_named(name.as_bytes()).ok_or(StepFault::Unread)?;
        self.code.push(number_of(op))?;
        match (width(op), operand) {
            (0, None) => {}
            (1, Some(word)) => self.code.push((word & 255) as u8)?,
            (4, Some(word)) => self.code.extend_from_slice(&word.to_le_bytes())?,
            _ => return Err(StepFault::Unread),
        }
        self.count = self.count.wrapping_add(1);
        Ok(())
    }

    /// Fills the code up to a multiple of 4 bytes.
    fn pad(&mut self) -> Result<(), StepFault> {
        let zeros = (4 - self.code.len() % 4) % 4;
        self.code.extend_from_slice(&[0, 0, 0][..zeros])?;
        Ok(())
    }

    /// The header, the code, the data and the literals.
    fn bytes(&self, alloc: Global) -> Result<Vec<u8>, StepFault> {
        let code_len = length(self.code.len())?;
        let header = [
            MAGIC,
            self.count,
            HEADER_BYTES,
            code_len,
            code_len.wrapping_add(HEADER_BYTES),
            length(self.data_part.len())?,
            length(self.lit.len())?,
            self.bss,
        ];
        let mut file = Vec::new(alloc);
        for word in header {
            file.extend_from_slice(&word.to_le_bytes())?;
        }
        file.extend_from_slice(&self.code)?;
        file.extend_from_slice(&self.data_part)?;
        file.extend_from_slice(&self.lit)?;
        Ok(file)
    }
}

/// A length as a word of the header.
fn length(count: usize) -> Result<u32, StepFault> {
    u32::try_from(count).ok().ok_or(StepFault::Unread)
}
