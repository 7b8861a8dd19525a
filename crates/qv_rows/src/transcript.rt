// What is printed.
use crate::script::Step;
use qv_base::NoMemory;
use std::alloc::Global;

/// The lines that are printed so far.
#[derive(Drop)]
pub struct Transcript {
    alloc: Global,
    bytes: Vec<u8>,
}

impl Transcript {
    /// No line.
    pub fn new(alloc: Global) -> Transcript {
        Transcript {
            alloc,
            bytes: Vec::new(alloc),
        }
    }

    /// The lines as bytes.
    pub fn into_bytes(self) -> Vec<u8> {
        let Transcript { alloc: _, bytes } = self;
        bytes
    }

    /// Prints a step as it stands in the script.
    pub fn step(&mut self, step: &Step<'_>) -> Result<(), NoMemory> {
        self.lines("", step.line.as_bytes())?;
        for line in &step.content {
            self.lines("", line.as_bytes())?;
        }
        Ok(())
    }

    /// Prints an answer: each line of a text, behind a mark. Where the text isn't empty and doesn't end with a
    /// line feed, a line says so.
    pub fn answer(&mut self, mark: &str, text: &[u8]) -> Result<(), NoMemory> {
        if text.is_empty() {
            return Ok(());
        }
        let Some(lines) = text.strip_suffix(b"\n") else {
            self.lines(mark, text)?;
            return self.lines("", b"  \\ no line feed");
        };
        self.lines(mark, lines)
    }

    /// Prints bytes in hexadecimal, 16 to a line.
    pub fn hex(&mut self, bytes: &[u8]) -> Result<(), NoMemory> {
        for row in bytes.chunks(16) {
            let mut line = String::from_str(self.alloc, " ")?;
            for byte in row {
                line.push_str(&format!(in self.alloc; " {byte:02x}")?)?;
            }
            self.lines("", line.as_bytes())?;
        }
        Ok(())
    }

    /// Prints a text with a mark before each of its lines, and a line feed behind it.
    fn lines(&mut self, mark: &str, text: &[u8]) -> Result<(), NoMemory> {
        self.bytes.extend_from_slice(mark.as_bytes())?;
        for byte in text {
            self.bytes.push(*byte)?;
            if *byte == b'\n' {
                self.bytes.extend_from_slice(mark.as_bytes())?;
            }
        }
        self.bytes.push(b'\n')?;
        Ok(())
    }
}
