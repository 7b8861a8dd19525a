//! The header of an image's file.
ghost use Rattle.std.specs.Prelude.{◌≡◌, ◌≤◌, length};

use byteorder::{ByteOrder, LittleEndian};

/// The first word of an image's file.
pub const MAGIC: u32 = 0x1272_1444;

/// The eight words that an image's file begins with, each with its lowest byte first.
#[derive(Clone, Copy, Debug, PartialEq, Eq)]
pub struct Header {
    /// The first word, which says that the file is an image.
    pub magic: u32,
    /// How many instructions the code has.
    pub count: u32,
    /// Where the code begins in the file.
    pub code_offset: u32,
    /// The code's length in bytes.
    pub code_len: u32,
    /// Where the data begin in the file, with the literals directly behind them.
    pub data_offset: u32,
    /// The data's length in bytes.
    pub data_len: u32,
    /// The literals' length in bytes.
    pub lit_len: u32,
    /// How many zero bytes follow the literals in memory.
    pub bss_len: u32,
}

impl Header {
    ghost use Rattle.qv_image.specs.Header.{header_of};

    /// The header of the file's bytes.
    pub fn read(bytes: &[u8]) -> Self
        requires { 32 ≤ length bytes.now }
        ensures { result ≡ header_of bytes.now }
    {
        Header {
            magic: LittleEndian::read_u32(bytes),
            count: LittleEndian::read_u32(&bytes[4..]),
            code_offset: LittleEndian::read_u32(&bytes[8..]),
            code_len: LittleEndian::read_u32(&bytes[12..]),
            data_offset: LittleEndian::read_u32(&bytes[16..]),
            data_len: LittleEndian::read_u32(&bytes[20..]),
            lit_len: LittleEndian::read_u32(&bytes[24..]),
            bss_len: LittleEndian::read_u32(&bytes[28..]),
        }
    }
}
