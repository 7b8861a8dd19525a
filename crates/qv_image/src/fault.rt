//! Why a file is no image.
ghost use Rattle.std.specs.Prelude.{◌≡◌};

use qv_base::NoMemory;
use qv_ops::decode::CodeFault;

/// Why a file is no image. The first fault in this order is told.
#[derive(Clone, Copy, Debug, PartialEq, Eq)]
pub enum ImageFault {
    /// The file has fewer than the 32 bytes of a header: how many.
    HeaderShort(u32),
    /// The first word is not that of an image: what it is.
    BadMagic(u32),
    /// The length of the data (5), the literals (6) or the zero bytes (7) is negative, read as signed:
    /// the number of its word in the header, from 0 on.
    NegativeLength(u32),
    /// The code's length is 0 or negative, or there are no instructions.
    NoCode,
    /// The code takes more than 2^27 bytes: how many.
    CodeTooLarge(u32),
    /// The code ends behind the end of the file.
    CodeOutside,
    /// The data or the literals end behind the end of the file.
    DataOutside,
    /// Data, literals and zero bytes take more than 2^26 bytes together: how many.
    DataTooLarge(u64),
    /// The code is refused, by another fault than want of memory.
    Code(CodeFault),
    /// There was no room for the image.
    NoMemory,
}

impl From<NoMemory> for ImageFault {
    ghost use Rattle.qv_image.specs.declared.fault.ImageFault.TheVariants.{NoMemory};

    ghost from_gives = { λ _ fault. fault ≡ NoMemory };

    fn from(_: NoMemory) -> Self {
        ImageFault::NoMemory
    }
}

impl From<CodeFault> for ImageFault {
    ghost use Rattle.qv_image.specs.Fault.{image_fault};

    ghost from_gives = { λ fault given. given ≡ image_fault fault };

    fn from(fault: CodeFault) -> Self {
        match fault {
            CodeFault::NoMemory => ImageFault::NoMemory,
            _ => ImageFault::Code(fault),
        }
    }
}
