// Whole reads and whole writes. No error is tried again.
ghost use Rattle.std.specs.Prelude.{◌≢◌, ◌^◌, ◌<◌, ◌≤◌, Err, IfOk, OnOk, IsErrOf, IfSome, length};
ghost use Rattle.std.specs.Io.KnownBytes.{Appends, Consumes, IsAtEnd};

use qv_base::limits::FILE_BYTES;
use qv_outside::files::FileFault;
use std::alloc::Global;
use std::io;
use std::io::{Error, ErrorKind, Read, Write};

/// How many bytes are read at once.
const CHUNK_BYTES: usize = 4096;

/// The bytes that a reader has left. A read that gives nothing is the end.
///
/// # Errors
///
/// TooLong past 2^31 - 1 bytes, Failed where a read fails, NoMemory where memory is refused. It never
/// answers Absent.
pub fn read_whole<R: Read>(alloc: Global, reader: &mut R) -> Result<Vec<u8>, FileFault>
    ensures bytes { IfOk result (λ bytes. Consumes (R.remaining reader.old) (R.remaining reader.new) bytes.items) }
    ensures end { OnOk result (IsAtEnd (R.remaining reader.new)) }
    ensures short { IfOk result (λ bytes. length bytes.items < 2 ^ 31) }
    ensures too_long { IsErrOf result FileFault.TooLong → IfSome (R.remaining reader.old) (λ bytes. 2 ^ 31 ≤ length bytes) }
    ensures never { result ≢ Err FileFault.Absent }
{
    let mut bytes = Vec::new(alloc);
    let mut chunk = [0; CHUNK_BYTES];
    // Each turn but the last takes a byte or more.
    for _ in 0..=FILE_BYTES {
        let Ok(count) = reader.read(&mut chunk) else {
            return Err(FileFault::Failed);
        };
        if count == 0 {
            return Ok(bytes);
        }
        bytes.extend_from_slice(&chunk[..count])?;
        if bytes.len() > FILE_BYTES as usize {
            return Err(FileFault::TooLong);
        }
    }
    Err(FileFault::TooLong)
}

/// Writes all these bytes.
///
/// # Errors
///
/// The first error of a write, and WriteZero where a write takes none of the bytes that are left.
pub fn write_whole<W: Write>(writer: &mut W, bytes: &[u8]) -> io::Result<()>
    ensures { OnOk result (Appends (W.contents writer.old) (W.contents writer.new) bytes.now) }
{
    let mut rest = bytes;
    while !rest.is_empty() {
        match writer.write(rest)? {
            0 => return Err(Error::from(ErrorKind::WriteZero)),
            count => rest = &rest[count..],
        }
    }
    Ok(())
}
