// A keeper of files.
ghost use Rattle.std.specs.Prelude.{◌≡◌, ℕ, ◌≤◌, List, Option, Result, IsErrOf, IfSome};
ghost use Rattle.qv_outside.specs.Causes.{Rose};
ghost use Rattle.qv_outside.specs.FileMap.{FileMap, Reads, Writes, failed_by_read, failed_by_write};

use qv_base::NoMemory;
use std::alloc::{AllocError, Global};
use thiserror::Error;

/// Why a file was not read.
#[derive(Clone, Copy, Debug, PartialEq, Eq, Error)]
pub enum FileFault {
    /// No file has the name.
    #[error("no file has this name")]
    Absent,
    /// The file has more than 2^31 - 1 bytes.
    #[error("the file has more than 2147483647 bytes")]
    TooLong,
    /// The keeper could not read it.
    #[error("the file could not be read")]
    Failed,
    /// Memory was refused.
    #[error("memory was refused")]
    NoMemory,
}

/// Why a file was not written.
#[derive(Clone, Copy, Debug, PartialEq, Eq, Error)]
pub enum WriteFault {
    /// The keeper could not write it, or not all of it.
    #[error("the file could not be written")]
    Failed,
    /// Memory was refused.
    #[error("memory was refused")]
    NoMemory,
}

impl From<AllocError> for FileFault {
    ghost use Rattle.qv_outside.specs.declared.files.FileFault.TheVariants.{NoMemory};

    ghost from_gives = { λ _ fault. fault ≡ NoMemory };

    fn from(_: AllocError) -> Self {
        FileFault::NoMemory
    }
}

impl From<NoMemory> for FileFault {
    ghost use Rattle.qv_outside.specs.declared.files.FileFault.TheVariants.{NoMemory};

    ghost from_gives = { λ _ fault. fault ≡ NoMemory };

    fn from(_: NoMemory) -> Self {
        FileFault::NoMemory
    }
}

impl From<NoMemory> for WriteFault {
    ghost use Rattle.qv_outside.specs.declared.files.WriteFault.TheVariants.{NoMemory};

    ghost from_gives = { λ _ fault. fault ≡ NoMemory };

    fn from(_: NoMemory) -> Self {
        WriteFault::NoMemory
    }
}

/// A keeper of files, each under a name.
pub trait Files {
    /// The files, where they are told.
    ghost held: { Self → Option FileMap };

    /// The name of the last call that answered Failed.
    ghost failed: { Self → Option (List ℕ) };

    /// The reads that failed, at most 2^64 - 1.
    ghost read_faults: { Self → ℕ };

    /// The writes that failed, at most 2^64 - 1.
    ghost write_faults: { Self → ℕ };

    /// Reads the file of this name. It changes no file.
    ///
    /// # Errors
    ///
    /// Absent exactly where no file has the name, TooLong exactly where the file has more than
    /// 2^31 - 1 bytes, Failed where the keeper could not read it, NoMemory where memory was refused.
    fn read(&mut self, alloc: Global, name: &str) -> Result<Vec<u8>, FileFault>
        ensures told { Reads (held self.old) (held self.new) name.now result }
        ensures named { IfSome (held self.old) (λ _. failed self.new ≡ failed_by_read (failed self.old) name.now result) }
        ensures later { read_faults self.old ≤ read_faults self.new }
        ensures writes_stay { write_faults self.new ≡ write_faults self.old }
        ensures cause { IsErrOf result FileFault.Failed → Rose (read_faults self.old) (read_faults self.new) };

    /// Writes the file of this name, in place of what it held. All other files stay.
    ///
    /// # Errors
    ///
    /// Failed where the keeper could not write it: the file then holds what it held, or a prefix of
    /// `bytes`. NoMemory where memory was refused: then nothing has changed.
    fn write(&mut self, alloc: Global, name: &str, bytes: &[u8]) -> Result<(), WriteFault>
        ensures told { Writes (held self.old) (held self.new) name.now bytes.now result }
        ensures named { IfSome (held self.old) (λ _. failed self.new ≡ failed_by_write (failed self.old) name.now result) }
        ensures later { write_faults self.old ≤ write_faults self.new }
        ensures reads_stay { read_faults self.new ≡ read_faults self.old }
        ensures cause { IsErrOf result WriteFault.Failed → Rose (write_faults self.old) (write_faults self.new) };
}
