// Writing the file of a command.
ghost use Rattle.pp_dir.specs.Endings.{keeper_of};
ghost use Rattle.qv_tool.specs.Work.{Delivers, Stores};

use crate::report::{Report, done, write_fault};
use qv_base::NoMemory;
use qv_outside::files::{Files, WriteFault};
use std::alloc::Global;

/// Writes a file whole. None once it's written; a report where the write failed.
pub fn store<F: Files>(
    alloc: Global,
    files: &mut F,
    name: &str,
    bytes: &[u8],
) -> Result<Option<Report>, NoMemory>
    ensures { Stores (keeper_of F.Files files.old) (keeper_of F.Files files.new) name.now bytes.now result }
{
    // Made before the write: where memory is refused no name may hold a part of the file.
    let fault = write_fault(alloc, name)?;
    match files.write(alloc, name, bytes) {
        Ok(()) => Ok(None),
        Err(WriteFault::Failed) => Ok(Some(fault)),
        Err(WriteFault::NoMemory) => Err(NoMemory),
    }
}

/// Writes the file that ends a command. The report says that all is done, or that the write failed.
pub fn deliver<F: Files>(
    alloc: Global,
    files: &mut F,
    name: &str,
    bytes: &[u8],
) -> Result<Report, NoMemory>
    ensures { Delivers (keeper_of F.Files files.old) (keeper_of F.Files files.new) name.now bytes.now result }
{
    let report = done(alloc)?;
    match store(alloc, files, name, bytes)? {
        None => Ok(report),
        Some(fault) => Ok(fault),
    }
}
