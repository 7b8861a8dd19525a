// Files in memory that never fail.
ghost use Rattle.std.specs.Prelude.{◌≡◌, ◌≢◌, Some, None, Err};
ghost use Rattle.qv_outside.specs.Entries.{files_in};
ghost use Rattle.qv_outside.specs.FileMap.{Reads, Writes};

use crate::entries::Entries;
use crate::files::{FileFault, Files, WriteFault};
use qv_base::name::Name;
use std::alloc::Global;

/// Files in memory that never fail.
#[derive(Drop)]
pub struct SteadyFiles {
    entries: Entries,
}

impl SteadyFiles {
    ghost use Rattle.qv_outside.specs.SteadyFiles.{files_of};

    /// Files of these names with these bytes. The first entry of a name counts.
    pub fn new(entries: Vec<(Name, Vec<u8>)>) -> SteadyFiles
        ensures { files_of result ≡ files_in entries.items }
    {
        SteadyFiles {
            entries: Entries::new(entries),
        }
    }
}

impl Files for SteadyFiles {
    ghost use Rattle.qv_outside.specs.SteadyFiles.{files_of};

    ghost held = { λ s. Some (files_of s) };

    ghost failed = { λ _. None };

    ghost read_faults = { λ _. 0 };

    ghost write_faults = { λ _. 0 };

    fn read(&mut self, alloc: Global, name: &str) -> Result<Vec<u8>, FileFault>
        ensures told { Reads (Some (files_of self.old)) (Some (files_of self.new)) name.now result }
        ensures never { result ≢ Err FileFault.Failed }
    {
        self.entries.read(alloc, name.as_bytes())
    }

    fn write(&mut self, alloc: Global, name: &str, bytes: &[u8]) -> Result<(), WriteFault>
        ensures told { Writes (Some (files_of self.old)) (Some (files_of self.new)) name.now bytes.now result }
        ensures never { result ≢ Err WriteFault.Failed }
    {
        self.entries.insert(alloc, name.as_bytes(), bytes)?;
        Ok(())
    }
}

#[cfg(test)]
mod tests {
    use super::*;
    use std::test::Fail;

    #[test]
    fn reads_what_was_written(rt: HostRuntime) -> Result<(), Fail> {
        let alloc = rt.alloc();
        let mut files = SteadyFiles::new(Vec::new(alloc));
        assert!(rt; files.read(alloc, "a").err() == Some(FileFault::Absent));
        files.write(alloc, "a", b"old")?;
        files.write(alloc, "a", b"new")?;
        assert!(rt; files.read(alloc, "a")?.as_slice() == b"new".as_slice());
        Ok(())
    }
}
