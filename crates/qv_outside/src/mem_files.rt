// Files in memory that fail at the calls that a list names.
ghost use Rattle.std.specs.Prelude.{◌≡◌, ◌≤◌, Some, None, IsErrOf};
ghost use Rattle.qv_outside.specs.Causes.{Rose, next_count};
ghost use Rattle.qv_outside.specs.Entries.{files_in};
ghost use Rattle.qv_outside.specs.FileMap.{Reads, Writes, failed_by_read, failed_by_write};

use crate::entries::Entries;
use crate::files::{FileFault, Files, WriteFault};
use crate::schedule::Schedule;
use qv_base::name::Name;
use std::alloc::Global;

/// Files in memory. The k-th call, a read or a write, from 0, fails where a list has k.
#[derive(Drop)]
pub struct MemFiles {
    entries: Entries,
    schedule: Schedule,
    read_failures: u64,
    write_failures: u64,
    failed: Option<Name>,
}

impl MemFiles {
    ghost use Rattle.qv_outside.specs.MemFiles.{files_of, fails_of, calls_of, read_failures_of, write_failures_of, failed_of};

    /// Files of these names with these bytes, whose calls of the numbers in `fails` fail. The first
    /// entry of a name counts.
    pub fn new(entries: Vec<(Name, Vec<u8>)>, fails: Vec<u64>) -> MemFiles
        ensures files { files_of result ≡ files_in entries.items }
        ensures fails { fails_of result ≡ fails.items }
        ensures calls { calls_of result ≡ 0 }
        ensures reads { read_failures_of result ≡ 0 }
        ensures writes { write_failures_of result ≡ 0 }
        ensures failed { failed_of result ≡ None }
    {
        MemFiles {
            entries: Entries::new(entries),
            schedule: Schedule::new(fails),
            read_failures: 0,
            write_failures: 0,
            failed: None,
        }
    }
}

impl Files for MemFiles {
    ghost use Rattle.qv_outside.specs.MemFiles.{files_of, fails_of, calls_of, failed_of, read_failures_of, write_failures_of, failures_after_read, failures_after_write, Scheduled, IsReadFailure, IsWriteFailure};

    ghost held = { λ m. Some (files_of m) };

    ghost failed = { failed_of };

    ghost read_faults = { read_failures_of };

    ghost write_faults = { write_failures_of };

    /// Reads as the trait says. A call that the list names answers Failed, or NoMemory where the
    /// name could not be kept, and no other call answers Failed.
    fn read(&mut self, alloc: Global, name: &str) -> Result<Vec<u8>, FileFault>
        ensures told { Reads (Some (files_of self.old)) (Some (files_of self.new)) name.now result }
        ensures named { failed_of self.new ≡ failed_by_read (failed_of self.old) name.now result }
        ensures later { read_failures_of self.old ≤ read_failures_of self.new }
        ensures writes_stay { write_failures_of self.new ≡ write_failures_of self.old }
        ensures cause { IsErrOf result FileFault.Failed → Rose (read_failures_of self.old) (read_failures_of self.new) }

        ensures scheduled { Scheduled self.old → IsReadFailure result }
        ensures only_scheduled { IsErrOf result FileFault.Failed → Scheduled self.old }
        ensures count { read_failures_of self.new ≡ failures_after_read (read_failures_of self.old) result }
        ensures calls { calls_of self.new ≡ next_count (calls_of self.old) }
        ensures fails { fails_of self.new ≡ fails_of self.old }
    {
        if self.schedule.next_fails() {
            self.failed = Some(Name::from_bytes(alloc, name.as_bytes())?);
            self.read_failures = self.read_failures.saturating_add(1);
            return Err(FileFault::Failed);
        }
        self.entries.read(alloc, name.as_bytes())
    }

    /// Writes as the trait says. A call that the list names answers Failed, or NoMemory where the
    /// name could not be kept, and no other call answers Failed.
    fn write(&mut self, alloc: Global, name: &str, bytes: &[u8]) -> Result<(), WriteFault>
        ensures told { Writes (Some (files_of self.old)) (Some (files_of self.new)) name.now bytes.now result }
        ensures named { failed_of self.new ≡ failed_by_write (failed_of self.old) name.now result }
        ensures later { write_failures_of self.old ≤ write_failures_of self.new }
        ensures reads_stay { read_failures_of self.new ≡ read_failures_of self.old }
        ensures cause { IsErrOf result WriteFault.Failed → Rose (write_failures_of self.old) (write_failures_of self.new) }

        ensures scheduled { Scheduled self.old → IsWriteFailure result }
        ensures only_scheduled { IsErrOf result WriteFault.Failed → Scheduled self.old }
        ensures count { write_failures_of self.new ≡ failures_after_write (write_failures_of self.old) result }
        ensures calls { calls_of self.new ≡ next_count (calls_of self.old) }
        ensures fails { fails_of self.new ≡ fails_of self.old }
    {
        if self.schedule.next_fails() {
            self.failed = Some(Name::from_bytes(alloc, name.as_bytes())?);
            self.write_failures = self.write_failures.saturating_add(1);
            return Err(WriteFault::Failed);
        }
        self.entries.insert(alloc, name.as_bytes(), bytes)?;
        Ok(())
    }
}

#[cfg(test)]
mod tests {
    use super::*;
    use qv_base::NoMemory;
    use std::test::Fail;

    // The calls that fail, and then the length that is read, what a write answers, and the length
    // that is read behind it.
    type Row = (
        &'static [u64],
        Result<usize, FileFault>,
        Result<(), WriteFault>,
        Result<usize, FileFault>,
    );

    const ROWS: [Row; 4] = [
        (&[], Ok(3), Ok(()), Ok(5)),
        (&[0], Err(FileFault::Failed), Ok(()), Ok(5)),
        (&[1], Ok(3), Err(WriteFault::Failed), Ok(3)),
        (
            &[0, 2],
            Err(FileFault::Failed),
            Ok(()),
            Err(FileFault::Failed),
        ),
    ];

    fn entry(alloc: Global, bytes: &[u8]) -> Result<(Name, Vec<u8>), NoMemory> {
        Ok((Name::from_bytes(alloc, b"a")?, bytes.to_vec(alloc)?))
    }

    // Files with two entries of one name.
    fn files(alloc: Global, fails: &[u64]) -> Result<MemFiles, NoMemory> {
        let mut entries = Vec::new(alloc);
        entries.push(entry(alloc, b"old")?)?;
        entries.push(entry(alloc, b"shadowed")?)?;
        Ok(MemFiles::new(entries, fails.to_vec(alloc)?))
    }

    // How long the file of that name is.
    fn read_len(alloc: Global, files: &mut MemFiles) -> Result<usize, FileFault> {
        Ok(files.read(alloc, "a")?.len())
    }

    #[test]
    fn fails_at_the_calls_listed(rt: HostRuntime) -> Result<(), Fail> {
        let alloc = rt.alloc();
        for (fails, first, written, second) in &ROWS {
            let mut files = files(alloc, fails)?;
            assert!(rt; read_len(alloc, &mut files) == *first, "{fails:?}");
            assert!(rt; files.write(alloc, "a", b"newer") == *written, "{fails:?}");
            assert!(rt; read_len(alloc, &mut files) == *second, "{fails:?}");
        }
        Ok(())
    }
}
