// Files of the machine.
ghost use Rattle.std.specs.Prelude.{◌≡◌, ◌≤◌, None, IsErrOf};
ghost use Rattle.qv_outside.specs.Causes.{Rose};
ghost use Rattle.qv_adapt.specs.Faults.{faults_after, faults_after_read};

use crate::whole::{read_whole, write_whole};
use qv_outside::files::{FileFault, Files, WriteFault};
use std::alloc::Global;
use std::io::ErrorKind;
use std::{fs, io, rt};

/// The files that a runtime reaches. It doesn't tell `held`; it counts the calls that failed.
#[derive(Drop)]
pub struct DiskFiles<'a, R> {
    rt: &'a R,
    read_faults: u64,
    write_faults: u64,
}

impl<'a, R> DiskFiles<'a, R> {
    /// The files of this runtime, with no fault counted yet.
    pub fn new(rt: &'a R) -> DiskFiles<'a, R>
        ensures reads { result.read_faults ≡ 0 }
        ensures writes { result.write_faults ≡ 0 }
    {
        DiskFiles {
            rt,
            read_faults: 0,
            write_faults: 0,
        }
    }
}

impl<R: rt::Files> Files for DiskFiles<'_, R> {
    ghost held = { λ _. None };

    ghost failed = { λ _. None };

    ghost read_faults = { λ d. d.read_faults };

    ghost write_faults = { λ d. d.write_faults };

    /// Reads as the trait says. Absent comes only where the system finds no such file. For a path
    /// through a file, a name that is too long or has a NUL, and a folder it is Failed. Every error
    /// but Absent is counted.
    fn read(&mut self, alloc: Global, name: &str) -> Result<Vec<u8>, FileFault>
        ensures later { self.old.read_faults ≤ self.new.read_faults }
        ensures writes_stay { self.new.write_faults ≡ self.old.write_faults }
        ensures cause { IsErrOf result FileFault.Failed → Rose self.old.read_faults self.new.read_faults }

        ensures count { self.new.read_faults ≡ faults_after_read self.old.read_faults result }
    {
        let result = read_file(self.rt, alloc, name);
        if matches!(
            result,
            Err(FileFault::TooLong | FileFault::Failed | FileFault::NoMemory)
        ) {
            self.read_faults = self.read_faults.saturating_add(1);
        }
        result
    }

    /// Writes as the trait says. It makes no folder: for a name in one that isn't there it is Failed.
    /// Every error is counted.
    fn write(&mut self, _alloc: Global, name: &str, bytes: &[u8]) -> Result<(), WriteFault>
        ensures later { self.old.write_faults ≤ self.new.write_faults }
        ensures reads_stay { self.new.read_faults ≡ self.old.read_faults }
        ensures cause { IsErrOf result WriteFault.Failed → Rose self.old.write_faults self.new.write_faults }

        ensures count { self.new.write_faults ≡ faults_after self.old.write_faults result }
    {
        match write_file(self.rt, name, bytes) {
            Ok(()) => Ok(()),
            Err(_) => {
                self.write_faults = self.write_faults.saturating_add(1);
                Err(WriteFault::Failed)
            }
        }
    }
}

fn read_file<R: rt::Files>(rt: &R, alloc: Global, name: &str) -> Result<Vec<u8>, FileFault> {
    match fs::open(rt, name) {
        Ok(mut file) => read_whole(alloc, &mut file),
        Err(error) if error.kind() == ErrorKind::NotFound => Err(FileFault::Absent),
        Err(_) => Err(FileFault::Failed),
    }
}

fn write_file<R: rt::Files>(rt: &R, name: &str, bytes: &[u8]) -> io::Result<()> {
    let mut file = fs::create(rt, name)?;
    write_whole(&mut file, bytes)
}

#[cfg(test)]
mod tests {
    use super::*;
    use std::test::Fail;

    #[test]
    fn reads_and_writes(rt: HostRuntime) -> Result<(), Fail> {
        let alloc = rt.alloc();
        let mut files = DiskFiles::new(&rt);
        assert!(rt; files.write(alloc, "/dev/null", b"ab").is_ok());
        assert!(rt; files.write(alloc, "/dev/full", b"ab") == Err(WriteFault::Failed));
        assert!(rt; files.read(alloc, "/dev/null")?.is_empty());
        let absent = files.read(alloc, "/dev/none of this name").err();
        assert!(rt; absent == Some(FileFault::Absent));
        let through_a_file = files.read(alloc, "/dev/null/x").err();
        assert!(rt; through_a_file == Some(FileFault::Failed));
        Ok(())
    }
}
