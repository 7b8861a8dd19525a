// Names with their bytes, the newest first.
ghost use Rattle.std.specs.Prelude.{◌≡◌, ◌≢◌, OnOk, OnErr, Err};
ghost use Rattle.qv_outside.specs.Entries.{files_in, found};
ghost use Rattle.qv_outside.specs.FileMap.{content, with_file, ReadGives};

use crate::files::FileFault;
use qv_base::NoMemory;
use qv_base::limits::FILE_BYTES;
use qv_base::name::Name;
use std::alloc::Global;
use std::marker::Model;

/// Names with their bytes. The first entry of a name counts.
#[derive(Drop)]
pub struct Entries {
    list: Vec<(Name, Vec<u8>)>,
}

impl Model for Entries {
    ghost use Rattle.qv_outside.specs.Entries.{files_in};
    ghost use Rattle.qv_outside.specs.FileMap.{FileMap, file_map_code};

    ghost Value = { FileMap };

    ghost coded = { file_map_code };

    ghost view = { λ s. files_in s.list.items };
}

impl Entries {
    /// The files that this list stands for.
    pub fn new(list: Vec<(Name, Vec<u8>)>) -> Entries
        ensures { result ≡ files_in list.items }
    {
        Entries { list }
    }

    /// The bytes under a name, or none where no entry has it.
    pub fn find(&self, name: &[u8]) -> Option<&Vec<u8>>
        ensures { found result ≡ content self.now name.now }
    {
        for (key, bytes) in &self.list {
            if name == key.bytes() {
                return Some(bytes);
            }
        }
        None
    }

    /// Puts these bytes under a name, in place of those that it has.
    ///
    /// # Errors
    ///
    /// NoMemory where memory is refused: then nothing has changed.
    pub fn insert(&mut self, alloc: Global, name: &[u8], bytes: &[u8]) -> Result<(), NoMemory>
        ensures ok { OnOk result (self.new ≡ with_file self.old name.now bytes.now) }
        ensures err { OnErr result (self.new ≡ self.old) }
    {
        let key = Name::from_bytes(alloc, name)?;
        let copy = bytes.to_vec(alloc)?;
        self.list.insert(0, (key, copy))?;
        Ok(())
    }

    /// A copy of the bytes under a name.
    ///
    /// # Errors
    ///
    /// Absent exactly where no entry has the name, TooLong exactly where the bytes are more than
    /// 2^31 - 1, NoMemory where memory is refused. It never answers Failed.
    pub fn read(&self, alloc: Global, name: &[u8]) -> Result<Vec<u8>, FileFault>
        ensures gives { ReadGives self.now name.now result }
        ensures never { result ≢ Err FileFault.Failed }
    {
        let Some(bytes) = self.find(name) else {
            return Err(FileFault::Absent);
        };
        if bytes.len() > FILE_BYTES as usize {
            return Err(FileFault::TooLong);
        }
        Ok(bytes.to_vec(alloc)?)
    }
}
