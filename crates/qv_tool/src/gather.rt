// Reading several files.
ghost use Rattle.std.specs.Prelude.{◌≡◌, ◌≤◌, IfOk, length, map, string_bytes};
ghost use Rattle.pp_dir.specs.Endings.{keeper_of};
ghost use Rattle.qv_tool.specs.Work.{Gathers, HasCount};

use crate::report::{Report, unread};
use asm_link::fault::AsmFile;
use qv_base::NoMemory;
use qv_base::name::Name;
use qv_outside::files::Files;
use std::alloc::Global;

/// The files that were read, or the report of the first that was refused.
#[derive(Drop)]
pub enum Sources {
    Texts(Vec<AsmFile>),
    Refused(Report),
}

/// Reads the files of these names in order, up to the first that is refused. No file changes.
pub fn gather<F: Files>(alloc: Global, names: &[String], files: &mut F) -> Result<Sources, NoMemory>
    ensures same { F.held files.new ≡ F.held files.old }
    ensures gathers { Gathers (keeper_of F.Files files.old) (keeper_of F.Files files.new) (map string_bytes names.now) result }
    ensures count { IfOk result (λ sources. HasCount (length names.now) sources) }
    ensures reads_later { F.read_faults files.old ≤ F.read_faults files.new }
    ensures writes_stay { F.write_faults files.new ≡ F.write_faults files.old }
{
    let mut texts = Vec::new(alloc);
    for name in names {
        let text = match files.read(alloc, name.as_str()) {
            Ok(text) => text,
            Err(fault) => {
                let report = unread(alloc, name.as_str(), fault)?;
                return Ok(Sources::Refused(report));
            }
        };
        let name = Name::from_bytes(alloc, name.as_bytes())?;
        texts.push(AsmFile { name, text })?;
    }
    Ok(Sources::Texts(texts))
}
