// The command q3asm: links assembly files to an image.
ghost use Rattle.std.specs.Prelude.{◌≡◌, ◌<◌, ◌^◌, IfOk, IfSome, Some, length, map, string_bytes};
ghost use Rattle.pp_dir.specs.Endings.{keeper_of};
ghost use Rattle.qv_tool.specs.Causes.{IsServed};
ghost use Rattle.qv_tool.specs.Task.{AssembleList, task_of};
ghost use Rattle.qv_tool.specs.Verdict.{name_at};
ghost use Rattle.qv_tool.specs.Work.{Asks, Works, SaysUnlinked};
ghost use Rattle.qv_tool.specs.World.{Surroundings, world};
ghost use Rattle.qv_words.specs.Words.{Command};

use crate::gather::{Sources, gather};
use crate::list::{Listed, names_in};
use crate::report::{Report, unread};
use crate::store::deliver;
use crate::unlinked::{bad_list, unlinked};
use asm_link::fault::{AsmFault, AsmKind};
use asm_link::link::link;
use qv_base::NoMemory;
use qv_image::write::write_image;
use qv_outside::files::Files;
use std::alloc::Global;

/// Reads the files of these names and writes the image that they are linked to.
pub fn q3asm<F: Files>(
    alloc: Global,
    image: &str,
    names: &[String],
    files: &mut F,
) -> Result<Report, NoMemory>
    requires { length names.now < 2 ^ 32 }
    ensures { (around : Surroundings) (c : Command) → IsServed (Some c) → IfSome (F.held files.old) (Asks c image.now (map string_bytes names.now)) → Works (Some c) (world (keeper_of F.Files files.old) around) (world (keeper_of F.Files files.new) around) result }
{
    let texts = match gather(alloc, names, files)? {
        Sources::Texts(texts) => texts,
        Sources::Refused(report) => return Ok(report),
    };
    let linked = match link(alloc, &texts) {
        Ok(linked) => linked,
        Err(fault) => return refusal(alloc, names, &fault),
    };
    let bytes = write_image(alloc, &linked)?;
    deliver(alloc, files, image, &bytes)
}

/// Reads the list, and does so with the files that it names.
pub fn q3asm_list<F: Files>(
    alloc: Global,
    image: &str,
    list: &str,
    files: &mut F,
) -> Result<Report, NoMemory>
    ensures { (around : Surroundings) (c : Command) → task_of c ≡ Some (AssembleList image.now list.now) → Works (Some c) (world (keeper_of F.Files files.old) around) (world (keeper_of F.Files files.new) around) result }
{
    let bytes = match files.read(alloc, list) {
        Ok(bytes) => bytes,
        Err(fault) => return unread(alloc, list, fault),
    };
    match names_in(alloc, &bytes)? {
        Listed::Names(names) => q3asm(alloc, image, &names, files),
        Listed::BadLine(number) => bad_list(alloc, list, number),
    }
}

// The report of a fault of linking the files of these names.
fn refusal(alloc: Global, names: &[String], fault: &AsmFault) -> Result<Report, NoMemory>
    ensures { IfOk result (λ report. SaysUnlinked (name_at (map string_bytes names.now) fault.now.file) fault.now.kind fault.now report) }
{
    let name = match names.get(fault.file as usize) {
        Some(name) => name.as_str(),
        None => "",
    };
    match &fault.kind {
        AsmKind::NoMemory => Err(NoMemory),
        kind => unlinked(alloc, name, fault.line, kind),
    }
}
