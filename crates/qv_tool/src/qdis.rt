// The command qdis: writes an image as assembly.
ghost use Rattle.std.specs.Prelude.{◌≡◌, Some};
ghost use Rattle.pp_dir.specs.Endings.{keeper_of};
ghost use Rattle.qv_tool.specs.Task.{Disassemble, task_of};
ghost use Rattle.qv_tool.specs.Work.{Works};
ghost use Rattle.qv_tool.specs.World.{Surroundings, world};
ghost use Rattle.qv_words.specs.Words.{Command};

use crate::damaged::damaged;
use crate::report::{Report, unread};
use crate::store::deliver;
use qv_base::NoMemory;
use qv_dis::text::disassemble;
use qv_image::read::read_image;
use qv_outside::files::Files;
use std::alloc::Global;

/// Reads the image and writes its text to the file.
pub fn qdis<F: Files>(
    alloc: Global,
    image: &str,
    file: &str,
    files: &mut F,
) -> Result<Report, NoMemory>
    ensures { (around : Surroundings) (c : Command) → task_of c ≡ Some (Disassemble image.now file.now) → Works (Some c) (world (keeper_of F.Files files.old) around) (world (keeper_of F.Files files.new) around) result }
{
    let bytes = match files.read(alloc, image) {
        Ok(bytes) => bytes,
        Err(fault) => return unread(alloc, image, fault),
    };
    let image = match read_image(alloc, &bytes) {
        Ok(image) => image,
        Err(fault) => return damaged(alloc, fault),
    };
    let text = disassemble(alloc, &image)?;
    deliver(alloc, files, file, &text)
}
