// The command qrun: calls an image.
ghost use Rattle.std.specs.Prelude.{◌≡◌, Some};
ghost use Rattle.qv_tool.specs.Task.{Run, task_of};
ghost use Rattle.qv_tool.specs.Work.{Works};
ghost use Rattle.qv_tool.specs.World.{world_of};
ghost use Rattle.qv_words.specs.Words.{Command};

use crate::damaged::damaged;
use crate::play::play;
use crate::report::{Report, unread};
use qv_base::NoMemory;
use qv_base::limits::CALL_WORDS;
use qv_image::read::read_image;
use qv_outside::files::Files;
use qv_outside::host::Host;
use qv_outside::sink::Sink;
use std::alloc::Global;

/// Reads the image and makes the calls.
pub fn qrun<F: Files, O: Sink, H: Host>(
    alloc: Global,
    steps: u64,
    calls: &[[u32; CALL_WORDS]],
    image: &str,
    files: &mut F,
    out: &mut O,
    host: &mut H,
) -> Result<Report, NoMemory>
    ensures works { (c : Command) → task_of c ≡ Some (Run steps calls.now image.now) → Works (Some c) (world_of F.Files O.Sink H.Host files.old out.old host.old) (world_of F.Files O.Sink H.Host files.new out.new host.new) result }
    ensures kept { H.kept host.new ≡ H.kept host.old }
{
    let bytes = match files.read(alloc, image) {
        Ok(bytes) => bytes,
        Err(fault) => return unread(alloc, image, fault),
    };
    match read_image(alloc, &bytes) {
        Ok(image) => play(alloc, &image, steps, calls, host, out),
        Err(fault) => damaged(alloc, fault),
    }
}
