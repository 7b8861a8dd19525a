// The command qall: compiles a unit, links it, writes its image and makes the calls.
ghost use Rattle.std.specs.Prelude.{◌≡◌, ◌≤◌, IfOk, Some, length};
ghost use Rattle.asm_link.specs.Shown.{texts_of};
ghost use Rattle.qv_image.specs.Shown.{qvm_of};
ghost use Rattle.qcc_front.specs.Assembles.{Assembles};
ghost use Rattle.qcc_front.specs.Job.{job_shown};
ghost use Rattle.qcc_front.specs.Sum.{Sum, sum_run};
ghost use Rattle.qv_tool.specs.Built.{IsBuilt};
ghost use Rattle.qv_tool.specs.Task.{Build, task_of};
ghost use Rattle.qv_tool.specs.Work.{Works};
ghost use Rattle.qv_tool.specs.World.{world_of};
ghost use Rattle.qv_words.specs.Calls.{AreCalls};
ghost use Rattle.qv_words.specs.Words.{Command};

use crate::play::play;
use crate::report::Report;
use crate::store::store;
use crate::uncompiled::uncompiled;
use asm_link::fault::{AsmFile, AsmKind};
use asm_link::link::link;
use qcc_front::compile::compile;
use qcc_front::job::SourceJob;
use qv_base::NoMemory;
use qv_base::limits::CALL_WORDS;
use qv_image::image::Image;
use qv_image::write::write_image;
use qv_outside::files::Files;
use qv_outside::host::Host;
use qv_outside::sink::Sink;
use std::alloc::Global;

/// Compiles the job, writes its image and makes the calls.
pub fn qall<F: Files, O: Sink, H: Host>(
    alloc: Global,
    steps: u64,
    calls: &[[u32; CALL_WORDS]],
    image: &str,
    job: &SourceJob,
    files: &mut F,
    out: &mut O,
    host: &mut H,
) -> Result<Report, NoMemory>
    requires calls { AreCalls calls.now }
    requires units { length (job_shown job.now).units ≤ 4096 }
    ensures works { (c : Command) → task_of c ≡ Some (Build steps calls.now image.now (job_shown job.now)) → Works (Some c) (world_of F.Files O.Sink H.Host files.old out.old host.old) (world_of F.Files O.Sink H.Host files.new out.new host.new) result }
    ensures kept { H.kept host.new ≡ H.kept host.old }
{
    let compiled = match compile(alloc, job, files) {
        Ok(compiled) => compiled,
        Err(stop) => return uncompiled(alloc, &stop),
    };
    let built = build(alloc, &compiled.texts)?;
    let bytes = write_image(alloc, &built)?;
    match store(alloc, files, image, &bytes)? {
        None => play(alloc, &built, steps, calls, host, out),
        Some(fault) => Ok(fault),
    }
}

// The image that the compiler's texts are linked to.
fn build(alloc: Global, texts: &[AsmFile]) -> Result<Image, NoMemory>
    requires few { length texts.now ≤ 4096 }
    requires assembles { (e : Sum) × Assembles e (texts_of texts.now) }
    ensures { IfOk result (λ image. (e : Sum) → Assembles e (texts_of texts.now) → IsBuilt (sum_run e) (qvm_of image)) }
{
    match link(alloc, texts) {
        Ok(image) => Ok(image),
        Err(fault) => match fault.kind {
            AsmKind::NoMemory => Err(NoMemory),
            _ => unreachable!(),
        },
    }
}
