// The command qcc: compiles a unit to assembly text.
ghost use Rattle.std.specs.Prelude.{◌≡◌, ◌∷◌, [], IfOk, Some, length, string_bytes};
ghost use Rattle.pp_dir.specs.Endings.{keeper_of};
ghost use Rattle.qcc_front.specs.Job.{job_shown, single_unit};
ghost use Rattle.qv_tool.specs.Task.{Compile, task_of, text_name};
ghost use Rattle.qv_tool.specs.Work.{Works};
ghost use Rattle.qv_tool.specs.World.{Surroundings, world};
ghost use Rattle.qv_words.specs.Words.{Command};

use crate::report::Report;
use crate::store::deliver;
use crate::uncompiled::uncompiled;
use asm_link::fault::AsmFile;
use qcc_front::compile::compile;
use qcc_front::job::SourceJob;
use qv_base::NoMemory;
use qv_outside::files::Files;
use qv_words::names::stem;
use std::alloc::Global;

/// Compiles the one unit of the job and writes its text to the folder, under the unit's stem.
pub fn qcc<F: Files>(
    alloc: Global,
    folder: &str,
    job: &SourceJob,
    unit: &str,
    files: &mut F,
) -> Result<Report, NoMemory>
    requires { single_unit (job_shown job.now) ≡ Some unit.now }
    ensures { (around : Surroundings) (c : Command) → task_of c ≡ Some (Compile folder.now (job_shown job.now)) → Works (Some c) (world (keeper_of F.Files files.old) around) (world (keeper_of F.Files files.new) around) result }
{
    let compiled = match compile(alloc, job, files) {
        Ok(compiled) => compiled,
        Err(stop) => return uncompiled(alloc, &stop),
    };
    let text = sole(&compiled.texts);
    let name = text_name(alloc, folder, unit)?;
    deliver(alloc, files, name.as_str(), &text.text)
}

// The one text.
#[tactic(auto, using(crate::proofs::Compiling::alone))]
fn sole(texts: &[AsmFile]) -> &AsmFile
    requires { length texts.now ≡ 1 }
    ensures { texts.now ≡ result.now ∷ [] }
{
    match texts.split_first() {
        Some((text, _)) => text,
        None => unreachable!(),
    }
}

// The name of the unit's text.
fn text_name(alloc: Global, folder: &str, unit: &str) -> Result<String, NoMemory>
    ensures { IfOk result (λ name. string_bytes name ≡ text_name folder.now unit.now) }
{
    let stem = stem(unit);
    let name = format!(in alloc; "{folder}/{stem}.asm")?;
    Ok(name)
}
