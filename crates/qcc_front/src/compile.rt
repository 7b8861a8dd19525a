// Compiles a job.
ghost use Rattle.std.specs.Prelude.{◌≡◌, ◌∷◌, [], IfOk, IfSome, Some, None, map, string_bytes};
ghost use Rattle.qv_outside.specs.FileMap.{content};
ghost use Rattle.asm_link.specs.Shown.{texts_of};
ghost use Rattle.pp_dir.specs.Endings.{keeper_of};
ghost use Rattle.pp_dir.specs.Preprocessed.{preprocessed};
ghost use Rattle.pp_dir.specs.Units.{definition_of};
ghost use Rattle.qcc_front.specs.Accepted.{accepted, of_unit};
ghost use Rattle.qcc_front.specs.Assembles.{Assembles};
ghost use Rattle.qcc_front.specs.Compiled.{IsCompiled, Keeps, names_of};
ghost use Rattle.qcc_front.specs.Job.{job_shown, name_shown, single_unit};
ghost use Rattle.qcc_front.specs.Sum.{Sum};
ghost use Rattle.qcc_front.specs.Unit.{sum_of};

use crate::fault::{CompileStop, stop_from};
use crate::job::SourceJob;
use crate::translate::translate;
use crate::tree::tree_of;
use crate::unit::Unit;
use asm_link::fault::AsmFile;
use pp_dir::unit::preprocess;
use qv_base::NoMemory;
use qv_base::name::Name;
use qv_outside::files::Files;
use std::alloc::Global;

/// Assembly texts, one for each unit in order, under the units' names.
#[derive(Debug, Drop)]
pub struct Compiled {
    /// The texts.
    pub texts: Vec<AsmFile>,
}

impl SourceJob {
    /// The one unit, where there are no others and no binds, which is what is served so far.
    pub fn single_unit(&self) -> Option<&str>
        ensures { name_shown result ≡ single_unit (job_shown self.now) }
    {
        match (self.units.as_slice(), &self.binds) {
            ([unit], None) => Some(unit.as_str()),
            _ => None,
        }
    }
}

/// Compiles the units of a job to assembly texts, which are linked to an image that follows their program.
///
/// Served so far is one unit without binds that is of the first form after preprocessing. No file changes.
///
/// # Errors
///
/// The first thing that refuses. Files are read in order, and from there come Absent or TooLong with the name of the
/// unit or of a file that it includes, and Source with the first fault of preprocessing. Of what is read to the end
/// comes Source with the first token that is no token of C (StrayByte, OpenQuote, BadConstant, FloatConstant,
/// ConstantTooLarge, NameTooLong, or LeftOut of `wide`). Where all are, Source with the first `float` or `double`
/// (FloatType); else with the place that is in no unit (Syntax); else with the first construct that is left out
/// (LeftOut of `old-style`, `implicit int` or `bit-field`). NotYet for what is in the language and isn't served yet.
/// ReadFault with the name of a file whose read failed; NoMemory where memory is refused.
pub fn compile<F: Files>(
    alloc: Global,
    job: &SourceJob,
    files: &mut F,
) -> Result<Compiled, CompileStop>
    ensures told { IfSome (F.held files.old) (λ m. IsCompiled (accepted (content m) (job_shown job.now)) result) }
    ensures assembles { IfOk result (λ compiled. (e : Sum) × Assembles e (texts_of compiled.texts.items)) }
    ensures names { IfOk result (λ compiled. names_of compiled.texts.items ≡ map string_bytes job.now.units.items) }
    ensures keeps { Keeps (keeper_of F.Files files.old) (keeper_of F.Files files.new) result }
{
    match job.single_unit() {
        Some(name) => compile_unit(alloc, &job.dirs, &job.defs, name, files),
        None => Err(CompileStop::NotYet),
    }
}

// Compiles one unit. It has a tree, whatever its form.
#[tactic(auto, using(crate::proofs::Compiling::told_stop, crate::proofs::Compiling::told_not_first, crate::proofs::Compiling::told_first, crate::proofs::Compiling::keeps_read, crate::proofs::Compiling::keeps_stop))]
fn compile_unit<F: Files>(
    alloc: Global,
    dirs: &[String],
    defs: &[(String, String)],
    name: &str,
    files: &mut F,
) -> Result<Compiled, CompileStop>
    ensures told { IfSome (F.held files.old) (λ m. IsCompiled (of_unit (preprocessed (content m) (map string_bytes dirs.now) (map definition_of defs.now) name.now)) result) }
    ensures assembles { IfOk result (λ compiled. (e : Sum) × Assembles e (texts_of compiled.texts.items)) }
    ensures names { IfOk result (λ compiled. names_of compiled.texts.items ≡ name.now ∷ []) }
    ensures keeps { Keeps (keeper_of F.Files files.old) (keeper_of F.Files files.new) result }
{
    let read = match preprocess(alloc, files, dirs, defs, name) {
        Ok(read) => read,
        Err(stop) => return Err(stop_from(stop)),
    };
    let _tree = tree_of(alloc, read.names.as_slice(), read.toks.as_slice())?;
    let Some(unit) = Unit::parse(alloc, read.toks.as_slice())? else {
        return Err(CompileStop::NotYet);
    };
    let texts = texts_of_unit(alloc, name, &unit)?;
    Ok(Compiled { texts })
}

// The unit's text alone, under the unit's name.
fn texts_of_unit(alloc: Global, name: &str, unit: &Unit) -> Result<Vec<AsmFile>, NoMemory>
    ensures names { IfOk result (λ texts. names_of texts.items ≡ name.now ∷ []) }
    ensures texts { IfOk result (λ texts. Assembles (sum_of unit.now) (texts_of texts.items)) }
{
    let mut texts = Vec::new(alloc);
    let text = translate(alloc, unit)?;
    let name = Name::from_bytes(alloc, name.as_bytes())?;
    texts.push(AsmFile { name, text })?;
    Ok(texts)
}
