// The top call.
ghost use Rattle.std.specs.Prelude.{◌≡◌, ◌⊎◌, map, string_bytes, IfSome, Some, None, codes};
ghost use Rattle.qv_outside.specs.Causes.{Rose};
ghost use Rattle.qv_outside.specs.Told.{Appends};
ghost use Rattle.qv_tool.specs.Answers.{BreaksOff, Completed, LineFailed, ReadFailed, Refused, WriteFailed};
ghost use Rattle.qv_tool.specs.Causes.{IsSilent, IsUnserved, MayBeUnready};
ghost use Rattle.qv_tool.specs.Ending.{line};
ghost use Rattle.qv_tool.specs.Said.{IsAnswered, Said};
ghost use Rattle.qv_tool.specs.Status.{End, Fault, Refusal, Want, kind_of};
ghost use Rattle.qv_tool.specs.Verdict.{IsCalledFor, refusal_of, verdict};
ghost use Rattle.qv_tool.specs.Work.{Works};
ghost use Rattle.qv_tool.specs.World.{around_of, world_of};
ghost use Rattle.qv_words.specs.Shown.{KeepsLimits, command_shown};
ghost use Rattle.qv_words.specs.Words.{reading};

use crate::q3asm::{q3asm, q3asm_list};
use crate::qall::qall;
use crate::qcc::qcc;
use crate::qdis::qdis;
use crate::qrun::qrun;
use crate::report::{Report, not_yet, usage};
use crate::status::Status;
use qcc_front::job::SourceJob;
use qv_base::NoMemory;
use qv_outside::files::Files;
use qv_outside::host::Host;
use qv_outside::sink::Sink;
use qv_words::command::Command;
use qv_words::words::read_words;
use std::alloc::Global;

/// Does what the words of the command line say, over these files, streams and host.
///
/// The words are those of `read_words`. Served so far are `qcc` and `qall` with one unit and without `-t`, `q3asm`,
/// `qdis` and `qrun`; for the others the status is NotYet. One line at the
/// end of `err` tells how it went; `out` is for what the module prints.
pub fn tool<F: Files, O: Sink, E: Sink, H: Host>(
    alloc: Global,
    words: &[String],
    files: &mut F,
    out: &mut O,
    err: &mut E,
    host: &mut H,
) -> Status
    // The status is that of the refusal that the words and the files call for; where they call for none
    // it is one of an end. A fault may stand in its place, and so may want of memory.
    ensures exact { IfSome (F.held files.old) (λ held. IsCalledFor (refusal_of (verdict held (reading (map string_bytes words.now)))) result ⊎ (kind_of result ≡ Fault ⊎ kind_of result ≡ Want)) }

    // At an end the command's files are written whole and all other names hold what they held. The image
    // that qall wrote follows the program. What was printed and asked is that of the image's calls, over the
    // replies that the host gave, and the line tells how they ended.
    ensures completed { IfSome (F.held files.old) (λ held. kind_of result ≡ End → Completed (reading (map string_bytes words.now)) held (world_of F.Files O.Sink H.Host files.old out.old host.old) (world_of F.Files O.Sink H.Host files.new out.new host.new) result (E.written err.old) (E.written err.new)) }

    // Usage comes exactly for words that stand for no command, and not yet for a command of a form that isn't
    // served yet, also where the files aren't told. In its place the put of the line may fail, or memory be refused.
    ensures usage { result ≡ Status.Usage → reading (map string_bytes words.now) ≡ None }
    ensures unreadable { reading (map string_bytes words.now) ≡ None → IsAnswered Status.Usage (E.faults err.old) (E.faults err.new) result }
    ensures not_yet { result ≡ Status.NotYet → MayBeUnready (reading (map string_bytes words.now)) }
    ensures unserved { IsUnserved (reading (map string_bytes words.now)) → IsAnswered Status.NotYet (E.faults err.old) (E.faults err.new) result }

    // A refusal changes nothing, and the line tells it.
    ensures refused { IfSome (F.held files.old) (λ held. kind_of result ≡ Refusal → Refused (reading (map string_bytes words.now)) held (world_of F.Files O.Sink H.Host files.old out.old host.old) (world_of F.Files O.Sink H.Host files.new out.new host.new) result (E.written err.old) (E.written err.new)) }

    // A fault of reading comes only where the read of one of the command's files failed; its line has the name.
    ensures read_fault { result ≡ Status.ReadFault → Rose (F.read_faults files.old) (F.read_faults files.new) }
    ensures read_failed { IfSome (F.held files.old) (λ held. result ≡ Status.ReadFault → ReadFailed (reading (map string_bytes words.now)) held (world_of F.Files O.Sink H.Host files.old out.old host.old) (world_of F.Files O.Sink H.Host files.new out.new host.new) (E.written err.old) (E.written err.new)) }

    // A fault of writing comes only where the write of one of the command's files failed, and then its line has the
    // name, where a put to the output failed, or where the put of the line failed.
    ensures write_fault { result ≡ Status.WriteFault → Rose (F.write_faults files.old) (F.write_faults files.new) ⊎ (Rose (O.faults out.old) (O.faults out.new) ⊎ Rose (E.faults err.old) (E.faults err.new)) }
    ensures write_failed { IfSome (F.held files.old) (λ held. result ≡ Status.WriteFault → WriteFailed (reading (map string_bytes words.now)) held (world_of F.Files O.Sink H.Host files.old out.old host.old) (world_of F.Files O.Sink H.Host files.new out.new host.new) (E.written err.old) (E.written err.new)
        ⊎ (Completed (reading (map string_bytes words.now)) held (world_of F.Files O.Sink H.Host files.old out.old host.old) (world_of F.Files O.Sink H.Host files.new out.new host.new) result (E.written err.old) (E.written err.new)
        ⊎ LineFailed (reading (map string_bytes words.now)) held (world_of F.Files O.Sink H.Host files.old out.old host.old) (world_of F.Files O.Sink H.Host files.new out.new host.new) (E.written err.old) (E.written err.new) (E.faults err.old) (E.faults err.new))) }

    // A fault of the host comes only where it failed to answer a call.
    ensures host_fault { result ≡ Status.HostFault → Rose (H.faults host.old) (H.faults host.new) }
    ensures host_failed { IfSome (F.held files.old) (λ held. result ≡ Status.HostFault → Completed (reading (map string_bytes words.now)) held (world_of F.Files O.Sink H.Host files.old out.old host.old) (world_of F.Files O.Sink H.Host files.new out.new host.new) result (E.written err.old) (E.written err.new)) }

    // Where memory is refused, the line says so, and each name holds what it held or its whole new bytes. Nothing was
    // printed or asked, or only the line of the calls could not be made.
    ensures memory_line { result ≡ Status.NoMemory → Appends (E.written err.old) (E.written err.new) (line (codes "no memory")) }
    ensures no_memory { IfSome (F.held files.old) (λ held. result ≡ Status.NoMemory → BreaksOff (verdict held (reading (map string_bytes words.now))) held (around_of O.Sink H.Host out.old host.old) (world_of F.Files O.Sink H.Host files.new out.new host.new)) }

    // A command that calls no image, or ends before it calls one, prints nothing and asks the host nothing.
    ensures quiet { IsSilent (reading (map string_bytes words.now)) result → around_of O.Sink H.Host out.new host.new ≡ around_of O.Sink H.Host out.old host.old }
    ensures host_table { H.table host.new ≡ H.table host.old }
    ensures host_kept { H.kept host.new ≡ H.kept host.old }
{
    match work(alloc, words, files, out, host) {
        Ok(report) => put_line(err, report.status, &report.line),
        Err(_) => put_line(err, Status::NoMemory, b"no memory\n"),
    }
}

// Does what the words stand for.
fn work<F: Files, O: Sink, H: Host>(
    alloc: Global,
    words: &[String],
    files: &mut F,
    out: &mut O,
    host: &mut H,
) -> Result<Report, NoMemory>
    ensures works { Works (reading (map string_bytes words.now)) (world_of F.Files O.Sink H.Host files.old out.old host.old) (world_of F.Files O.Sink H.Host files.new out.new host.new) result }
    ensures kept { H.kept host.new ≡ H.kept host.old }
{
    match read_words(alloc, words)? {
        Some(command) => serve(alloc, command, files, out, host),
        None => usage(alloc),
    }
}

// Does what the command asks for.
fn serve<F: Files, O: Sink, H: Host>(
    alloc: Global,
    command: Command,
    files: &mut F,
    out: &mut O,
    host: &mut H,
) -> Result<Report, NoMemory>
    requires { KeepsLimits command }
    ensures works { Works (Some (command_shown command)) (world_of F.Files O.Sink H.Host files.old out.old host.old) (world_of F.Files O.Sink H.Host files.new out.new host.new) result }
    ensures kept { H.kept host.new ≡ H.kept host.old }
{
    match command {
        Command::Qcc {
            dirs,
            defs,
            binds,
            folder,
            units,
        } => {
            let job = SourceJob {
                units,
                dirs,
                defs,
                binds,
            };
            let Some(unit) = job.single_unit() else {
                return not_yet(alloc);
            };
            qcc(alloc, &folder, &job, unit, files)
        }
        Command::Q3asm {
            image,
            files: names,
            list,
        } => match list {
            None => q3asm(alloc, &image, &names, files),
            Some(list) => q3asm_list(alloc, &image, &list, files),
        },
        Command::Qdis { image, file } => qdis(alloc, &image, &file, files),
        Command::Qrun {
            steps,
            calls,
            image,
        } => qrun(alloc, steps, &calls, &image, files, out, host),
        Command::Qall {
            dirs,
            defs,
            binds,
            seed_size,
            steps,
            calls,
            image,
            units,
        } => {
            let job = SourceJob {
                units,
                dirs,
                defs,
                binds,
            };
            if seed_size.is_some() || job.single_unit().is_none() {
                return not_yet(alloc);
            }
            qall(alloc, steps, &calls, &image, &job, files, out, host)
        }
    }
}

// Puts the line that ends a call.
fn put_line<E: Sink>(err: &mut E, status: Status, line: &[u8]) -> Status
    ensures { Said status line.now (E.written err.old) (E.written err.new) (E.faults err.old) (E.faults err.new) result }
{
    match err.put(line) {
        Ok(()) => status,
        Err(_) => Status::WriteFault,
    }
}
