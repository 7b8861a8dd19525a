// The program qvm: the tool over the machine's files, streams and clock.
#![tactic(auto)]

ghost use Rattle.std.specs.Prelude.{◌≡◌, ◌+◌, ◌<◌, ◌≤◌, ◌^◌, drop, length, map, string_bytes, take, IfOk, OnOk};
ghost use Rattle.qv_tool.specs.Own.{own_place};

#[cfg(test)]
mod tests;

use qv_adapt::disk_files::DiskFiles;
use qv_adapt::real_clock_host::RealClockHost;
use qv_adapt::std_sink::StdSink;
use qv_base::NoMemory;
use qv_outside::host::TrapReply;
use qv_outside::signature::{Kind, Sig};
use qv_tool::own::{argv_into, own_from};
use qv_tool::status::{Status, status_code};
use qv_tool::tool::tool;
use std::alloc::{AllocError, Global};
use std::env::Env;
use std::io::ErrorKind;
use std::process::ExitCode;
use std::{env, io};
use trap_registry::handler::Handler;
use trap_registry::registry::Registry;

/// The exit status where a word is no text.
const USAGE: u8 = 1;

/// The trap that asks for the count of the module's own words.
const ARGC: u32 = 8;

/// The trap that asks for one of them, by its number.
const ARGV: u32 = 9;

fn main(rt: HostRuntime) -> ExitCode {
    match words(&rt) {
        Ok(words) => {
            let status = run(&rt, words).unwrap_or(Status::NoMemory);
            ExitCode::from(status_code(&status))
        }
        Err(error) if error.kind() == ErrorKind::InvalidData => {
            let _ = rt.eprintln("usage");
            ExitCode::from(USAGE)
        }
        Err(_) => ExitCode::from(status_code(&Status::NoMemory)),
    }
}

/// The words after the program's name.
///
/// # Errors
///
/// InvalidData where a word isn't UTF-8, and another kind where memory was refused.
fn words<R: Env + AllocGlobal>(rt: &R) -> io::Result<Vec<String>> {
    let mut words = Vec::new(rt.alloc());
    for word in env::args(rt)?.skip(1) {
        words.push(word)?;
    }
    Ok(words)
}

/// Calls the tool with the words before the first `--`, files on disk, standard output and standard error,
/// and a host that gives the module the words behind the `--` and the time.
fn run(rt: &HostRuntime, mut words: Vec<String>) -> Result<Status, NoMemory> {
    let alloc = rt.alloc();
    let own = split_own(alloc, &mut words)?;
    let count = u32::try_from(own.len()).unwrap_or(u32::MAX);
    let argc: Handler = Box::new(
        alloc,
        move |_: &[u32], _: &[u8], _: &[u8], _: &mut [u8]| TrapReply {
            word: count,
            used: 0,
        },
    )?;
    let argv: Handler = Box::new(
        alloc,
        move |ints: &[u32], _: &[u8], _: &[u8], room: &mut [u8]| -> TrapReply
            requires words { 0 < length ints.now }
            requires room { length room.old < 2 ^ 32 }
            ensures { result.used ≤ length room.old }
        { argv_into(&own, ints[0], room) },
    )?;
    let mut registry = Registry::new(alloc);
    let argv_sig = Sig::new(&[Kind::Int, Kind::OutBytes(2), Kind::Int]);
    if registry.register(ARGC, Sig::new(&[]), argc).is_err()
        || registry.register(ARGV, argv_sig, argv).is_err()
    {
        return Err(NoMemory);
    }
    let mut host = RealClockHost::new(rt, registry);
    let mut files = DiskFiles::new(rt);
    let mut out = StdSink::new(rt.stdout());
    let mut err = StdSink::new(rt.stderr());
    Ok(tool(alloc, &words, &mut files, &mut out, &mut err, &mut host))
}

/// Takes the words from the first `--` on away, and gives those behind it.
fn split_own(alloc: Global, words: &mut Vec<String>) -> Result<Vec<String>, AllocError>
    ensures before { OnOk result (words.new.items ≡ take (own_place (map string_bytes words.old.items)) words.old.items) }
    ensures behind { IfOk result (λ own. own.items ≡ drop (own_place (map string_bytes words.old.items) + 1) words.old.items) }
{
    let place = own_from(words);
    if place >= words.len() {
        return Ok(Vec::new(alloc));
    }
    let own = words.split_off(place + 1)?;
    words.truncate(place);
    Ok(own)
}
