//! The service of traps: the console's, the machine's own, and those that the host answers.
ghost use Rattle.std.specs.Prelude.{◌≡◌, ◌++◌, ◌∷◌, [], ◌<◌, ◌≤◌, ◌+◌, length, vec_capacity, Err, OnErr};
ghost use Rattle.masked_mem.specs.Memory.{IsSize};
ghost use Rattle.qv_base.specs.Word.{plus};
ghost use Rattle.qv_outside.specs.Causes.{Rose};
ghost use Rattle.qv_outside.specs.Hosts.{sig_of};
ghost use Rattle.qv_outside.specs.Sink.{Puts};
ghost use Rattle.trap_sig.specs.Gather.{argument};
ghost use Rattle.vm_core.specs.Ran.{outside};
ghost use Rattle.vm_core.specs.Served.{Serves, ServesPlain, ServesPut, ServesRaise, ServesCall};
ghost use Rattle.vm_core.specs.Traps.{trapped, argument_of, asked, filled, moved, printed, raised, text_moved};

use crate::exchange::exchange;
use crate::stop::Stop;
use masked_mem::block::Block;
use qv_base::word;
use qv_outside::host::Host;
use qv_outside::sink::{Sink, SinkFailed};
use trap_sig::arguments::{argument, scatter, text, text_within};
use trap_sig::gather::{TrapRange, gather};

/// Serves the trap of this number, which is called where the program stack stands at this place: gives the word that
/// it replies, or the stop. `room` has room for as many bytes as the block, and takes those of a host's reply.
// Not inlined: the loop of plain instructions stays small.
#[inline(never)]
pub(crate) fn serve<H: Host, O: Sink>(
    block: &mut Block,
    room: &mut Vec<u8>,
    program_stack: u32,
    number: u32,
    host: &mut H,
    out: &mut O,
) -> Result<u32, Stop>
    requires room { length block.old ≤ vec_capacity room.old }
    requires size { IsSize (length block.old) }
    ensures did { Serves (trapped (H.table host.old) number) block.old program_stack block.new (outside (H.asked host.old) (H.replied host.old) (O.written out.old)) (outside (H.asked host.new) (H.replied host.new) (O.written out.new)) result }
    ensures size { length block.new ≡ length block.old }
    ensures room { vec_capacity room.old ≤ vec_capacity room.new }
    ensures kept { H.kept host.new ≡ H.kept host.old }
    ensures table { H.table host.new ≡ H.table host.old }
    ensures host_later { H.faults host.old ≤ H.faults host.new }
    ensures out_later { O.faults out.old ≤ O.faults out.new }
    ensures host_fault { result ≡ Err Stop.HostFault → Rose (H.faults host.old) (H.faults host.new) }
    ensures out_fault { result ≡ Err Stop.OutFault → Rose (O.faults out.old) (O.faults out.new) }
{
    match number {
        0 => print(block, program_stack, out),
        1 => raise(block, program_stack, out),
        100 => fill(block, program_stack),
        101 => copy(block, program_stack),
        102 => copy_text(block, program_stack),
        _ => ask(block, room, program_stack, number, host),
    }
}

// The word of the argument at a place: arguments stand behind the return place and the trap's number.
fn argument_of(block: &Block, program_stack: u32, place: u32) -> u32
    ensures { result ≡ argument block.now (plus program_stack 8) place }
{
    argument(block, word::add(program_stack, 8), place)
}

// Prints a text.
fn print<O: Sink>(block: &Block, program_stack: u32, out: &mut O) -> Result<u32, Stop>
    ensures did { ServesPut printed block.now program_stack (O.written out.old) (O.written out.new) result }
    ensures later { O.faults out.old ≤ O.faults out.new }
    ensures cause { result ≡ Err Stop.OutFault → Rose (O.faults out.old) (O.faults out.new) }
{
    let Some(text) = text(block, argument_of(block, program_stack, 0)) else {
        return Err(Stop::TrapRange {
            number: 0,
            argument: 0,
        });
    };
    match out.put(text) {
        Ok(()) => Ok(0),
        Err(_) => Err(Stop::OutFault),
    }
}

// Prints a text as a line, and stops.
fn raise<O: Sink>(block: &Block, program_stack: u32, out: &mut O) -> Result<u32, Stop>
    ensures did { ServesRaise raised block.now program_stack (O.written out.old) (O.written out.new) result }
    ensures later { O.faults out.old ≤ O.faults out.new }
    ensures cause { result ≡ Err Stop.OutFault → Rose (O.faults out.old) (O.faults out.new) }
{
    let Some(text) = text(block, argument_of(block, program_stack, 0)) else {
        return Err(Stop::TrapRange {
            number: 1,
            argument: 0,
        });
    };
    match put_line(out, text) {
        Ok(()) => Err(Stop::ModuleError),
        Err(_) => Err(Stop::OutFault),
    }
}

// Puts a text, and then a line feed.
fn put_line<O: Sink>(out: &mut O, text: &[u8]) -> Result<(), SinkFailed>
    ensures told { Puts (O.written out.old) (O.written out.new) (text.now ++ 10 ∷ []) result }
    ensures later { O.faults out.old ≤ O.faults out.new }
    ensures cause { OnErr result (Rose (O.faults out.old) (O.faults out.new)) }
{
    match out.put(text) {
        Ok(()) => out.put(b"\n"),
        Err(failed) => Err(failed),
    }
}

// Fills a range with a byte.
fn fill(block: &mut Block, program_stack: u32) -> Result<u32, Stop>
    ensures did { ServesPlain (λ s. filled s (argument_of s 0) (argument_of s 1) (argument_of s 2)) block.old program_stack block.new result }
    ensures size { length block.new ≡ length block.old }
{
    let to = argument_of(block, program_stack, 0);
    let value = argument_of(block, program_stack, 1);
    let len = argument_of(block, program_stack, 2);
    if !block.fits(to, len) {
        return Err(Stop::TrapRange {
            number: 100,
            argument: 0,
        });
    }
    block.fill(to, len, (value % 256) as u8);
    Ok(to)
}

// Copies a range.
fn copy(block: &mut Block, program_stack: u32) -> Result<u32, Stop>
    ensures did { ServesPlain (λ s. moved s (argument_of s 0) (argument_of s 1) (argument_of s 2)) block.old program_stack block.new result }
    ensures size { length block.new ≡ length block.old }
{
    let to = argument_of(block, program_stack, 0);
    let from = argument_of(block, program_stack, 1);
    let len = argument_of(block, program_stack, 2);
    if !block.fits(to, len) {
        return Err(Stop::TrapRange {
            number: 101,
            argument: 0,
        });
    }
    if !block.fits(from, len) {
        return Err(Stop::TrapRange {
            number: 101,
            argument: 1,
        });
    }
    block.copy(to, from, len);
    Ok(to)
}

// Copies a text of at most a range's length to the range, and fills the rest with zeros.
fn copy_text(block: &mut Block, program_stack: u32) -> Result<u32, Stop>
    requires { IsSize (length block.old) }
    ensures did { ServesPlain (λ s. text_moved s (argument_of s 0) (argument_of s 1) (argument_of s 2)) block.old program_stack block.new result }
    ensures size { length block.new ≡ length block.old }
{
    let to = argument_of(block, program_stack, 0);
    let from = argument_of(block, program_stack, 1);
    let len = argument_of(block, program_stack, 2);
    if !block.fits(to, len) {
        return Err(Stop::TrapRange {
            number: 102,
            argument: 0,
        });
    }
    let Some(text) = text_within(block, from, len) else {
        return Err(Stop::TrapRange {
            number: 102,
            argument: 1,
        });
    };
    let text_len = text.len() as u32;
    block.copy(to, from, text_len);
    block.fill(to + text_len, len - text_len, 0);
    Ok(to)
}

// Asks the host.
fn ask<H: Host>(
    block: &mut Block,
    room: &mut Vec<u8>,
    program_stack: u32,
    number: u32,
    host: &mut H,
) -> Result<u32, Stop>
    requires host { 1 < number }
    requires room { length block.old ≤ vec_capacity room.old }
    ensures did { ServesCall (λ s. asked number s (sig_of (H.table host.old) number)) block.old program_stack block.new (H.asked host.old) (H.asked host.new) (H.replied host.old) (H.replied host.new) result }
    ensures size { length block.new ≡ length block.old }
    ensures room { vec_capacity room.old ≤ vec_capacity room.new }
    ensures kept { H.kept host.new ≡ H.kept host.old }
    ensures table { H.table host.new ≡ H.table host.old }
    ensures later { H.faults host.old ≤ H.faults host.new }
    ensures cause { result ≡ Err Stop.HostFault → Rose (H.faults host.old) (H.faults host.new) }
{
    let Some(sig) = host.sig(number) else {
        return Err(Stop::UnknownTrap(number));
    };
    let gathered = match gather(block, &sig, number, word::add(program_stack, 8)) {
        Ok(gathered) => gathered,
        Err(TrapRange { argument }) => return Err(Stop::TrapRange { number, argument }),
    };
    let out_at = gathered.out_at;
    match exchange(host, &gathered.call, room) {
        Ok(reply) => {
            scatter(block, out_at, &room[..reply.used as usize]);
            Ok(reply.word)
        }
        Err(_) => Err(Stop::HostFault),
    }
}
