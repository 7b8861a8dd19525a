// Loading, starting and running a module.
ghost use Rattle.std.specs.Prelude.{◌≡◌, IsTrue, ◌↔◌, ◌≤◌, ◌<◌, ◌^◌, length, vec_capacity, IfOk, Some, true, false, sum};
ghost use Rattle.masked_mem.specs.Memory.{IsSize};
ghost use Rattle.qv_image.specs.Shown.{qvm_of};
ghost use Rattle.qv_outside.specs.Causes.{Rose};
ghost use Rattle.qv_outside.specs.Hosts.{Table};
ghost use Rattle.vm_core.specs.Machine.{Step, step, started, fresh_memory};
ghost use Rattle.vm_core.specs.Module.{code_of, state_of, state_at, ready_of, Leads};
ghost use Rattle.vm_core.specs.Paused.{Paused};
ghost use Rattle.vm_core.specs.Ran.{Ran, Did, Outside, outside, outcome_of};

use crate::entry::entry_frame;
use crate::fresh::fresh_block;
use crate::halt::Halt;
use crate::module::{Module, Registers, Words};
use crate::stack::{empty, push_at};
use crate::step::advance;
use crate::stop::Stop;
use crate::traps::serve;
use masked_mem::block::Block;
use qv_base::NoMemory;
use qv_image::image::Image;
use qv_ops::instr::Instr;
use qv_outside::host::Host;
use qv_outside::sink::Sink;
use std::alloc::Global;

impl Module {
    /// A module over an image's fresh block: the data and the literals, and zero bytes behind them. It
    /// isn't ready.
    ///
    /// # Errors
    ///
    /// NoMemory where memory for the code, the block, or the room of a host's reply is refused.
    pub fn load(alloc: Global, image: &Image) -> Result<Module, NoMemory>
        ensures code { IfOk result (λ m. code_of m ≡ (qvm_of image.now).code) }
        ensures memory { IfOk result (λ m. (state_of m).memory ≡ fresh_memory (qvm_of image.now)) }
        ensures unready { IfOk result (λ m. ready_of m ≡ false) }
    {
        let code = image.code.to_vec(alloc)?;
        let block = fresh_block(alloc, image)?;
        let room = Vec::with_capacity(alloc, block.size() as usize)?;
        let program_stack = block.size() - 64;
        Ok(Module {
            code,
            block,
            room,
            words: [0; 256],
            registers: Registers {
                top: 256,
                program_stack,
                next: 0,
            },
            ready: false,
        })
    }

    /// Makes it ready for a call with these words, at the first instruction and with an empty operand
    /// stack. The last 64 bytes of the block become the entry frame; the others stay.
    pub fn start(&mut self, args: &[u32; 14])
        ensures state { state_of self.new ≡ started (state_of self.old).memory args.now }
        ensures code { code_of self.new ≡ code_of self.old }
        ensures ready { ready_of self.new ≡ true }
    {
        let top = self.block.size() - 64;
        self.block.put(top, &entry_frame(args));
        self.registers = Registers {
            top: empty(&self.words),
            program_stack: top,
            next: 0,
        };
        self.ready = true;
    }

    /// Whether it may run: after `start`, until a run ends otherwise than by `Stop::Budget`.
    pub fn is_ready(&self) -> bool
        ensures { result ≡ ready_of self.now }
    {
        self.ready
    }

    /// Its block of memory.
    pub fn block(&self) -> &Block
        ensures { result.now ≡ (state_of self.now).memory }
    {
        &self.block
    }

    /// Makes at most `n` steps: `host` answers traps, and `out` takes the text that is printed. It takes no memory. After
    /// `Stop::Budget` it goes on from there when it is run again; after any other stop it has to be
    /// started first.
    pub fn run<H: Host, O: Sink>(&mut self, n: u64, host: &mut H, out: &mut O) -> Stop
        requires ready { ready_of self.old ≡ true }
        ensures ran { Ran (step (code_of self.old) (H.table host.old)) n (state_of self.old) (state_of self.new) (outside (H.asked host.old) (H.replied host.old) (O.written out.old)) (outside (H.asked host.new) (H.replied host.new) (O.written out.new)) (outcome_of result) }
        ensures code { code_of self.new ≡ code_of self.old }
        ensures ready { IsTrue (ready_of self.new) ↔ (result ≡ Stop.Budget) }
        ensures kept { H.kept host.new ≡ H.kept host.old }
        ensures table { H.table host.new ≡ H.table host.old }
        ensures host_later { H.faults host.old ≤ H.faults host.new }
        ensures out_later { O.faults out.old ≤ O.faults out.new }
        ensures host_fault { result ≡ Stop.HostFault → Rose (H.faults host.old) (H.faults host.new) }
        ensures out_fault { result ≡ Stop.OutFault → Rose (O.faults out.old) (O.faults out.new) }
    {
        // Its size is asked for what is known of it then.
        let _ = self.block.size();
        let stop = run_steps(
            &self.code,
            &mut self.block,
            &mut self.room,
            &mut self.words,
            &mut self.registers,
            n,
            host,
            out,
        );
        self.ready = matches!(stop, Stop::Budget);
        stop
    }

    /// Runs with each budget in order, as long as it is ready, and gives the last stop (`Stop::Budget`
    /// where there is no budget). In all it does what one run with the sum of the budgets does.
    pub fn run_in_pieces<H: Host, O: Sink>(
        &mut self,
        budgets: &[u64],
        host: &mut H,
        out: &mut O,
    ) -> Stop
        requires ready { ready_of self.old ≡ true }
        ensures ran { Ran (step (code_of self.old) (H.table host.old)) (sum budgets.now) (state_of self.old) (state_of self.new) (outside (H.asked host.old) (H.replied host.old) (O.written out.old)) (outside (H.asked host.new) (H.replied host.new) (O.written out.new)) (outcome_of result) }
        ensures code { code_of self.new ≡ code_of self.old }
        ensures ready { IsTrue (ready_of self.new) ↔ (result ≡ Stop.Budget) }
        ensures kept { H.kept host.new ≡ H.kept host.old }
        ensures table { H.table host.new ≡ H.table host.old }
        ensures host_later { H.faults host.old ≤ H.faults host.new }
        ensures out_later { O.faults out.old ≤ O.faults out.new }
        ensures host_fault { result ≡ Stop.HostFault → Rose (H.faults host.old) (H.faults host.new) }
        ensures out_fault { result ≡ Stop.OutFault → Rose (O.faults out.old) (O.faults out.new) }
    {
        for &budget in budgets {
            let stop = self.run(budget, host, out);
            if !self.is_ready() {
                return stop;
            }
        }
        Stop::Budget
    }
}

// At most n steps. The loop of plain instructions is one of its own, so that it knows neither host nor sink.
fn run_steps<H: Host, O: Sink>(
    code: &[Instr],
    block: &mut Block,
    room: &mut Vec<u8>,
    words: &mut Words,
    r: &mut Registers,
    n: u64,
    host: &mut H,
    out: &mut O,
) -> Stop
    requires code { length code.now < 2 ^ 31 }
    requires room { length block.old ≤ vec_capacity room.old }
    requires size { IsSize (length block.old) }
    ensures ran { Ran (step code.now (H.table host.old)) n (state_at block.old words.old r.old) (state_at block.new words.new r.new) (outside (H.asked host.old) (H.replied host.old) (O.written out.old)) (outside (H.asked host.new) (H.replied host.new) (O.written out.new)) (outcome_of result) }
    ensures size { length block.new ≡ length block.old }
    ensures room { vec_capacity room.old ≤ vec_capacity room.new }
    ensures kept { H.kept host.new ≡ H.kept host.old }
    ensures table { H.table host.new ≡ H.table host.old }
    ensures host_later { H.faults host.old ≤ H.faults host.new }
    ensures out_later { O.faults out.old ≤ O.faults out.new }
    ensures host_fault { result ≡ Stop.HostFault → Rose (H.faults host.old) (H.faults host.new) }
    ensures out_fault { result ≡ Stop.OutFault → Rose (O.faults out.old) (O.faults out.new) }
{
    let mut left = n;
    while left > 0 {
        let Some(halt) = run_plain(code, block, words, r, &mut left) else {
            return Stop::Budget;
        };
        if let Some(stop) = settle(block, room, words, r, halt, host, out) {
            return stop;
        }
        left -= 1;
    }
    Stop::Budget
}

// Plain instructions, as long as steps are left. The instruction that doesn't go on isn't counted.
// Not inlined, and over registers of its own: so its loop is short, and laid out the same wherever it is called from.
#[inline(never)]
fn run_plain(
    code: &[Instr],
    block: &mut Block,
    words: &mut Words,
    r: &mut Registers,
    left: &mut u64,
) -> Option<Halt>
    requires code { length code.now < 2 ^ 31 }
    requires size { IsSize (length block.old) }
    ensures paused { (table : Table) (told : Outside) → Paused code.now table left.old left.new (state_at block.old words.old r.old) (state_at block.new words.new r.new) told result }
    ensures size { length block.new ≡ length block.old }
{
    let mut registers = *r;
    let mut steps = *left;
    let halt = plain_steps(code, block, words, &mut registers, &mut steps);
    *r = registers;
    *left = steps;
    halt
}

// The same, counted down to make the loop short.
fn plain_steps(
    code: &[Instr],
    block: &mut Block,
    words: &mut Words,
    r: &mut Registers,
    left: &mut u64,
) -> Option<Halt>
    requires code { length code.now < 2 ^ 31 }
    requires size { IsSize (length block.old) }
    ensures paused { (table : Table) (told : Outside) → Paused code.now table left.old left.new (state_at block.old words.old r.old) (state_at block.new words.new r.new) told result }
    ensures size { length block.new ≡ length block.old }
{
    while *left > 0 {
        if let Some(halt) = advance(code, block, words, r) {
            return Some(halt);
        }
        *left -= 1;
    }
    None
}

// Sees to an instruction that doesn't go on: it is a stop, or its trap is served. Gives nothing where the run goes on.
fn settle<H: Host, O: Sink>(
    block: &mut Block,
    room: &mut Vec<u8>,
    words: &mut Words,
    r: &mut Registers,
    halt: Halt,
    host: &mut H,
    out: &mut O,
) -> Option<Stop>
    requires led { (t : Step) × Leads (H.table host.old) t (state_at block.old words.old r.old) (Some halt) }
    requires room { length block.old ≤ vec_capacity room.old }
    requires size { IsSize (length block.old) }
    ensures did { (t : Step) → Leads (H.table host.old) t (state_at block.old words.old r.old) (Some halt) → Did t (state_at block.new words.new r.new) (outside (H.asked host.old) (H.replied host.old) (O.written out.old)) (outside (H.asked host.new) (H.replied host.new) (O.written out.new)) result }
    ensures size { length block.new ≡ length block.old }
    ensures room { vec_capacity room.old ≤ vec_capacity room.new }
    ensures kept { H.kept host.new ≡ H.kept host.old }
    ensures table { H.table host.new ≡ H.table host.old }
    ensures host_later { H.faults host.old ≤ H.faults host.new }
    ensures out_later { O.faults out.old ≤ O.faults out.new }
    ensures host_fault { result ≡ Some Stop.HostFault → Rose (H.faults host.old) (H.faults host.new) }
    ensures out_fault { result ≡ Some Stop.OutFault → Rose (O.faults out.old) (O.faults out.new) }
{
    match halt {
        Halt::Stop(stop) => Some(stop),
        Halt::Trap(number) => match serve(block, room, r.program_stack, number, host, out) {
            Ok(word) => {
                r.top = push_at(words, r.top, word);
                None
            }
            Err(stop) => Some(stop),
        },
    }
}
