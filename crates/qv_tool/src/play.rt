// Calling an image.
ghost use Rattle.std.specs.Prelude.{◌≡◌};
ghost use Rattle.qv_image.specs.Shown.{qvm_of};
ghost use Rattle.qv_outside.specs.Causes.{Rose};
ghost use Rattle.vm_core.specs.CallsRan.{CallsRanTo};
ghost use Rattle.vm_core.specs.Machine.{step};
ghost use Rattle.vm_core.specs.Module.{code_of, state_of};
ghost use Rattle.vm_core.specs.Ran.{outside};
ghost use Rattle.qv_tool.specs.Played.{Plays};
ghost use Rattle.qv_tool.specs.World.{around_of};

use crate::report::{Report, calls_ended};
use qv_base::NoMemory;
use qv_base::limits::CALL_WORDS;
use qv_image::image::Image;
use qv_outside::host::Host;
use qv_outside::sink::Sink;
use std::alloc::Global;
use vm_core::module::Module;
use vm_core::stop::Stop;

/// Calls the image's vmMain with the words of each call in order, each for at most `steps` steps, until one
/// doesn't return. The report tells how the calls ended.
pub fn play<H: Host, O: Sink>(
    alloc: Global,
    image: &Image,
    steps: u64,
    calls: &[[u32; CALL_WORDS]],
    host: &mut H,
    out: &mut O,
) -> Result<Report, NoMemory>
    ensures plays { Plays (qvm_of image.now) steps calls.now (around_of O.Sink H.Host out.old host.old) (around_of O.Sink H.Host out.new host.new) result }
    ensures table { H.table host.new ≡ H.table host.old }
    ensures kept { H.kept host.new ≡ H.kept host.old }
{
    let mut machine = Module::load(alloc, image)?;
    let stop = make_calls(&mut machine, steps, calls, host, out);
    calls_ended(alloc, stop)
}

// Makes the calls in order over its memory. The stop is that of the call that didn't return, else
// that of the last call.
fn make_calls<H: Host, O: Sink>(
    machine: &mut Module,
    steps: u64,
    calls: &[[u32; CALL_WORDS]],
    host: &mut H,
    out: &mut O,
) -> Stop
    ensures ran { CallsRanTo (step (code_of machine.old) (H.table host.old)) steps calls.now (state_of machine.old).memory (outside (H.asked host.old) (H.replied host.old) (O.written out.old)) (outside (H.asked host.new) (H.replied host.new) (O.written out.new)) result }
    ensures host_cause { result ≡ Stop.HostFault → Rose (H.faults host.old) (H.faults host.new) }
    ensures out_cause { result ≡ Stop.OutFault → Rose (O.faults out.old) (O.faults out.new) }
    ensures table { H.table host.new ≡ H.table host.old }
    ensures kept { H.kept host.new ≡ H.kept host.old }
{
    let mut last = 0;
    for args in calls {
        machine.start(args);
        match machine.run(steps, host, out) {
            Stop::Returned(word) => last = word,
            stop => return stop,
        }
    }
    Stop::Returned(last)
}
