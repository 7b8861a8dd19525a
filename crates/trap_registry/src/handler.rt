// Handlers of traps.
ghost use Rattle.std.specs.Prelude.{◌≡◌, ◌≤◌, length};
ghost use Rattle.qv_outside.specs.Hosts.{HasShape};
ghost use Rattle.trap_registry.specs.Handler.{TakesCalls, KeepsWithin, Replies};

use qv_outside::host::{TrapCall, TrapReply};
use qv_outside::signature::Sig;

/// What answers a trap: it is given the 14 Int words, the bytes of the first and the second Text or
/// InBytes argument, and the room for the bytes that it gives.
pub type Handler = Box<dyn Fn(&[u32], &[u8], &[u8], &mut [u8]) -> TrapReply>;

/// A handler beside the signature of its trap and what is known of it.
#[derive(Drop)]
pub struct Registered {
    pub sig: Sig,
    pub handler: Handler,
    ghost takes: { TakesCalls sig (pre handler) },
    ghost keeps: { KeepsWithin sig (post handler) },
}

impl Registered {
    /// Answers a call as the handler does.
    pub fn answer(&self, call: &TrapCall<'_>, out: &mut [u8]) -> TrapReply
        requires room { length out.old ≡ call.now.out_len }
        requires shape { HasShape call.now self.now.sig }
        ensures used { result.used ≤ call.now.out_len }
        ensures replies { Replies (post self.now.handler) call.now out.old result out.new }
    {
        prove!(out.len() == call.out_len as usize);
        (self.handler)(&call.ints, call.first, call.second, out)
    }
}
