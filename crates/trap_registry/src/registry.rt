// A host that answers each trap by the handler registered for it.
ghost use Rattle.std.specs.Prelude.{◌≡◌, ◌≤◌, length, None, Some, OnOk, OnErr, IfErr, IsSomeAnd, IfOk, IsOk, ℕ, ◌≢◌};
ghost use Rattle.trap_registry.specs.Handler.{TakesCalls, KeepsWithin, Replies};

use crate::handler::{Handler, Registered};
use qv_outside::host::{Host, HostFailed, TrapCall, TrapReply};
use qv_outside::signature::Sig;
use std::alloc::{AllocFailed, Global};
use std::collections::BTreeMap;

/// The largest number that a trap can have.
pub const LAST_NUMBER: u32 = 1_023;

/// The traps of the console and of the machine itself, which no host answers.
const RESERVED: [u32; 5] = [0, 1, 100, 101, 102];

/// Why a handler was not registered. Of several reasons it is the first in this order.
#[derive(Clone, Copy, Debug, PartialEq, Eq)]
pub enum UnregisteredKind {
    /// The number is above 1,023.
    OutOfRange,
    /// The trap of this number is the console's or the machine's own: 0, 1, 100, 101 or 102.
    Reserved,
    /// The number has a handler.
    Twice,
    /// Memory was refused.
    NoMemory,
}

/// A handler that was not registered.
#[derive(Drop)]
pub struct Unregistered {
    /// Why it was not.
    pub kind: UnregisteredKind,
    /// The handler, handed back.
    pub handler: Handler,
}

/// Handlers of traps, by the traps' numbers.
#[derive(Drop)]
pub struct Registry {
    handlers: BTreeMap<u32, Registered>,
}

impl Registry {
    ghost use Rattle.std.specs.FinMap.{empty};
    ghost use Rattle.trap_registry.specs.Registry.{table_of, registered_at, refusal, with_trap, IsRefusedAs};

    /// A registry of no trap.
    pub fn new(alloc: Global) -> Registry
        ensures { table_of result ≡ empty }
    {
        Registry {
            handlers: BTreeMap::new(alloc),
        }
    }

    /// Registers what answers the traps of this number, whose calls have this signature.
    ///
    /// # Errors
    ///
    /// Where the handler is not registered it is handed back with the reason, and the registry is as before.
    pub fn register(&mut self, number: u32, sig: Sig, handler: Handler) -> Result<(), Unregistered>
        requires takes { TakesCalls sig (pre handler) }
        requires keeps { KeepsWithin sig (post handler) }
        ensures ok { OnOk result (refusal (table_of self.old) number ≡ None) }
        ensures kind { IfErr result (λ refused. IsRefusedAs (table_of self.old) number refused.kind) }
        ensures grows { OnOk result (table_of self.new ≡ with_trap (table_of self.old) number sig) }
        ensures stays { OnErr result (table_of self.new ≡ table_of self.old) }
        ensures returned { IfErr result (λ refused. refused.handler ≡ handler) }

        ensures registered { OnOk result (IsSomeAnd (registered_at self.new number) (λ r. r.handler ≡ handler)) }
        ensures others { (n : ℕ) → n ≢ number → registered_at self.new n ≡ registered_at self.old n }
        ensures same { OnErr result ((n : ℕ) → registered_at self.new n ≡ registered_at self.old n) }
    {
        if let Some(kind) = self.refusal(number) {
            return Err(Unregistered { kind, handler });
        }
        match self.handlers.insert(number, Registered { sig, handler }) {
            Ok(_) => Ok(()),
            Err(
                AllocFailed {
                    value: (_, Registered { handler, .. }),
                },
            ) => Err(Unregistered {
                kind: UnregisteredKind::NoMemory,
                handler,
            }),
        }
    }

    // Why a trap of this number is not taken, if there is a reason.
    fn refusal(&self, number: u32) -> Option<UnregisteredKind>
        ensures { result ≡ refusal (table_of self.now) number }
    {
        if number > LAST_NUMBER {
            Some(UnregisteredKind::OutOfRange)
        } else if RESERVED.contains(&number) {
            Some(UnregisteredKind::Reserved)
        } else if self.sig(number).is_some() {
            Some(UnregisteredKind::Twice)
        } else {
            None
        }
    }
}

impl Host for Registry {
    ghost use Rattle.trap_registry.specs.Registry.{table_of, registered_at};
    ghost use Rattle.qv_outside.specs.Hosts.{HasShape, sig_of};

    ghost asked = { λ _. None };

    ghost replied = { λ _. None };

    ghost Kept = { Unit {0} };

    ghost kept = { λ _. tt };

    ghost table = { table_of };

    ghost faults = { λ _. 0 };

    fn sig(&self, number: u32) -> Option<Sig>
        ensures { result ≡ sig_of (table_of self.now) number }
    {
        let registered = self.handlers.get(&number)?;
        Some(registered.sig)
    }

    /// Answers as the handler of that number does. The registry stays as it was.
    fn call(&mut self, call: &TrapCall<'_>, out: &mut [u8]) -> Result<TrapReply, HostFailed>
        requires room { length out.old ≡ call.now.out_len }
        requires shape { IsSomeAnd (sig_of (table_of self.old) call.now.number) (HasShape call.now) }
        ensures used { IfOk result (λ r. r.used ≤ call.now.out_len) }
        ensures table { table_of self.new ≡ table_of self.old }

        ensures never { IsOk result }
        ensures replies { IfOk result (λ reply. IsSomeAnd (registered_at self.old call.now.number) (λ r. Replies (Handler.post r.handler) call.now out.old reply out.new)) }
        ensures same { (n : ℕ) → registered_at self.new n ≡ registered_at self.old n }
    {
        let registered = &self.handlers[&call.number];
        Ok(registered.answer(call, out))
    }
}
