// A host that answers traps.
ghost use Rattle.std.specs.Prelude.{◌≡◌, ℕ, ◌≤◌, List, Option, length, OnErr, IfOk, IsSomeAnd};
ghost use Rattle.qv_outside.specs.Causes.{Rose};
ghost use Rattle.qv_outside.specs.Event.{Event, Reply};

use crate::signature::Sig;

/// A call that a host failed to answer.
#[derive(Clone, Copy, Debug, PartialEq, Eq)]
pub struct HostFailed;

/// What a host answers: a word, and how many bytes it has put into the room that it was lent.
#[derive(Clone, Copy, Debug, PartialEq, Eq)]
pub struct TrapReply {
    /// The word that the trap returns.
    pub word: u32,
    /// The count of bytes given, at the front of the room.
    pub used: u32,
}

/// A trap call as a host sees it. It holds no address.
#[derive(Clone, Copy, Debug)]
pub struct TrapCall<'b> {
    /// The trap's number.
    pub number: u32,
    /// The Int arguments in order; the rest is 0.
    pub ints: [u32; 14],
    /// The count of Int arguments.
    pub int_count: u8,
    /// The bytes of the first Text or InBytes argument, a Text without its NUL; empty where there is none.
    pub first: &'b [u8],
    /// The bytes of the second such argument.
    pub second: &'b [u8],
    /// The count of Text and InBytes arguments.
    pub input_count: u8,
    /// The length that the OutBytes argument asks for, in bytes, or 0.
    pub out_len: u32,
}

/// A host that answers the traps of a finite table.
pub trait Host {
    ghost use Rattle.qv_outside.specs.Hosts.{Table, HasShape, AskedFor, Replied, event_of, sig_of};

    /// The calls made so far, where they are told.
    ghost asked: { Self → Option (List Event) };

    /// The replies given so far, where they are told.
    ghost replied: { Self → Option (List Reply) };

    /// What the implementation keeps, a type of its choice.
    ghost Kept: { Type 0 };

    /// What no call changes.
    ghost kept: { Self → Kept };

    /// The signatures of the traps that it answers, by their numbers.
    ghost table: { Self → Table };

    /// The calls that failed, at most 2^64 - 1.
    ghost faults: { Self → ℕ };

    /// The signature of the trap of this number, or none where the host does not answer it.
    fn sig(&self, number: u32) -> Option<Sig>
        ensures { result ≡ sig_of (table self.now) number };

    /// Answers a call. The host has a signature for its number and the call has the shape of it; `out`
    /// is as long as the call asks. The first `used` bytes of `out` are the bytes given then.
    ///
    /// # Errors
    ///
    /// HostFailed where the host did not answer: it has given no reply then.
    fn call(&mut self, call: &TrapCall<'_>, out: &mut [u8]) -> Result<TrapReply, HostFailed>
        requires room { length out.old ≡ call.now.out_len }
        requires shape { IsSomeAnd (sig_of (table self.old) call.now.number) (HasShape call.now) }
        ensures asked { AskedFor (asked self.old) (asked self.new) (event_of call.now) result }
        ensures replied { Replied (replied self.old) (replied self.new) out.new result }
        ensures used { IfOk result (λ r. r.used ≤ call.now.out_len) }
        ensures kept { kept self.new ≡ kept self.old }
        ensures table { table self.new ≡ table self.old }
        ensures later { faults self.old ≤ faults self.new }
        ensures cause { OnErr result (Rose (faults self.old) (faults self.new)) };
}
