// A host that follows a script.
ghost use Rattle.std.specs.Prelude.{◌≡◌, ◌≤◌, [], ◌∷◌, ◌++◌, Some, length, drop, ◌⊎◌, ◌↔◌, IfOk, OnErr, IsErr, IsSomeAnd};
ghost use Rattle.qv_outside.specs.Causes.{Rose, next_count};
ghost use Rattle.qv_outside.specs.Hosts.{HasShape, AskedFor, Replied, event_of, reply_of, sig_of, table_in};
ghost use Rattle.qv_outside.specs.CallLog.{FitsRoom, PassesRoom};
ghost use Rattle.qv_outside.specs.Script.{replies_in, GivesNext};

use crate::call_log::CallLog;
use crate::host::{Host, HostFailed, TrapCall, TrapReply};
use crate::schedule::Schedule;
use crate::script::Script;
use crate::signature::Sig;
use crate::sigs::find;
use qv_base::NoMemory;
use std::alloc::Global;

/// A host that gives replies in the order of a list, and fails at the calls that another list names.
///
/// It tells the calls asked and the replies given. A call fails where its number, from 0, is listed,
/// where no reply is left, and where it would pass the room, by its number or by the bytes of its texts.
/// A call that would pass the room is not among those asked.
#[derive(Drop)]
pub struct ScriptHost {
    sigs: Vec<(u32, Sig)>,
    script: Script,
    log: CallLog,
    schedule: Schedule,
    failures: u64,
}

impl ScriptHost {
    ghost use Rattle.qv_outside.specs.ScriptHost.{table_of, asked_of, replied_of, left_of, room_of, fails_of, calls_of, failures_of};

    /// A host of these signatures and replies, with room for `room` calls and `room` bytes of their
    /// texts. The first entry of a number counts.
    ///
    /// # Errors
    ///
    /// NoMemory where memory for the room or for the counts of the replies is refused.
    pub fn new(
        alloc: Global,
        sigs: Vec<(u32, Sig)>,
        replies: Vec<(u32, Vec<u8>)>,
        fails: Vec<u64>,
        room: u32,
    ) -> Result<ScriptHost, NoMemory>
        ensures table { IfOk result (λ host. table_of host ≡ table_in sigs.items) }
        ensures asked { IfOk result (λ host. asked_of host ≡ []) }
        ensures replied { IfOk result (λ host. replied_of host ≡ []) }
        ensures left { IfOk result (λ host. left_of host ≡ replies_in replies.items) }
        ensures room { IfOk result (λ host. room_of host ≡ room) }
        ensures fails { IfOk result (λ host. fails_of host ≡ fails.items) }
        ensures calls { IfOk result (λ host. calls_of host ≡ 0) }
        ensures failures { IfOk result (λ host. failures_of host ≡ 0) }
    {
        let log = CallLog::new(alloc, room)?;
        let script = Script::new(alloc, replies)?;
        Ok(ScriptHost {
            sigs,
            script,
            log,
            schedule: Schedule::new(fails),
            failures: 0,
        })
    }

    /// How many calls it was asked so far.
    pub fn asked_len(&self) -> usize
        ensures { result ≡ length (asked_of self.now) }
    {
        self.log.len()
    }
}

impl Host for ScriptHost {
    ghost use Rattle.qv_outside.specs.ScriptHost.{table_of, asked_of, replied_of, left_of, room_of, fails_of, calls_of, failures_of, failures_after_call, Scheduled};

    ghost asked = { λ h. Some (asked_of h) };

    ghost replied = { λ h. Some (replied_of h) };

    ghost Kept = { Unit {0} };

    ghost kept = { λ _. tt };

    ghost table = { table_of };

    ghost faults = { failures_of };

    fn sig(&self, number: u32) -> Option<Sig>
        ensures { result ≡ sig_of (table_of self.now) number }
    {
        find(&self.sigs, number)
    }

    /// Gives the next reply, with as many of its bytes as the call asks for.
    fn call(&mut self, call: &TrapCall<'_>, out: &mut [u8]) -> Result<TrapReply, HostFailed>
        requires room { length out.old ≡ call.now.out_len }
        requires shape { IsSomeAnd (sig_of (table_of self.old) call.now.number) (HasShape call.now) }
        ensures asked { AskedFor (Some (asked_of self.old)) (Some (asked_of self.new)) (event_of call.now) result }
        ensures replied { Replied (Some (replied_of self.old)) (Some (replied_of self.new)) out.new result }
        ensures used { IfOk result (λ r. r.used ≤ call.now.out_len) }
        ensures table { table_of self.new ≡ table_of self.old }
        ensures later { failures_of self.old ≤ failures_of self.new }
        ensures cause { OnErr result (Rose (failures_of self.old) (failures_of self.new)) }

        ensures fails_where { IsErr result ↔ (Scheduled self.old ⊎ (PassesRoom (room_of self.old) (asked_of self.old) (event_of call.now) ⊎ (left_of self.old ≡ []))) }
        ensures past_room { PassesRoom (room_of self.old) (asked_of self.old) (event_of call.now) → asked_of self.new ≡ asked_of self.old }
        ensures in_room { FitsRoom (room_of self.old) (asked_of self.old) (event_of call.now) → asked_of self.new ≡ asked_of self.old ++ event_of call.now ∷ [] }
        ensures gives { IfOk result (λ r. GivesNext (left_of self.old) (left_of self.new) call.now.out_len (reply_of r out.new)) }
        ensures left { OnErr result (left_of self.new ≡ left_of self.old) }
        ensures rest { IfOk result (λ r. drop r.used out.new ≡ drop r.used out.old) }
        ensures untouched { OnErr result (out.new ≡ out.old) }
        ensures count { failures_of self.new ≡ failures_after_call (failures_of self.old) result }
        ensures calls { calls_of self.new ≡ next_count (calls_of self.old) }
        ensures fails { fails_of self.new ≡ fails_of self.old }
        ensures room { room_of self.new ≡ room_of self.old }
    {
        prove!(out.len() == call.out_len as usize);
        let scheduled = self.schedule.next_fails();
        if !self.log.fits(call) {
            self.failures = self.failures.saturating_add(1);
            return Err(HostFailed);
        }
        self.log.push(call);
        if scheduled {
            self.failures = self.failures.saturating_add(1);
            return Err(HostFailed);
        }
        match self.script.next(out) {
            Some(reply) => Ok(reply),
            None => {
                self.failures = self.failures.saturating_add(1);
                Err(HostFailed)
            }
        }
    }
}
