//! A call of the host.
ghost use Rattle.std.specs.Prelude.{◌≡◌, ℕ, ◌≤◌, ◌<◌, ◌^◌, slice_index, vec_len, vec_capacity, IfOk, IsSomeAnd, OnErr};
ghost use Rattle.qv_outside.specs.Causes.{Rose};
ghost use Rattle.qv_outside.specs.Hosts.{HasShape, AskedFor, Replied, event_of, sig_of};

use qv_outside::host::{Host, HostFailed, TrapCall, TrapReply};

/// Asks the host, which is lent as much of the room as the call asks for; the bytes of its reply are then at the front.
pub(crate) fn exchange<H: Host>(
    host: &mut H,
    call: &TrapCall<'_>,
    room: &mut Vec<u8>,
) -> Result<TrapReply, HostFailed>
    requires room { call.now.out_len ≤ vec_capacity room.old }
    requires shape { IsSomeAnd (sig_of (H.table host.old) call.now.number) (HasShape call.now) }
    ensures asked { AskedFor (H.asked host.old) (H.asked host.new) (event_of call.now) result }
    ensures replied { Replied (H.replied host.old) (H.replied host.new) room.new.items result }
    ensures used { IfOk result (λ r. r.used ≤ call.now.out_len) }
    ensures word { IfOk result (λ r. r.word < 2 ^ 32) }
    ensures len { vec_len room.new ≡ call.now.out_len }
    ensures bytes { (i : ℕ) → i < vec_len room.new → slice_index room.new.items i < 256 }
    ensures capacity { vec_capacity room.old ≤ vec_capacity room.new }
    ensures kept { H.kept host.new ≡ H.kept host.old }
    ensures table { H.table host.new ≡ H.table host.old }
    ensures later { H.faults host.old ≤ H.faults host.new }
    ensures cause { OnErr result (Rose (H.faults host.old) (H.faults host.new)) }
{
    room.clear();
    let _ = room.resize(call.out_len as usize, 0);
    host.call(call, room)
}
