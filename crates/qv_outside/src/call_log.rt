// A log of trap calls.
ghost use Rattle.std.specs.Prelude.{◌≡◌, ◌≤◌, ◌+◌, [], ◌∷◌, ◌++◌, length, map, IsTrue, false, ◌↔◌, IfOk, All, vec_len, vec_capacity};
ghost use Rattle.qv_outside.specs.Hosts.{event_of};
ghost use Rattle.qv_outside.specs.Event.{text_bytes};
ghost use Rattle.qv_outside.specs.KeptCall.{event_in, IsInside};

use crate::host::TrapCall;
use qv_base::NoMemory;
use std::alloc::Global;

/// A call, with its texts kept elsewhere, one behind the other from a place on.
#[derive(Clone, Copy)]
pub struct KeptCall {
    pub number: u32,
    pub ints: [u32; 14],
    pub int_count: u8,
    pub from: usize,
    pub first_len: usize,
    pub second_len: usize,
    pub input_count: u8,
    pub out_len: u32,
}

/// The calls so far and their texts, at most as many calls and as many bytes of texts as there is room
/// for.
#[derive(Drop)]
pub struct CallLog {
    calls: Vec<KeptCall>,
    texts: Vec<u8>,
    room: u32,
    ghost inside: { All (IsInside (vec_len texts)) calls.items },
    ghost counted: { text_bytes (map (event_in texts.items) calls.items) ≡ vec_len texts },
    ghost calls_fit: { vec_len calls ≤ room },
    ghost texts_fit: { vec_len texts ≤ room },
    ghost calls_reserved: { room ≤ vec_capacity calls },
    ghost texts_reserved: { room ≤ vec_capacity texts },
}

impl CallLog {
    ghost use Rattle.qv_outside.specs.CallLog.{events_in, room_in, FitsRoom, PassesRoom};

    /// A log of no call.
    ///
    /// # Errors
    ///
    /// NoMemory where memory for the room is refused.
    pub fn new(alloc: Global, room: u32) -> Result<CallLog, NoMemory>
        ensures empty { IfOk result (λ log. events_in log ≡ []) }
        ensures room { IfOk result (λ log. room_in log ≡ room) }
    {
        let calls = Vec::with_capacity(alloc, room as usize)?;
        let texts = Vec::with_capacity(alloc, room as usize)?;
        Ok(CallLog { calls, texts, room })
    }

    /// How many calls it has.
    pub fn len(&self) -> usize
        ensures { result ≡ length (events_in self.now) }
    {
        self.calls.len()
    }

    /// Whether there is room for this call, whose absent texts are empty.
    pub fn fits(&self, call: &TrapCall<'_>) -> bool
        requires { text_bytes (event_of call.now ∷ []) ≡ length call.now.first.now + length call.now.second.now }
        ensures fits { IsTrue result ↔ FitsRoom (room_in self.now) (events_in self.now) (event_of call.now) }
        ensures passes { result ≡ false ↔ PassesRoom (room_in self.now) (events_in self.now) (event_of call.now) }
    {
        let room = self.room as usize;
        let left = room - self.texts.len();
        self.calls.len() < room
            && call.first.len() <= left
            && call.second.len() <= left - call.first.len()
    }

    /// Keeps one more call.
    pub fn push(&mut self, call: &TrapCall<'_>)
        requires texts { text_bytes (event_of call.now ∷ []) ≡ length call.now.first.now + length call.now.second.now }
        requires fits { FitsRoom (room_in self.old) (events_in self.old) (event_of call.now) }
        ensures events { events_in self.new ≡ events_in self.old ++ event_of call.now ∷ [] }
        ensures room { room_in self.new ≡ room_in self.old }
    {
        let from = self.texts.len();
        append(&mut self.texts, call.first);
        append(&mut self.texts, call.second);
        self.calls.push_reserved(KeptCall {
            number: call.number,
            ints: call.ints,
            int_count: call.int_count,
            from,
            first_len: call.first.len(),
            second_len: call.second.len(),
            input_count: call.input_count,
            out_len: call.out_len,
        });
    }
}

// Adds bytes for which there is room.
fn append(texts: &mut Vec<u8>, bytes: &[u8])
    requires { vec_len texts.old + length bytes.now ≤ vec_capacity texts.old }
    ensures items { texts.new.items ≡ texts.old.items ++ bytes.now }
    ensures len { vec_len texts.new ≡ vec_len texts.old + length bytes.now }
    ensures capacity { vec_capacity texts.old ≤ vec_capacity texts.new }
{
    let _ = texts.extend_from_slice(bytes);
}
