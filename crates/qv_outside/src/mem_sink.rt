// A sink in memory.
ghost use Rattle.std.specs.Prelude.{◌≡◌, [], Some, ◌+◌, ◌-◌, ◌<◌, ◌≤◌, ◌++◌, length, take, ◌⊎◌, ◌↔◌, IfOk, OnErr, IsErr, vec_len, vec_capacity};
ghost use Rattle.qv_outside.specs.Causes.{Rose, next_count};
ghost use Rattle.qv_outside.specs.Sink.{Puts};

use crate::schedule::Schedule;
use crate::sink::{Sink, SinkFailed};
use qv_base::NoMemory;
use std::alloc::Global;

/// A sink that takes a number of bytes and fails at the puts that a list names.
#[derive(Drop)]
pub struct MemSink {
    bytes: Vec<u8>,
    room: u32,
    schedule: Schedule,
    failures: u64,
    ghost fits: { vec_len bytes ≤ room },
    ghost reserved: { room ≤ vec_capacity bytes },
}

impl MemSink {
    ghost use Rattle.qv_outside.specs.MemSink.{bytes_of, fails_of, puts_of, room_of, failures_of};

    /// An empty sink that takes `room` bytes, and whose puts of the numbers in `fails` fail.
    ///
    /// # Errors
    ///
    /// NoMemory where memory for `room` bytes is refused.
    pub fn new(alloc: Global, room: u32, fails: Vec<u64>) -> Result<MemSink, NoMemory>
        ensures empty { IfOk result (λ sink. bytes_of sink ≡ []) }
        ensures room { IfOk result (λ sink. room_of sink ≡ room) }
        ensures fails { IfOk result (λ sink. fails_of sink ≡ fails.items) }
        ensures puts { IfOk result (λ sink. puts_of sink ≡ 0) }
        ensures failures { IfOk result (λ sink. failures_of sink ≡ 0) }
    {
        Ok(MemSink {
            bytes: Vec::with_capacity(alloc, room as usize)?,
            room,
            schedule: Schedule::new(fails),
            failures: 0,
        })
    }

    /// The bytes that the sink has taken.
    pub fn bytes(&self) -> &[u8]
        ensures { result.now ≡ bytes_of self.now }
    {
        &self.bytes
    }
}

impl Sink for MemSink {
    ghost use Rattle.qv_outside.specs.MemSink.{bytes_of, fails_of, puts_of, room_of, failures_of, failures_after_put, Scheduled};

    ghost written = { λ s. Some (bytes_of s) };

    ghost faults = { failures_of };

    /// Puts as the trait says. A put that the list names fails and takes nothing. A put that would
    /// pass the room takes what fits and fails. Every other put takes all.
    fn put(&mut self, bytes: &[u8]) -> Result<(), SinkFailed>
        ensures told { Puts (Some (bytes_of self.old)) (Some (bytes_of self.new)) bytes.now result }
        ensures later { failures_of self.old ≤ failures_of self.new }
        ensures cause { OnErr result (Rose (failures_of self.old) (failures_of self.new)) }

        ensures fails_where { IsErr result ↔ (Scheduled self.old ⊎ (room_of self.old < length (bytes_of self.old) + length bytes.now)) }
        ensures scheduled { Scheduled self.old → bytes_of self.new ≡ bytes_of self.old }
        ensures fills { ¬ Scheduled self.old → bytes_of self.new ≡ bytes_of self.old ++ take (room_of self.old - length (bytes_of self.old)) bytes.now }
        ensures count { failures_of self.new ≡ failures_after_put (failures_of self.old) result }
        ensures puts { puts_of self.new ≡ next_count (puts_of self.old) }
        ensures room { room_of self.new ≡ room_of self.old }
        ensures fails { fails_of self.new ≡ fails_of self.old }
    {
        if self.schedule.next_fails() {
            self.failures = self.failures.saturating_add(1);
            return Err(SinkFailed);
        }
        let left = self.room as usize - self.bytes.len();
        if bytes.len() > left {
            let _ = self.bytes.extend_from_slice(&bytes[..left]);
            self.failures = self.failures.saturating_add(1);
            return Err(SinkFailed);
        }
        let _ = self.bytes.extend_from_slice(bytes);
        Ok(())
    }
}

#[cfg(test)]
mod tests {
    use super::*;
    use std::test::Fail;

    // What is put, what that answers, and what was taken until then.
    const PUTS: [(&[u8], Result<(), SinkFailed>, &[u8]); 6] = [
        (b"ab", Ok(()), b"ab"),
        (b"cd", Err(SinkFailed), b"ab"),
        (b"c", Ok(()), b"abc"),
        (b"xyz", Err(SinkFailed), b"abcx"),
        (b"", Ok(()), b"abcx"),
        (b"z", Err(SinkFailed), b"abcx"),
    ];

    #[test]
    fn fails_at_the_puts_listed_and_at_full_room(rt: HostRuntime) -> Result<(), Fail> {
        let alloc = rt.alloc();
        let mut sink = MemSink::new(alloc, 4, [1].to_vec(alloc)?)?;
        for (bytes, answer, taken) in &PUTS {
            assert!(rt; sink.put(bytes) == *answer, "{bytes:?}");
            assert!(rt; sink.bytes() == *taken, "{bytes:?}");
        }
        Ok(())
    }
}
