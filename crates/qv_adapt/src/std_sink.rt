// Streams of the machine.
ghost use Rattle.std.specs.Prelude.{◌≡◌, ◌≤◌, None, OnErr, OnOk};
ghost use Rattle.std.specs.Io.KnownBytes.{Appends};
ghost use Rattle.qv_outside.specs.Causes.{Rose};
ghost use Rattle.qv_adapt.specs.Faults.{faults_after};

use crate::whole::write_whole;
use qv_outside::sink::{Sink, SinkFailed};
use std::io::Write;

/// A sink over a writer. It doesn't tell `written`; it counts the puts that failed.
#[derive(Drop)]
pub struct StdSink<W> {
    writer: W,
    faults: u64,
}

impl<W> StdSink<W> {
    /// A sink over this writer, with no fault counted yet.
    pub fn new(writer: W) -> StdSink<W>
        ensures writer { result.writer ≡ writer }
        ensures faults { result.faults ≡ 0 }
    {
        StdSink { writer, faults: 0 }
    }
}

impl<W: Write> Sink for StdSink<W> {
    ghost written = { λ _. None };

    ghost faults = { λ s. s.faults };

    /// Puts as the trait says, by as many writes as it takes. A write that takes nothing fails it.
    fn put(&mut self, bytes: &[u8]) -> Result<(), SinkFailed>
        ensures later { self.old.faults ≤ self.new.faults }
        ensures cause { OnErr result (Rose self.old.faults self.new.faults) }

        ensures count { self.new.faults ≡ faults_after self.old.faults result }
        ensures whole { OnOk result (Appends (W.contents self.old.writer) (W.contents self.new.writer) bytes.now) }
    {
        match write_whole(&mut self.writer, bytes) {
            Ok(()) => Ok(()),
            Err(_) => {
                self.faults = self.faults.saturating_add(1);
                Err(SinkFailed)
            }
        }
    }
}

#[cfg(test)]
mod tests {
    use super::*;
    use std::test::Fail;

    #[test]
    fn puts_behind_what_is_there(rt: HostRuntime) -> Result<(), Fail> {
        let mut sink = StdSink::new(b"a".to_vec(rt.alloc())?);
        assert!(rt; sink.put(b"bc").is_ok());
        assert!(rt; sink.writer.as_slice() == b"abc".as_slice());
        Ok(())
    }
}
