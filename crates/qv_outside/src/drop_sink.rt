// A sink that keeps nothing.
ghost use Rattle.std.specs.Prelude.{◌≡◌, None, Ok};

use crate::sink::{Sink, SinkFailed};

/// A sink that takes all bytes and keeps none. It never fails, and doesn't tell `written`.
#[derive(Clone, Copy, Debug, Default, PartialEq, Eq)]
pub struct DropSink;

impl DropSink {
    /// A sink that keeps nothing.
    pub fn new() -> DropSink {
        DropSink
    }
}

impl Sink for DropSink {
    ghost written = { λ _. None };

    ghost faults = { λ _. 0 };

    /// Drops the bytes.
    fn put(&mut self, _bytes: &[u8]) -> Result<(), SinkFailed>
        ensures never { result ≡ Ok tt }
    {
        Ok(())
    }
}

#[cfg(test)]
mod tests {
    use super::*;
    use std::test::Fail;

    fn put_twice<S: Sink>(sink: &mut S, bytes: &[u8]) -> Result<(), SinkFailed> {
        sink.put(bytes)?;
        sink.put(bytes)
    }

    #[test]
    fn takes_all_that_is_put(rt: HostRuntime) -> Result<(), Fail> {
        let mut sink = DropSink::new();
        assert!(rt; put_twice(&mut sink, b"ab") == Ok(()));
        assert!(rt; put_twice(&mut sink, b"") == Ok(()));
        Ok(())
    }
}
