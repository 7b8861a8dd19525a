// A sink of bytes.
ghost use Rattle.std.specs.Prelude.{◌≡◌, ℕ, ◌≤◌, List, Option, OnErr};
ghost use Rattle.qv_outside.specs.Causes.{Rose};
ghost use Rattle.qv_outside.specs.Sink.{Puts};

/// A put that failed.
#[derive(Clone, Copy, Debug, PartialEq, Eq)]
pub struct SinkFailed;

/// A sink that takes bytes in order.
pub trait Sink {
    /// The bytes that the sink has taken, where they are told.
    ghost written: { Self → Option (List ℕ) };

    /// The puts that failed, at most 2^64 - 1.
    ghost faults: { Self → ℕ };

    /// Puts these bytes behind those that the sink has taken.
    ///
    /// # Errors
    ///
    /// SinkFailed where the sink did not take all of them: it has taken a prefix then.
    fn put(&mut self, bytes: &[u8]) -> Result<(), SinkFailed>
        ensures told { Puts (written self.old) (written self.new) bytes.now result }
        ensures later { faults self.old ≤ faults self.new }
        ensures cause { OnErr result (Rose (faults self.old) (faults self.new)) };
}
