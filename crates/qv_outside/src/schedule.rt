// Which calls fail by a list of their numbers.
ghost use Rattle.std.specs.Prelude.{◌≡◌, ◌↔◌, IsTrue};
ghost use Rattle.qv_outside.specs.Causes.{next_count};

/// A count of calls, and a list of the numbers, from 0, of those that fail.
///
/// The count stays at 2^64 - 1 once it is there, and from then on no call fails.
#[derive(Drop)]
pub struct Schedule {
    fails: Vec<u64>,
    calls: u64,
}

impl Schedule {
    ghost use Rattle.qv_outside.specs.Schedule.{fails_in, calls_in, FailsNext};

    /// A schedule by this list, before the first call.
    pub fn new(fails: Vec<u64>) -> Schedule
        ensures fails { fails_in result ≡ fails.items }
        ensures calls { calls_in result ≡ 0 }
    {
        Schedule { fails, calls: 0 }
    }

    /// Counts one more call, and answers whether that call fails.
    pub fn next_fails(&mut self) -> bool
        ensures answer { IsTrue result ↔ FailsNext self.old }
        ensures calls { calls_in self.new ≡ next_count (calls_in self.old) }
        ensures fails { fails_in self.new ≡ fails_in self.old }
    {
        let call = self.calls;
        self.calls = call.saturating_add(1);
        call < u64::MAX && self.fails.contains(&call)
    }
}
