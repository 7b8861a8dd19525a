// A registry of traps with the machine's clock.
ghost use Rattle.std.specs.Prelude.{◌≡◌, ◌≢◌, ℕ, ◌%◌, ◌^◌, ◌≤◌, length, None, Ok, IfOk, IsOk, IsSomeAnd};
ghost use Rattle.qv_adapt.specs.Clock.{with_clock};
ghost use Rattle.qv_outside.specs.Hosts.{HasShape, sig_of};
ghost use Rattle.trap_registry.specs.Handler.{Replies};
ghost use Rattle.trap_registry.specs.Registry.{table_of, registered_at};

use qv_outside::host::{Host, HostFailed, TrapCall, TrapReply};
use qv_outside::signature::Sig;
use std::rt::Clock;
use std::time::Instant;
use trap_registry::handler::Handler;
use trap_registry::registry::Registry;

/// The trap that asks for the milliseconds.
const MILLISECONDS: u32 = 2;

/// A host that answers trap 2 by the machine's clock, and all others as a registry does.
///
/// The clock's answer is the milliseconds since the host was made, cut to 32 bits. Modules measure spans of
/// time by them and expect that they only grow, so they come from std's `Instant`, whose clock nobody sets,
/// and not from `SystemTime`, which may be set back. No contract promises that of a clock, so a reading that
/// goes back is answered by the milliseconds of the last one, and so is one that fails. The host itself never
/// fails, and doesn't tell `asked` and `replied`.
#[derive(Drop)]
pub struct RealClockHost<'a, R> {
    rt: &'a R,
    registry: Registry,
    // The first reading that the clock gave.
    start: Option<Instant>,
    // The largest count of milliseconds since then.
    milliseconds: u128,
}

impl<'a, R: Clock> RealClockHost<'a, R> {
    /// A host over this runtime's clock and this registry. A trap 2 of the registry is never asked.
    pub fn new(rt: &'a R, registry: Registry) -> RealClockHost<'a, R>
        ensures registry { result.registry ≡ registry }
        ensures milliseconds { result.milliseconds ≡ 0 }
    {
        RealClockHost {
            rt,
            registry,
            start: Instant::now(rt).ok(),
            milliseconds: 0,
        }
    }

    // Reads the clock. Where it can't be read, or has gone back, nothing changes.
    fn read_clock(&mut self)
        ensures grows { self.old.milliseconds ≤ self.new.milliseconds }
        ensures registry { self.new.registry ≡ self.old.registry }
    {
        let Ok(now) = Instant::now(self.rt) else {
            return;
        };
        let start = self.start.unwrap_or(now);
        self.start = Some(start);
        let passed = now.duration_since(start).as_millis();
        self.milliseconds = self.milliseconds.max(passed);
    }
}

impl<R: Clock> Host for RealClockHost<'_, R> {
    ghost asked = { λ _. None };

    ghost replied = { λ _. None };

    ghost Kept = { Unit {0} };

    ghost kept = { λ _. tt };

    ghost table = { λ h. with_clock (table_of h.registry) };

    ghost faults = { λ _. 0 };

    fn sig(&self, number: u32) -> Option<Sig>
        ensures { result ≡ sig_of (with_clock (table_of self.now.registry)) number }
    {
        if number == MILLISECONDS {
            Some(Sig::new(&[]))
        } else {
            self.registry.sig(number)
        }
    }

    /// Answers as the clock or the registry does. The registry stays as it was.
    fn call(&mut self, call: &TrapCall<'_>, out: &mut [u8]) -> Result<TrapReply, HostFailed>
        requires room { length out.old ≡ call.now.out_len }
        requires shape { IsSomeAnd (sig_of (with_clock (table_of self.old.registry)) call.now.number) (HasShape call.now) }
        ensures used { IfOk result (λ r. r.used ≤ call.now.out_len) }
        ensures table { with_clock (table_of self.new.registry) ≡ with_clock (table_of self.old.registry) }

        ensures never { IsOk result }

        // The clock answers trap 2 and gives no bytes. Every other trap is answered as its handler does.
        ensures clock { call.now.number ≡ 2 → result ≡ Ok (record { word = self.new.milliseconds % 2 ^ 32; used = 0 }) }
        ensures untouched { call.now.number ≡ 2 → out.new ≡ out.old }
        ensures grows { self.old.milliseconds ≤ self.new.milliseconds }
        ensures replies { call.now.number ≢ 2 → IfOk result (λ reply. IsSomeAnd (registered_at self.old.registry call.now.number) (λ r. Replies (⟦<Handler as Fn(&[u32], &[u8], &[u8], &mut [u8]) -> TrapReply>⟧.post r.handler) call.now out.old reply out.new)) }
        ensures same { (n : ℕ) → registered_at self.new.registry n ≡ registered_at self.old.registry n }
    {
        if call.number == MILLISECONDS {
            self.read_clock();
            let word = (self.milliseconds % (1 << 32)) as u32;
            Ok(TrapReply { word, used: 0 })
        } else {
            self.registry.call(call, out)
        }
    }
}

#[cfg(test)]
mod tests {
    use super::*;
    use std::cell::Cell;
    use std::io;
    use std::io::ErrorKind;
    use std::test::Fail;
    use std::time::Duration;

    // A clock that is read at these times, in milliseconds, and then fails.
    #[derive(Drop)]
    struct Readings {
        times: [u64; 3],
        next: Cell<usize>,
    }

    impl Clock for Readings {
        fn monotonic(&self) -> io::Result<Duration> {
            let next = self.next.get();
            self.next.set(next.saturating_add(1));
            match self.times.get(next) {
                Some(time) => Ok(Duration::from_millis(*time)),
                None => Err(io::Error::from(ErrorKind::Other)),
            }
        }

        fn since_1970(&self) -> io::Result<Duration> {
            self.monotonic()
        }
    }

    const NO_ARGUMENTS: TrapCall<'static> = TrapCall {
        number: MILLISECONDS,
        ints: [0; 14],
        int_count: 0,
        first: &[],
        second: &[],
        input_count: 0,
        out_len: 0,
    };

    #[test]
    fn tells_what_has_passed(rt: HostRuntime) {
        let clock = Readings {
            times: [5_000, 6_234, 6_000],
            next: Cell::new(0),
        };
        let mut host = RealClockHost::new(&clock, Registry::new(rt.alloc()));
        assert!(rt; host.sig(MILLISECONDS) == Some(Sig::new(&[])));
        assert!(rt; host.sig(8).is_none());
        let passed = TrapReply {
            word: 1_234,
            used: 0,
        };
        assert!(rt; host.call(&NO_ARGUMENTS, &mut []) == Ok(passed));
        let gone_back = host.call(&NO_ARGUMENTS, &mut []);
        assert!(rt; gone_back == Ok(passed));
        let not_read = host.call(&NO_ARGUMENTS, &mut []);
        assert!(rt; not_read == Ok(passed));
    }

    #[test]
    fn asks_the_registry(rt: HostRuntime) -> Result<(), Fail> {
        let alloc = rt.alloc();
        let mut registry = Registry::new(alloc);
        let five: Handler = Box::new(alloc, |_: &[u32], _: &[u8], _: &[u8], _: &mut [u8]| {
            TrapReply { word: 5, used: 0 }
        })?;
        assert!(rt; registry.register(8, Sig::new(&[]), five).is_ok());
        let mut host = RealClockHost::new(&rt, registry);
        let call = TrapCall {
            number: 8,
            ..NO_ARGUMENTS
        };
        assert!(rt; host.sig(8) == Some(Sig::new(&[])));
        let reply = TrapReply { word: 5, used: 0 };
        assert!(rt; host.call(&call, &mut []) == Ok(reply));
        Ok(())
    }
}
