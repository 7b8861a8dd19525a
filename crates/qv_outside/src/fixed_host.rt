// A host that always gives one word.
ghost use Rattle.std.specs.Prelude.{◌≡◌, ◌≤◌, length, None, Ok, IfOk, IsSomeAnd};

use crate::host::{Host, HostFailed, TrapCall, TrapReply};
use crate::signature::Sig;
use crate::sigs::find;

/// A host that always replies one word and no bytes. It never fails and tells nothing.
#[derive(Drop)]
pub struct FixedHost {
    sigs: Vec<(u32, Sig)>,
    word: u32,
}

impl FixedHost {
    ghost use Rattle.qv_outside.specs.FixedHost.{table_of, word_of};
    ghost use Rattle.qv_outside.specs.Hosts.{table_in};

    /// A host that answers the traps of these signatures by `word`. The first entry of a number counts.
    pub fn new(sigs: Vec<(u32, Sig)>, word: u32) -> FixedHost
        ensures table { table_of result ≡ table_in sigs.items }
        ensures word { word_of result ≡ word }
    {
        FixedHost { sigs, word }
    }
}

impl Host for FixedHost {
    ghost use Rattle.qv_outside.specs.FixedHost.{table_of, word_of};
    ghost use Rattle.qv_outside.specs.Hosts.{HasShape, sig_of};

    ghost asked = { λ _. None };

    ghost replied = { λ _. None };

    ghost Kept = { Unit {0} };

    ghost kept = { λ _. tt };

    ghost table = { table_of };

    ghost faults = { λ _. 0 };

    fn sig(&self, number: u32) -> Option<Sig>
        ensures { result ≡ sig_of (table_of self.now) number }
    {
        find(&self.sigs, number)
    }

    /// Replies the word. Neither the host nor `out` changes.
    fn call(&mut self, call: &TrapCall<'_>, out: &mut [u8]) -> Result<TrapReply, HostFailed>
        requires room { length out.old ≡ call.now.out_len }
        requires shape { IsSomeAnd (sig_of (table_of self.old) call.now.number) (HasShape call.now) }
        ensures used { IfOk result (λ r. r.used ≤ call.now.out_len) }
        ensures table { table_of self.new ≡ table_of self.old }

        ensures fixed { result ≡ Ok (record { word = word_of self.old; used = 0 }) }
        ensures word { word_of self.new ≡ word_of self.old }
        ensures out { out.new ≡ out.old }
    {
        Ok(TrapReply {
            word: self.word,
            used: 0,
        })
    }
}

#[cfg(test)]
mod tests {
    use super::*;
    use crate::signature::Kind;
    use std::test::Fail;

    #[test]
    fn replies_its_word(rt: HostRuntime) -> Result<(), Fail> {
        let sigs = [(2, Sig::new(&[])), (2, Sig::new(&[Kind::Int]))];
        let mut host = FixedHost::new(Vec::from_array(rt.alloc(), sigs)?, 7);
        assert!(rt; host.sig(2) == Some(Sig::new(&[])));
        assert!(rt; host.sig(3).is_none());
        let call = TrapCall {
            number: 2,
            ints: [0; 14],
            int_count: 0,
            first: &[],
            second: &[],
            input_count: 0,
            out_len: 0,
        };
        let reply = TrapReply { word: 7, used: 0 };
        assert!(rt; host.call(&call, &mut []) == Ok(reply));
        Ok(())
    }
}
