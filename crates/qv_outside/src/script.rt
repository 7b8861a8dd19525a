// Replies in the order of a list.
ghost use Rattle.std.specs.Prelude.{◌≡◌, ◌≤◌, ◌<◌, ◌^◌, [], ◌∷◌, ◌++◌, length, drop, MatchOption, IfSome, IfOk, IfNone, vec_len, vec_capacity, map};
ghost use Rattle.qv_outside.specs.Hosts.{reply_of};

use crate::host::TrapReply;
use qv_base::NoMemory;
use std::alloc::Global;

/// Replies, each a word and bytes, that are given in order.
#[derive(Drop)]
pub struct Script {
    replies: Vec<(u32, Vec<u8>)>,
    // The count of bytes given of each reply so far.
    given: Vec<u32>,
    ghost within: { vec_len given ≤ vec_len replies },
    ghost reserved: { vec_len replies ≤ vec_capacity given },
}

impl Script {
    ghost use Rattle.qv_outside.specs.Script.{replies_in, given_in, left_in, GivesNext};

    /// These replies, none of them given.
    ///
    /// # Errors
    ///
    /// NoMemory where memory for their counts is refused.
    pub fn new(alloc: Global, replies: Vec<(u32, Vec<u8>)>) -> Result<Script, NoMemory>
        ensures left { IfOk result (λ script. left_in script ≡ replies_in replies.items) }
        ensures given { IfOk result (λ script. given_in script ≡ []) }
    {
        let given = Vec::with_capacity(alloc, replies.len())?;
        Ok(Script { replies, given })
    }

    /// Gives the next reply: its word, and as many of its bytes as there is room for. None is given
    /// where no reply is left.
    pub fn next(&mut self, out: &mut [u8]) -> Option<TrapReply>
        requires { length out.old < 2 ^ 32 }
        ensures next { MatchOption result (left_in self.old ≡ []) (λ r. GivesNext (left_in self.old) (left_in self.new) (length out.old) (reply_of r out.new)) }
        ensures given { MatchOption result (given_in self.new ≡ given_in self.old) (λ r. given_in self.new ≡ given_in self.old ++ reply_of r out.new ∷ []) }
        ensures stays { IfNone result (left_in self.new ≡ left_in self.old) }
        ensures used { IfSome result (λ r. r.used ≤ length out.old) }
        ensures rest { IfSome result (λ r. drop r.used out.new ≡ drop r.used out.old) }
        ensures untouched { IfNone result (out.new ≡ out.old) }
    {
        let place = self.given.len();
        if place >= self.replies.len() {
            return None;
        }
        let (word, bytes) = &self.replies[place];
        let used = out.len().min(bytes.len());
        out[..used].copy_from_slice(&bytes[..used]);
        self.given.push_reserved(used as u32);
        Some(TrapReply {
            word: *word,
            used: used as u32,
        })
    }
}
