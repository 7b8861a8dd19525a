// Signatures by the numbers of their traps.
ghost use Rattle.std.specs.Prelude.{◌≡◌};
ghost use Rattle.qv_outside.specs.Hosts.{sig_of, table_in};

use crate::signature::Sig;

/// The signature of the trap of this number, or none where there is none. The first entry of a number
/// counts.
pub fn find(sigs: &[(u32, Sig)], number: u32) -> Option<Sig>
    ensures { result ≡ sig_of (table_in sigs.now) number }
{
    for (key, sig) in sigs {
        if *key == number {
            return Some(*sig);
        }
    }
    None
}
