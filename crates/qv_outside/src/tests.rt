// A host by a script, asked.
ghost use Rattle.std.specs.Prelude.{◌≡◌, ◌<◌, ◌≤◌, ◌+◌, ◌^◌, Some, [], ◌∷◌, length};
ghost use Rattle.qv_outside.specs.Hosts.{sig_of, kinds_of};
ghost use Rattle.qv_outside.specs.ScriptHost.{table_of};

use crate::host::{Host, HostFailed, TrapCall, TrapReply};
use crate::script_host::ScriptHost;
use crate::signature::{Kind, Sig};
use std::test::Fail;

const KINDS: [Kind; 4] = [Kind::InBytes(1), Kind::Int, Kind::OutBytes(3), Kind::Int];

// The bytes lent, the length asked, the word and the count of bytes given, and the count of calls
// asked behind it.
type Row = (&'static [u8], usize, Result<TrapReply, HostFailed>, usize);

// With room for 4 calls and 4 bytes, over two replies. Call 1 is listed.
const CALLS: [Row; 6] = [
    (b"ab", 2, Ok(TrapReply { word: 7, used: 2 }), 1),
    (b"c", 2, Err(HostFailed), 2),
    (b"de", 2, Err(HostFailed), 2),
    (b"f", 5, Ok(TrapReply { word: 8, used: 1 }), 3),
    (b"", 0, Err(HostFailed), 4),
    (b"", 0, Err(HostFailed), 4),
];

// Asks trap 2.
fn ask(
    host: &mut ScriptHost,
    sig: &Sig,
    bytes: &[u8],
    out: &mut [u8],
) -> Result<TrapReply, HostFailed>
    requires sig { sig_of (table_of host.old) 2 ≡ Some sig.now }
    requires kinds { kinds_of sig.now ≡ Kind.InBytes 1 ∷ Kind.Int ∷ Kind.OutBytes 3 ∷ Kind.Int ∷ [] }
    requires bytes { length bytes.now < 2 ^ 32 }
    requires out { length out.old < 2 ^ 32 }
    ensures { table_of host.new ≡ table_of host.old }
{
    let mut ints = [0; 14];
    ints[0] = bytes.len() as u32;
    ints[1] = out.len() as u32;
    let call = TrapCall {
        number: 2,
        ints,
        int_count: 2,
        first: bytes,
        second: &[],
        input_count: 1,
        out_len: out.len() as u32,
    };
    host.call(&call, out)
}

#[test]
fn follows_its_script(rt: HostRuntime) -> Result<(), Fail> {
    let alloc = rt.alloc();
    let sig = Sig::new(&KINDS);
    let sigs = Vec::from_array(alloc, [(2, sig)])?;
    let mut replies = Vec::new(alloc);
    replies.push((7, b"xyz".to_vec(alloc)?))?;
    replies.push((8, b"w".to_vec(alloc)?))?;
    let mut host = ScriptHost::new(alloc, sigs, replies, [1].to_vec(alloc)?, 4)?;
    assert!(rt; host.sig(2) == Some(sig));
    for (bytes, len, answer, asked) in &CALLS {
        let mut room = [0; 8];
        assert!(rt; *len <= 8 && bytes.len() <= 8);
        assert!(rt; ask(&mut host, &sig, bytes, &mut room[..*len]) == *answer);
        assert!(rt; host.asked_len() == *asked);
    }
    Ok(())
}
