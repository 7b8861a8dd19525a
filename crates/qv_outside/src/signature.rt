// Signatures of traps.
ghost use Rattle.std.specs.Prelude.{◌≡◌, ◌-◌, ◌++◌, IsTrue, length, replicate, count_by};
ghost use Rattle.std.specs.List.{list_all};
ghost use Rattle.qv_outside.specs.Signature.{fits, well_formed, is_int, is_input, is_output, length_is_int};

use qv_base::limits::{CALL_WORDS, TRAP_INPUTS, TRAP_OUTPUTS};

/// What an argument of a trap is.
#[derive(Clone, Copy, Debug, PartialEq, Eq)]
pub enum Kind {
    /// A word.
    Int,
    /// The address of bytes that end before a NUL, which the trap reads.
    Text,
    /// The address of bytes that the trap reads. The argument at this place, from 0, is their count.
    InBytes(u8),
    /// The address of bytes that the trap fills. The argument at this place, from 0, is their count.
    OutBytes(u8),
}

/// The signature of a trap: the kinds of its arguments.
///
/// Each signature is well formed: it has at most 14 arguments, each length that a kind names is an
/// Int among them, at most two are Text or InBytes, and at most one is OutBytes.
#[derive(Clone, Copy, Debug, PartialEq, Eq)]
pub struct Sig {
    /// The count of arguments.
    pub count: u8,
    /// Their kinds in order; the rest is Int.
    pub kinds: [Kind; 14],
    ghost well_formed: { IsTrue (well_formed count kinds) },
}

impl Sig {
    /// The signature of these kinds. [`Sig::fits`] tests the condition.
    pub fn new(kinds: &[Kind]) -> Sig
        requires { IsTrue (fits kinds.now) }
        ensures count { result.count ≡ length kinds.now }
        ensures kinds { result.kinds ≡ kinds.now ++ replicate (14 - length kinds.now) Kind.Int }
    {
        let mut all = [Kind::Int; 14];
        all[..kinds.len()].copy_from_slice(kinds);
        Sig {
            count: kinds.len() as u8,
            kinds: all,
        }
    }

    /// Whether these kinds make a signature that is well formed.
    pub fn fits(kinds: &[Kind]) -> bool
        ensures { result ≡ fits kinds.now }
    {
        let lengths = lengths_are_ints(kinds);
        let inputs = input_count(kinds);
        let outputs = output_count(kinds);
        kinds.len() <= CALL_WORDS && lengths && inputs <= TRAP_INPUTS && outputs <= TRAP_OUTPUTS
    }
}

// Whether each place of a length names an Int.
fn lengths_are_ints(kinds: &[Kind]) -> bool
    ensures { result ≡ list_all (length_is_int kinds.now) kinds.now }
{
    kinds.iter().all(|kind| length_is_int(kinds, *kind))
}

fn input_count(kinds: &[Kind]) -> usize
    ensures { result ≡ count_by is_input kinds.now }
{
    kinds.iter().filter(|kind| is_input(**kind)).count()
}

fn output_count(kinds: &[Kind]) -> usize
    ensures { result ≡ count_by is_output kinds.now }
{
    kinds.iter().filter(|kind| is_output(**kind)).count()
}

fn is_int(kind: Kind) -> bool
    ensures { result ≡ is_int kind }
{
    matches!(kind, Kind::Int)
}

fn is_input(kind: Kind) -> bool
    ensures { result ≡ is_input kind }
{
    matches!(kind, Kind::Text | Kind::InBytes(_))
}

fn is_output(kind: Kind) -> bool
    ensures { result ≡ is_output kind }
{
    matches!(kind, Kind::OutBytes(_))
}

// Whether the place of the length, if there is one, names an Int.
fn length_is_int(kinds: &[Kind], kind: Kind) -> bool
    ensures { result ≡ length_is_int kinds.now kind }
{
    match kind {
        Kind::InBytes(place) | Kind::OutBytes(place) => match kinds.get(place as usize) {
            Some(length) => is_int(*length),
            None => false,
        },
        _ => true,
    }
}

#[cfg(test)]
mod tests {
    use super::*;

    // Kinds of arguments, and whether they fit.
    const ROWS: [(&[Kind], bool); 9] = [
        (&[], true),
        (&[Kind::Int, Kind::OutBytes(2), Kind::Int], true),
        (&[Kind::Text, Kind::InBytes(2), Kind::Int], true),
        (&[Kind::Int; 14], true),
        (&[Kind::Int; 15], false),
        (&[Kind::Text, Kind::Text, Kind::Text], false),
        (&[Kind::OutBytes(1), Kind::Int, Kind::OutBytes(1)], false),
        (&[Kind::InBytes(1), Kind::Text], false),
        (&[Kind::InBytes(1)], false),
    ];

    #[test]
    fn fits(rt: HostRuntime) {
        for (kinds, fits) in &ROWS {
            assert!(rt; Sig::fits(kinds) == *fits, "{kinds:?}");
        }
    }
}
