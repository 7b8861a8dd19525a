// Definitions of names, while the lines are read.
use asm_place::address::Address;

/// What a name stands for, as far as it is known.
#[derive(Clone, Copy)]
pub enum Held {
    /// This address.
    Settled(Address),
    /// The address at which the labels that wait will be settled.
    Waiting,
}

/// A line that defines a name.
#[derive(Clone, Copy)]
pub struct Noted {
    /// Its number, from 0 among all lines.
    pub at: u64,
    /// What the name stands for.
    pub held: Held,
}
