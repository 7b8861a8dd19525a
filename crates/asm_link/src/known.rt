// What is known of a name.
use asm_place::address::Address;

/// What is known of a name.
#[derive(Clone, Copy)]
pub struct Known {
    /// The number of the line that defines it, from 0 among all lines.
    pub at: u64,
    /// What it stands for.
    pub address: Address,
}
