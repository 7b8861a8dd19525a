// Why plain instructions don't go on.
use crate::stop::Stop;

/// Why plain instructions don't go on.
#[derive(Clone, Copy)]
pub(crate) enum Halt {
    /// The run stops.
    Stop(Stop),
    /// The trap of this number is called. The call's word is taken, and the return place and the number are stored.
    Trap(u32),
}
