// How a run ends.

/// How a run of the machine ends.
#[derive(Clone, Copy, Debug, PartialEq, Eq)]
pub enum Stop {
    /// The call returned this word.
    Returned(u32),
    /// The steps that were allowed are made, and the run can go on.
    Budget,
    /// The module called the trap `error`.
    ModuleError,
    /// A word was pushed onto 256 others.
    OperandOver,
    /// An instruction found too few words on the operand stack.
    OperandUnder,
    /// A frame passed the bottom of the program stack.
    StackOver,
    /// A frame was given back that the program stack doesn't hold.
    StackUnder,
    /// A jump or a return to this number, which no instruction has.
    JumpOut(u32),
    /// The run passed the last instruction.
    FellOff,
    /// A division by 0.
    DivideZero,
    /// The least signed number was divided by -1.
    DivideOver,
    /// A block copy whose ends aren't multiples of 4, or leave the block.
    CopyRange,
    /// The host has no trap with this number.
    UnknownTrap(u32),
    /// The range of a trap's argument leaves the block.
    TrapRange {
        /// The trap's number.
        number: u32,
        /// The argument's place, counted from 0.
        argument: u8,
    },
    /// The host failed.
    HostFault,
    /// The sink failed.
    OutFault,
}
