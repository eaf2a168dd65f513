// What a chip is doing.
use flash::{Mode, Place};
use geometry::BlockSet;

/// A byte that is being programmed.
#[derive(Clone, Copy, Debug, PartialEq, Eq)]
pub struct Program {
    pub address: u32,
    pub byte: u8,
    /// Microseconds until the end.
    pub left: u32,
    /// DQ6 of the next status read.
    pub toggle: bool,
}

/// The two parts of a block erase.
#[derive(Clone, Copy, Debug, PartialEq, Eq)]
pub enum Phase {
    /// More blocks may be added; nothing is erased yet.
    Window,
    /// The selected blocks are being erased.
    Erasing,
}

/// A block erase.
#[derive(Clone, Copy, Debug, PartialEq, Eq)]
pub struct Erase {
    pub phase: Phase,
    /// The selected blocks, protected ones too.
    pub selected: BlockSet,
    /// Microseconds until the end of the phase.
    pub left: u32,
    /// DQ6 of the next status read.
    pub toggle: bool,
}

#[derive(Clone, Copy, Debug, PartialEq, Eq)]
pub enum State {
    /// Not busy, in a mode and at a place of a command sequence.
    Ready(Mode, Place),
    Programming(Program),
    Erasing(Erase),
    /// The suspend command was given; the erase stands still, and the chip is suspended after so many microseconds.
    Suspending(Erase, u32),
    Suspended(Erase),
    /// An operation failed. The byte is what was to be programmed, or FFh after an erase; the flag is DQ6 of
    /// the next status read.
    Failed(u8, bool),
}
