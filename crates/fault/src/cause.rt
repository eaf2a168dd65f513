ghost use Rattle.std.specs.Prelude.{◌≡◌};
ghost use Rattle.fault.specs.Causes.{number_of};

/// The cause of a refusal. Each layer has a fault type of its own, which holds a cause and where it arose.
#[derive(Clone, Copy, PartialEq, Eq, Debug)]
pub enum Cause {
    /// An address at or past the end.
    AddressOutside = 1,
    /// A block that there is not.
    NoSuchBlock = 2,
    /// A time over the longest that one call may pass.
    TimeTooLong = 3,
    /// A number, or a memory's length, with which nothing can be made.
    UnfitMaking = 4,
    /// An erasure that runs, or is suspended, where the call cannot go on beside it.
    ErasureInTheWay = 5,
    /// A guarded block.
    Guarded = 6,
    /// A bit of a cell that is 0 would have to become 1.
    NeedsErase = 7,
    /// A worn block.
    Worn = 8,
    /// A console that is not open, or, for open, one that is open already.
    OutOfTurn = 9,
    /// Two blocks that are one, differ in size, or have a size that no book has.
    UnfitBooks = 10,
    /// Not exactly one book that can be read.
    NoReadableBook = 11,
    /// A position that the books do not have.
    PositionOutside = 12,
    /// A stop beyond the sixty-third.
    StopOutside = 13,
    /// The books have to change, and the other one is spoilt.
    SpareSpoilt = 14,
}

impl Cause {
    /// The number by which the documents and the programs name the cause.
    pub fn number(self) -> u8
        ensures { result ≡ number_of self }
    {
        self as u8
    }
}
