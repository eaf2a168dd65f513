// The faults of the layers. A fault says by its type which layer refused; `?` takes it up by `From`, with cause and place whole. Each `From` is written
// by hand, since a derive writes no contract that says so.
ghost use Rattle.std.specs.Prelude.{◌≡◌};
ghost use Rattle.fault.specs.Raising.{part_fault, console_fault};

use crate::cause::Cause;

/// Why a chip refused a call: the cause, and the address or time that was given, or 0.
#[derive(Clone, Copy, Debug, PartialEq, Eq)]
pub struct ChipFault {
    pub cause: Cause,
    pub place: u32,
}

/// Why a part refused a call: the cause, and the address, block or time that was given, or 0.
#[derive(Clone, Copy, Debug, PartialEq, Eq)]
pub struct PartFault {
    pub cause: Cause,
    pub place: u32,
}

/// Why a console refused a call: the cause, where it arose in the part, or 0, and the position of the call, or 0.
#[derive(Clone, Copy, Debug, PartialEq, Eq)]
pub struct ConsoleFault {
    pub cause: Cause,
    pub place: u32,
    pub position: u32,
}

impl From<ChipFault> for PartFault {
    ghost from_gives = { λ f r. r ≡ part_fault f };

    fn from(fault: ChipFault) -> PartFault {
        PartFault {
            cause: fault.cause,
            place: fault.place,
        }
    }
}

/// The position is 0 until the call fills it in.
impl From<PartFault> for ConsoleFault {
    ghost from_gives = { λ f r. r ≡ console_fault f };

    fn from(fault: PartFault) -> ConsoleFault {
        ConsoleFault {
            cause: fault.cause,
            place: fault.place,
            position: 0,
        }
    }
}
