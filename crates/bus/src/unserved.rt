use fault::ChipFault;
use naming::Wrong;
use std::alloc::AllocError;
use std::{fmt, io};

/// Why the chip on the wire could not be served.
#[derive(Debug, Drop)]
pub enum Unserved {
    /// The first line names no chip.
    Unread(Wrong),
    /// A number of the chip is outside its limits.
    Refused(ChipFault),
    /// Input or output failed.
    Broken(io::Error),
    /// There was no memory for the chip or a line.
    Memory,
}

impl fmt::Display for Unserved {
    fn fmt<W: fmt::Write>(&self, f: &mut fmt::Formatter<W>) -> fmt::Result {
        match self {
            Unserved::Unread(wrong) => write!(f, "line 1: {wrong}"),
            Unserved::Refused(fault) => {
                let number = fault.cause.number();
                write!(
                    f,
                    "line 1: refused {number}: a number of the chip is outside its limits"
                )
            }
            Unserved::Broken(error) => write!(f, "{error}"),
            Unserved::Memory => f.write_str("out of memory"),
        }
    }
}

impl From<chip::Unmade> for Unserved {
    fn from(unmade: chip::Unmade) -> Unserved {
        match unmade {
            chip::Unmade::Refused(fault) => Unserved::Refused(fault),
            chip::Unmade::Memory => Unserved::Memory,
        }
    }
}

impl From<Wrong> for Unserved {
    fn from(wrong: Wrong) -> Unserved {
        Unserved::Unread(wrong)
    }
}

impl From<io::Error> for Unserved {
    fn from(error: io::Error) -> Unserved {
        Unserved::Broken(error)
    }
}

impl From<AllocError> for Unserved {
    fn from(_: AllocError) -> Unserved {
        Unserved::Memory
    }
}
