use fault::PartFault;
use script::{Complaint, Unread};
use std::alloc::{AllocError, AllocFailed};
use std::{fmt, io};

/// Why nothing, or no more, is printed.
#[derive(Debug, Drop)]
pub enum Stopped {
    /// What is wrong with a line of the script.
    Unread(Complaint),
    /// A part whose numbers are outside its limits, and the line that names it.
    Refused { line: usize, fault: PartFault },
    /// There was no memory for the part that this line names.
    TooLarge { line: usize },
    /// There was no memory for the script or its account.
    Memory,
    /// Input or output failed.
    Broken(io::Error),
}

impl fmt::Display for Stopped {
    fn fmt<W: fmt::Write>(&self, f: &mut fmt::Formatter<W>) -> fmt::Result {
        match self {
            Stopped::Unread(complaint) => write!(f, "{complaint}"),
            Stopped::Refused { line, fault } => {
                let number = fault.cause.number();
                write!(
                    f,
                    "line {line}: refused {number}: a number of the part is outside its limits"
                )
            }
            Stopped::TooLarge { line } => write!(f, "line {line}: there is no memory for the part"),
            Stopped::Memory => f.write_str("out of memory"),
            Stopped::Broken(error) => write!(f, "{error}"),
        }
    }
}

impl From<Unread> for Stopped {
    fn from(unread: Unread) -> Stopped {
        match unread {
            Unread::Memory => Stopped::Memory,
            Unread::Complaint(complaint) => Stopped::Unread(complaint),
        }
    }
}

impl From<io::Error> for Stopped {
    fn from(error: io::Error) -> Stopped {
        Stopped::Broken(error)
    }
}

impl From<AllocError> for Stopped {
    fn from(_none: AllocError) -> Stopped {
        Stopped::Memory
    }
}

impl<T: Drop> From<AllocFailed<T>> for Stopped {
    fn from(_none: AllocFailed<T>) -> Stopped {
        Stopped::Memory
    }
}
