// Why a script was not read.
ghost use Rattle.std.specs.Prelude.{◌≡◌, Some};
ghost use Rattle.script.specs.Account.{complaint_text};
ghost use Rattle.script.specs.declared.unread.Unread.TheVariants.{Memory};

use naming::Wrong;
use std::alloc::{AllocError, AllocFailed};
use std::fmt;

/// The first thing that is wrong with a script: the number of its line, from 1, and what it is.
#[derive(Clone, Copy, Debug, PartialEq, Eq)]
pub struct Complaint {
    pub line: usize,
    pub what: Wrong,
}

impl fmt::Display for Complaint {
    ghost output = { λ c. Some (complaint_text c) };

    fn fmt<W: fmt::Write>(&self, f: &mut fmt::Formatter<W>) -> fmt::Result {
        let line = self.line;
        let what = self.what;
        write!(f, "line {line}: {what}")
    }
}

/// Why a script was not read.
#[derive(Debug, Drop)]
pub enum Unread {
    /// There was no memory for its steps.
    Memory,
    Complaint(Complaint),
}

impl From<AllocError> for Unread {
    ghost from_gives = { λ _ e. e ≡ Memory };

    fn from(_none: AllocError) -> Unread {
        Unread::Memory
    }
}

impl<T: Drop> From<AllocFailed<T>> for Unread {
    ghost from_gives = { λ _ e. e ≡ Memory };

    fn from(_none: AllocFailed<T>) -> Unread {
        Unread::Memory
    }
}
