// What the calls of a part answer.
ghost use Rattle.std.specs.Prelude.{◌≡◌, Some};
ghost use Rattle.part.specs.InTheWay.{hid, barred, hid_beside, barred_beside};
ghost use Rattle.part.specs.Standings.{stood, ran, burn_why, shape_begin_no};
ghost use Rattle.part.specs.Words.{progress_text};

use fault::{Cause, needs_erase};
use std::fmt;

/// What a pass found.
#[derive(Clone, Copy, Debug, PartialEq, Eq)]
pub enum Progress {
    /// No erasure.
    Idle,
    /// An erasure that goes on.
    Running,
    /// An erasure that stands still.
    Suspended,
    /// An erasure that this pass ended: its block is FFh throughout.
    Finished,
    /// An erasure that this pass ended in a worn block, whose cells are as they were.
    Worn,
}

impl fmt::Display for Progress {
    ghost output = { λ p. Some (progress_text p) };

    fn fmt<W: fmt::Write>(&self, f: &mut fmt::Formatter<W>) -> fmt::Result {
        f.write_str(match self {
            Progress::Idle => "no erasure",
            Progress::Running => "still running",
            Progress::Suspended => "suspended",
            Progress::Finished => "finished",
            Progress::Worn => "ended in a worn block",
        })
    }
}

/// Whether hold or go on found something to do. Both are answers and neither is a refusal, so it is no `Option` and no `Result`.
#[derive(Clone, Copy, Debug, PartialEq, Eq)]
pub enum Turn {
    Done,
    Nothing,
}

/// Which erasure stands, and in which block.
#[derive(Clone, Copy, Debug, PartialEq, Eq)]
pub enum Standing {
    Idle,
    Running(u32),
    Suspended(u32),
}

impl Standing {
    /// Whether an erasure stands, running or not.
    pub fn stands(self) -> bool
        ensures { result ≡ stood self }
    {
        matches!(self, Standing::Running(_) | Standing::Suspended(_))
    }

    /// Whether an erasure runs.
    pub fn runs(self) -> bool
        ensures { result ≡ ran self }
    {
        matches!(self, Standing::Running(_))
    }

    /// Whether the cells of a block are hidden: of every block while an erasure runs, of its own while it is suspended.
    pub fn hides(self, block: u32) -> bool
        ensures { result ≡ hid self block }
    {
        match self {
            Standing::Idle => false,
            Standing::Running(_) => true,
            Standing::Suspended(own) => own == block,
        }
    }

    /// Whether no cell of a block can be burnt: an erasure bars every block, whether it runs or is suspended.
    pub fn bars(self, _block: u32) -> bool
        ensures { result ≡ barred self _block }
    {
        self != Standing::Idle
    }

    /// Whether the cells of a neighbour are hidden, as those of the other side of a joined part: while an erasure runs.
    pub fn hides_beside(self) -> bool
        ensures { result ≡ hid_beside self }
    {
        self.runs()
    }

    /// Whether no cell of a neighbour can be burnt: while an erasure stands.
    pub fn bars_beside(self) -> bool
        ensures { result ≡ barred_beside self }
    {
        self.stands()
    }
}

/// Why a burn is refused at an address inside, whose cell is `old`, worn blocks aside; none where it is not. `barred` tells whether an erasure bars it.
pub fn burn_why(barred: bool, guarded: bool, old: u8, byte: u8) -> Option<Cause>
    ensures { result ≡ burn_why barred guarded old byte }
{
    if barred {
        Some(Cause::ErasureInTheWay)
    } else if guarded {
        Some(Cause::Guarded)
    } else if needs_erase(old, byte) {
        Some(Cause::NeedsErase)
    } else {
        None
    }
}

/// A part at a glance.
#[derive(Clone, Copy, Debug, PartialEq, Eq)]
pub struct Shape {
    /// How many bytes it has.
    pub size: u32,
    /// How many blocks it has.
    pub blocks: u32,
    pub standing: Standing,
}

impl Shape {
    /// Why a part of this shape refuses to begin the erasure of a block, of which is told whether it is guarded; none where it does not.
    pub fn begin_no(self, block: u32, guarded: bool) -> Option<Cause>
        ensures { result ≡ shape_begin_no self block guarded }
    {
        if block >= self.blocks {
            Some(Cause::NoSuchBlock)
        } else if self.standing.stands() {
            Some(Cause::ErasureInTheWay)
        } else if guarded {
            Some(Cause::Guarded)
        } else {
            None
        }
    }
}
