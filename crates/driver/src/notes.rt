// What the driver notes of its chip.
ghost use Rattle.std.specs.Prelude.{◌≡◌};
ghost use Rattle.geometry.specs.Sets.{has};
ghost use Rattle.part.specs.Standings.{hid, barred, burn_why};

use fault::Cause;
use geometry::BlockSet;
use part::{Standing, burn_why};

/// What the driver notes of its chip: the guarded blocks, which it has read, and which erasure it began or holds. It keeps nothing else of the chip.
#[derive(Clone, Copy, Debug, PartialEq, Eq)]
pub struct Notes {
    pub(crate) guards: BlockSet,
    pub(crate) standing: Standing,
}

impl Notes {
    // Whether a block is guarded.
    pub(crate) fn guards(&self, block: u32) -> bool
        ensures { result ≡ has self.now.guards block }
    {
        self.guards.contains(block as usize)
    }

    // Why a burn is refused in a block, at a cell that is `old`, worn blocks aside.
    pub(crate) fn burn_why(&self, block: u32, old: u8, byte: u8) -> Option<Cause>
        ensures { result ≡ burn_why (barred self.now.standing block) (has self.now.guards block) old byte }
    {
        burn_why(self.standing.bars(block), self.guards(block), old, byte)
    }
}
